// The steps by which a transaction goes on, carried out on the enlistments and on what waits for resource managers.
ghost use Rattle.std.specs.Prelude.{◌≡◌, ◌+◌, ◌≤◌, None, length, map, true};
ghost use Rattle.std.specs.List.{list_all};
ghost use Rattle.ktm_world.specs.Outcome.{served};
ghost use Rattle.ktm_world.specs.Phases.{end_notice};
ghost use Rattle.ktm_enlist.specs.Telling.{has_manager, visited};
ghost use Rattle.ktm_tm.specs.Steps.{after, after_all, ends, entered, records, told_those, visits_all, visits_of, with_answer, Carries};

use ktm_base::{Id, Notify};
use ktm_counted::Steps;
use ktm_enlist::Enlistments;
use ktm_manager::Managers;
use ktm_world::{Answered, Fact, Owed, Phase, Step, Transaction, TransactionOutcome, Who};
use std::sync::ledger::Ledger;

/// What the steps of a call go by: the enlistment that calls, if one does, whether its resource manager is durable, and whether
/// the files and the keys take part.
#[derive(Clone, Copy)]
pub(crate) struct Going {
    pub caller: Option<Id>,
    pub is_durable: bool,
    pub has_files: bool,
    pub has_keys: bool,
}

// The notification by which a superior is told of this outcome.
fn end_notice(outcome: TransactionOutcome) -> Notify
    ensures { result ≡ end_notice outcome }
{
    match outcome {
        TransactionOutcome::Aborted => Notify::RollbackComplete,
        _ => Notify::CommitComplete,
    }
}

// Has the log a Ready or a Held of the transaction once this is recorded.
fn records(enlistments: &Enlistments, g: Going, t: &Transaction, fact: Fact) -> bool
    ensures { result ≡ records g fact t.now enlistments.now.enlistments }
{
    match fact {
        Fact::ReadyFiles => t.is_recorded || g.has_files,
        Fact::ReadyKeys => t.is_recorded || g.has_keys,
        Fact::Ready => g.is_durable || t.is_recorded,
        Fact::Held => enlistments.superior(t.id).is_some() || t.is_recorded,
        _ => t.is_recorded,
    }
}

// Those enlistments are told, and owe an answer from then on, if there is one to owe. Each that is visited is a step.
fn tell<L: Ledger>(
    enlistments: &mut Enlistments,
    managers: &mut Managers,
    g: Going,
    t: Transaction,
    who: Who,
    kind: Notify,
    owed: Option<Owed>,
    visits: &mut Steps<L>,
) -> Transaction
    requires there { list_all (has_manager managers.old.managers) enlistments.old.enlistments ≡ true }
    requires spare { length (told_those g who kind owed t enlistments.old.enlistments).sent ≤ managers.old.spare }
    ensures carries { Carries (told_those g who kind owed t enlistments.old.enlistments) result enlistments.old enlistments.new managers.old managers.new }
    ensures counted { visits.new ≡ visits.old + visited t.id g.caller who enlistments.old.enlistments }
{
    enlistments.tell(managers, t.id, g.caller, who, kind, owed, visits);
    t
}

// The transaction is in this phase from now on. Once it has ended, its timeout and when it was made are forgotten.
fn enter(t: Transaction, phase: Phase) -> Transaction
    ensures { result ≡ entered phase t }
{
    match phase {
        Phase::Ended => Transaction {
            phase,
            timeout: 0,
            created: 0,
            ..t
        },
        _ => Transaction { phase, ..t },
    }
}

// The transaction has ended with this outcome, and its superior is told. Each enlistment that is visited is a step.
fn end<L: Ledger>(
    enlistments: &mut Enlistments,
    managers: &mut Managers,
    g: Going,
    t: Transaction,
    outcome: TransactionOutcome,
    visits: &mut Steps<L>,
) -> Transaction
    requires there { list_all (has_manager managers.old.managers) enlistments.old.enlistments ≡ true }
    requires spare { length (ends g outcome t enlistments.old.enlistments).sent ≤ managers.old.spare }
    ensures carries { Carries (ends g outcome t enlistments.old.enlistments) result enlistments.old enlistments.new managers.old managers.new }
    ensures counted { visits.new ≡ visits.old + visited t.id g.caller Who.Superior enlistments.old.enlistments }
{
    let t = enter(Transaction { outcome, ..t }, Phase::Ended);
    tell(
        enlistments,
        managers,
        g,
        t,
        Who::Superior,
        end_notice(outcome),
        None,
        visits,
    )
}

// The enlistment that calls, if one does, has answered so.
fn answer(enlistments: &mut Enlistments, caller: Option<Id>, answer: Answered)
    ensures enlistments { enlistments.new.enlistments ≡ with_answer caller answer enlistments.old.enlistments }
    ensures room { enlistments.new.room ≡ enlistments.old.room }
{
    if let Some(id) = caller {
        enlistments.answer(id, answer);
    }
}

// Carries out a step. Each enlistment that is visited is counted.
fn carry<L: Ledger>(
    enlistments: &mut Enlistments,
    managers: &mut Managers,
    g: Going,
    t: Transaction,
    step: Step,
    visits: &mut Steps<L>,
) -> Transaction
    requires there { list_all (has_manager managers.old.managers) enlistments.old.enlistments ≡ true }
    requires spare { length (after g step t enlistments.old.enlistments).sent ≤ managers.old.spare }
    ensures carries { Carries (after g step t enlistments.old.enlistments) result enlistments.old enlistments.new managers.old managers.new }
    ensures counted { visits.new ≡ visits.old + visits_of step t.id g.caller enlistments.old.enlistments }
{
    match step {
        Step::Record(fact) => Transaction {
            is_recorded: records(enlistments, g, &t, fact),
            ..t
        },
        Step::Commit => t,
        Step::Tell(who, kind) => tell(enlistments, managers, g, t, who, kind, None, visits),
        Step::Ask(who, kind, owed) => {
            tell(enlistments, managers, g, t, who, kind, Some(owed), visits)
        }
        Step::Change(answered) => {
            answer(enlistments, g.caller, answered);
            t
        }
        Step::Enter(phase) => enter(t, phase),
        Step::Decide(outcome) => Transaction { outcome, ..t },
        Step::End(outcome) => end(enlistments, managers, g, t, outcome, visits),
        Step::EndWhereFinished(outcome) => {
            if enlistments.has_unfinished(t.id) {
                t
            } else {
                end(enlistments, managers, g, t, outcome, visits)
            }
        }
    }
}

/// Carries out the steps, one after another, and gives the transaction as it is then. Each enlistment that is visited is counted.
pub fn carry_all<L: Ledger>(
    enlistments: &mut Enlistments,
    managers: &mut Managers,
    g: Going,
    t: Transaction,
    steps: &[Step],
    visits: &mut Steps<L>,
) -> Transaction
    requires there { list_all (has_manager managers.old.managers) enlistments.old.enlistments ≡ true }
    requires spare { length (after_all g steps.now t enlistments.old.enlistments).sent ≤ managers.old.spare }
    ensures carries { Carries (after_all g steps.now t enlistments.old.enlistments) result enlistments.old enlistments.new managers.old managers.new }
    ensures counted { visits.new ≡ visits.old + visits_all g steps.now t enlistments.old.enlistments }
{
    let mut t = t;
    for step in steps {
        t = carry(enlistments, managers, g, t, *step, visits);
    }
    t
}
