// The walks of a transaction's end, where nobody asks for their steps: the blank is for the ledger that counts them.
ghost use Rattle.std.specs.Prelude.{◌≡◌, ◌+◌, ◌<◌, ◌≤◌, None, Some, length, map, true, false};
ghost use Rattle.ktm_tm.specs.Courses.{IsCourseIn};
ghost use Rattle.ktm_tm.specs.TmState.{KeepsRoom};
ghost use Rattle.ktm_world.specs.Outcome.{served};
ghost use Rattle.ktm_world.specs.Phases.{Course};
ghost use Rattle.ktm_world.specs.Steps.{run};
ghost use Rattle.ktm_world.specs.Transactions.{change_at, is_live, transaction_at};

use ktm_base::Id;
use ktm_counted::Steps;
use ktm_participant::{Participant, finish};
use ktm_tm::Tm;
use ktm_world::{Step, Transaction};
use std::sync::ledger::{Blank, Ledger};

/// The work of the transaction, if there is any, is committed or undone. It answers whether there was any.
pub(crate) fn finish_uncounted<P: Participant, L: Ledger>(
    participant: &mut P,
    transaction: Id,
    commits: bool,
    blank: Blank,
) -> bool
    requires may { commits ≡ true → P.may_commit participant.old transaction }
    requires name { blank.name ≡ L.name }
    requires parts { blank.parts ≡ L.parts }
    requires some { 0 < blank.parts }
    ensures work { result ≡ P.has_work participant.old transaction }
    ensures committed { result ≡ true → commits ≡ true → P.is_committed participant.old transaction participant.new }
    ensures undone { result ≡ true → commits ≡ false → P.is_undone participant.old transaction participant.new }
    ensures none { result ≡ false → participant.new ≡ participant.old }
{
    let mut steps = Steps::<L>::begin(blank);
    finish(participant, transaction, commits, &mut steps)
}

/// The transaction, which has not ended, goes on by these steps, where this enlistment calls, and the files and the keys take part or not.
pub(crate) fn carry_uncounted<L: Ledger>(
    tm: &mut Tm,
    t: Transaction,
    caller: Option<Id>,
    has_files: bool,
    has_keys: bool,
    steps: &[Step],
    blank: Blank,
)
    requires there { transaction_at tm.old.now.items t.id ≡ Some t }
    requires live { is_live t ≡ true }
    requires slots { (c : Course) → IsCourseIn tm.old t caller has_files has_keys c → length (run steps.now c).sent ≤ tm.old.slots }
    requires name { blank.name ≡ L.name }
    requires parts { blank.parts ≡ L.parts }
    requires some { 0 < blank.parts }
    ensures now { (c : Course) → IsCourseIn tm.old t caller has_files has_keys c → tm.new.now ≡ record tm.old.now { items = change_at tm.old.now.items t.id (λ u. (run steps.now c).transaction); enlistments = (run steps.now c).enlistments } }
    ensures managers { (c : Course) → IsCourseIn tm.old t caller has_files has_keys c → tm.new.managers ≡ map (served None (run steps.now c).sent) tm.old.managers }
    ensures slots { (c : Course) → IsCourseIn tm.old t caller has_files has_keys c → tm.new.slots + length (run steps.now c).sent ≡ tm.old.slots }
    ensures room { KeepsRoom tm.old tm.new }
{
    let mut visits = Steps::<L>::begin(blank);
    tm.carry_out(t, caller, has_files, has_keys, steps, &mut visits);
}
