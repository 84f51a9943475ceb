// How a transaction goes on: what counts of it, and what its steps make of all.
ghost use Rattle.std.specs.Prelude.{◌≡◌, ◌+◌, ◌≤◌, Bool, None, Option, Some, length, map, true};
ghost use Rattle.std.specs.Option.{option_copied};
ghost use Rattle.ktm_base.specs.declared.id.Id.{Id};
ghost use Rattle.ktm_world.specs.Outcome.{served};
ghost use Rattle.ktm_world.specs.Phases.{Course};
ghost use Rattle.ktm_world.specs.Steps.{run, seen};
ghost use Rattle.ktm_world.specs.Transactions.{change_at, is_live, transaction_at};
ghost use Rattle.ktm_tm.specs.Courses.{caller_of, GoesBy, IsCourseIn};
ghost use Rattle.ktm_tm.specs.LiveCounts.{called_in};
ghost use Rattle.ktm_tm.specs.Steps.{visits_on};
ghost use Rattle.ktm_tm.specs.TmState.{KeepsRoom};

use crate::live::live_in_either;
use crate::steps::{Going, carry_all};
use crate::timeouts::due_time;
use crate::tm::Tm;
use ktm_base::Id;
use ktm_counted::Steps;
use ktm_phase::Enlistment;
use ktm_world::{Seen, Step, Transaction};
use std::sync::ledger::Ledger;

impl Tm {
    /// What counts of the transaction, where the files and the keys take part or not.
    pub fn seen(&self, t: &Transaction, has_files: bool, has_keys: bool) -> Seen
        ensures { (c : Course) (caller : Option Id) → IsCourseIn self.now t.now caller has_files has_keys c → result ≡ seen c }
    {
        let counts = self.enlistments.counts(t.id);
        Seen {
            phase: t.phase,
            has_superior: self.enlistments.superior(t.id).is_some(),
            enlistments: counts.enlistments,
            asking: counts.asking,
            in_one_phase: counts.in_one_phase,
            owing: counts.owing,
            has_files,
            has_keys,
        }
    }

    // The enlistment that calls, if one does.
    fn caller(&self, caller: Option<Id>) -> Option<&Enlistment>
        ensures { option_copied result ≡ caller_of self.now.now.enlistments caller }
    {
        match caller {
            Some(id) => self.enlistments.find(id),
            None => None,
        }
    }

    // The transaction of the enlistment that calls, if one does, and else this one.
    fn called_in(&self, caller: Option<Id>, transaction: Id) -> Id
        ensures { result ≡ called_in (caller_of self.now.now.enlistments caller) transaction }
    {
        match self.caller(caller) {
            Some(e) => e.transaction,
            None => transaction,
        }
    }

    // What the steps of a call go by.
    fn going(&self, caller: Option<Id>, has_files: bool, has_keys: bool) -> Going
        ensures { GoesBy self.now caller has_files has_keys result }
    {
        match self.caller(caller) {
            Some(e) => Going {
                caller: Some(e.id),
                is_durable: self.managers.is_durable(e.manager),
                has_files,
                has_keys,
            },
            None => Going {
                caller: None,
                is_durable: false,
                has_files,
                has_keys,
            },
        }
    }

    /// The transaction, which has not ended, goes on by these steps, where this enlistment calls, and the files and the keys take part or not. It takes
    /// no memory. Each enlistment that is visited to tell it is counted. Those of other transactions stay live or not, so that none of them is looked at.
    pub fn carry_out<L: Ledger>(
        &mut self,
        t: Transaction,
        caller: Option<Id>,
        has_files: bool,
        has_keys: bool,
        steps: &[Step],
        visits: &mut Steps<L>,
    )
        requires there { transaction_at self.old.now.items t.id ≡ Some t }
        requires live { is_live t ≡ true }
        requires slots { (c : Course) → IsCourseIn self.old t caller has_files has_keys c → length (run steps.now c).sent ≤ self.old.slots }
        ensures now { (c : Course) → IsCourseIn self.old t caller has_files has_keys c → self.new.now ≡ record self.old.now { items = change_at self.old.now.items t.id (λ u. (run steps.now c).transaction); enlistments = (run steps.now c).enlistments } }
        ensures managers { (c : Course) → IsCourseIn self.old t caller has_files has_keys c → self.new.managers ≡ map (served None (run steps.now c).sent) self.old.managers }
        ensures slots { (c : Course) → IsCourseIn self.old t caller has_files has_keys c → self.new.slots + length (run steps.now c).sent ≡ self.old.slots }
        ensures room { KeepsRoom self.old self.new }
        ensures counted { (c : Course) → IsCourseIn self.old t caller has_files has_keys c → visits.new ≡ visits.old + visits_on steps.now c }
    {
        let going = self.going(caller, has_files, has_keys);
        let transaction = t.id;
        let calling = self.called_in(caller, transaction);
        let before = live_in_either(&self.transactions, &self.enlistments, transaction, calling);
        let then = carry_all(
            &mut self.enlistments,
            &mut self.managers,
            going,
            t,
            steps,
            visits,
        );
        self.earliest = self.earliest.min(due_time(&then));
        self.transactions.arrive(then);
        let after = live_in_either(&self.transactions, &self.enlistments, transaction, calling);
        self.live_enlistments = self.live_enlistments - before + after;
    }
}
