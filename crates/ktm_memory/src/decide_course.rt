// Deciding how a transaction goes on by what comes to it.
ghost use Rattle.std.specs.Prelude.{◌≡◌, ◌≤◌, true, [], All, sum_by};
ghost use Rattle.ktm_standing.specs.Courses.{commits_at_once};
ghost use Rattle.ktm_standing.specs.Standing.{IsStandingNow};
ghost use Rattle.ktm_course.specs.Recorded.{IsCaller, IsEnlisted, IsSuperior};
ghost use Rattle.ktm_event.specs.Kept.{Holds};
ghost use Rattle.ktm_event.specs.Spelling.{IsSpellableChange, IsSpellableEvent};
ghost use Rattle.ktm_memory.specs.Decided.{Decides, HoldsRecordOf};
ghost use Rattle.ktm_memory.specs.Memory.{course_then, held, present_of};
ghost use Rattle.ktm_memory.specs.Rules.{KeepsRules};
ghost use Rattle.ktm_memory.specs.Routed.{IsReadyCourse, course_to, outcome_of, reply_to};
ghost use Rattle.ktm_memory.specs.declared.routed.Routed.TheVariants.{Course as OfCourse};
ghost use Rattle.ktm_tm.specs.Courses.{caller_of};
ghost use Rattle.ktm_world.specs.Sizes.{event_size};
ghost use Rattle.ktm_world.specs.Enlistments.{is_durable_at, superior_of};
ghost use Rattle.ktm_world.specs.Files.{own_changes};
ghost use Rattle.ktm_world.specs.Phases.{Course};
ghost use Rattle.ktm_world.specs.Steps.{led, seen as seen_of};
ghost use Rattle.txf_volume.specs.Held.{files_of};

use crate::memory::Memory;
use crate::settlement::Settlement;
use ktm_base::Id;
use ktm_course::{Enlisted, Parts, law_of_pages};
use ktm_event::Events;
use ktm_phase::{Enlistment, step};
use ktm_standing::law_of_kept as law_of_kept_worlds;
use ktm_steps::law_of_events_ahead;
use ktm_trace::{law_of_few, law_of_kept};
use ktm_world::{PhaseInput, Reply, Seen, Step, Transaction};

// Has a transaction committed at once where that is asked.
fn commits_at_once(seen: &Seen) -> bool
    ensures { result ≡ commits_at_once seen.now }
{
    !seen.has_superior && seen.enlistments == 0
}

// What is replied to what comes to a transaction: whether it has committed, where that is asked, and else that it is done.
fn reply_to(input: PhaseInput, seen: &Seen) -> Reply
    ensures { (c : Course) → seen.now ≡ seen_of c → result ≡ reply_to input (led input c) }
{
    match input {
        PhaseInput::CommitTransaction => {
            if commits_at_once(seen) {
                Reply::Committed
            } else {
                Reply::Pending
            }
        }
        _ => Reply::Done,
    }
}

impl Memory {
    // The enlistment, as it is recorded.
    fn enlisted<'a>(&'a self, e: &'a Enlistment) -> Enlisted<'a>
        ensures enlisted { IsEnlisted e.now result }
        ensures durable { is_durable_at self.now.tm.managers e.now.manager ≡ result.is_durable }
    {
        Enlisted {
            enlistment: e.id,
            manager: e.manager,
            information: e.information.as_slice(),
            is_durable: self.tm.is_durable(e.manager),
        }
    }

    // The enlistment that calls, if one does, as it is recorded.
    fn calling(&self, caller: Option<Id>) -> Option<Enlisted<'_>>
        ensures { IsCaller self.now.tm.managers (caller_of self.now.tm.now.enlistments caller) result }
    {
        match self.tm.enlistment(caller?) {
            Some(e) => Some(self.enlisted(e)),
            None => None,
        }
    }

    // The superior of the transaction, if it has one, as it is recorded.
    fn superior(&self, transaction: Id) -> Option<Enlisted<'_>>
        ensures { IsSuperior (superior_of self.now.tm.now.enlistments transaction) result }
    {
        match self.tm.superior(transaction) {
            Some(e) => Some(self.enlisted(e)),
            None => None,
        }
    }

    // What the steps record is put into the list, with the pages of the files that the transaction wrote.
    fn record_course(
        &self,
        t: &Transaction,
        caller: Option<Id>,
        steps: &[Step],
        events: &mut Events,
    )
        requires own { All IsSpellableChange (own_changes (files_of self.now.files).table.own t.now.id) }
        requires empty { Holds events.old [] }
        requires spelled { All IsSpellableEvent (course_then (present_of self.now) t.now caller steps.now).events }
        requires fits { sum_by event_size (course_then (present_of self.now) t.now caller steps.now).events ≤ events.old.spare }
        ensures records { HoldsRecordOf (present_of self.now).recorded events.new (course_then (present_of self.now) t.now caller steps.now).events }
        ensures room { events.new.room ≡ events.old.room }
    {
        law_of_events_ahead();
        law_of_pages();
        let files = self.files.written(t.id);
        let parts = Parts {
            names: self.files.names(t.id),
            files: &files,
            settings: self.keys.own_settings(t.id),
            caller: self.calling(caller),
            superior: self.superior(t.id),
        };
        parts.record(t.id, t.is_recorded, steps, events);
    }

    /// The transaction goes on by what comes to it, from the enlistment, if one calls: what its steps record is one group. It
    /// takes no memory: that of a commit was taken by the calls that changed and set something.
    pub(crate) fn decide_course(
        &self,
        t: Transaction,
        caller: Option<Id>,
        input: PhaseInput,
        events: &mut Events,
        settlement: &mut Settlement,
    ) -> Reply
        requires up { self.now.is_up ≡ true }
        requires standing { IsStandingNow (present_of self.now) }
        requires ready { IsReadyCourse (present_of self.now) t caller input }
        requires empty { Holds events.old [] }
        requires fits { sum_by event_size (course_to (present_of self.now) t caller input).events ≤ events.old.spare }
        ensures decided { (process : _) → Decides (held self.now) (outcome_of (present_of self.now) process (OfCourse t caller input)) result settlement.new events.new self.now }
        ensures room { events.new.room ≡ events.old.room }
        ensures rules { KeepsRules (λ rule. Unit {0}) (files_of self.now.files) (course_to (present_of self.now) t caller input).events (files_of self.now.files) }
    {
        law_of_kept();
        law_of_few();
        law_of_kept_worlds();
        law_of_events_ahead();
        let seen = self.seen(&t);
        let steps = step(&seen, input);
        self.record_course(&t, caller, steps.as_slice(), events);
        *settlement = Settlement::Course {
            transaction: t,
            caller,
            steps,
        };
        reply_to(input, &seen)
    }
}
