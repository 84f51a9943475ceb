// How enlistments are told and asked.
ghost use Rattle.std.specs.Prelude.{◌≡◌, ◌+◌, ◌≤◌, None, length, map, true};
ghost use Rattle.ktm_world.specs.Outcome.{served};
ghost use Rattle.ktm_world.specs.Steps.{is_one_of};
ghost use Rattle.ktm_enlist.specs.Telling.{asked, asked_if, told, has_manager};

use ktm_base::{Id, Notify};
use ktm_manager::Managers;
use ktm_notify::Note;
use ktm_phase::Enlistment;
use ktm_world::{Owed, Who};

/// Whom of a transaction's enlistments, where this one calls, and what they are told.
#[derive(Clone, Copy)]
pub(crate) struct Told {
    pub transaction: Id,
    pub caller: Option<Id>,
    pub who: Who,
    pub kind: Notify,
    /// What they owe an answer to from then on.
    pub owed: Option<Owed>,
}

// It owes an answer to this from now on, where there is something.
fn ask(e: &mut Enlistment, owed: Option<Owed>)
    ensures { e.new ≡ asked owed e.old }
{
    if let Some(owed) = owed {
        e.ask(owed);
    }
}

/// The enlistment is told, if it is one of those.
pub(crate) fn tell_one(e: &mut Enlistment, managers: &mut Managers, t: Told)
    requires there { has_manager managers.old.managers e.old ≡ true }
    requires spare { length (told (is_one_of t.transaction t.caller t.who) t.kind e.old) ≤ managers.old.spare }
    ensures enlistment { e.new ≡ asked_if (is_one_of t.transaction t.caller t.who) t.owed e.old }
    ensures managers { managers.new.managers ≡ map (served None (told (is_one_of t.transaction t.caller t.who) t.kind e.old)) managers.old.managers }
    ensures spare { managers.new.spare + length (told (is_one_of t.transaction t.caller t.who) t.kind e.old) ≡ managers.old.spare }
    ensures room { managers.new.room ≡ managers.old.room }
{
    if e.is_one_of(t.who, t.transaction, t.caller) {
        let note = Note {
            kind: t.kind,
            enlistment: Some(e.id),
        };
        managers.send(e.manager, note);
        ask(e, t.owed);
    }
}
