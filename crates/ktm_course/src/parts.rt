// What a transaction records by its steps.
ghost use Rattle.std.specs.Prelude.{◌≡◌, ◌+◌, ◌-◌, ◌≤◌, ◌∷◌, ◌++◌, [], All, IfSome, List, Option, None, sum_by, is_some};
ghost use Rattle.ktm_course.specs.Recorded.{IsBasis, IsCaller, IsRecordableEntry, IsSuperior, entries, entry_event, recorded_after};
ghost use Rattle.ktm_event.specs.Kept.{Holds};
ghost use Rattle.ktm_event.specs.Spelling.{IsRecordableChange, IsSpellableEvent};
ghost use Rattle.ktm_event.specs.Work.{changes_of};
ghost use Rattle.ktm_world.specs.Enlistments.{Enlistment, Manager};
ghost use Rattle.ktm_world.specs.Steps.{Basis, event_of_caller, events_ahead, events_of, held_event, is_of_durable, is_recorded_by};
ghost use Rattle.ktm_world.specs.Sizes.{event_size};
ghost use Rattle.ktm_base.specs.declared.id.Id.{Id as OfTransaction};
ghost use Rattle.ktm_world.specs.declared.event.DonePart.{DonePart as OfDone};
ghost use Rattle.ktm_world.specs.declared.event.Event.{Event as Recorded};
ghost use Rattle.ktm_world.specs.Changes.{has_changes};
ghost use Rattle.ktm_world.specs.Phases.{enlistment_part, has_settings};

use ktm_base::Id;
use ktm_event::{Events, Stage, Work, WrittenFiles};
use ktm_world::{Change, DonePart, Event, Fact, Setting, Step};

/// An enlistment, as it is recorded.
#[derive(Clone, Copy)]
pub struct Enlisted<'a> {
    pub enlistment: Id,
    pub manager: Id,
    /// Its recovery information.
    pub information: &'a [u8],
    /// Whether its resource manager is durable: of others nothing is recorded.
    pub is_durable: bool,
}

/// Who takes part in a transaction, as far as that is recorded.
#[derive_where(Clone, Copy)]
pub struct Parts<'a, F> {
    /// What the files made, moved and dropped, in order.
    pub names: &'a [Change],
    /// The files that were written, with their pages.
    pub files: &'a F,
    /// What was set of the keys.
    pub settings: &'a [Setting],
    /// The enlistment that calls.
    pub caller: Option<Enlisted<'a>>,
    /// The superior.
    pub superior: Option<Enlisted<'a>>,
}

// What one event says of a transaction.
#[derive_where(Clone, Copy)]
enum Entry<'a, F> {
    Work(Stage, Work<'a, F>),
    Held {
        enlistment: Id,
        manager: Id,
        information: &'a [u8],
    },
    Decide,
    Undo,
    Done(DonePart),
}

impl<F: WrittenFiles> Entry<'_, F> {
    // Puts its event into the list.
    fn push(self, transaction: Id, events: &mut Events)
        requires spelled { IsSpellableEvent (entry_event F.files transaction self) }
        requires recordable { IsRecordableEntry self }
        requires fits { event_size (entry_event F.files transaction self) ≤ events.old.spare }
        ensures adds { (group : List Recorded) → Holds events.old group → Holds events.new (group ++ entry_event F.files transaction self.entry ∷ []) }
        ensures spare { events.new.spare + event_size (entry_event F.files transaction self.entry) ≡ events.old.spare }
        ensures room { events.new.room ≡ events.old.room }
    {
        match self {
            Entry::Work(stage, work) => events.push_work(stage, transaction, work),
            Entry::Held {
                enlistment,
                manager,
                information,
            } => events.push_held(transaction, enlistment, manager, information),
            Entry::Decide => events.push(&Event::Decide { transaction }),
            Entry::Undo => events.push(&Event::Undo { transaction }),
            Entry::Done(done) => events.push(&Event::Done { transaction, done }),
        }
    }
}

// The event by which the caller is prepared, where its resource manager is durable.
fn ready_entry<'a, F: WrittenFiles>(caller: Option<Enlisted<'a>>) -> Option<Entry<'a, F>>
    ensures events { (id : OfTransaction) (ms : List Manager) (e : Option Enlistment) → IsCaller ms e caller.entry
        → entries F.files id result ≡ event_of_caller e ms (λ e. Recorded.Ready id (enlistment_part e)) }
    ensures recordable { IfSome result IsRecordableEntry }
{
    match caller {
        Some(caller) if caller.is_durable => {
            let work = Work::Enlistment {
                enlistment: caller.enlistment,
                manager: caller.manager,
                information: caller.information,
            };
            Some(Entry::Work(Stage::Ready, work))
        }
        _ => None,
    }
}

// The event by which the caller is done, where its resource manager is durable.
fn done_entry<'a, F: WrittenFiles>(caller: Option<Enlisted<'a>>) -> Option<Entry<'a, F>>
    ensures events { (id : OfTransaction) (ms : List Manager) (e : Option Enlistment) → IsCaller ms e caller.entry
        → entries F.files id result ≡ event_of_caller e ms (λ e. Recorded.Done id (OfDone.Enlistment e.id)) }
    ensures recordable { IfSome result IsRecordableEntry }
{
    match caller {
        Some(caller) if caller.is_durable => {
            Some(Entry::Done(DonePart::Enlistment(caller.enlistment)))
        }
        _ => None,
    }
}

// The event by which the superior has prepared the transaction.
fn held_entry<'a, F: WrittenFiles>(superior: Option<Enlisted<'a>>) -> Option<Entry<'a, F>>
    ensures events { (id : OfTransaction) (e : Option Enlistment) → IsSuperior e superior.entry → entries F.files id result ≡ held_event id e }
    ensures recordable { IfSome result IsRecordableEntry }
{
    match superior {
        Some(superior) => Some(Entry::Held {
            enlistment: superior.enlistment,
            manager: superior.manager,
            information: superior.information,
        }),
        None => None,
    }
}

impl<'a, F: WrittenFiles> Parts<'a, F> {
    // Do the files take part.
    fn has_changes(&self) -> bool
        ensures { result ≡ has_changes (changes_of self.now.names.now (F.files self.now.files.now)) }
    {
        !self.names.is_empty() || !self.files.is_empty()
    }

    // Do the keys take part.
    fn has_settings(&self) -> bool
        ensures { result ≡ has_settings self.now.settings.now }
    {
        !self.settings.is_empty()
    }

    // Is the resource manager of the caller durable.
    fn has_durable_caller(&self) -> bool
        ensures { (ms : List Manager) (e : Option Enlistment) → IsCaller ms e self.now.caller → result ≡ is_of_durable ms e }
    {
        match self.caller {
            Some(caller) => caller.is_durable,
            None => false,
        }
    }

    // What is recorded by a fact, if anything is.
    fn entry(&self, fact: Fact, is_recorded: bool) -> Option<Entry<'a, F>>
        ensures events { (id : OfTransaction) (b : Basis) → IsBasis F.files b id is_recorded self.now → entries F.files id result ≡ events_of fact b }
        ensures recordable { All IsRecordableChange self.now.names.now → IfSome result IsRecordableEntry }
    {
        let changes = Work::Changes {
            names: self.names,
            files: self.files,
        };
        let settings = Work::Settings(self.settings);
        match fact {
            Fact::ReadyFiles if self.has_changes() => Some(Entry::Work(Stage::Ready, changes)),
            Fact::ReadyKeys if self.has_settings() => Some(Entry::Work(Stage::Ready, settings)),
            Fact::Ready => ready_entry(self.caller),
            Fact::Held => held_entry(self.superior),
            Fact::SingleFiles => Some(Entry::Work(Stage::Single, changes)),
            Fact::SingleKeys => Some(Entry::Work(Stage::Single, settings)),
            Fact::Decide if is_recorded => Some(Entry::Decide),
            Fact::Undo if is_recorded => Some(Entry::Undo),
            Fact::DoneFiles if self.has_changes() => Some(Entry::Done(DonePart::Files)),
            Fact::DoneKeys if self.has_settings() => Some(Entry::Done(DonePart::Keys)),
            Fact::Done => done_entry(self.caller),
            _ => None,
        }
    }

    // Has the log a Ready or a Held once a fact is recorded.
    fn is_recorded_by(&self, fact: Fact, is_recorded: bool) -> bool
        ensures { (id : OfTransaction) (b : Basis) → IsBasis F.files b id is_recorded self.now → result ≡ is_recorded_by fact b }
    {
        match fact {
            Fact::ReadyFiles => is_recorded || self.has_changes(),
            Fact::ReadyKeys => is_recorded || self.has_settings(),
            Fact::Ready => self.has_durable_caller() || is_recorded,
            Fact::Held => self.superior.is_some() || is_recorded,
            _ => is_recorded,
        }
    }

    // Has the log a Ready or a Held once a step is carried out.
    fn is_recorded_after(&self, step: &Step, is_recorded: bool) -> bool
        ensures { (id : OfTransaction) (b : Basis) → IsBasis F.files b id is_recorded self.now → result ≡ recorded_after (step.now ∷ []) b }
    {
        match step {
            Step::Record(fact) => self.is_recorded_by(*fact, is_recorded),
            _ => is_recorded,
        }
    }

    // Puts the events into the list that a step records of a transaction.
    fn record_step(&self, transaction: Id, is_recorded: bool, step: &Step, events: &mut Events)
        requires recordable { All IsRecordableChange self.now.names.now }
        requires spelled { (b : Basis) → IsBasis F.files b transaction is_recorded self.now → All IsSpellableEvent (events_ahead (step.now ∷ []) b) }
        requires fits { (b : Basis) → IsBasis F.files b transaction is_recorded self.now → sum_by event_size (events_ahead (step.now ∷ []) b) ≤ events.old.spare }
        ensures adds { (b : Basis) (group : List Recorded) → IsBasis F.files b transaction is_recorded self.now → Holds events.old group
            → Holds events.new (group ++ events_ahead (step.now ∷ []) b) }
        ensures spare { (b : Basis) → IsBasis F.files b transaction is_recorded self.now
            → events.new.spare + sum_by event_size (events_ahead (step.now ∷ []) b) ≡ events.old.spare }
        ensures room { events.new.room ≡ events.old.room }
    {
        if let Step::Record(fact) = step {
            if let Some(entry) = self.entry(*fact, is_recorded) {
                entry.push(transaction, events);
            }
        }
    }

    /// Puts the events into the list that the steps record of a transaction. The contents of its files are recorded by their
    /// pages.
    pub fn record(&self, transaction: Id, is_recorded: bool, steps: &[Step], events: &mut Events)
        requires recordable { All IsRecordableChange self.now.names.now }
        requires spelled { (b : Basis) → IsBasis F.files b transaction is_recorded self.now → All IsSpellableEvent (events_ahead steps.now b) }
        requires fits { (b : Basis) → IsBasis F.files b transaction is_recorded self.now → sum_by event_size (events_ahead steps.now b) ≤ events.old.spare }
        ensures adds { (b : Basis) (group : List Recorded) → IsBasis F.files b transaction is_recorded self.now → Holds events.old group
            → Holds events.new (group ++ events_ahead steps.now b) }
        ensures spare { (b : Basis) → IsBasis F.files b transaction is_recorded self.now
            → events.new.spare + sum_by event_size (events_ahead steps.now b) ≡ events.old.spare }
        ensures room { events.new.room ≡ events.old.room }
    {
        let mut recorded = is_recorded;
        for step in steps {
            self.record_step(transaction, recorded, step, events);
            recorded = self.is_recorded_after(step, recorded);
        }
    }
}
