// The parts of the transactions of the log, in the order in which they became ready.
ghost use Rattle.std.specs.Prelude.{◌≡◌, ◌+◌, ◌<◌, ◌≤◌, ◌&&◌, ◌||◌, ◌++◌, ◌∷◌, [], true, IfOk, OnOk, length, map};
ghost use Rattle.ktm_world.specs.Durable.{is_of_enlistment};
ghost use Rattle.ktm_trace.specs.Joined.{has_undone_mark, is_mark_by, mark_of, marks_done, without_marks};
ghost use Rattle.ktm_trace.specs.Traces.{same_participant, who_of};
ghost use Rattle.ktm_trace.specs.declared.marks.Mark.{Mark as Marked};

use ktm_base::{Id, NoMemory};
use ktm_world::{DonePart, Part, RecordedPart};
use std::alloc::Global;
use std::marker::Model;

/// A part of a transaction of the log.
#[derive(Clone, Copy)]
pub(crate) struct Mark {
    pub(crate) transaction: Id,
    pub(crate) is_done: bool,
    /// Whose part it is.
    pub(crate) who: DonePart,
}

/// The parts of all transactions of the log.
#[derive(Drop)]
pub(crate) struct Marks {
    items: Vec<Mark>,
}

impl Model for Marks {
    ghost use Rattle.std.specs.Prelude.{vec_capacity};
    ghost use Rattle.ktm_trace.specs.Joined.{MarksState};

    ghost Value = { MarksState };

    ghost view = { λ t. record {
      marks = t.items.items;
      capacity = vec_capacity t.items;
    } };
}

// Whose part it is.
fn who_of(part: &Part) -> DonePart
    ensures { result ≡ who_of part.now }
{
    match part {
        Part::Enlistment { enlistment, .. } => DonePart::Enlistment(*enlistment),
        Part::Changes(_) => DonePart::Files,
        Part::Settings(_) => DonePart::Keys,
    }
}

fn same_participant(a: DonePart, b: DonePart) -> bool
    ensures { result ≡ same_participant a b }
{
    match (a, b) {
        (DonePart::Enlistment(id), DonePart::Enlistment(other)) => id == other,
        (DonePart::Files, DonePart::Files) | (DonePart::Keys, DonePart::Keys) => true,
        _ => false,
    }
}

// Is it the part of this participant of the transaction.
fn is_mark_by(transaction: Id, done: DonePart, mark: &Mark) -> bool
    ensures { result ≡ is_mark_by transaction done mark.now }
{
    mark.transaction == transaction && same_participant(done, mark.who)
}

// Is the part done once this participant is.
fn is_done_then(transaction: Id, done: DonePart, mark: &Mark) -> bool
    ensures { result ≡ (mark.now.is_done || is_mark_by transaction done mark.now) }
{
    mark.is_done || is_mark_by(transaction, done, mark)
}

// Marks the part of this participant as done.
fn mark_done(marks: &mut [Mark], transaction: Id, done: DonePart)
    ensures { marks.new ≡ map (λ (m : Marked). record m { is_done = m.is_done || is_mark_by transaction done m }) marks.old }
{
    for m in marks.iter_mut() {
        m.is_done = is_done_then(transaction, done, m);
    }
}

impl Marks {
    /// No parts, and room for so many.
    pub(crate) fn with_capacity(alloc: Global, capacity: usize) -> Result<Self, NoMemory>
        ensures none { IfOk result (λ marks. marks.marks ≡ []) }
        ensures room { IfOk result (λ marks. capacity ≤ marks.capacity) }
    {
        Ok(Marks {
            items: Vec::with_capacity(alloc, capacity)?,
        })
    }

    pub(crate) fn as_slice(&self) -> &[Mark]
        ensures { result.now ≡ self.now.marks }
    {
        &self.items
    }

    /// Makes room for so many parts more.
    pub(crate) fn reserve(&mut self, many: usize) -> Result<(), NoMemory>
        ensures room { OnOk result (length self.new.marks + many ≤ self.new.capacity) }
        ensures same { self.new.marks ≡ self.old.marks }
        ensures capacity { self.old.capacity ≤ self.new.capacity }
    {
        self.items.reserve(many)?;
        Ok(())
    }

    /// Puts a part behind all others. It takes no memory.
    pub(crate) fn push(&mut self, mark: Mark)
        requires { length self.old.marks < self.old.capacity }
        ensures marks { self.new.marks ≡ self.old.marks ++ mark ∷ [] }
        ensures capacity { self.new.capacity ≡ self.old.capacity }
    {
        self.items.push_reserved(mark);
    }

    /// Puts the parts of a transaction behind all others. It takes no memory.
    pub(crate) fn add(&mut self, transaction: Id, parts: &[RecordedPart])
        requires { length self.old.marks + length parts.now ≤ self.old.capacity }
        ensures marks { self.new.marks ≡ self.old.marks ++ map (mark_of transaction) parts.now }
        ensures capacity { self.new.capacity ≡ self.old.capacity }
    {
        for part in parts {
            self.push(Mark {
                transaction,
                is_done: part.is_done,
                who: who_of(&part.part),
            });
        }
    }

    /// Has the transaction a part that is not done.
    pub(crate) fn has_undone(&self, transaction: Id) -> bool
        ensures { result ≡ has_undone_mark self.now.marks transaction }
    {
        self.items
            .iter()
            .any(|m| m.transaction == transaction && !m.is_done)
    }

    /// Forgets the parts of the transaction.
    pub(crate) fn forget(&mut self, transaction: Id)
        ensures marks { self.new.marks ≡ without_marks self.old.marks transaction }
        ensures capacity { self.new.capacity ≡ self.old.capacity }
    {
        self.items.retain(|m| m.transaction != transaction);
    }

    // The enlistment is taken out.
    fn take_out(&mut self, transaction: Id, done: DonePart)
        requires { is_of_enlistment done ≡ true }
        ensures marks { self.new.marks ≡ marks_done self.old.marks transaction done }
        ensures capacity { self.new.capacity ≡ self.old.capacity }
    {
        self.items.retain(|m| !is_mark_by(transaction, done, m));
    }

    /// A participant of the transaction is done: an enlistment is taken out, and another part is marked.
    pub(crate) fn finish(&mut self, transaction: Id, done: DonePart)
        ensures marks { self.new.marks ≡ marks_done self.old.marks transaction done }
        ensures capacity { self.new.capacity ≡ self.old.capacity }
    {
        match done {
            DonePart::Enlistment(_) => self.take_out(transaction, done),
            DonePart::Files | DonePart::Keys => mark_done(&mut self.items, transaction, done),
        }
    }
}
