// The transactions of the log, as memory keeps them.
ghost use Rattle.std.specs.Prelude.{◌≡◌, ◌<◌, ◌≤◌, [], None, IfOk, OnErr, OnOk, fold, length, map, if◌then◌else◌};
ghost use Rattle.ktm_world.specs.Steps.{Basis, events_ahead};
ghost use Rattle.ktm_trace.specs.Few.{AreFew, HasMore, HasRoom};
ghost use Rattle.ktm_trace.specs.Joined.{has_undone_mark, head_id, without_marks};
ghost use Rattle.ktm_trace.specs.Placed.{Rises, at_id, placed, without_id};
ghost use Rattle.ktm_trace.specs.Recordings.{noted, recording_of, room_of, step_noted, step_room, steps_room};
ghost use Rattle.ktm_trace.specs.Traces.{id_of, once_decided, once_done, once_held, once_ready, recorded_id, superior_id, traced, traces_after};

use crate::heads::{Head, Heads};
use crate::marks::{Mark, Marks};
use crate::recording::Recording;
use crate::room::{MOST_HEADS, MOST_MARKS, MOST_NOTED};
use crate::transactions::Transactions;
use ktm_base::{Id, NoMemory};
use ktm_world::{DonePart, Fact, Recorded, Stage, Step, Superior};
use std::alloc::Global;
use std::marker::Model;

/// The transactions that the log has, by rising Id: how far each is, its superior, the order in which its parts became
/// ready, and which of them are done.
#[derive(Drop)]
pub struct Trace {
    heads: Heads,
    marks: Marks,
}

impl Model for Trace {
    ghost use Rattle.std.specs.Prelude.{List};
    ghost use Rattle.ktm_trace.specs.Few.{IsEnough};
    ghost use Rattle.ktm_trace.specs.Joined.{AreJoined, joined_all};
    ghost use Rattle.ktm_trace.specs.Traces.{Traced};

    ghost Value = { List Traced };

    ghost view = { λ t. joined_all t.heads.heads t.marks.marks };

    ghost invariant = { λ t. AreJoined t.heads.heads t.marks.marks × IsEnough t.heads.capacity t.marks.capacity };
}

// The enlistment of a superior, if there is one.
fn superior_id(superior: &Option<Superior>) -> Option<Id>
    ensures { result ≡ superior_id superior.now }
{
    match superior {
        Some(superior) => Some(superior.enlistment),
        None => None,
    }
}

// Puts a transaction back while a part of it is not done, and else forgets its parts.
fn put_while_not_done(heads: &mut Heads, marks: &mut Marks, head: Head)
    requires room { length heads.old.heads < heads.old.capacity }
    requires new { at_id head_id heads.old.heads head.id ≡ None }
    ensures heads { heads.new.heads ≡ (if has_undone_mark marks.old.marks head.id then placed head_id heads.old.heads head else heads.old.heads) }
    ensures marks { marks.new.marks ≡ (if has_undone_mark marks.old.marks head.id then marks.old.marks else without_marks marks.old.marks head.id) }
    ensures head_capacity { heads.new.capacity ≡ heads.old.capacity }
    ensures mark_capacity { marks.new.capacity ≡ marks.old.capacity }
{
    if marks.has_undone(head.id) {
        heads.put(head);
    } else {
        marks.forget(head.id);
    }
}

impl Trace {
    // No transactions, and room for all that may come.
    fn new(alloc: Global) -> Result<Self, NoMemory>
        ensures { IfOk result (λ trace. trace ≡ []) }
    {
        Ok(Trace {
            heads: Heads::with_capacity(alloc, MOST_HEADS)?,
            marks: Marks::with_capacity(alloc, MOST_MARKS)?,
        })
    }

    /// The transactions of the log, which stand by rising Id, and room for all that may come.
    pub fn of(alloc: Global, transactions: &[Recorded]) -> Result<Self, NoMemory>
        requires rise { Rises recorded_id transactions.now }
        ensures transactions { IfOk result (λ trace. trace ≡ map traced transactions.now) }
    {
        let mut trace = Trace::new(alloc)?;
        for transaction in transactions {
            trace.add(transaction)?;
        }
        Ok(trace)
    }

    /// The transactions, one after another, by rising Id.
    pub fn transactions(&self) -> Transactions<'_>
        ensures { result ≡ self.now }
    {
        Transactions::new(self.heads.as_slice(), self.marks.as_slice())
    }

    // Brings a transaction of the log back, with its parts, where there is memory for it. It takes none while few are there.
    fn add(&mut self, transaction: &Recorded) -> Result<(), NoMemory>
        requires { at_id id_of self.old transaction.now.id ≡ None }
        ensures transactions { OnOk result (self.new ≡ placed id_of self.old (traced transaction.now)) }
        ensures no_memory { OnErr result (self.new ≡ self.old) }
    {
        self.heads.reserve_one()?;
        self.marks.reserve(transaction.parts.len())?;
        self.heads.put(Head {
            id: transaction.id,
            stage: transaction.stage,
            superior: superior_id(&transaction.superior),
        });
        self.marks.add(transaction.id, &transaction.parts);
        Ok(())
    }

    // The transaction rolls back, and is forgotten.
    fn undo(&mut self, transaction: Id)
        ensures transactions { self.new ≡ without_id id_of self.old transaction }
    {
        let _ = self.heads.take(transaction);
        self.marks.forget(transaction);
    }

    // They stand by rising Id.
    fn law_of_order(&self)
        ensures { Rises id_of self.now }
    {
        let _ = &self.heads;
    }

    // A participant of the transaction is ready.
    fn ready(&mut self, transaction: Id, who: DonePart)
        requires { HasRoom self.old }
        ensures { self.new ≡ once_ready self.old transaction who }
    {
        let head = self.heads.take_or_new(transaction);
        self.heads.put(head);
        self.marks.push(Mark {
            transaction,
            is_done: false,
            who,
        });
    }

    // The transaction waits for this superior.
    fn hold(&mut self, transaction: Id, superior: Id)
        requires { HasRoom self.old }
        ensures { self.new ≡ once_held self.old transaction superior }
    {
        let head = self.heads.take_or_new(transaction);
        self.heads.put(Head {
            id: head.id,
            stage: Stage::Held,
            superior: Some(superior),
        });
    }

    // The transaction is decided, and stays while a part of it is not done.
    fn decide(&mut self, transaction: Id)
        ensures { self.new ≡ once_decided self.old (at_id id_of self.old transaction) }
    {
        let Some(head) = self.heads.take(transaction) else {
            return;
        };
        let head = Head {
            id: head.id,
            stage: Stage::Decided,
            superior: head.superior,
        };
        put_while_not_done(&mut self.heads, &mut self.marks, head);
    }

    // A participant of the transaction is done, and it stays while a part of it is not done.
    fn finish(&mut self, transaction: Id, done: DonePart)
        ensures transactions { self.new ≡ once_done self.old done (at_id id_of self.old transaction) }
    {
        let Some(head) = self.heads.take(transaction) else {
            return;
        };
        self.marks.finish(transaction, done);
        put_while_not_done(&mut self.heads, &mut self.marks, head);
    }

    // A participant is ready, if it takes part.
    fn ready_if(&mut self, takes_part: bool, transaction: Id, who: DonePart)
        requires { HasRoom self.old }
        ensures { self.new ≡ (if takes_part then once_ready self.old transaction who else self.old) }
    {
        if takes_part {
            self.ready(transaction, who);
        }
    }

    // A participant is done, if it takes part.
    fn finish_if(&mut self, takes_part: bool, transaction: Id, done: DonePart)
        ensures { self.new ≡ (if takes_part then once_done self.old done (at_id id_of self.old transaction) else self.old) }
    {
        if takes_part {
            self.finish(transaction, done);
        }
    }

    // A fact is recorded.
    fn note(&mut self, of: &Recording, fact: Fact)
        requires { 1 ≤ room_of fact → HasRoom self.old }
        ensures { self.new ≡ noted of.now fact self.old }
    {
        match fact {
            Fact::ReadyFiles => self.ready_if(of.has_files, of.transaction, DonePart::Files),
            Fact::ReadyKeys => self.ready_if(of.has_keys, of.transaction, DonePart::Keys),
            Fact::Ready => {
                if let Some(id) = of.caller {
                    self.ready(of.transaction, DonePart::Enlistment(id));
                }
            }
            Fact::Held => {
                if let Some(id) = of.superior {
                    self.hold(of.transaction, id);
                }
            }
            Fact::Decide => {
                if of.is_recorded {
                    self.decide(of.transaction);
                }
            }
            Fact::Undo => {
                if of.is_recorded {
                    self.undo(of.transaction);
                }
            }
            Fact::DoneFiles => self.finish_if(of.has_files, of.transaction, DonePart::Files),
            Fact::DoneKeys => self.finish_if(of.has_keys, of.transaction, DonePart::Keys),
            Fact::Done => {
                if let Some(id) = of.caller {
                    self.finish(of.transaction, DonePart::Enlistment(id));
                }
            }
            Fact::SingleFiles | Fact::SingleKeys => {}
        }
    }

    // A step is recorded.
    fn note_step(&mut self, of: &Recording, step: &Step)
        requires { 1 ≤ step_room step.now → HasRoom self.old }
        ensures transactions { self.new ≡ step_noted of.now step.now self.old }
        ensures more { HasMore (step_room step.now) self.old self.new }
    {
        self.law_of_order();
        if let Step::Record(fact) = step {
            self.note(of, *fact);
        }
    }

    /// What the steps record of a transaction is made of the transactions. It takes no memory. Where the steps add nothing, there
    /// may be any number of transactions.
    pub fn record(&mut self, of: Recording, steps: &[Step])
        requires few { 1 ≤ steps_room steps.now → AreFew self.old }
        requires steps { steps_room steps.now ≤ MOST_NOTED }
        ensures transactions { (b : Basis) → recording_of b ≡ of → self.new ≡ fold traces_after self.old (events_ahead steps.now b) }
    {
        let mut now = of;
        for step in steps {
            self.note_step(&now, step);
            now = now.behind(step);
        }
    }
}
