// Doing what is left to do once the events of a command are recorded. It takes no memory.
ghost use Rattle.std.specs.Prelude.{◌≡◌, ◌+◌, ◌<◌, ◌≤◌, ◌^◌, not, true, None, Some, length};
ghost use Rattle.std.specs.Option.{option_map};
ghost use Rattle.ktm_memory.specs.declared.settlement.Settlement.TheVariants.{Begin, Change as PlainChange, Enlist, Handles as OfHandles, Inform, MakeManager, Pass, Recover, Take};
ghost use Rattle.ktm_memory.specs.Memory.{MayBind, MaySettle, Settles, SettlesGood, TellsWithin, present_of};
ghost use Rattle.ktm_memory.specs.Settled.{handles_then, labels_outcome, left_to_do};
ghost use Rattle.ktm_world.specs.declared.change.Change.{Change as Made};
ghost use Rattle.ktm_world.specs.Changes.{is_make, node_of};
ghost use Rattle.ktm_world.specs.Decide.{events_of};
ghost use Rattle.ktm_world.specs.FileOutcome.{next_node_after};
ghost use Rattle.ktm_world.specs.HandleCalls.{abort_active, close_handle, exit, handle_gone, has_handle};
ghost use Rattle.ktm_world.specs.TransactionCalls.{is_durable, tick};
ghost use Rattle.ktm_world.specs.Transactions.{transaction_at};
ghost use Rattle.txf_opens.specs.Acts.{open_of};
ghost use Rattle.txf_volume.specs.Held.{files_of};
ghost use Rattle.ktm_memory.specs.Rules.{KeepRules, SettlesByRules};

use crate::memory::Memory;
use crate::settlement::{Labels, Settlement};
use ktm_base::{Id, Label, Pid};
use ktm_object::Closed;
use ktm_trace::law_of_kept;
use ktm_world::{Change, Durability, EnlistmentKind, Object, Phase};
use std::alloc::Global;
use txf_calls::{OpenFile, Plan};
use txf_volume::Ready;

// The number of the next node, once a plain call has made its change.
fn next_after(next: u64, change: &Option<Change>) -> u64
    requires { (c : Made) → change.now ≡ Some c → is_make c ≡ true → node_of c < 2 ^ 63 }
    ensures { result ≡ next_node_after next change.now }
{
    let Some(change) = change else {
        return next;
    };
    match change {
        Change::Make { node, .. } => next.max(node + 1),
        _ => next,
    }
}

// Does a resource manager of this durability outlive a restart.
pub(crate) fn is_durable(durability: Durability) -> bool
    ensures { result ≡ is_durable durability }
{
    match durability {
        Durability::Volatile => false,
        Durability::Durable => true,
    }
}

impl Memory {
    // The transaction rolls back, if it is active.
    fn roll_back_if_active(&mut self, id: Id)
        requires told { TellsWithin self.old (λ x. abort_active x (transaction_at x.transactions.items id)) }
        ensures settles { Settles self.old (λ x. abort_active x (transaction_at x.transactions.items id)) self.new }
        ensures journal { self.new.journal ≡ self.old.journal }
        ensures handles { self.new.handles ≡ self.old.handles }
        ensures rules { KeepRules (files_of self.old.files) (files_of self.new.files) }
    {
        let Some(t) = self.tm.find(id) else {
            return;
        };
        match t.phase {
            Phase::Active => self.roll_back(t),
            _ => {}
        }
    }

    // What depended on a handle that is closed ends, where it was the last one: an active transaction rolls back, and a
    // file is closed.
    fn let_go(&mut self, closed: Closed)
        requires last { closed.is_last ≡ not (has_handle self.old.handles.handles closed.object) }
        requires told { TellsWithin self.old (λ x. handle_gone (Some closed.object) x) }
        ensures settles { Settles self.old (λ x. handle_gone (Some closed.object) x) self.new }
        ensures journal { self.new.journal ≡ self.old.journal }
        ensures handles { self.new.handles ≡ self.old.handles }
        ensures rules { KeepRules (files_of self.old.files) (files_of self.new.files) }
    {
        if !closed.is_last {
            return;
        }
        match closed.object {
            Object::Transaction(id) => self.roll_back_if_active(id),
            Object::File(number) => self.files.close(number),
            Object::Manager(_) | Object::Enlistment(_) => {}
        }
    }

    // The label is unbound.
    fn close(&mut self, process: Pid, label: Label)
        requires told { TellsWithin self.old (λ x. close_handle x process label) }
        ensures settles { Settles self.old (λ x. close_handle x process label) self.new }
        ensures journal { self.new.journal ≡ self.old.journal }
        ensures rules { KeepRules (files_of self.old.files) (files_of self.new.files) }
    {
        law_of_kept();
        if let Some(closed) = self.handles.close(process, label) {
            self.let_go(closed);
        }
    }

    // All labels of the process are unbound.
    fn exit(&mut self, process: Pid)
        requires told { TellsWithin self.old (λ x. exit x process) }
        ensures settles { Settles self.old (λ x. exit x process) self.new }
        ensures journal { self.new.journal ≡ self.old.journal }
        ensures rules { KeepRules (files_of self.old.files) (files_of self.new.files) }
    {
        law_of_kept();
        while let Some(closed) = self.handles.exit_next(process) {
            self.let_go(closed);
        }
    }

    // So many milliseconds pass. Each live transaction that is due then rolls back, in order of creation.
    fn tick(&mut self, ms: u32)
        requires may { MaySettle self.old (Pass ms) }
        requires told { TellsWithin self.old (λ x. tick x ms) }
        ensures settles { Settles self.old (λ x. tick x ms) self.new }
        ensures journal { self.new.journal ≡ self.old.journal }
        ensures rules { KeepRules (files_of self.old.files) (files_of self.new.files) }
    {
        law_of_kept();
        let mut place = self.tm.due_from(ms as u64);
        self.tm.advance(ms as u64);
        while let Some(t) = self.tm.live_at(place) {
            if self.tm.is_due(&t) {
                self.roll_back(t);
            } else {
                place += 1;
            }
        }
    }

    // The label, if there is one, is bound to the file that was opened, if one was.
    fn bind_opened(&mut self, process: Pid, label: Option<Label>, opened: Option<OpenFile>)
        requires { MayBind self.old process label (option_map open_of opened) }
        ensures handles { self.new.handles.handles ≡ handles_then self.old.handles.handles process label (option_map open_of opened) }
        ensures rest { self.new ≡ record self.old { handles = self.new.handles } }
    {
        if let (Some(label), Some(file)) = (label, opened) {
            self.handles
                .insert(process, label, Object::File(file.number));
        }
    }

    // A plain call has changed the files, and its label is bound to the file that it opened.
    fn change(&mut self, process: Pid, label: Option<Label>, plan: Plan, ready: Ready)
        requires { MaySettle self.old (PlainChange process label plan ready) }
        ensures settles { Settles self.old (λ x. left_to_do x (PlainChange process label plan ready)) self.new }
        ensures journal { self.new.journal ≡ self.old.journal }
        ensures rules { SettlesByRules (files_of self.old.files) (events_of None plan.change) (files_of self.new.files) }
    {
        let opened = plan.opened;
        self.next_node = next_after(self.next_node, &plan.change);
        self.files.settle(plan, ready);
        self.bind_opened(process, label, opened);
    }

    // A transaction with the next number begins, and the label is bound to it.
    fn begin(&mut self, process: Pid, label: Label, timeout: u32)
        requires may { MaySettle self.old (Begin process label timeout) }
        ensures settles { Settles self.old (λ x. left_to_do x (Begin process label timeout)) self.new }
        ensures journal { self.new.journal ≡ self.old.journal }
        ensures files { self.new.files ≡ self.old.files }
    {
        let id = self.tm.create(timeout);
        self.handles.insert(process, label, Object::Transaction(id));
    }

    // A resource manager with the next number is made, and the label is bound to it.
    fn make_manager(&mut self, process: Pid, label: Label, durability: Durability)
        requires may { MaySettle self.old (MakeManager process label durability) }
        ensures settles { Settles self.old (λ x. left_to_do x (MakeManager process label durability)) self.new }
        ensures journal { self.new.journal ≡ self.old.journal }
        ensures files { self.new.files ≡ self.old.files }
    {
        let id = self.tm.create_manager(is_durable(durability));
        self.handles.insert(process, label, Object::Manager(id));
    }

    // An enlistment with the next number is made, and the label is bound to it.
    fn enlist(
        &mut self,
        alloc: Global,
        process: Pid,
        label: Label,
        manager: Id,
        transaction: Id,
        kind: EnlistmentKind,
    )
        requires may { MaySettle self.old (Enlist process label manager transaction kind) }
        ensures settles { Settles self.old (λ x. left_to_do x (Enlist process label manager transaction kind)) self.new }
        ensures journal { self.new.journal ≡ self.old.journal }
        ensures files { self.new.files ≡ self.old.files }
    {
        let id = self.tm.create_enlistment(alloc, manager, transaction, kind);
        self.handles.insert(process, label, Object::Enlistment(id));
    }

    // Labels of the process are bound or unbound.
    fn handle(&mut self, process: Pid, labels: Labels)
        requires may { MaySettle self.old (OfHandles process labels) }
        requires told { TellsWithin self.old (λ x. labels_outcome x process labels) }
        ensures settles { Settles self.old (λ x. labels_outcome x process labels) self.new }
        ensures journal { self.new.journal ≡ self.old.journal }
        ensures rules { KeepRules (files_of self.old.files) (files_of self.new.files) }
    {
        match labels {
            Labels::Bind { label, object } => self.handles.insert(process, label, object),
            Labels::Duplicate {
                label,
                from,
                source,
            } => self.handles.duplicate(process, label, from, source),
            Labels::Unbind(label) => self.close(process, label),
            Labels::UnbindAll => self.exit(process),
        }
    }

    /// Does what was left to do, once its events are in the journal.
    pub fn settle(&mut self, alloc: Global, settlement: Settlement)
        requires may { MaySettle self.old settlement }
        requires told { TellsWithin self.old (λ x. left_to_do x settlement) }
        ensures settles { SettlesGood self.old (λ x. left_to_do x settlement) self.new }
        ensures journal { self.new.journal ≡ self.old.journal }
        ensures rules { SettlesByRules (files_of self.old.files) (left_to_do (present_of self.old) settlement).events (files_of self.new.files) }
    {
        law_of_kept();
        match settlement {
            Settlement::Nothing => {}
            Settlement::Begin {
                process,
                label,
                timeout,
            } => self.begin(process, label, timeout),
            Settlement::Change {
                process,
                label,
                plan,
                ready,
            } => self.change(process, label, plan, ready),
            Settlement::Course {
                transaction,
                caller,
                steps,
            } => self.carry_out(transaction, caller, steps.as_slice()),
            Settlement::Handles { process, labels } => self.handle(process, labels),
            Settlement::Pass(ms) => self.tick(ms),
            Settlement::MakeManager {
                process,
                label,
                durability,
            } => self.make_manager(process, label, durability),
            Settlement::Recover(manager) => self.tm.recover(manager),
            Settlement::Take(manager) => {
                let _ = self.tm.take_note(manager);
            }
            Settlement::Enlist {
                process,
                label,
                manager,
                transaction,
                kind,
            } => self.enlist(alloc, process, label, manager, transaction, kind),
            Settlement::Inform {
                enlistment,
                information,
            } => self.tm.inform(enlistment, information),
        }
    }
}
