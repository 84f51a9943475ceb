// A transaction that goes on by steps.
ghost use Rattle.std.specs.Prelude.{◌≡◌, true, None, Some, Option, if◌then◌else◌};
ghost use Rattle.ktm_standing.specs.Courses.{LogsNext};
ghost use Rattle.ktm_memory.specs.Memory.{CanGoOn, IsReleased, Settles, SettlesWhere, Shows, TellsWithin, course_then, is_known};
ghost use Rattle.ktm_memory.specs.Rules.{KeepRules};
ghost use Rattle.ktm_tm.specs.Courses.{caller_of};
ghost use Rattle.ktm_trace.specs.Recordings.{durable_caller, recording_of};
ghost use Rattle.ktm_world.specs.declared.reply.Reply.TheVariants.{Done};
ghost use Rattle.ktm_world.specs.Enlistments.{Enlistment as Caller, id_of, superior_of};
ghost use Rattle.ktm_world.specs.Keys.{own_settings, stored_all, without_own};
ghost use Rattle.ktm_world.specs.Present.{Present};
ghost use Rattle.ktm_world.specs.Steps.{basis, seen};
ghost use Rattle.ktm_world.specs.TransactionCalls.{aborted_by, arrived, course_of};
ghost use Rattle.ktm_world.specs.Transactions.{is_live, transaction_at};
ghost use Rattle.txf_laws.specs.FileEffects.{forgotten};
ghost use Rattle.txf_laws.specs.Reservations.{files_committed};
ghost use Rattle.txf_volume.specs.Commit.{MayCommit};
ghost use Rattle.txf_volume.specs.Held.{files_of};

use crate::memory::Memory;
use crate::uncounted::{carry_uncounted, finish_uncounted};
use ktm_base::Id;
use ktm_course::{commits, is_undecided, records_files};
use ktm_phase::step;
use ktm_trace::Recording;
use ktm_world::{PhaseInput, Seen, Step, Transaction};
use kv_rm::KvRm;
use std::marker::Brand;
use std::sync::ledger::Blank;
use txf_volume::Files;

// What the transaction changed of the files is committed or undone, and it holds nothing of them.
fn finish_files(files: &mut Files, id: Id, commits: bool)
    requires { commits ≡ true → MayCommit (files_of files.old) id }
    ensures { files_of files.new ≡ (if commits then files_committed (files_of files.old) id else forgotten (files_of files.old) id) }
{
    if !finish_uncounted::<Files, Brand>(files, id, commits, Blank::new(1)) {
        files.forget(id);
    }
}

// What the transaction set of the keys is committed or undone.
fn finish_keys(keys: &mut KvRm, id: Id, commits: bool)
    ensures store { keys.new.store ≡ (if commits then stored_all keys.old.store (own_settings keys.old.own id) else keys.old.store) }
    ensures own { keys.new.own ≡ without_own keys.old.own id }
{
    let _ = finish_uncounted::<KvRm, Brand>(keys, id, commits, Blank::new(1));
}

impl Memory {
    /// What counts of a transaction when something comes to it.
    pub(crate) fn seen(&self, t: &Transaction) -> Seen
        ensures { (x : Present) (caller : Option Caller) → Shows self.now x → result ≡ seen (course_of x t.now caller) }
    {
        let has_files = self.files.has_changes(t.id);
        let has_keys = self.keys.has_settings(t.id);
        self.tm.seen(t, has_files, has_keys)
    }

    // The enlistment that calls, if one does, where its resource manager is durable.
    fn durable_caller(&self, caller: Option<Id>) -> Option<Id>
        ensures { result ≡ durable_caller self.now.tm.managers (caller_of self.now.tm.now.enlistments caller) }
    {
        let e = self.tm.enlistment(caller?)?;
        if self.tm.is_durable(e.manager) {
            Some(e.id)
        } else {
            None
        }
    }

    // The enlistment of the superior of the transaction, if it has one.
    fn superior_id(&self, transaction: Id) -> Option<Id>
        ensures { result ≡ id_of (superior_of self.now.tm.now.enlistments transaction) }
    {
        match self.tm.superior(transaction) {
            Some(e) => Some(e.id),
            None => None,
        }
    }

    // What is read of a transaction when its steps are recorded, where this enlistment calls, if one does.
    fn recording(&self, t: &Transaction, caller: Option<Id>) -> Recording
        ensures { (x : Present) → Shows self.now x → recording_of (basis (course_of x t.now (caller_of x.transactions.enlistments caller))) ≡ result }
    {
        Recording {
            transaction: t.id,
            is_recorded: t.is_recorded,
            has_files: self.files.has_changes(t.id),
            has_keys: self.keys.has_settings(t.id),
            caller: self.durable_caller(caller),
            superior: self.superior_id(t.id),
        }
    }

    // Is it known how the transaction ends, as it stands now.
    fn is_known(&self, id: Id) -> bool
        ensures { result ≡ is_known self.now.tm.now id }
    {
        match self.tm.find(id) {
            Some(t) => !is_undecided(&t),
            None => true,
        }
    }

    // Once its steps are carried out, what a transaction changed and set is committed, where they commit, and it holds nothing,
    // where its outcome is known.
    fn release(&mut self, id: Id, commits: bool)
        requires { commits ≡ true → MayCommit (files_of self.old.files) id }
        ensures { IsReleased id commits (is_known self.old.tm.now id) self.old self.new }
    {
        if commits || self.is_known(id) {
            finish_files(&mut self.files, id, commits);
            finish_keys(&mut self.keys, id, commits);
        }
    }

    /// The transaction goes on by its steps, where this enlistment calls, if one does: the log has what they record, those are
    /// told who are to be, and where they commit, what it changed and set is committed; where its outcome is known then, it
    /// holds nothing.
    pub(crate) fn carry_out(&mut self, t: Transaction, caller: Option<Id>, steps: &[Step])
        requires may { CanGoOn self.old t caller steps.now }
        requires told { TellsWithin self.old (λ x. arrived x (course_then x t caller steps.now) Done) }
        ensures settles { SettlesWhere self.old (λ x. LogsNext x t (caller_of x.transactions.enlistments caller) steps.now) (λ x. arrived x (course_then x t caller steps.now) Done) self.new }
        ensures journal { self.new.journal ≡ self.old.journal }
        ensures handles { self.new.handles ≡ self.old.handles }
        ensures rules { KeepRules (files_of self.old.files) (files_of self.new.files) }
    {
        let recording = self.recording(&t, caller);
        if records_files(steps) {
            self.next_node = self.files.next_after(t.id, self.next_node);
        }
        self.trace.record(recording, steps);
        carry_uncounted::<Brand>(
            &mut self.tm,
            t,
            caller,
            recording.has_files,
            recording.has_keys,
            steps,
            Blank::new(1),
        );
        self.release(t.id, commits(steps));
    }

    /// The transaction, which has not ended, rolls back, and no enlistment asks for it.
    pub(crate) fn roll_back(&mut self, t: Transaction)
        requires there { transaction_at self.old.tm.now.items t.id ≡ Some t }
        requires live { is_live t ≡ true }
        requires told { TellsWithin self.old (λ x. aborted_by x t None Done) }
        ensures settles { Settles self.old (λ x. aborted_by x t None Done) self.new }
        ensures journal { self.new.journal ≡ self.old.journal }
        ensures handles { self.new.handles ≡ self.old.handles }
        ensures rules { KeepRules (files_of self.old.files) (files_of self.new.files) }
    {
        let steps = step(&self.seen(&t), PhaseInput::Rollback);
        self.carry_out(t, None, steps.as_slice());
    }
}
