// The machine with its disk.
ghost use Rattle.std.specs.Prelude.{◌≡◌, ◌⊎◌, ◌↔◌, ◌<◌, ◌≤◌, ℕ, Option, Some, true, false, IfErr, IfOk, IfSome, IsTrue};
ghost use Rattle.ktm_forms.specs.Tells.{IsTold, Telling, a_guid, a_notification, a_size, a_transaction, bytes, keys, names, nothing, progress, tells};
ghost use Rattle.ktm_kernel.specs.Stands.{IsReady, KernelState};
ghost use Rattle.ktm_laws.specs.Running.{HasEventsLeft};
ghost use Rattle.ktm_log.specs.OnDisk.{OnDisk, on};
ghost use Rattle.ktm_kernel.specs.Opened.{IsOpened, NotOpenedLeaves};
ghost use Rattle.ktm_world.specs.declared.reply.Reply.TheVariants.{Contents, Done, Guid, Keys, Names, Size};
ghost use Rattle.ktm_kernel.specs.Completions.{command_of};
ghost use Rattle.ktm_world.specs.Values.{IsCommand, IsLabel};
ghost use Rattle.ktm_world.specs.KeyCalls.{reply_of_value};
ghost use Rattle.ktm_world.specs.Labels.{is_bound};
ghost use Rattle.wattorju.specs.Calls.{IfReplied, IsCalled, IsCompleted, IsFree, IsTicked, answer_of, own, reply_of};
ghost use Rattle.wattorju.specs.Told.{reply_of_information, reply_of_notification, reply_of_state};

use crate::answer::{
    to_bytes, to_done, to_ended, to_guid, to_information, to_keys, to_names, to_notification,
    to_progress, to_size, to_value,
};
use crate::told::{CommitState, Notification, TransactionInformation};
use crate::{CompletionFault, Failure};
use ktm_base::{Bytes, Disk, Label, NoMemory, Pid, TextList};
use ktm_forms::law_of_replies;
use ktm_kernel::{Kernel, OpenFault, open_kernel};
use ktm_works::law_of_works;
use ktm_world::{Command, Completion, Reply};
use std::alloc::Global;
use std::marker::Model;
use uuid::Uuid;

// The process of all calls.
pub(crate) const OWN: Pid = Pid(1);

// The least number of recorded events with which the machine is asked nothing more: 2^63, less the most that are recorded at once.
const WORN_EVENTS: u64 = (1 << 63) - (1 << 20);

/// A machine and the disk that its image is on. Its calls are those of one process.
#[derive(Drop)]
pub struct Machine<D: Disk> {
    pub(crate) alloc: Global,
    pub(crate) kernel: Kernel,
    pub(crate) disk: D,
    // The label that was bound last.
    last: u16,
}

impl<D: Disk> Model for Machine<D> {
    ghost use Rattle.ktm_kernel.specs.Stands.{IsReady, KernelState};
    ghost use Rattle.ktm_log.specs.OnDisk.{OnDisk, on};

    ghost Value = { OnDisk KernelState };

    ghost view = { λ m. on m.kernel (D.told m.disk) (D.status m.disk) };

    ghost invariant = { λ m. IsReady m.kernel (D.told m.disk) (D.status m.disk) };
}

/// A machine that was opened.
#[derive(Drop)]
pub struct Opened<D: Disk> {
    pub machine: Machine<D>,
    /// How many events the image had.
    pub events: u64,
    /// How many transactions are in doubt: each waits for its superior, and holds what it changed and set.
    pub in_doubt: u32,
}

/// Why no machine was opened, with the disk.
#[derive(Drop)]
pub struct NotOpened<D: Disk> {
    pub fault: OpenFault,
    pub disk: D,
}

// May the machine be asked once more: the count of events does not end with that.
fn has_events_left(kernel: &Kernel) -> bool
    ensures { IsTrue result ↔ HasEventsLeft kernel.now.now }
{
    kernel.events() < WORN_EVENTS
}

// Answers a command, while the image has events left. What it may reply is known by its form.
fn ask<D: Disk>(
    kernel: &mut Kernel,
    disk: &mut D,
    command: Command,
) -> Option<Result<Reply, NoMemory>>
    requires ready { IsReady kernel.old (D.told disk.old) (D.status disk.old) }
    requires command { IsCommand command }
    ensures called { IsCalled command (on kernel.old (D.told disk.old) (D.status disk.old)) (on kernel.new (D.told disk.new) (D.status disk.new)) result }
    ensures told { (telling : Telling) → tells command ≡ telling → IfReplied result (λ reply. IsTold reply telling) }
    ensures ready { IsReady kernel.new (D.told disk.new) (D.status disk.new) }
{
    law_of_replies();
    law_of_works();
    if !has_events_left(kernel) {
        return None;
    }
    Some(kernel.call(disk, OWN, command))
}

// Answers a call that takes no memory, while the image has events left. What it may reply is known by its form.
fn complete<D: Disk>(kernel: &mut Kernel, disk: &mut D, completion: Completion) -> Option<Reply>
    requires ready { IsReady kernel.old (D.told disk.old) (D.status disk.old) }
    requires command { IsCommand (command_of completion) }
    ensures completed { IsCompleted (command_of completion) (on kernel.old (D.told disk.old) (D.status disk.old)) (on kernel.new (D.told disk.new) (D.status disk.new)) result }
    ensures told { (telling : Telling) → tells (command_of completion) ≡ telling → IfSome result (λ reply. IsTold reply telling) }
    ensures ready { IsReady kernel.new (D.told disk.new) (D.status disk.new) }
{
    law_of_replies();
    law_of_works();
    if !has_events_left(kernel) {
        return None;
    }
    Some(kernel.complete(disk, OWN, completion))
}

// A label that is not bound, if there is one: that behind the last one, or else the least one.
fn free_label(kernel: &Kernel, last: u16) -> Label
    ensures label { IsLabel result }
    ensures free { IsFree kernel.now.now result }
{
    if let Some(next) = last.checked_add(1) {
        if !kernel.is_bound(OWN, Label(next)) {
            return Label(next);
        }
    }
    for number in 1..u16::MAX {
        if !kernel.is_bound(OWN, Label(number)) {
            return Label(number);
        }
    }
    Label(u16::MAX)
}

impl<D: Disk> Machine<D> {
    /// Opens the image of a disk: a disk without a byte becomes a new one. The machine starts, and records that it did.
    pub fn open(alloc: Global, disk: D) -> Result<Opened<D>, NotOpened<D>>
        requires pending { (D.status disk).pending ≡ 0 }
        ensures ok { IfOk result (λ opened. IsOpened (record { kernel = opened.machine.it; events = opened.events; in_doubt = opened.in_doubt }) (D.told disk) opened.machine.told (D.status disk) opened.machine.status) }
        ensures err { IfErr result (λ failed. NotOpenedLeaves (D.told disk) (D.told failed.disk) (D.status disk) (D.status failed.disk) failed.fault) }
        ensures pending { IfErr result (λ failed. IsTrue (D.status failed.disk).is_down ⊎ ((D.status failed.disk).pending ≡ 0)) }
    {
        let mut disk = disk;
        match open_kernel(alloc, &mut disk) {
            Ok(restarted) => Ok(Opened {
                machine: Machine {
                    alloc,
                    kernel: restarted.kernel,
                    disk,
                    last: 0,
                },
                events: restarted.events,
                in_doubt: restarted.in_doubt,
            }),
            Err(fault) => Err(NotOpened { fault, disk }),
        }
    }

    /// Is the machine up. It is down after `MachineDown`, and then refuses each call.
    pub fn is_up(&self) -> bool
        ensures { result ≡ self.now.it.now.machine.is_up }
    {
        self.kernel.is_up()
    }

    /// So many milliseconds pass, and the transactions roll back whose timeouts are reached then, in order of creation. It takes
    /// no memory.
    pub fn tick(&mut self, ms: u32) -> Result<(), CompletionFault>
        ensures { IsTicked ms self.old self.new (reply_of result (λ done. Done)) }
    {
        law_of_replies();
        if !has_events_left(&self.kernel) {
            return Err(CompletionFault::Worn);
        }
        to_ended(Some(self.kernel.tick(&mut self.disk, ms)))
    }

    /// Ends the machine, and gives its disk back. What is not committed is gone.
    pub fn close(self) -> D
        ensures told { D.told result ≡ self.told }
        ensures status { D.status result ≡ self.status }
    {
        let Machine { kernel, disk, .. } = self;
        kernel.end();
        disk
    }

    // A label that is not bound, if there is one.
    pub(crate) fn free_label(&self) -> Label
        ensures label { IsLabel result }
        ensures free { IsFree self.now.it.now result }
    {
        free_label(&self.kernel, self.last)
    }

    // A command that binds a label to what it makes, and tells its GUID.
    pub(crate) fn make(&mut self, label: Label, command: Command) -> Result<Uuid, Failure>
        requires command { IsCommand command }
        requires tells { tells command ≡ a_guid }
        ensures { IsCalled command self.old self.new (answer_of result Guid) }
    {
        self.last = label.0;
        to_guid(ask(&mut self.kernel, &mut self.disk, command))
    }

    // A command that binds a label, and tells nothing.
    pub(crate) fn bind(&mut self, label: Label, command: Command) -> Result<(), Failure>
        requires command { IsCommand command }
        requires tells { tells command ≡ nothing }
        ensures { IsCalled command self.old self.new (answer_of result (λ done. Done)) }
    {
        self.last = label.0;
        to_done(ask(&mut self.kernel, &mut self.disk, command))
    }

    // A command that tells nothing.
    pub(crate) fn done(&mut self, command: Command) -> Result<(), Failure>
        requires command { IsCommand command }
        requires tells { tells command ≡ nothing }
        ensures { IsCalled command self.old self.new (answer_of result (λ done. Done)) }
    {
        to_done(ask(&mut self.kernel, &mut self.disk, command))
    }

    // A call that takes no memory, and tells nothing.
    pub(crate) fn end(&mut self, completion: Completion) -> Result<(), CompletionFault>
        requires command { IsCommand (command_of completion) }
        requires tells { tells (command_of completion) ≡ nothing }
        ensures { IsCompleted (command_of completion) self.old self.new (reply_of result (λ done. Done)) }
    {
        to_ended(complete(&mut self.kernel, &mut self.disk, completion))
    }

    // One that tells whether a transaction has committed.
    pub(crate) fn progress(
        &mut self,
        completion: Completion,
    ) -> Result<CommitState, CompletionFault>
        requires command { IsCommand (command_of completion) }
        requires tells { tells (command_of completion) ≡ progress }
        ensures { IsCompleted (command_of completion) self.old self.new (reply_of result reply_of_state) }
    {
        to_progress(complete(&mut self.kernel, &mut self.disk, completion))
    }

    // One that tells how a transaction stands.
    pub(crate) fn information(
        &mut self,
        completion: Completion,
    ) -> Result<TransactionInformation, CompletionFault>
        requires command { IsCommand (command_of completion) }
        requires tells { tells (command_of completion) ≡ a_transaction }
        ensures { IsCompleted (command_of completion) self.old self.new (reply_of result reply_of_information) }
    {
        to_information(complete(&mut self.kernel, &mut self.disk, completion))
    }

    // One that tells a notification, if one waits.
    pub(crate) fn notification(
        &mut self,
        completion: Completion,
    ) -> Result<Option<Notification>, CompletionFault>
        requires command { IsCommand (command_of completion) }
        requires tells { tells (command_of completion) ≡ a_notification }
        ensures { IsCompleted (command_of completion) self.old self.new (reply_of result reply_of_notification) }
    {
        to_notification(complete(&mut self.kernel, &mut self.disk, completion))
    }

    // A command that tells bytes.
    pub(crate) fn bytes(&mut self, command: Command) -> Result<Bytes, Failure>
        requires command { IsCommand command }
        requires tells { tells command ≡ bytes }
        ensures { IsCalled command self.old self.new (answer_of result Contents) }
    {
        to_bytes(ask(&mut self.kernel, &mut self.disk, command))
    }

    // A command that tells the value of a key, if it has one.
    pub(crate) fn value(&mut self, command: Command) -> Result<Option<Bytes>, Failure>
        requires command { IsCommand command }
        requires tells { tells command ≡ bytes }
        ensures { IsCalled command self.old self.new (answer_of result reply_of_value) }
    {
        to_value(ask(&mut self.kernel, &mut self.disk, command))
    }

    // A command that tells a size.
    pub(crate) fn size(&mut self, command: Command) -> Result<u64, Failure>
        requires command { IsCommand command }
        requires tells { tells command ≡ a_size }
        ensures { IsCalled command self.old self.new (answer_of result Size) }
    {
        to_size(ask(&mut self.kernel, &mut self.disk, command))
    }

    // A command that tells names.
    pub(crate) fn names(&mut self, command: Command) -> Result<TextList, Failure>
        requires command { IsCommand command }
        requires tells { tells command ≡ names }
        ensures { IsCalled command self.old self.new (answer_of result Names) }
    {
        to_names(ask(&mut self.kernel, &mut self.disk, command))
    }

    // A command that tells keys.
    pub(crate) fn keys(&mut self, command: Command) -> Result<TextList, Failure>
        requires command { IsCommand command }
        requires tells { tells command ≡ keys }
        ensures { IsCalled command self.old self.new (answer_of result Keys) }
    {
        to_keys(ask(&mut self.kernel, &mut self.disk, command))
    }
}
