// The machine over its disk: the one way through.
ghost use Rattle.std.specs.Prelude.{◌≡◌, ◌≤◌, true, false, Option, Ok, IfOk, IsOk, OnErr};
ghost use Rattle.ktm_base.specs.Disk.{DiskState};
ghost use Rattle.ktm_core.specs.Completions.{command_of};
ghost use Rattle.ktm_core.specs.Done.{fallen};
ghost use Rattle.ktm_core.specs.Takes.{asked_takes_memory, takes_memory};
ghost use Rattle.ktm_kernel.specs.Answers.{CallLeaves, IsAsItWas, IsLineAnswered};
ghost use Rattle.ktm_kernel.specs.Staging.{AskLeaves, IfAsks, IsAskable, WasAsked};
ghost use Rattle.ktm_kernel.specs.declared.staging.Staged.TheVariants.{Ask};
ghost use Rattle.ktm_kernel.specs.Stands.{DoesLine, IsReady, KernelAt};
ghost use Rattle.ktm_laws.specs.Running.{HasEventsLeft};
ghost use Rattle.ktm_log.specs.OnDisk.{on};
ghost use Rattle.ktm_world.specs.declared.command.Command.TheVariants.{ReadFile, SetEndOfFile, WriteFile};
ghost use Rattle.ktm_world.specs.declared.command.Line.TheVariants.{Crash, Process, Tick};
ghost use Rattle.ktm_world.specs.declared.reply.Reply.TheVariants.{Done};
ghost use Rattle.ktm_world.specs.Values.{IsCommand};
ghost use Rattle.ktm_world.specs.Decide.{decide as model_decide};
ghost use Rattle.ktm_world.specs.Durable.{stand};
ghost use Rattle.ktm_world.specs.Labels.{is_bound};
ghost use Rattle.ktm_world.specs.World.{World, decide_tick};

use crate::staging::{Staged, read_part, stage_end, stage_write};
use ktm_alike::law_of_alike_presents;
use ktm_base::{Bytes, Disk, Label, NoMemory, Pid, Refusal};
use ktm_core::{Asked, Core, ReadFault, command_of, law_of_completions, read_target};
use ktm_journal::law_of_pages;
use ktm_laws::law_of_reserved_files;
use ktm_paged::law_of_paged_records;
use ktm_records::law_of_spelling;
use ktm_standing::{law_of_kept, law_of_standing};
use ktm_store::law_of_rows;
use ktm_units::law_of_units;
use ktm_world::{Command, Completion, Reply};
use std::alloc::Global;
use std::marker::Model;

/// The machine: what it holds in memory, and the memory for what it records.
#[derive(Drop)]
pub struct Kernel {
    pub(crate) alloc: Global,
    pub(crate) core: Core,
}

impl Model for Kernel {
    ghost use Rattle.std.specs.Prelude.{◌≤◌, vec_capacity};
    ghost use Rattle.ktm_world.specs.Sizes.{area_len};
    ghost use Rattle.ktm_core.specs.Memory.{IsRoomy};
    ghost use Rattle.ktm_kernel.specs.Stands.{KernelState, kernel_of};

    ghost Value = { KernelState };

    ghost view = { λ k. kernel_of k.core.memory k.core.store };

    ghost invariant = { λ k. IsRoomy k.core.memory.journal k.core.events × (area_len k.core.memory.journal.units ≤ vec_capacity k.core.snapshot) };
}

impl Kernel {
    /// Is the machine up.
    pub fn is_up(&self) -> bool
        ensures { result ≡ self.now.now.machine.is_up }
    {
        self.core.memory.is_up()
    }

    /// Is the label of the process bound.
    pub fn is_bound(&self, process: Pid, label: Label) -> bool
        ensures { result ≡ is_bound self.now.now process label }
    {
        self.core.memory.handles().get(process, label).is_some()
    }

    /// How many events were ever recorded, also of a machine that is down: what was appended when it went down does not count.
    pub fn events(&self) -> u64
        ensures now { result ≡ self.now.now.recorded.events }
        ensures world { (told : Option DiskState) (w : World) → KernelAt self.now told w → result ≡ (stand w.base w.log).events }
    {
        self.core.memory.journal().events()
    }

    /// The power is gone: the machine is down until it is started again from its disk.
    pub fn crash(&mut self)
        requires { self.old.now.machine.is_up ≡ true }
        ensures fallen { self.new ≡ record self.old { now = fallen self.old.now } }
        ensures does { (told : Option DiskState) (w : World) → KernelAt self.old told w → DoesLine w (Some Crash) Done self.new told }
    {
        law_of_standing();
        law_of_pages();
        law_of_paged_records();
        self.core.memory.fall();
    }

    /// Answers a call of a process, with any command of the grammar. After MACHINE_DOWN the machine is down. A call that is
    /// refused, but for MACHINE_DOWN, makes no device call. One that records something makes four, one for each page of the files
    /// that it records, and one more behind each 64 of these and behind the last. A plain write records the pages that its bytes
    /// touch, and those of the gap in front of them. The log keeps room for all that transactions under way may still record: so
    /// a call that completes a transaction, as `complete` answers it, makes no more. Any other call that records something makes
    /// six more, for a snapshot, where the log has no room for it beside the greatest debts. One that records nothing makes none,
    /// but where it may owe more and the log has no room for the greatest debts it makes these six. ReadFile reads each page that is
    /// not in memory by one, and WriteFile and SetEndOfFile the pages at both ends of what they change, where they keep something of them.
    /// Where these two record nothing, they write all pages that wait in memory, once there are many.
    /// Out of memory the machine and what its disk holds are as they were, but for the bytes of pages that were free.
    pub fn call<D: Disk>(
        &mut self,
        disk: &mut D,
        process: Pid,
        command: Command,
    ) -> Result<Reply, NoMemory>
        requires ready { IsReady self.old (D.told disk.old) (D.status disk.old) }
        requires counts { HasEventsLeft self.old.now }
        requires command { IsCommand command }
        ensures leaves { CallLeaves process command (on self.old (D.told disk.old) (D.status disk.old)) (on self.new (D.told disk.new) (D.status disk.new)) result }
        ensures no_memory { OnErr result (IsAsItWas self.old self.new) }
        ensures enough { takes_memory self.old.now process command ≡ false → IsOk result }
    {
        if !self.is_up() {
            return Ok(Reply::Refused(Refusal::MachineDown));
        }
        self.dispatch(disk, process, command)
    }

    /// Answers a call on the way to the end of a transaction, or one that tells of it, as `call` answers its command: CommitTransaction,
    /// RollbackTransaction, each answer of an enlistment, the requests of its superior, CloseHandle, Exit, GetTransactionInformation and
    /// GetNotificationResourceManager. It takes no memory: a commit that was accepted ends by the votes of its enlistments, and nothing on
    /// its way is ever out of memory. It makes at most four device calls beside those of its pages, and never a snapshot.
    /// MACHINE_DOWN comes where the machine is down, or where its disk goes down in the call.
    pub fn complete<D: Disk>(&mut self, disk: &mut D, process: Pid, completion: Completion) -> Reply
        requires ready { IsReady self.old (D.told disk.old) (D.status disk.old) }
        requires counts { HasEventsLeft self.old.now }
        requires command { IsCommand (command_of completion) }
        ensures { IsLineAnswered (Process process (command_of completion)) (model_decide self.old.now process (command_of completion)) (on self.old (D.told disk.old) (D.status disk.old)) (on self.new (D.told disk.new) (D.status disk.new)) result }
    {
        law_of_completions();
        match self.call(disk, process, command_of(completion)) {
            Ok(reply) => reply,
            Err(NoMemory) => unreachable!(),
        }
    }

    /// So many milliseconds pass, and the transactions roll back whose timeouts are reached then, in order of creation; what that
    /// records is one group, with at most four device calls. While the machine is down no time passes. It takes no memory.
    pub fn tick<D: Disk>(&mut self, disk: &mut D, ms: u32) -> Reply
        requires ready { IsReady self.old (D.told disk.old) (D.status disk.old) }
        requires counts { HasEventsLeft self.old.now }
        ensures { IsLineAnswered (Tick ms) (decide_tick self.old.now ms) (on self.old (D.told disk.old) (D.status disk.old)) (on self.new (D.told disk.new) (D.status disk.new)) result }
    {
        law_of_standing();
        law_of_kept();
        law_of_reserved_files();
        law_of_spelling();
        law_of_alike_presents();
        law_of_units();
        law_of_paged_records();
        law_of_pages();
        if !self.is_up() {
            return Reply::Refused(Refusal::MachineDown);
        }
        match self.answer(disk, Asked::Tick(ms)) {
            Ok(reply) => reply,
            Err(NoMemory) => unreachable!(),
        }
    }

    // Answers what is asked of the places while the machine is up.
    fn answer<D: Disk>(&mut self, disk: &mut D, asked: Asked) -> Result<Reply, NoMemory>
        requires up { self.old.now.machine.is_up ≡ true }
        requires ready { IsReady self.old (D.told disk.old) (D.status disk.old) }
        requires counts { HasEventsLeft self.old.now }
        requires askable { IsAskable self.old (Ok (Ask asked)) }
        ensures asked { WasAsked asked (on self.old (D.told disk.old) (D.status disk.old)) (on self.new (D.told disk.new) (D.status disk.new)) result }
        ensures enough { asked_takes_memory self.old.now asked ≡ false → IsOk result }
    {
        law_of_standing();
        law_of_rows(&self.core.store);
        self.core.answer(self.alloc, disk, asked)
    }

    // Asks what was staged, or answers why there is nothing to ask.
    fn ask<D: Disk>(
        &mut self,
        disk: &mut D,
        staged: Result<Staged, ReadFault>,
    ) -> Result<Reply, NoMemory>
        requires up { self.old.now.machine.is_up ≡ true }
        requires ready { IfAsks staged (IsReady self.old (D.told disk.old) (D.status disk.old)) }
        requires counts { HasEventsLeft self.old.now }
        requires askable { IsAskable self.old staged }
        ensures { AskLeaves staged (on self.old (D.told disk.old) (D.status disk.old)) (on self.new (D.told disk.new) (D.status disk.new)) result }
    {
        match staged {
            Ok(Staged::Ask(asked)) => self.answer(disk, asked),
            Ok(Staged::Refuse(refusal)) => Ok(Reply::Refused(refusal)),
            Err(ReadFault::Down) => {
                self.core.memory.fall();
                Ok(Reply::Refused(Refusal::MachineDown))
            }
            Err(ReadFault::NoMemory) => Err(NoMemory),
        }
    }

    // Reads bytes of an open file.
    fn read<D: Disk>(
        &mut self,
        disk: &mut D,
        process: Pid,
        file: Label,
        offset: u64,
        length: u64,
    ) -> Result<Reply, NoMemory>
        requires up { self.old.now.machine.is_up ≡ true }
        requires ready { IsReady self.old (D.told disk.old) (D.status disk.old) }
        requires counts { HasEventsLeft self.old.now }
        requires command { IsCommand (ReadFile file offset length) }
        ensures leaves { CallLeaves process (ReadFile file offset length) (on self.old (D.told disk.old) (D.status disk.old)) (on self.new (D.told disk.new) (D.status disk.new)) result }
        ensures no_memory { OnErr result (IsAsItWas self.old self.new) }
        ensures enough { takes_memory self.old.now process (ReadFile file offset length) ≡ false → IsOk result }
    {
        law_of_standing();
        law_of_kept();
        law_of_reserved_files();
        law_of_spelling();
        law_of_alike_presents();
        law_of_units();
        law_of_paged_records();
        law_of_pages();
        let Core { memory, store, .. } = &mut self.core;
        let places = match read_target(memory, process, file, length) {
            Ok(places) => places,
            Err(refusal) => return Ok(Reply::Refused(refusal)),
        };
        let journal = memory.journal();
        let bytes = match read_part(self.alloc, disk, journal, store, places, offset, length) {
            Ok(bytes) => bytes,
            Err(ReadFault::Down) => {
                memory.fall();
                return Ok(Reply::Refused(Refusal::MachineDown));
            }
            Err(ReadFault::NoMemory) => return Err(NoMemory),
        };
        Ok(Reply::Contents(Bytes::new(bytes)))
    }

    // Writes bytes into an open file; none are as any call.
    fn write<D: Disk>(
        &mut self,
        disk: &mut D,
        process: Pid,
        file: Label,
        offset: u64,
        bytes: Bytes,
    ) -> Result<Reply, NoMemory>
        requires up { self.old.now.machine.is_up ≡ true }
        requires ready { IsReady self.old (D.told disk.old) (D.status disk.old) }
        requires counts { HasEventsLeft self.old.now }
        requires command { IsCommand (WriteFile file offset bytes) }
        ensures leaves { CallLeaves process (WriteFile file offset bytes) (on self.old (D.told disk.old) (D.status disk.old)) (on self.new (D.told disk.new) (D.status disk.new)) result }
        ensures no_memory { OnErr result (IsAsItWas self.old self.new) }
        ensures enough { takes_memory self.old.now process (WriteFile file offset bytes) ≡ false → IsOk result }
    {
        law_of_standing();
        law_of_kept();
        law_of_reserved_files();
        law_of_spelling();
        law_of_alike_presents();
        law_of_units();
        law_of_paged_records();
        law_of_pages();
        if bytes.is_empty() {
            let command = Command::WriteFile {
                file,
                offset,
                bytes,
            };
            return self.answer(disk, Asked::Call(process, command));
        }
        let Core { memory, store, .. } = &mut self.core;
        let staged = stage_write(
            self.alloc, disk, memory, store, process, file, offset, &bytes,
        );
        self.ask(disk, staged)
    }

    // Makes an open file so long.
    fn set_end<D: Disk>(
        &mut self,
        disk: &mut D,
        process: Pid,
        file: Label,
        size: u64,
    ) -> Result<Reply, NoMemory>
        requires up { self.old.now.machine.is_up ≡ true }
        requires ready { IsReady self.old (D.told disk.old) (D.status disk.old) }
        requires counts { HasEventsLeft self.old.now }
        requires command { IsCommand (SetEndOfFile file size) }
        ensures leaves { CallLeaves process (SetEndOfFile file size) (on self.old (D.told disk.old) (D.status disk.old)) (on self.new (D.told disk.new) (D.status disk.new)) result }
        ensures no_memory { OnErr result (IsAsItWas self.old self.new) }
        ensures enough { takes_memory self.old.now process (SetEndOfFile file size) ≡ false → IsOk result }
    {
        law_of_standing();
        law_of_kept();
        law_of_reserved_files();
        law_of_spelling();
        law_of_alike_presents();
        law_of_units();
        law_of_paged_records();
        law_of_pages();
        let Core { memory, store, .. } = &mut self.core;
        let staged = stage_end(self.alloc, disk, memory, store, process, file, size);
        self.ask(disk, staged)
    }

    // Answers a command, while the machine is up.
    fn dispatch<D: Disk>(
        &mut self,
        disk: &mut D,
        process: Pid,
        command: Command,
    ) -> Result<Reply, NoMemory>
        requires up { self.old.now.machine.is_up ≡ true }
        requires ready { IsReady self.old (D.told disk.old) (D.status disk.old) }
        requires counts { HasEventsLeft self.old.now }
        requires command { IsCommand command }
        ensures leaves { CallLeaves process command (on self.old (D.told disk.old) (D.status disk.old)) (on self.new (D.told disk.new) (D.status disk.new)) result }
        ensures no_memory { OnErr result (IsAsItWas self.old self.new) }
        ensures enough { takes_memory self.old.now process command ≡ false → IsOk result }
    {
        law_of_standing();
        law_of_kept();
        law_of_reserved_files();
        law_of_spelling();
        law_of_alike_presents();
        law_of_units();
        law_of_paged_records();
        law_of_pages();
        match command {
            Command::ReadFile {
                file,
                offset,
                length,
            } => self.read(disk, process, file, offset, length),
            Command::WriteFile {
                file,
                offset,
                bytes,
            } => self.write(disk, process, file, offset, bytes),
            Command::SetEndOfFile { file, size } => self.set_end(disk, process, file, size),
            command => self.answer(disk, Asked::Call(process, command)),
        }
    }
}
