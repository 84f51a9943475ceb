// What the machine answers to a line.
ghost use Rattle.std.specs.Prelude.{◌<◌, List, Some, ℕ, Option, Err, IfOk, OnOk, OnErr};
ghost use Rattle.ktm_kernel.specs.Stands.{KernelAt, IsReady};
ghost use Rattle.ktm_laws.specs.Running.{HasEventsLeft};
ghost use Rattle.ktm_log.specs.OnDisk.{on};
ghost use Rattle.ktm_run.specs.Lasting.{LastsAfter};
ghost use Rattle.ktm_run.specs.Progress.{Answers, Unanswered};
ghost use Rattle.ktm_run.specs.Script.{Means};
ghost use Rattle.ktm_world.specs.Values.{IsCommand};
ghost use Rattle.ktm_world.specs.World.{World};
ghost use Rattle.ktm_world.specs.declared.command.Line.{Line};
ghost use Rattle.ktm_world.specs.declared.command.Line.TheVariants.{Cut, Crash, Restart, Process, Tick};

use ktm_base::{Down, NoMemory, Pid, PowerDisk, Refusal};
use ktm_kernel::{Kernel, law_of_power, law_of_what_is_found, law_of_what_is_left};
use ktm_script::{LineFault, read_line};
use ktm_world::{Command, Line, Reply};
use std::alloc::Global;

// A process calls the system. A call on the way to the end of a transaction is answered also where there is no memory.
fn call<D: PowerDisk>(
    kernel: &mut Kernel,
    disk: &mut D,
    process: Pid,
    command: Command,
) -> Result<Reply, NoMemory>
    requires ready { IsReady kernel.old (D.told disk.old) (D.status disk.old) }
    requires counts { HasEventsLeft kernel.old.now }
    requires command { IsCommand command }
    ensures does { IfOk result (λ reply. Answers (on kernel.old (D.told disk.old) (D.status disk.old)) (on kernel.new (D.told disk.new) (D.status disk.new)) (Some (Process process command)) reply) }
    ensures ready { OnOk result (IsReady kernel.new (D.told disk.new) (D.status disk.new)) }
    ensures lasts { OnOk result (LastsAfter 1 kernel.old kernel.new) }
    ensures no_memory { OnErr result ((line : List ℕ) (w : World) → KernelAt kernel.old (D.told disk.old) w → Unanswered w (on kernel.old (D.told disk.old) (D.status disk.old)) (on kernel.new (D.told disk.new) (D.status disk.new)) line) }
{
    law_of_what_is_left();
    if let Some(completion) = command.completion() {
        return Ok(kernel.complete(disk, process, completion));
    }
    match kernel.call(disk, process, command) {
        Ok(reply) => Ok(reply),
        Err(NoMemory) => Err(NoMemory),
    }
}

// So many milliseconds pass.
fn tick<D: PowerDisk>(kernel: &mut Kernel, disk: &mut D, ms: u32) -> Reply
    requires ready { IsReady kernel.old (D.told disk.old) (D.status disk.old) }
    requires counts { HasEventsLeft kernel.old.now }
    ensures does { Answers (on kernel.old (D.told disk.old) (D.status disk.old)) (on kernel.new (D.told disk.new) (D.status disk.new)) (Some (Tick ms)) result }
    ensures ready { IsReady kernel.new (D.told disk.new) (D.status disk.new) }
    ensures lasts { LastsAfter 1 kernel.old kernel.new }
{
    kernel.tick(disk, ms)
}

// The power goes once so many more calls of the disk have passed.
fn cut<D: PowerDisk>(kernel: &Kernel, disk: &mut D, calls: u64) -> Reply
    requires ready { IsReady kernel.now (D.told disk.old) (D.status disk.old) }
    requires places { 0 < (D.status disk.old).places }
    ensures does { Answers (on kernel.now (D.told disk.old) (D.status disk.old)) (on kernel.now (D.told disk.new) (D.status disk.new)) (Some (Cut calls)) result }
    ensures ready { IsReady kernel.now (D.told disk.new) (D.status disk.new) }
{
    disk.arm(calls);
    Reply::Done
}

// The power goes now.
fn crash<D: PowerDisk>(kernel: &mut Kernel, disk: &mut D) -> Reply
    requires ready { IsReady kernel.old (D.told disk.old) (D.status disk.old) }
    requires places { 0 < (D.status disk.old).places }
    ensures does { Answers (on kernel.old (D.told disk.old) (D.status disk.old)) (on kernel.new (D.told disk.new) (D.status disk.new)) (Some Crash) result }
    ensures ready { IsReady kernel.new (D.told disk.new) (D.status disk.new) }
    ensures lasts { LastsAfter 1 kernel.old kernel.new }
{
    if !kernel.is_up() {
        return Reply::Refused(Refusal::MachineDown);
    }
    disk.off();
    kernel.crash();
    Reply::Done
}

// The power is back, and a machine that is down starts again.
fn restart<D: PowerDisk>(kernel: &mut Kernel, disk: &mut D, pick: u64) -> Result<Reply, NoMemory>
    requires ready { IsReady kernel.old (D.told disk.old) (D.status disk.old) }
    requires places { 0 < (D.status disk.old).places }
    ensures does { IfOk result (λ reply. Answers (on kernel.old (D.told disk.old) (D.status disk.old)) (on kernel.new (D.told disk.new) (D.status disk.new)) (Some (Restart pick)) reply) }
    ensures ready { OnOk result (IsReady kernel.new (D.told disk.new) (D.status disk.new)) }
    ensures lasts { OnOk result (LastsAfter 1 kernel.old kernel.new) }
    ensures no_memory { OnErr result ((line : List ℕ) (w : World) → Means line (Some (Restart pick)) → KernelAt kernel.old (D.told disk.old) w → Unanswered w (on kernel.old (D.told disk.old) (D.status disk.old)) (on kernel.new (D.told disk.new) (D.status disk.new)) line) }
{
    law_of_power();
    law_of_what_is_found();
    if kernel.is_up() {
        return Ok(Reply::Refused(Refusal::MachineUp));
    }
    if let Err(Down) = disk.power(pick) {
        return Ok(Reply::Refused(Refusal::MachineDown));
    }
    match kernel.start_again(disk) {
        Ok(reply) => Ok(reply),
        Err(NoMemory) => Err(NoMemory),
    }
}

// What the machine answers to a line, executed on a disk that has room for a plan.
fn answer<D: PowerDisk>(
    alloc: Global,
    kernel: &mut Kernel,
    disk: &mut D,
    line: &[u8],
) -> Result<Reply, NoMemory>
    requires ready { IsReady kernel.old (D.told disk.old) (D.status disk.old) }
    requires counts { HasEventsLeft kernel.old.now }
    requires places { 0 < (D.status disk.old).places }
    ensures does { IfOk result (λ reply. (meant : Option Line) × Means line.now meant × Answers (on kernel.old (D.told disk.old) (D.status disk.old)) (on kernel.new (D.told disk.new) (D.status disk.new)) meant reply) }
    ensures ready { OnOk result (IsReady kernel.new (D.told disk.new) (D.status disk.new)) }
    ensures lasts { OnOk result (LastsAfter 1 kernel.old kernel.new) }
    ensures no_memory { OnErr result ((w : World) → KernelAt kernel.old (D.told disk.old) w → Unanswered w (on kernel.old (D.told disk.old) (D.status disk.old)) (on kernel.new (D.told disk.new) (D.status disk.new)) line.now) }
{
    law_of_what_is_left();
    let meant = match read_line(alloc, line) {
        Ok(meant) => meant,
        Err(LineFault::BadLine) => return Ok(Reply::Refused(Refusal::BadLine)),
        Err(LineFault::NoMemory) => return Err(NoMemory),
    };
    match meant {
        Line::Process(process, command) => call(kernel, disk, process, command),
        Line::Tick(ms) => Ok(tick(kernel, disk, ms)),
        Line::Cut(calls) => Ok(cut(kernel, disk, calls)),
        Line::Crash => Ok(crash(kernel, disk)),
        Line::Restart(pick) => restart(kernel, disk, pick),
    }
}

/// What the machine answers to a line, which is executed. Out of memory it was not executed, or it was a restart.
pub fn execute<D: PowerDisk>(
    alloc: Global,
    kernel: &mut Kernel,
    disk: &mut D,
    line: &[u8],
) -> Result<Reply, NoMemory>
    requires ready { IsReady kernel.old (D.told disk.old) (D.status disk.old) }
    requires counts { HasEventsLeft kernel.old.now }
    ensures does { IfOk result (λ reply. (meant : Option Line) × Means line.now meant × Answers (on kernel.old (D.told disk.old) (D.status disk.old)) (on kernel.new (D.told disk.new) (D.status disk.new)) meant reply) }
    ensures ready { OnOk result (IsReady kernel.new (D.told disk.new) (D.status disk.new)) }
    ensures lasts { OnOk result (LastsAfter 1 kernel.old kernel.new) }
    ensures no_memory { OnErr result ((w : World) → KernelAt kernel.old (D.told disk.old) w → Unanswered w (on kernel.old (D.told disk.old) (D.status disk.old)) (on kernel.new (D.told disk.new) (D.status disk.new)) line.now) }
{
    law_of_what_is_left();
    if let Err(NoMemory) = disk.plan_room(alloc) {
        return Err(NoMemory);
    }
    match answer(alloc, kernel, disk, line) {
        Ok(reply) => Ok(reply),
        Err(NoMemory) => Err(NoMemory),
    }
}
