// Installs a release.
ghost use Rattle.std.specs.Prelude.{◌≡◌, ◌∷◌, [], true, List, IfOk};
ghost use Rattle.ktm_base.specs.declared.id.Label.{Label};
ghost use Rattle.ktm_example.specs.Install.{IsAllOrNothing, IsInstallation, KeepsAt, after_all, installing, replacing};
ghost use Rattle.ktm_kernel.specs.Stands.{KernelAt};
ghost use Rattle.ktm_world.specs.World.{World, present};
ghost use Rattle.ktm_works.specs.Works.{Contents, Keeps, contents_now};

use wattorju::{
    Access, Bytes, CommitState, Disk, Disposition, Failure, Machine, ShareMode, Text, Transaction,
};

/// A path or a key, with its new contents.
#[derive(Drop)]
pub struct Entry {
    pub name: Text,
    pub contents: Bytes,
}

/// What is installed: two files, and the version under its key.
#[derive(Drop)]
pub struct Release {
    pub program: Entry,
    pub manual: Entry,
    pub version: Entry,
}

// Gives a file its new contents, in the transaction.
fn replace<D: Disk>(
    machine: &mut Machine<D>,
    transaction: &Transaction,
    file: Entry,
) -> Result<(), Failure>
    ensures nothing { (cs : List Contents) → Keeps cs machine.old → Keeps cs machine.new }
    ensures done { IfOk result (λ done. (cs : List Contents) (keeps : Keeps cs machine.old) → (label : Label) × KeepsAt cs (after_all (present keeps.world) (replacing transaction.now.label file label)) machine.new) }
{
    let open = machine.create_file_transacted(
        file.name,
        Access::Write,
        ShareMode::Nothing,
        Disposition::CreateAlways,
        transaction,
    )?;
    let written = machine.write(&open, 0, file.contents);
    machine.close_file(open)?;
    written
}

// Changes the files and the version in the transaction, and asks that it commits.
fn install_in<D: Disk>(
    machine: &mut Machine<D>,
    transaction: &Transaction,
    release: Release,
) -> Result<CommitState, Failure>
    ensures { (before : Contents) (keeps : Keeps (before ∷ []) machine.old) → (program : Label) × (manual : Label) × IsAllOrNothing before (contents_now (after_all (present keeps.world) (installing transaction.now.label release program manual))) machine.new result }
{
    replace(machine, transaction, release.program)?;
    replace(machine, transaction, release.manual)?;
    machine.set(transaction, release.version.name, release.version.contents)?;
    match machine.commit(transaction) {
        Ok(state) => Ok(state),
        Err(fault) => Err(Failure::from(fault)),
    }
}

/// Installs a release: both files and the version change, or nothing does.
pub fn install<D: Disk>(machine: &mut Machine<D>, release: Release) -> Result<CommitState, Failure>
    ensures { (w : World) → KernelAt machine.old.it machine.old.told w → machine.old.it.now.machine.is_up ≡ true → IsInstallation (present w) release machine.new result }
{
    let (transaction, _guid) = machine.create_transaction(0)?;
    let installed = install_in(machine, &transaction, release);
    // Where it has not committed, this rolls it back.
    let _ = machine.close_transaction(transaction);
    installed
}
