// Worked rows: the walks of a transaction's end, with their steps.
ghost use Rattle.std.specs.Prelude.{◌≡◌, ◌+◌, ◌++◌, ◌∷◌, ◌≤◌, [], true, IfOk, OnOk};
ghost use Rattle.std.specs.List.{list_all};
ghost use Rattle.ktm_world.specs.Durable.{is_before};
ghost use Rattle.ktm_walks.specs.Rows.{changes_of_both, ending, enlisted, settings_of_both, staying};
ghost use Rattle.txf_volume.specs.Commit.{MayCommit};
ghost use Rattle.txf_volume.specs.Held.{files_of};

use ktm_base::{Bytes, Id, NoMemory, Notify};
use ktm_counted::Steps;
use ktm_enlist::Enlistments;
use ktm_manager::Managers;
use ktm_participant::finish;
use ktm_phase::Enlistment;
use ktm_world::{Access, EnlistmentKind, ShareMode, Who};
use kv_rm::KvRm;
use std::alloc::Global;
use std::sync::ledger::Ledger;
use txf_opens::Opens;
use txf_volume::Files;

// The transaction that ends.
fn ending() -> Id
    ensures { result ≡ ending }
{
    Id { boot: 1, number: 1 }
}

// The other one.
fn staying() -> Id
    ensures { result ≡ staying }
{
    Id { boot: 1, number: 2 }
}

/// Of four open files three are of the transaction that ends.
pub fn row_of_open_files<L: Ledger>(alloc: Global, steps: &mut Steps<L>) -> Result<(), NoMemory>
    ensures { OnOk result (steps.new ≡ steps.old + 3) }
{
    let mut opens = Opens::new(alloc);
    opens.reserve(4)?;
    opens.open(5, Some(ending()), Access::Read, ShareMode::ReadWrite);
    opens.open(6, Some(ending()), Access::Write, ShareMode::ReadWrite);
    opens.open(6, Some(staying()), Access::Read, ShareMode::ReadWrite);
    opens.open(5, Some(ending()), Access::Read, ShareMode::ReadWrite);
    opens.end_group(ending(), steps);
    Ok(())
}

// An enlistment of the transaction, of the one resource manager.
fn enlisted(number: u32, transaction: Id, information: Bytes) -> Enlistment
    ensures { result ≡ enlisted number transaction information }
{
    Enlistment {
        id: Id { boot: 1, number },
        manager: Id { boot: 1, number: 1 },
        transaction,
        kind: EnlistmentKind::Plain,
        owes: None,
        is_read_only: false,
        is_prepared: true,
        is_finished: false,
        is_recovered: true,
        information,
    }
}

// One resource manager, with room for two notifications.
fn one_manager(alloc: Global) -> Result<Managers, NoMemory>
    ensures managers { IfOk result (λ ms. ms.managers ≡ record { id = record { boot = 1; number = 1 }; is_durable = true; queue = [] } ∷ []) }
    ensures spare { IfOk result (λ ms. 2 ≤ ms.spare) }
{
    let mut managers = Managers::new(alloc);
    managers.reserve()?;
    managers.add(Id { boot: 1, number: 1 }, true);
    managers.reserve_notes(2)?;
    Ok(managers)
}

// Another enlistment, with no information.
fn enlist(
    alloc: Global,
    enlistments: &mut Enlistments,
    number: u32,
    transaction: Id,
) -> Result<(), NoMemory>
    requires { list_all (λ other. is_before other.id (record { boot = 1; number = number })) enlistments.old.enlistments ≡ true }
    ensures { OnOk result (enlistments.new.enlistments ≡ enlistments.old.enlistments ++ enlisted number transaction [] ∷ []) }
{
    enlistments.reserve()?;
    enlistments.add(enlisted(number, transaction, Bytes::new(Vec::new(alloc))));
    Ok(())
}

/// Of three enlistments two are of the transaction that commits.
pub fn row_of_enlistments<L: Ledger>(alloc: Global, steps: &mut Steps<L>) -> Result<(), NoMemory>
    ensures { OnOk result (steps.new ≡ steps.old + 2) }
{
    let mut managers = one_manager(alloc)?;
    let mut enlistments = Enlistments::new(alloc);
    enlist(alloc, &mut enlistments, 1, ending())?;
    enlist(alloc, &mut enlistments, 2, staying())?;
    enlist(alloc, &mut enlistments, 3, ending())?;
    enlistments.tell(
        &mut managers,
        ending(),
        None,
        Who::Parts,
        Notify::Commit,
        None,
        steps,
    );
    Ok(())
}

/// Of five changes four are of the transaction that commits, in the form in which they are committed.
pub fn row_of_changes<L: Ledger>(files: &mut Files, steps: &mut Steps<L>)
    requires own { (files_of files.old).table.own ≡ changes_of_both }
    requires may { MayCommit (files_of files.old) ending }
    ensures { steps.new ≡ steps.old + 4 }
{
    finish(files, ending(), true, steps);
}

/// Of five settings four are of the transaction that commits.
pub fn row_of_settings<L: Ledger>(keys: &mut KvRm, steps: &mut Steps<L>)
    requires { keys.old.own ≡ settings_of_both }
    ensures { steps.new ≡ steps.old + 4 }
{
    finish(keys, ending(), true, steps);
}
