// The transaction manager of a machine that starts.
ghost use Rattle.std.specs.Prelude.{◌≡◌, ◌+◌, ◌++◌, ◌∷◌, ◌*◌, ◌≤◌, [], true, IfOk, OnOk, filter, length, map};
ghost use Rattle.std.specs.List.{list_all};
ghost use Rattle.ktm_world.specs.Durable.{is_before};
ghost use Rattle.ktm_world.specs.World.{is_brought_back, transaction_back};
ghost use Rattle.txf_laws.specs.Elements.{each_pair};
ghost use Rattle.ktm_enlist.specs.Telling.{has_manager};
ghost use Rattle.ktm_tm.specs.TmState.{KeepsManaging};
ghost use Rattle.ktm_back.specs.Bringing.{CanComeBack, HasComeBack, is_of_earlier, manager_back};

use crate::enlistments::enlistments_back;
use crate::transactions::{is_brought_back, transaction_back};
use ktm_base::{Id, NoMemory};
use ktm_phase::Enlistment;
use ktm_tm::Tm;
use ktm_world::Recorded;
use std::alloc::Global;

// Brings the durable resource managers back.
fn bring_managers(tm: &mut Tm, managers: &[Id]) -> Result<(), NoMemory>
    requires none { tm.old.managers ≡ [] }
    requires rise { each_pair is_before managers.now ≡ true }
    requires earlier { list_all (is_of_earlier tm.old.boot) managers.now ≡ true }
    ensures boot { tm.new.boot ≡ tm.old.boot }
    ensures now { tm.new.now ≡ tm.old.now }
    ensures managers { OnOk result (tm.new.managers ≡ map manager_back managers.now) }
{
    for id in managers {
        tm.reserve_manager()?;
        tm.bring_back_manager(*id);
    }
    Ok(())
}

// Brings a transaction back, behind the others, if it is one that comes back.
fn bring_if_back(tm: &mut Tm, t: &Recorded) -> Result<(), NoMemory>
    requires first { tm.old.now.last_transaction ≡ 0 }
    requires earlier { is_of_earlier tm.old.boot t.now.id ≡ true }
    requires behind { is_brought_back t.now ≡ true → list_all (λ other. is_before other.id t.now.id) tm.old.now.items ≡ true }
    ensures boot { tm.new.boot ≡ tm.old.boot }
    ensures now { OnOk result (tm.new.now ≡ record tm.old.now { items = tm.old.now.items ++ map transaction_back (filter is_brought_back (t.now ∷ [])) }) }
    ensures rest { KeepsManaging tm.old tm.new }
{
    if is_brought_back(t) {
        tm.reserve()?;
        tm.bring_back(transaction_back(t));
    }
    Ok(())
}

// Brings the transactions back that come back.
fn bring_transactions(tm: &mut Tm, transactions: &[Recorded]) -> Result<(), NoMemory>
    requires none { tm.old.now.items ≡ [] }
    requires first { tm.old.now.last_transaction ≡ 0 }
    requires rise { each_pair (λ t u. is_before t.id u.id) transactions.now ≡ true }
    requires earlier { list_all (λ t. is_of_earlier tm.old.boot t.id) transactions.now ≡ true }
    ensures boot { tm.new.boot ≡ tm.old.boot }
    ensures now { OnOk result (tm.new.now ≡ record tm.old.now { items = map transaction_back (filter is_brought_back transactions.now) }) }
    ensures rest { KeepsManaging tm.old tm.new }
{
    for t in transactions {
        bring_if_back(tm, t)?;
    }
    Ok(())
}

// Brings the enlistments back, with room for five notifications of each.
fn bring_enlistments(tm: &mut Tm, enlistments: Vec<Enlistment>) -> Result<(), NoMemory>
    requires none { tm.old.now.enlistments ≡ [] }
    requires rise { each_pair (λ e f. is_before e.id f.id) enlistments.items ≡ true }
    requires earlier { list_all (λ e. is_of_earlier tm.old.boot e.id) enlistments.items ≡ true }
    requires there { list_all (has_manager tm.old.managers) enlistments.items ≡ true }
    ensures boot { tm.new.boot ≡ tm.old.boot }
    ensures now { OnOk result (tm.new.now ≡ record tm.old.now { enlistments = enlistments.items }) }
    ensures managers { tm.new.managers ≡ tm.old.managers }
    ensures slots { OnOk result (tm.old.slots + 5 * length enlistments.items ≤ tm.new.slots) }
{
    for e in enlistments {
        tm.reserve_enlistment()?;
        tm.bring_back_enlistment(e);
    }
    Ok(())
}

/// The transaction manager at the start of this boot: all that comes back of what was recorded, and room for five
/// notifications of each enlistment.
pub fn start(
    alloc: Global,
    boot: u32,
    managers: &[Id],
    transactions: &[Recorded],
) -> Result<Tm, NoMemory>
    requires { CanComeBack boot managers.now transactions.now }
    ensures { IfOk result (HasComeBack boot managers.now transactions.now) }
{
    let enlistments = enlistments_back(alloc, transactions)?;
    let mut tm = Tm::new(alloc, boot);
    bring_managers(&mut tm, managers)?;
    bring_transactions(&mut tm, transactions)?;
    bring_enlistments(&mut tm, enlistments)?;
    Ok(tm)
}
