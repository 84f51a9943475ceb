// The durable resource managers of a snapshot.
ghost use Rattle.std.specs.Prelude.{◌≡◌, ◌++◌, ◌∷◌, [], IfOk, OnOk, option_map, true};
ghost use Rattle.ktm_saved.specs.Reading.{AreGoodManagers, ReadsGood, are_good_managers};
ghost use Rattle.ktm_snapshot.specs.StateGrammar.{AreManagersOf};
ghost use Rattle.ktm_world.specs.Durable.{is_before};
ghost use Rattle.txf_laws.specs.Elements.{each_pair};

use crate::enlisted::is_drawn;
use ktm_base::{Id, MOST_LIVE, NoMemory};
use ktm_codec::u32_at;
use ktm_snapshot::{is_id_before, law_of_order, manager_at};
use ktm_waiting::Managers;
use std::alloc::Global;

// Does a manager come behind those before it.
fn comes_behind(managers: &[Id], manager: Id) -> bool
    requires { each_pair is_before managers.now ≡ true }
    ensures { result ≡ each_pair is_before (managers.now ++ manager ∷ []) }
{
    law_of_order();
    match managers.last() {
        Some(last) => is_id_before(*last, manager),
        None => true,
    }
}

// May a manager stand behind those before it.
fn may_follow(managers: &[Id], manager: Id, boots: u32) -> bool
    requires { are_good_managers boots managers.now ≡ true }
    ensures { result ≡ are_good_managers boots (managers.now ++ manager ∷ []) }
{
    managers.len() < MOST_LIVE && is_drawn(boots, manager) && comes_behind(managers, manager)
}

/// The durable resource managers that stand at a place of a snapshot, and the place behind them. None are there where none are
/// spelled, where they are too many, or where the Id of one was not drawn in one of so many boots.
pub(crate) fn read_managers(
    alloc: Global,
    bytes: &[u8],
    at: usize,
    boots: u32,
) -> Result<Option<(Managers, usize)>, NoMemory>
    ensures { IfOk result (λ read. ReadsGood AreManagersOf (AreGoodManagers boots) bytes.now at (option_map (λ read. (read.0.managers, read.1)) read)) }
{
    let Some((count, start)) = u32_at(bytes, at) else {
        return Ok(None);
    };
    let mut managers = Managers::new(alloc);
    let mut end = start;
    'managers: for _ in 0..count {
        let Some((manager, next)) = manager_at(bytes, end) else {
            return Ok(None);
        };
        if !may_follow(managers.as_slice(), manager, boots) {
            return Ok(None);
        }
        managers.add(manager)?;
        end = next;
    }
    Ok(Some((managers, end)))
}
