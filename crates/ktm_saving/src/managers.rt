// The durable resource managers.
ghost use Rattle.std.specs.Prelude.{◌≡◌, ◌+◌, ◌*◌, ◌≤◌, length, true, vec_capacity, vec_len};
ghost use Rattle.ktm_event.specs.Spelling.{IsSpellableId};
ghost use Rattle.ktm_manager.specs.Durable.{durable_in};
ghost use Rattle.ktm_snapshot.specs.StateGrammar.{AreManagersOf};
ghost use Rattle.ktm_saving.specs.Spellable.{AreSpellable};
ghost use Rattle.ktm_saving.specs.Writes.{Writes};
ghost use Rattle.ktm_world.specs.Durable.{is_before};
ghost use Rattle.txf_laws.specs.Elements.{each_pair};

use ktm_codec::put_u32;
use ktm_snapshot::{law_of_writing, put_manager};
use ktm_tm::Tm;

/// Writes the Ids of the durable resource managers, which rise, behind their count. It takes no memory.
pub(crate) fn write_managers(tm: &Tm, out: &mut Vec<u8>)
    requires spelled { AreSpellable IsSpellableId (durable_in tm.now.managers) }
    requires rise { each_pair is_before (durable_in tm.now.managers) ≡ true }
    requires room { vec_len out.old + (4 + 8 * length (durable_in tm.now.managers)) ≤ vec_capacity out.old }
    ensures { Writes (AreManagersOf (durable_in tm.now.managers)) (4 + 8 * length (durable_in tm.now.managers)) out.old out.new }
{
    law_of_writing();
    let mut managers = tm.durable_managers();
    put_u32(out, managers.len() as u32);
    'managers: while let Some(manager) = managers.next() {
        put_manager(out, manager);
    }
}
