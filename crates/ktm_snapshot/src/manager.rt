// Durable resource managers.
ghost use Rattle.std.specs.Prelude.{◌≡◌, ◌+◌, ◌≤◌, vec_len, vec_capacity};
ghost use Rattle.ktm_codec.specs.Spans.{Adds, Reads};
ghost use Rattle.ktm_event.specs.Spelling.{IsSpellableId};
ghost use Rattle.ktm_world.specs.EventGrammar.{IsIdOf};

use ktm_base::Id;
use ktm_event::{put_id, read_id};

/// The Id of a resource manager at a place, and the place behind it.
pub fn manager_at(bytes: &[u8], at: usize) -> Option<(Id, usize)>
    ensures { Reads IsIdOf bytes.now at result }
{
    read_id(bytes, at)
}

/// Writes the Id of a resource manager at the end. It takes no memory.
pub fn put_manager(out: &mut Vec<u8>, manager: Id)
    requires id { IsSpellableId manager }
    requires room { vec_len out.old + 8 ≤ vec_capacity out.old }
    ensures adds { Adds (IsIdOf manager) out.old.items out.new.items }
    ensures len { vec_len out.new ≡ vec_len out.old + 8 }
    ensures room { vec_capacity out.old ≤ vec_capacity out.new }
{
    put_id(out, manager);
}
