// The whole state.
ghost use Rattle.std.specs.Prelude.{◌≤◌, vec_capacity};
ghost use Rattle.ktm_base.specs.declared.limits.TheConstants.{MOST_UNITS};
ghost use Rattle.ktm_memory.specs.Memory.{present_of};
ghost use Rattle.ktm_records.specs.Kept.{IsKept};
ghost use Rattle.ktm_records.specs.Spelling.{AreTexts};
ghost use Rattle.ktm_snapshot.specs.Sizes.{state_size};
ghost use Rattle.ktm_snapshot.specs.StateGrammar.{IsStateOf};

use crate::entries::write_entries;
use crate::managers::write_managers;
use crate::nodes::write_nodes;
use crate::transactions::write_transactions;
use ktm_memory::Memory;
use ktm_room::law_of_snapshots;
use ktm_snapshot::{StateHead, law_of_writing, put_head};

/// Writes what was recorded, by what memory holds, as a snapshot. What was there before is dropped. It takes no memory, and copies
/// each thing from where it stands.
pub fn write_state(memory: &Memory, out: &mut Vec<u8>)
    // What transactions own has a spelling where what is so now is sound, and their changes fit four bytes' counts in an image of this size.
    requires kept { IsKept (present_of memory.now) }
    requires texts { AreTexts (present_of memory.now) }
    requires small { memory.now.journal.units ≤ MOST_UNITS }
    requires room { state_size (present_of memory.now).recorded ≤ vec_capacity out.old }
    ensures state { IsStateOf (present_of memory.now).recorded out.new.items }
    ensures kept { vec_capacity out.old ≤ vec_capacity out.new }
{
    law_of_snapshots();
    law_of_writing();
    out.clear();
    let head = StateHead {
        events: memory.journal().events(),
        boots: memory.tm().boot(),
        next_node: memory.next_node(),
    };
    put_head(out, head);
    write_nodes(memory.files().tree(), out);
    write_entries(memory.keys().store(), out);
    write_managers(memory.tm(), out);
    write_transactions(memory, out);
}
