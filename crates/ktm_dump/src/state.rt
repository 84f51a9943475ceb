// The lines of a whole state.
ghost use Rattle.std.specs.Prelude.{◌++◌, OnOk, OnErr, flat_map};
ghost use Rattle.std.specs.Io.KnownBytes.{Appends};
ghost use Rattle.ktm_base.specs.Stream.{Faults};
ghost use Rattle.ktm_dump.specs.Text.{head_line, key_line, manager_line, node_line, state_text, transaction_lines};
ghost use Rattle.ktm_dump.specs.Written.{AppendsPart, Puts, out};
ghost use Rattle.txf_tree.specs.TreeState.{tree_of};

use crate::line::{put_head, put_key, put_manager, put_node, put_transaction};
use crate::waiting::flush;
use ktm_base::{Bytes, Failed, Id, Sink};
use ktm_keyed::Keyed;
use ktm_restart::{Durable, DurableParts};
use ktm_world::Recorded;
use txf_tree::Tree;

fn put_managers<K: Sink>(
    sink: &mut K,
    waiting: &mut Vec<u8>,
    image: u16,
    managers: &[Id],
) -> Result<(), Failed>
    ensures { Puts (out (K.taken sink.old) (K.faults sink.old) waiting.old.items) (out (K.taken sink.new) (K.faults sink.new) waiting.new.items) (flat_map (manager_line image) managers.now) result }
{
    for manager in managers {
        if let Err(Failed) = put_manager(sink, waiting, image, *manager) {
            return Err(Failed);
        }
    }
    Ok(())
}

fn put_transactions<K: Sink>(
    sink: &mut K,
    waiting: &mut Vec<u8>,
    image: u16,
    transactions: &[Recorded],
) -> Result<(), Failed>
    ensures { Puts (out (K.taken sink.old) (K.faults sink.old) waiting.old.items) (out (K.taken sink.new) (K.faults sink.new) waiting.new.items) (flat_map (transaction_lines image) transactions.now) result }
{
    for transaction in transactions {
        if let Err(Failed) = put_transaction(sink, waiting, image, transaction) {
            return Err(Failed);
        }
    }
    Ok(())
}

fn put_nodes<K: Sink>(sink: &mut K, waiting: &mut Vec<u8>, tree: &Tree) -> Result<(), Failed>
    ensures { Puts (out (K.taken sink.old) (K.faults sink.old) waiting.old.items) (out (K.taken sink.new) (K.faults sink.new) waiting.new.items) (flat_map (node_line (tree_of tree.now)) (tree_of tree.now)) result }
{
    let mut nodes = tree.nodes();
    'lines: while let Some(node) = nodes.next() {
        if let Err(Failed) = put_node(sink, waiting, tree, node) {
            return Err(Failed);
        }
    }
    Ok(())
}

fn put_keys<K: Sink>(
    sink: &mut K,
    waiting: &mut Vec<u8>,
    keys: &[Keyed<Bytes>],
) -> Result<(), Failed>
    ensures { Puts (out (K.taken sink.old) (K.faults sink.old) waiting.old.items) (out (K.taken sink.new) (K.faults sink.new) waiting.new.items) (flat_map key_line keys.now) result }
{
    for item in keys {
        if let Err(Failed) = put_key(sink, waiting, item) {
            return Err(Failed);
        }
    }
    Ok(())
}

// Puts the lines that come before those of nodes.
fn put_front<K: Sink>(sink: &mut K, waiting: &mut Vec<u8>, state: &Durable) -> Result<(), Failed>
    ensures { Puts (out (K.taken sink.old) (K.faults sink.old) waiting.old.items) (out (K.taken sink.new) (K.faults sink.new) waiting.new.items)
        (head_line state.now ++ flat_map (manager_line state.now.image) state.now.managers ++ flat_map (transaction_lines state.now.image) state.now.transactions) result }
{
    if let Err(Failed) = put_head(sink, waiting, state) {
        return Err(Failed);
    }
    if let Err(Failed) = put_managers(sink, waiting, state.image(), state.managers()) {
        return Err(Failed);
    }
    if let Err(Failed) = put_transactions(sink, waiting, state.image(), state.transactions()) {
        return Err(Failed);
    }
    Ok(())
}

/// Writes the text of the state. It is collected in the room, whose bytes are dropped before, and written where that is
/// full; no memory is taken.
pub fn write_state<K: Sink>(sink: &mut K, room: &mut Vec<u8>, state: Durable) -> Result<(), Failed>
    ensures ok { OnOk result (Appends (K.taken sink.old) (K.taken sink.new) (state_text state)) }
    ensures err { OnErr result (AppendsPart (K.taken sink.old) (K.taken sink.new) (state_text state)) }
    ensures faults { Faults (K.faults sink.old) (K.faults sink.new) result }
{
    room.clear();
    if let Err(Failed) = put_front(sink, room, &state) {
        drop(state);
        return Err(Failed);
    }
    let DurableParts { files, keys, .. } = state.into_parts();
    if let Err(Failed) = put_nodes(sink, room, &files.tree) {
        return Err(Failed);
    }
    if let Err(Failed) = put_keys(sink, room, keys.as_slice()) {
        return Err(Failed);
    }
    if let Err(Failed) = flush(sink, room) {
        return Err(Failed);
    }
    Ok(())
}
