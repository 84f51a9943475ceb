// Nodes as they lie in a snapshot.
ghost use Rattle.std.specs.Prelude.{◌≡◌, ◌++◌, ◌∷◌, [], IfOk, IfSome, length, map, option_map, true};
ghost use Rattle.ktm_codec.specs.Spans.{Reads};
ghost use Rattle.ktm_snapshot.specs.Shown.{node_of};
ghost use Rattle.ktm_snapshot.specs.StateGrammar.{AreNodesOf};
ghost use Rattle.ktm_world.specs.Tree.{node_at, numbers_rise};
ghost use Rattle.txf_saved.specs.Making.{nodes_of};

use ktm_base::NoMemory;
use ktm_codec::u32_at;
use ktm_snapshot::{ReadNode, ShownNode, law_of_order, law_of_reading, node_at, show};
use std::alloc::Global;

// Does a node come behind those before it.
fn comes_behind(nodes: &[ReadNode], node: &ReadNode) -> bool
    requires { numbers_rise (nodes_of nodes.now) ≡ true }
    ensures { result ≡ numbers_rise (nodes_of (nodes.now ++ node.now ∷ [])) }
{
    law_of_order();
    match nodes.last() {
        Some(last) => last.number < node.number,
        None => true,
    }
}

/// The nodes at a place, and the place behind them.
pub(crate) fn nodes_at(
    alloc: Global,
    bytes: &[u8],
    at: usize,
) -> Result<Option<(Vec<ReadNode<'_>>, usize)>, NoMemory>
    ensures { IfOk result (λ read. Reads AreNodesOf bytes.now at (option_map (λ read. (nodes_of read.0.items, read.1)) read)) }
{
    law_of_reading();
    let Some((count, start)) = u32_at(bytes, at) else {
        return Ok(None);
    };
    let mut nodes = Vec::new(alloc);
    let mut end = start;
    'nodes: for _ in 0..count {
        let Some((node, next)) = node_at(alloc, bytes, end)? else {
            return Ok(None);
        };
        if !comes_behind(&nodes, &node) {
            return Ok(None);
        }
        nodes.push(node)?;
        end = next;
    }
    Ok(Some((nodes, end)))
}

/// The node with the number, by halves, shown.
pub(crate) fn find<'b>(nodes: &'b [ReadNode<'_>], number: u64) -> Option<ShownNode<'b>>
    requires { numbers_rise (nodes_of nodes.now) ≡ true }
    ensures { option_map node_of result ≡ node_at (nodes_of nodes.now) number }
{
    match nodes.binary_search_by(|node| node.number.cmp(&number)) {
        Ok(place) => Some(show(&nodes[place])),
        Err(_) => None,
    }
}
