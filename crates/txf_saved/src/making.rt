// Nodes are made, each behind the directory that it is in.
ghost use Rattle.std.specs.Prelude.{◌≡◌, ◌+◌, ℕ, [], Ok, Some, IfOk, IfSome, MatchOption, false, max, true};
ghost use Rattle.ktm_world.specs.declared.recorded.Node.{Node};
ghost use Rattle.ktm_snapshot.specs.Shown.{node_of};
ghost use Rattle.ktm_world.specs.Changes.{applies};
ghost use Rattle.ktm_world.specs.Tree.{Tree, is_there, node_at, numbers_rise, with_node};
ghost use Rattle.txf_saved.specs.Making.{make_of, nodes_of, AreAll, Awaits, IsWayMade, LeadsTo};
ghost use Rattle.txf_saved.specs.Saved.{AreFiles};
ghost use Rattle.txf_tree.specs.TreeState.{tree_of};

use crate::listed::find;
use ktm_base::{NoMemory, Text};
use ktm_content::Placed;
use ktm_names::ROOT;
use ktm_snapshot::{ReadNode, ShownNode};
use ktm_world::{Change, Contents, NodeKind, law_of_paths};
use std::alloc::Global;
use txf_durable::DurableFiles;

// Is there a node with the number; the root always is.
fn is_there(files: &DurableFiles, number: u64) -> bool
    ensures { result ≡ is_there (tree_of files.now.tree) number }
{
    number == ROOT || files.tree().node(number).is_some()
}

// The change that makes a node, without its contents.
fn make_of(alloc: Global, node: &ShownNode) -> Result<Change, NoMemory>
    ensures { IfOk result (λ change. change ≡ make_of (node_of node.now)) }
{
    let name = Text::new(node.name.to_vec(alloc)?);
    Ok(Change::Make {
        node: node.number,
        parent: node.parent,
        kind: match node.content {
            Some(_) => NodeKind::File,
            None => NodeKind::Directory,
        },
        name,
    })
}

// Makes a node with its contents, if its place and its number are free, and tells whether that is so.
fn make_node(alloc: Global, files: &mut DurableFiles, node: &ShownNode) -> Result<bool, NoMemory>
    ensures made { result ≡ Ok true → (applies (tree_of files.old.tree) (make_of (node_of node.now)) ≡ true) × (tree_of files.new.tree ≡ with_node (tree_of files.old.tree) (node_of node.now)) × (files.new.next_node ≡ max files.old.next_node (node.now.number + 1)) }
    ensures not_made { result ≡ Ok false → applies (tree_of files.old.tree) (make_of (node_of node.now)) ≡ false }
{
    let make = make_of(alloc, node)?;
    if !files.commit_one(make)? {
        return Ok(false);
    }
    let Some(contents) = &node.content else {
        return Ok(true);
    };
    let contents = Placed::new(contents.copy(alloc)?);
    files.commit_one(Change::Put {
        node: node.number,
        offset: 0,
        contents: Contents::Whole(contents),
    })
}

// Puts the node with the number onto the way, and those that it is in, up to the first that is in the files, and tells whether
// there is one.
fn climb<'b>(
    files: &DurableFiles,
    nodes: &'b [ReadNode<'_>],
    number: u64,
    way: &mut Vec<ShownNode<'b>>,
) -> Result<bool, NoMemory>
    requires rise { numbers_rise (nodes_of nodes.now) ≡ true }
    requires known { (x : Node) × (node_at (nodes_of nodes.now) number ≡ Some x) }
    requires none { way.old.items ≡ [] }
    ensures leads { result ≡ Ok true → LeadsTo (nodes_of nodes.now) (tree_of files.now.tree) number way.new.items }
    ensures astray { result ≡ Ok false → AreFiles (nodes_of nodes.now) → ⊥ }
{
    let mut top = number;
    'up: for _ in 0..nodes.len() + 1 {
        if is_there(files, top) {
            return Ok(true);
        }
        let Some(node) = find(nodes, top) else {
            return Ok(false);
        };
        top = node.parent;
        way.push(node)?;
    }
    Ok(false)
}

// Makes the nodes of a way, the last one first, and tells whether all could be made.
fn make_way(
    alloc: Global,
    files: &mut DurableFiles,
    way: &mut Vec<ShownNode>,
) -> Result<bool, NoMemory>
    ensures made { result ≡ Ok true → (nodes : Tree) (number : ℕ) → Awaits nodes number files.old way.old.items → IsWayMade nodes number files.old files.new }
    ensures empty { result ≡ Ok true → way.new.items ≡ [] }
    ensures not_made { result ≡ Ok false → (nodes : Tree) (number : ℕ) → Awaits nodes number files.old way.old.items → AreFiles nodes → ⊥ }
{
    law_of_paths();
    'down: while let Some(node) = way.pop() {
        files.law_of_forms();
        if !make_node(alloc, files, &node)? {
            return Ok(false);
        }
    }
    Ok(true)
}

/// Files of these nodes, if they are such as files can have.
pub(crate) fn make_all(alloc: Global, nodes: &[ReadNode]) -> Result<Option<DurableFiles>, NoMemory>
    requires { numbers_rise (nodes_of nodes.now) ≡ true }
    ensures { IfOk result (λ made. MatchOption made (AreFiles (nodes_of nodes.now) → ⊥) (λ files. AreAll (nodes_of nodes.now) files)) }
{
    let mut files = DurableFiles::new(alloc);
    let mut way = Vec::new(alloc);
    'nodes: for node in nodes {
        if node.number == ROOT {
            return Ok(None);
        }
        if !climb(&files, nodes, node.number, &mut way)? {
            return Ok(None);
        }
        if !make_way(alloc, &mut files, &mut way)? {
            return Ok(None);
        }
    }
    files.law_of_forms();
    Ok(Some(files))
}
