// The lines of the text, each for one thing of a state.
ghost use Rattle.std.specs.Prelude.{◌≡◌, ◌++◌, decimal, length};
ghost use Rattle.ktm_codec.specs.Quoted.{quoted};
ghost use Rattle.ktm_dump.specs.Text.{counts_line, guid_line, head_line, key_line, kind_word, manager_line, node_line, path_up, size_word, transaction_lines};
ghost use Rattle.ktm_dump.specs.Written.{Puts, out};
ghost use Rattle.txf_tree.specs.Children.{node_seen};
ghost use Rattle.txf_tree.specs.TreeState.{tree_of};

use crate::value::{put_guid, put_hex_or_dash, put_number};
use crate::waiting::put;
use ktm_base::{Bytes, Failed, Id, ObjectKind, Sink, guid};
use ktm_keyed::Keyed;
use ktm_restart::Durable;
use ktm_world::{Recorded, Stage};
use txf_tree::{NodeRef, Tree};
use uuid::Uuid;

/// The layout of the images that the system reads and writes, as their header says it.
pub const LAYOUT: u64 = 3;

// Puts a word and a number.
fn put_count<K: Sink>(
    sink: &mut K,
    waiting: &mut Vec<u8>,
    word: &[u8],
    number: u64,
) -> Result<(), Failed>
    ensures { Puts (out (K.taken sink.old) (K.faults sink.old) waiting.old.items) (out (K.taken sink.new) (K.faults sink.new) waiting.new.items) (word.now ++ decimal number) result }
{
    if let Err(Failed) = put(sink, waiting, word) {
        return Err(Failed);
    }
    if let Err(Failed) = put_number(sink, waiting, number) {
        return Err(Failed);
    }
    Ok(())
}

// Puts the first line, of these numbers.
fn put_counts<K: Sink>(
    sink: &mut K,
    waiting: &mut Vec<u8>,
    layout: u64,
    units: u64,
    events: u64,
    boots: u64,
) -> Result<(), Failed>
    ensures { Puts (out (K.taken sink.old) (K.faults sink.old) waiting.old.items) (out (K.taken sink.new) (K.faults sink.new) waiting.new.items) (counts_line layout units events boots) result }
{
    if let Err(Failed) = put_count(sink, waiting, b"layout=", layout) {
        return Err(Failed);
    }
    if let Err(Failed) = put_count(sink, waiting, b" units=", units) {
        return Err(Failed);
    }
    if let Err(Failed) = put_count(sink, waiting, b" events=", events) {
        return Err(Failed);
    }
    if let Err(Failed) = put_count(sink, waiting, b" boots=", boots) {
        return Err(Failed);
    }
    if let Err(Failed) = put(sink, waiting, b"\n") {
        return Err(Failed);
    }
    Ok(())
}

/// Puts the first line.
pub fn put_head<K: Sink>(sink: &mut K, waiting: &mut Vec<u8>, state: &Durable) -> Result<(), Failed>
    ensures { Puts (out (K.taken sink.old) (K.faults sink.old) waiting.old.items) (out (K.taken sink.new) (K.faults sink.new) waiting.new.items) (head_line state.now) result }
{
    put_counts(
        sink,
        waiting,
        LAYOUT,
        u64::from(state.units()),
        state.events(),
        u64::from(state.boots()),
    )
}

// Puts a line of a word and a GUID.
fn put_guid_line<K: Sink>(
    sink: &mut K,
    waiting: &mut Vec<u8>,
    word: &[u8],
    guid: &Uuid,
) -> Result<(), Failed>
    ensures { Puts (out (K.taken sink.old) (K.faults sink.old) waiting.old.items) (out (K.taken sink.new) (K.faults sink.new) waiting.new.items) (guid_line word.now guid.now) result }
{
    if let Err(Failed) = put(sink, waiting, word) {
        return Err(Failed);
    }
    if let Err(Failed) = put_guid(sink, waiting, guid) {
        return Err(Failed);
    }
    if let Err(Failed) = put(sink, waiting, b"\n") {
        return Err(Failed);
    }
    Ok(())
}

/// Puts the line of a resource manager of the image with this number.
pub fn put_manager<K: Sink>(
    sink: &mut K,
    waiting: &mut Vec<u8>,
    image: u16,
    manager: Id,
) -> Result<(), Failed>
    ensures { Puts (out (K.taken sink.old) (K.faults sink.old) waiting.old.items) (out (K.taken sink.new) (K.faults sink.new) waiting.new.items) (manager_line image manager) result }
{
    let guid = guid(ObjectKind::Manager, image, manager);
    put_guid_line(sink, waiting, b"rm ", &guid)
}

/// Puts the line of a transaction of the image with this number; one that is ready has none.
pub fn put_transaction<K: Sink>(
    sink: &mut K,
    waiting: &mut Vec<u8>,
    image: u16,
    transaction: &Recorded,
) -> Result<(), Failed>
    ensures { Puts (out (K.taken sink.old) (K.faults sink.old) waiting.old.items) (out (K.taken sink.new) (K.faults sink.new) waiting.new.items) (transaction_lines image transaction.now) result }
{
    let guid = guid(ObjectKind::Transaction, image, transaction.id);
    match transaction.stage {
        Stage::Ready => Ok(()),
        Stage::Held => put_guid_line(sink, waiting, b"held ", &guid),
        Stage::Decided => put_guid_line(sink, waiting, b"committing ", &guid),
    }
}

// Puts the path of a node, by the way up to the root, of at most so many nodes.
fn put_path<K: Sink>(
    sink: &mut K,
    waiting: &mut Vec<u8>,
    tree: &Tree,
    most: usize,
    number: u64,
) -> Result<(), Failed>
    ensures { Puts (out (K.taken sink.old) (K.faults sink.old) waiting.old.items) (out (K.taken sink.new) (K.faults sink.new) waiting.new.items) (path_up (tree_of tree.now) most number) result }
{
    if most == 0 {
        return Ok(());
    }
    let Some(node) = tree.node(number) else {
        return Ok(());
    };
    if let Err(Failed) = put_path(sink, waiting, tree, most - 1, node.parent) {
        return Err(Failed);
    }
    if let Err(Failed) = put(sink, waiting, b"\\") {
        return Err(Failed);
    }
    if let Err(Failed) = put(sink, waiting, node.name) {
        return Err(Failed);
    }
    Ok(())
}

// What a node is.
fn kind_word(node: &NodeRef<'_>) -> &'static [u8]
    ensures { result.now ≡ kind_word (node_seen node.now).content }
{
    match &node.content {
        None => b"dir ",
        Some(_) => b"file ",
    }
}

// Puts how many bytes a file has.
fn put_size<K: Sink>(sink: &mut K, waiting: &mut Vec<u8>, node: &NodeRef<'_>) -> Result<(), Failed>
    ensures { Puts (out (K.taken sink.old) (K.faults sink.old) waiting.old.items) (out (K.taken sink.new) (K.faults sink.new) waiting.new.items) (size_word (node_seen node.now).content) result }
{
    match &node.content {
        None => Ok(()),
        Some(bytes) => put_count(sink, waiting, b" ", bytes.len()),
    }
}

// Puts the path of a node between quotation marks.
fn put_quoted_path<K: Sink>(
    sink: &mut K,
    waiting: &mut Vec<u8>,
    tree: &Tree,
    number: u64,
) -> Result<(), Failed>
    ensures { Puts (out (K.taken sink.old) (K.faults sink.old) waiting.old.items) (out (K.taken sink.new) (K.faults sink.new) waiting.new.items) (quoted (path_up (tree_of tree.now) (length (tree_of tree.now)) number)) result }
{
    if let Err(Failed) = put(sink, waiting, b"\"") {
        return Err(Failed);
    }
    if let Err(Failed) = put_path(sink, waiting, tree, tree.len(), number) {
        return Err(Failed);
    }
    if let Err(Failed) = put(sink, waiting, b"\"") {
        return Err(Failed);
    }
    Ok(())
}

/// Puts the line of a node of the tree.
pub fn put_node<K: Sink>(
    sink: &mut K,
    waiting: &mut Vec<u8>,
    tree: &Tree,
    node: NodeRef<'_>,
) -> Result<(), Failed>
    ensures { Puts (out (K.taken sink.old) (K.faults sink.old) waiting.old.items) (out (K.taken sink.new) (K.faults sink.new) waiting.new.items) (node_line (tree_of tree.now) (node_seen node.entry)) result }
{
    if let Err(Failed) = put(sink, waiting, kind_word(&node)) {
        return Err(Failed);
    }
    if let Err(Failed) = put_quoted_path(sink, waiting, tree, node.number) {
        return Err(Failed);
    }
    if let Err(Failed) = put_size(sink, waiting, &node) {
        return Err(Failed);
    }
    if let Err(Failed) = put(sink, waiting, b"\n") {
        return Err(Failed);
    }
    Ok(())
}

// Puts a text between quotation marks.
fn put_quoted<K: Sink>(sink: &mut K, waiting: &mut Vec<u8>, text: &[u8]) -> Result<(), Failed>
    ensures { Puts (out (K.taken sink.old) (K.faults sink.old) waiting.old.items) (out (K.taken sink.new) (K.faults sink.new) waiting.new.items) (quoted text.now) result }
{
    if let Err(Failed) = put(sink, waiting, b"\"") {
        return Err(Failed);
    }
    if let Err(Failed) = put(sink, waiting, text) {
        return Err(Failed);
    }
    if let Err(Failed) = put(sink, waiting, b"\"") {
        return Err(Failed);
    }
    Ok(())
}

/// Puts the line of a key.
pub fn put_key<K: Sink>(
    sink: &mut K,
    waiting: &mut Vec<u8>,
    item: &Keyed<Bytes>,
) -> Result<(), Failed>
    ensures { Puts (out (K.taken sink.old) (K.faults sink.old) waiting.old.items) (out (K.taken sink.new) (K.faults sink.new) waiting.new.items) (key_line item.now) result }
{
    if let Err(Failed) = put(sink, waiting, b"key ") {
        return Err(Failed);
    }
    if let Err(Failed) = put_quoted(sink, waiting, item.key.as_slice()) {
        return Err(Failed);
    }
    if let Err(Failed) = put(sink, waiting, b" ") {
        return Err(Failed);
    }
    if let Err(Failed) = put_hex_or_dash(sink, waiting, item.value.as_slice()) {
        return Err(Failed);
    }
    if let Err(Failed) = put(sink, waiting, b"\n") {
        return Err(Failed);
    }
    Ok(())
}
