// Files and directories.
ghost use Rattle.std.specs.Prelude.{◌≡◌, ◌+◌, ◌*◌, ◌<◌, ◌≤◌, ◌^◌, length, option_map, IfOk, IfSome, vec_len, vec_capacity};
ghost use Rattle.ktm_content.specs.Contents.{units_of};
ghost use Rattle.ktm_codec.specs.Spans.{Adds, Reads};
ghost use Rattle.ktm_event.specs.Reading.{Gives};
ghost use Rattle.ktm_snapshot.specs.Shown.{IsNamedPairOf, node_of, node_read};
ghost use Rattle.ktm_snapshot.specs.Sizes.{contents_size, node_size};
ghost use Rattle.ktm_snapshot.specs.StateGrammar.{IsContentsOf, IsNamedOf, IsNodeOf};

use ktm_base::{NoMemory, UNIT_BYTES};
use ktm_codec::{put_text, put_u8, put_u64, text_at, u8_at, u64_at};
use ktm_content::{Content, Placed, PlacedRef};
use ktm_event::{EventFault, pages_at, put_pages};
use std::alloc::Global;

const FILE: u8 = 0;

const DIRECTORY: u8 = 1;

/// A file or a directory whose name and contents are shown where they stand.
#[derive(Drop)]
pub struct ShownNode<'a> {
    pub number: u64,
    /// The number of the directory that it is in.
    pub parent: u64,
    pub name: &'a [u8],
    /// The contents of a file; a directory has none.
    pub content: Option<PlacedRef<'a>>,
}

/// A file or a directory that was read: its name is shown where it stands, and its contents are on the pages that are named there.
#[derive(Drop)]
pub struct ReadNode<'a> {
    pub number: u64,
    /// The number of the directory that it is in.
    pub parent: u64,
    pub name: &'a [u8],
    /// The contents of a file; a directory has none.
    pub content: Option<Placed>,
}

// Contents, lent.
fn lent(content: &Option<Placed>) -> Option<PlacedRef<'_>>
    ensures { result ≡ content.now }
{
    match content {
        Some(content) => Some(content.lend()),
        None => None,
    }
}

/// The node that was read, shown.
pub fn show<'b>(node: &'b ReadNode<'_>) -> ShownNode<'b>
    ensures { node_of result ≡ node_read node.now }
{
    ShownNode {
        number: node.number,
        parent: node.parent,
        name: node.name,
        content: lent(&node.content),
    }
}

fn contents_at(alloc: Global, bytes: &[u8], at: usize) -> Result<(Placed, usize), EventFault>
    ensures { Gives IsContentsOf bytes.now at result }
{
    let Some((size, after)) = u64_at(bytes, at) else {
        return Err(EventFault::NotAnEvent);
    };
    let (pages, end) = pages_at(alloc, bytes, after)?;
    if pages.len() as u64 != size.div_ceil(UNIT_BYTES) {
        return Err(EventFault::NotAnEvent);
    }
    Ok((Placed::new(Content::on_pages(size, pages)), end))
}

// The name, and the contents where the node is a file.
fn named_at(
    alloc: Global,
    bytes: &[u8],
    at: usize,
) -> Result<Option<((&[u8], Option<Placed>), usize)>, NoMemory>
    ensures { IfOk result (λ read. Reads IsNamedPairOf bytes.now at (option_map (λ read. ((read.0.0.now, read.0.1), read.1)) read)) }
{
    let Some((tag, after)) = u8_at(bytes, at) else {
        return Ok(None);
    };
    let Some((name, after)) = text_at(bytes, after) else {
        return Ok(None);
    };
    match tag {
        FILE => match contents_at(alloc, bytes, after) {
            Ok((contents, end)) => Ok(Some(((name, Some(contents)), end))),
            Err(EventFault::NotAnEvent) => Ok(None),
            Err(EventFault::NoMemory) => Err(NoMemory),
        },
        DIRECTORY => Ok(Some(((name, None), after))),
        _ => Ok(None),
    }
}

/// The node at a place, and the place behind it.
pub fn node_at(
    alloc: Global,
    bytes: &[u8],
    at: usize,
) -> Result<Option<(ReadNode<'_>, usize)>, NoMemory>
    ensures { IfOk result (λ read. Reads IsNodeOf bytes.now at (option_map (λ read. (node_read read.0, read.1)) read)) }
{
    let Some((number, after)) = u64_at(bytes, at) else {
        return Ok(None);
    };
    let Some((parent, after)) = u64_at(bytes, after) else {
        return Ok(None);
    };
    let Some((named, end)) = named_at(alloc, bytes, after)? else {
        return Ok(None);
    };
    let (name, content) = named;
    let node = ReadNode {
        number,
        parent,
        name,
        content,
    };
    Ok(Some((node, end)))
}

fn put_contents(out: &mut Vec<u8>, contents: &PlacedRef<'_>)
    requires few { units_of contents.now < 2 ^ 32 }
    requires room { vec_len out.old + 12 + 4 * units_of contents.now ≤ vec_capacity out.old }
    ensures adds { Adds (IsContentsOf contents.now) out.old.items out.new.items }
    ensures len { vec_len out.new ≡ vec_len out.old + 12 + 4 * units_of contents.now }
    ensures room { vec_capacity out.old ≤ vec_capacity out.new }
{
    put_u64(out, contents.len());
    put_pages(out, contents.pages());
}

fn put_named(out: &mut Vec<u8>, name: &[u8], content: &Option<PlacedRef<'_>>)
    requires short { length name.now < 2 ^ 8 }
    requires contents { IfSome content.now (λ contents. units_of contents < 2 ^ 32) }
    requires room { vec_len out.old + 2 + length name.now + contents_size content.now ≤ vec_capacity out.old }
    ensures adds { Adds (IsNamedOf name.now content.now) out.old.items out.new.items }
    ensures len { vec_len out.new ≡ vec_len out.old + 2 + length name.now + contents_size content.now }
    ensures room { vec_capacity out.old ≤ vec_capacity out.new }
{
    match content {
        Some(contents) => {
            put_u8(out, FILE);
            put_text(out, name);
            put_contents(out, contents);
        }
        None => {
            put_u8(out, DIRECTORY);
            put_text(out, name);
        }
    }
}

/// Writes the node at the end. It takes no memory.
pub fn put_node(out: &mut Vec<u8>, node: &ShownNode<'_>)
    requires name { length node.now.name.now < 2 ^ 8 }
    requires contents { IfSome node.now.content (λ contents. units_of contents < 2 ^ 32) }
    requires room { vec_len out.old + node_size (node_of node.now) ≤ vec_capacity out.old }
    ensures adds { Adds (IsNodeOf (node_of node.now)) out.old.items out.new.items }
    ensures len { vec_len out.new ≡ vec_len out.old + node_size (node_of node.now) }
    ensures room { vec_capacity out.old ≤ vec_capacity out.new }
{
    put_u64(out, node.number);
    put_u64(out, node.parent);
    put_named(out, node.name, &node.content);
}
