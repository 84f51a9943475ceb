// Changes, each a tag and its fields.
ghost use Rattle.std.specs.Prelude.{◌≡◌, ◌+◌, ◌<◌, ◌≤◌, ◌^◌, [], All, length, sum_by, OnErr, OnOk, vec_len, vec_capacity};
ghost use Rattle.ktm_base.specs.Grammar.{IsListOf, IsRow, IsU32};
ghost use Rattle.ktm_codec.specs.Spans.{Adds};
ghost use Rattle.ktm_world.specs.EventGrammar.{IsChangeOf, IsKindOf, IsPutOf};
ghost use Rattle.ktm_world.specs.Sizes.{change_size, pages_size, put_size};
ghost use Rattle.ktm_world.specs.declared.change.Change.TheVariants.{Cut, Drop, Make, Move, Put};
ghost use Rattle.ktm_world.specs.declared.change.Contents.TheVariants.{Paged};
ghost use Rattle.ktm_event.specs.Reading.{Behind, Gives};
ghost use Rattle.ktm_event.specs.Spelling.{AreSpellableChanges, AreSpellablePages, IsRecordableChange, IsSpellableChange, IsSpellableContents, StandOnPages};

use crate::EventFault;
use crate::field::{count_at, name_at, number_at, tag_at};
use ktm_base::{NoMemory, PageList};
use ktm_codec::{put_text, put_u8, put_u32, put_u64};
use ktm_world::{Change, Changes, Contents, NodeKind};
use std::alloc::Global;

const MAKE: u8 = 1;

const PUT: u8 = 2;

const CUT: u8 = 3;

const MOVE: u8 = 4;

const DROP: u8 = 5;

const FILE: u8 = 0;

const DIRECTORY: u8 = 1;

fn kind_at(bytes: &[u8], at: usize) -> Result<(NodeKind, usize), EventFault>
    ensures { Gives IsKindOf bytes.now at result }
{
    let (tag, end) = tag_at(bytes, at)?;
    match tag {
        FILE => Ok((NodeKind::File, end)),
        DIRECTORY => Ok((NodeKind::Directory, end)),
        _ => Err(EventFault::NotAnEvent),
    }
}

/// The numbers of pages at a place, behind their count, and the place behind them.
pub fn pages_at(alloc: Global, bytes: &[u8], at: usize) -> Result<(PageList, usize), EventFault>
    ensures { Gives (IsListOf IsU32) bytes.now at result }
{
    let (count, start) = count_at(bytes, at)?;
    let mut pages = Vec::new(alloc);
    let mut end = start;
    'pages: for _ in 0..count {
        let (page, next) = count_at(bytes, end)?;
        pages.push(page)?;
        end = next;
    }
    Ok((PageList::new(pages), end))
}

fn contents_at(alloc: Global, bytes: &[u8], at: usize) -> Result<(Contents, usize), EventFault>
    ensures { Gives IsPutOf bytes.now at result }
{
    let (len, after) = count_at(bytes, at)?;
    if len == 0 {
        return Err(EventFault::NotAnEvent);
    }
    let (pages, end) = pages_at(alloc, bytes, after)?;
    Ok((Contents::Paged { len, pages }, end))
}

// Each of these reads the fields of a change, behind its tag.

fn make_at(alloc: Global, bytes: &[u8], at: usize) -> Result<(Change, usize), EventFault>
    ensures { Gives (Behind IsChangeOf 1) bytes.now at result }
{
    let (node, after) = number_at(bytes, at)?;
    let (parent, after) = number_at(bytes, after)?;
    let (kind, after) = kind_at(bytes, after)?;
    let (name, end) = name_at(alloc, bytes, after)?;
    let change = Change::Make {
        node,
        parent,
        kind,
        name,
    };
    Ok((change, end))
}

fn put_at(alloc: Global, bytes: &[u8], at: usize) -> Result<(Change, usize), EventFault>
    ensures { Gives (Behind IsChangeOf 2) bytes.now at result }
{
    let (node, after) = number_at(bytes, at)?;
    let (offset, after) = number_at(bytes, after)?;
    let (contents, end) = contents_at(alloc, bytes, after)?;
    let change = Change::Put {
        node,
        offset,
        contents,
    };
    Ok((change, end))
}

fn cut_at(alloc: Global, bytes: &[u8], at: usize) -> Result<(Change, usize), EventFault>
    ensures { Gives (Behind IsChangeOf 3) bytes.now at result }
{
    let (node, after) = number_at(bytes, at)?;
    let (size, after) = number_at(bytes, after)?;
    let (pages, end) = pages_at(alloc, bytes, after)?;
    Ok((Change::Cut { node, size, pages }, end))
}

fn move_at(alloc: Global, bytes: &[u8], at: usize) -> Result<(Change, usize), EventFault>
    ensures { Gives (Behind IsChangeOf 4) bytes.now at result }
{
    let (node, after) = number_at(bytes, at)?;
    let (parent, after) = number_at(bytes, after)?;
    let (name, end) = name_at(alloc, bytes, after)?;
    Ok((Change::Move { node, parent, name }, end))
}

fn drop_at(bytes: &[u8], at: usize) -> Result<(Change, usize), EventFault>
    ensures { Gives (Behind IsChangeOf 5) bytes.now at result }
{
    let (node, end) = number_at(bytes, at)?;
    Ok((Change::Drop { node }, end))
}

#[inline(always)]
pub(crate) fn change_at(
    alloc: Global,
    bytes: &[u8],
    at: usize,
) -> Result<(Change, usize), EventFault>
    ensures { Gives IsChangeOf bytes.now at result }
{
    let (tag, after) = tag_at(bytes, at)?;
    match tag {
        MAKE => make_at(alloc, bytes, after),
        PUT => put_at(alloc, bytes, after),
        CUT => cut_at(alloc, bytes, after),
        MOVE => move_at(alloc, bytes, after),
        DROP => drop_at(bytes, after),
        _ => Err(EventFault::NotAnEvent),
    }
}

pub(crate) fn changes_at(
    alloc: Global,
    bytes: &[u8],
    at: usize,
) -> Result<(Changes, usize), EventFault>
    ensures { Gives (IsListOf IsChangeOf) bytes.now at result }
{
    let (count, start) = count_at(bytes, at)?;
    let mut changes = Vec::new(alloc);
    let mut end = start;
    'changes: for _ in 0..count {
        let (change, next) = change_at(alloc, bytes, end)?;
        changes.push(change)?;
        end = next;
    }
    Ok((Changes::new(changes), end))
}

// Each function below writes at the end. One with nothing to answer takes no memory, and the others take none where there
// is room for what they write.

fn put_kind(out: &mut Vec<u8>, kind: NodeKind)
    requires { vec_len out.old + 1 ≤ vec_capacity out.old }
    ensures adds { Adds (IsKindOf kind) out.old.items out.new.items }
    ensures len { vec_len out.new ≡ vec_len out.old + 1 }
    ensures room { vec_capacity out.old ≤ vec_capacity out.new }
{
    match kind {
        NodeKind::File => put_u8(out, FILE),
        NodeKind::Directory => put_u8(out, DIRECTORY),
    }
}

fn put_make(
    out: &mut Vec<u8>,
    node: u64,
    parent: u64,
    kind: NodeKind,
    name: &[u8],
) -> Result<(), NoMemory>
    requires { length name.now < 2 ^ 8 }
    ensures adds { OnOk result (Adds (IsChangeOf (Make node parent kind name.now)) out.old.items out.new.items) }
    ensures len { OnOk result (vec_len out.new ≡ vec_len out.old + 19 + length name.now) }
    ensures room { vec_capacity out.old ≤ vec_capacity out.new }
    ensures full { OnErr result (vec_capacity out.old < vec_len out.old + 19 + length name.now) }
{
    out.reserve(19 + name.len())?;
    put_u8(out, MAKE);
    put_u64(out, node);
    put_u64(out, parent);
    put_kind(out, kind);
    put_text(out, name);
    Ok(())
}

/// Writes the numbers of pages at the end, behind their count. It takes no memory.
pub fn put_pages(out: &mut Vec<u8>, pages: &[u32])
    requires few { length pages.now < 2 ^ 32 }
    requires room { vec_len out.old + pages_size pages.now ≤ vec_capacity out.old }
    ensures adds { Adds (IsListOf IsU32 pages.now) out.old.items out.new.items }
    ensures len { vec_len out.new ≡ vec_len out.old + pages_size pages.now }
    ensures room { vec_capacity out.old ≤ vec_capacity out.new }
{
    put_u32(out, pages.len() as u32);
    for page in pages {
        put_u32(out, *page);
    }
}

// So many bytes, at an offset of a file, on their pages. There is one byte at least.
pub(crate) fn put_paged(
    out: &mut Vec<u8>,
    node: u64,
    offset: u64,
    len: u32,
    pages: &[u32],
) -> Result<(), NoMemory>
    requires { IsSpellableContents (Paged len pages.now) }
    ensures adds { OnOk result (Adds (IsChangeOf (Put node offset (Paged len pages.now))) out.old.items out.new.items) }
    ensures len { OnOk result (vec_len out.new ≡ vec_len out.old + 21 + pages_size pages.now) }
    ensures room { vec_capacity out.old ≤ vec_capacity out.new }
    ensures full { OnErr result (vec_capacity out.old < vec_len out.old + 21 + pages_size pages.now) }
{
    out.reserve(25 + 4 * pages.len())?;
    put_u8(out, PUT);
    put_u64(out, node);
    put_u64(out, offset);
    put_u32(out, len);
    put_pages(out, pages);
    Ok(())
}

fn put_put(out: &mut Vec<u8>, node: u64, offset: u64, contents: &Contents) -> Result<(), NoMemory>
    requires spellable { IsSpellableContents contents.now }
    requires recordable { StandOnPages contents.now }
    ensures adds { OnOk result (Adds (IsChangeOf (Put node offset contents.now)) out.old.items out.new.items) }
    ensures len { OnOk result (vec_len out.new ≡ vec_len out.old + 17 + put_size contents.now) }
    ensures room { vec_capacity out.old ≤ vec_capacity out.new }
    ensures full { OnErr result (vec_capacity out.old < vec_len out.old + 17 + put_size contents.now) }
{
    match contents {
        // It is required that there are none.
        Contents::Whole(_) => Ok(()),
        Contents::Paged { len, pages } => put_paged(out, node, offset, *len, pages.as_slice()),
    }
}

pub(crate) fn put_cut(
    out: &mut Vec<u8>,
    node: u64,
    size: u64,
    pages: &[u32],
) -> Result<(), NoMemory>
    requires { AreSpellablePages pages.now }
    ensures adds { OnOk result (Adds (IsChangeOf (Cut node size pages.now)) out.old.items out.new.items) }
    ensures len { OnOk result (vec_len out.new ≡ vec_len out.old + 17 + pages_size pages.now) }
    ensures room { vec_capacity out.old ≤ vec_capacity out.new }
    ensures full { OnErr result (vec_capacity out.old < vec_len out.old + 17 + pages_size pages.now) }
{
    out.reserve(21 + 4 * pages.len())?;
    put_u8(out, CUT);
    put_u64(out, node);
    put_u64(out, size);
    put_pages(out, pages);
    Ok(())
}

fn put_move(out: &mut Vec<u8>, node: u64, parent: u64, name: &[u8]) -> Result<(), NoMemory>
    requires { length name.now < 2 ^ 8 }
    ensures adds { OnOk result (Adds (IsChangeOf (Move node parent name.now)) out.old.items out.new.items) }
    ensures len { OnOk result (vec_len out.new ≡ vec_len out.old + 18 + length name.now) }
    ensures room { vec_capacity out.old ≤ vec_capacity out.new }
    ensures full { OnErr result (vec_capacity out.old < vec_len out.old + 18 + length name.now) }
{
    out.reserve(18 + name.len())?;
    put_u8(out, MOVE);
    put_u64(out, node);
    put_u64(out, parent);
    put_text(out, name);
    Ok(())
}

fn put_drop(out: &mut Vec<u8>, node: u64) -> Result<(), NoMemory>
    ensures adds { OnOk result (Adds (IsChangeOf (Drop node)) out.old.items out.new.items) }
    ensures len { OnOk result (vec_len out.new ≡ vec_len out.old + 9) }
    ensures room { vec_capacity out.old ≤ vec_capacity out.new }
    ensures full { OnErr result (vec_capacity out.old < vec_len out.old + 9) }
{
    out.reserve(9)?;
    put_u8(out, DROP);
    put_u64(out, node);
    Ok(())
}

pub(crate) fn put_change(out: &mut Vec<u8>, change: &Change) -> Result<(), NoMemory>
    requires spellable { IsSpellableChange change.now }
    requires recordable { IsRecordableChange change.now }
    ensures adds { OnOk result (Adds (IsChangeOf change.now) out.old.items out.new.items) }
    ensures len { OnOk result (vec_len out.new ≡ vec_len out.old + change_size change.now) }
    ensures room { vec_capacity out.old ≤ vec_capacity out.new }
    ensures full { OnErr result (vec_capacity out.old < vec_len out.old + change_size change.now) }
{
    match change {
        Change::Make {
            node,
            parent,
            kind,
            name,
        } => put_make(out, *node, *parent, *kind, name.as_slice()),
        Change::Put {
            node,
            offset,
            contents,
        } => put_put(out, *node, *offset, contents),
        Change::Cut { node, size, pages } => put_cut(out, *node, *size, pages.as_slice()),
        Change::Move { node, parent, name } => put_move(out, *node, *parent, name.as_slice()),
        Change::Drop { node } => put_drop(out, *node),
    }
}

// Changes in a row.
pub(crate) fn put_row(out: &mut Vec<u8>, changes: &[Change]) -> Result<(), NoMemory>
    requires spellable { All IsSpellableChange changes.now }
    requires recordable { All IsRecordableChange changes.now }
    ensures adds { OnOk result (Adds (IsRow IsChangeOf changes.now) out.old.items out.new.items) }
    ensures len { OnOk result (vec_len out.new ≡ vec_len out.old + sum_by change_size changes.now) }
    ensures room { vec_capacity out.old ≤ vec_capacity out.new }
    ensures full { OnErr result (vec_capacity out.old < vec_len out.old + sum_by change_size changes.now) }
{
    for change in changes {
        put_change(out, change)?;
    }
    Ok(())
}

pub(crate) fn put_changes(out: &mut Vec<u8>, changes: &[Change]) -> Result<(), NoMemory>
    requires spellable { AreSpellableChanges changes.now }
    requires recordable { All IsRecordableChange changes.now }
    ensures adds { OnOk result (Adds (IsListOf IsChangeOf changes.now) out.old.items out.new.items) }
    ensures len { OnOk result (vec_len out.new ≡ vec_len out.old + 4 + sum_by change_size changes.now) }
    ensures room { vec_capacity out.old ≤ vec_capacity out.new }
    ensures full { OnErr result (vec_capacity out.old < vec_len out.old + 4 + sum_by change_size changes.now) }
{
    out.reserve(4)?;
    put_u32(out, changes.len() as u32);
    put_row(out, changes)
}
