// Where a name stands among keys in order.
ghost use Rattle.std.specs.Prelude.{◌≡◌, ◌≤◌, ◌+◌, Err, IfOk, IfErr, IfSome, length, drop, min, true};
ghost use Rattle.std.specs.declared.cmp.Ordering.TheVariants.{Less, Greater};
ghost use Rattle.std.specs.List.Sorted.{IsBinarySearchResult, IsSearchInRange};
ghost use Rattle.ktm_links.specs.Blocks.{flat, index_in, index_of, AreUsed, IsGap, IsSpot};
ghost use Rattle.ktm_links.specs.Mapped.{name_cmp};
ghost use Rattle.ktm_links.specs.Order.{last_order, order_at, IsFirstNotBelow, IsInOrder};

use crate::block::{Block, Spot};
use crate::list::{Key, List};
use crate::name::Name;
use crate::named::Named;
use ktm_base::compare;
use std::cmp::Ordering;

// How the name of a value stands to this one.
fn order_of<K: Name, T>(values: &List<Named<K, T>>, key: Key, name: &[u8]) -> Ordering
    ensures { result ≡ order_at values.now.items name.now key }
{
    match values.get(key) {
        Some(named) => compare(named.name(), name),
        None => Ordering::Less,
    }
}

// How the name of the last value of a block stands to this one.
fn last_order_of<K: Name, T>(values: &List<Named<K, T>>, block: &Block, name: &[u8]) -> Ordering
    ensures { result ≡ last_order values.now.items name.now block.now }
{
    match block.as_slice().last() {
        Some(key) => order_of(values, *key, name),
        None => Ordering::Less,
    }
}

// The block whose last name is this one, or else the first whose last name is above it, by halves. Names mostly rise as they come, so
// the last one is compared first.
fn block_of<K: Name, T>(
    values: &List<Named<K, T>>,
    blocks: &[Block],
    name: &[u8],
) -> Result<usize, usize>
    ensures bound { IsSearchInRange result (length blocks.now) }
    ensures position { IsBinarySearchResult (last_order values.now.items name.now) blocks.now result }
{
    let Some(last) = blocks.last() else {
        return Err(0);
    };
    match last_order_of(values, last, name) {
        Ordering::Less => Err(blocks.len()),
        Ordering::Equal => Ok(blocks.len() - 1),
        Ordering::Greater => {
            blocks[..blocks.len() - 1].binary_search_by(|block| last_order_of(values, block, name))
        }
    }
}

// Where the name stands in a block, or would stand, by halves.
fn place_of<K: Name, T>(
    values: &List<Named<K, T>>,
    keys: &[Key],
    name: &[u8],
) -> Result<usize, usize>
    ensures bound { IsSearchInRange result (length keys.now) }
    ensures position { IsBinarySearchResult (order_at values.now.items name.now) keys.now result }
{
    keys.binary_search_by(|key| order_of(values, *key, name))
}

// Behind all keys: in the last block, or in a new one where that is full.
fn end_of(blocks: &[Block]) -> Spot
    ensures gap { IsGap blocks.now result }
    ensures end { index_of blocks.now result ≡ length (flat blocks.now) }
{
    match blocks.last() {
        Some(block) => {
            if block.is_full() {
                Spot {
                    block: blocks.len(),
                    place: 0,
                }
            } else {
                Spot {
                    block: blocks.len() - 1,
                    place: block.len(),
                }
            }
        }
        None => Spot { block: 0, place: 0 },
    }
}

// The rest of a search, where no block ends with the name and this block is the first that ends above it.
fn search_in<K: Name, T>(
    values: &List<Named<K, T>>,
    blocks: &[Block],
    block: usize,
    name: &[u8],
) -> Result<Spot, Spot>
    requires used { AreUsed blocks.now }
    requires ordered { IsInOrder values.now.items (flat blocks.now) }
    requires bound { block ≤ length blocks.now }
    requires above { IsBinarySearchResult (last_order values.now.items name.now) blocks.now (Err block) }
    ensures spot { IfOk result (IsSpot blocks.now) }
    ensures gap { IfErr result (IsGap blocks.now) }
    ensures position { IsBinarySearchResult (order_at values.now.items name.now) (flat blocks.now) (index_in blocks.now result) }
{
    if block == blocks.len() {
        return Err(end_of(blocks));
    }
    match place_of(values, blocks[block].as_slice(), name) {
        Ok(place) => Ok(Spot { block, place }),
        Err(place) => Err(Spot { block, place }),
    }
}

/// Where the name stands, or would stand, by halves: which block, and then where in it.
pub(crate) fn search<K: Name, T>(
    values: &List<Named<K, T>>,
    blocks: &[Block],
    name: &[u8],
) -> Result<Spot, Spot>
    requires used { AreUsed blocks.now }
    requires ordered { IsInOrder values.now.items (flat blocks.now) }
    ensures spot { IfOk result (IsSpot blocks.now) }
    ensures gap { IfErr result (IsGap blocks.now) }
    ensures position { IsBinarySearchResult (order_at values.now.items name.now) (flat blocks.now) (index_in blocks.now result) }
{
    match block_of(values, blocks, name) {
        Ok(block) => Ok(Spot {
            block,
            place: blocks[block].len() - 1,
        }),
        Err(block) => search_in(values, blocks, block, name),
    }
}

// Does the name go between those of two keys.
fn goes_between<K: Name, T>(
    values: &List<Named<K, T>>,
    before: Key,
    after: Key,
    name: &[u8],
) -> bool
    ensures before { result ≡ true → order_at values.now.items name.now before ≡ Less }
    ensures after { result ≡ true → order_at values.now.items name.now after ≡ Greater }
{
    order_of(values, before, name) == Ordering::Less
        && order_of(values, after, name) == Ordering::Greater
}

// The place behind this one, if the name goes there, between two keys of one block.
fn place_behind<K: Name, T>(
    values: &List<Named<K, T>>,
    blocks: &[Block],
    spot: Spot,
    name: &[u8],
) -> Option<Spot>
    requires { IsInOrder values.now.items (flat blocks.now) }
    ensures gap { IfSome result (IsGap blocks.now) }
    ensures position { IfSome result (λ next. IsBinarySearchResult (order_at values.now.items name.now) (flat blocks.now) (Err (index_of blocks.now next))) }
{
    let Some(block) = blocks.get(spot.block) else {
        return None;
    };
    let keys = block.as_slice();
    let Some(before) = keys.get(spot.place) else {
        return None;
    };
    let next = Spot {
        block: spot.block,
        place: spot.place + 1,
    };
    let Some(after) = keys.get(next.place) else {
        return None;
    };
    if goes_between(values, *before, *after, name) {
        Some(next)
    } else {
        None
    }
}

/// Where the name stands, or would stand. The place behind this one is looked at first, since names that come one after another mostly
/// stand beside each other.
pub(crate) fn search_from<K: Name, T>(
    values: &List<Named<K, T>>,
    blocks: &[Block],
    spot: Spot,
    name: &[u8],
) -> Result<Spot, Spot>
    requires used { AreUsed blocks.now }
    requires ordered { IsInOrder values.now.items (flat blocks.now) }
    ensures spot { IfOk result (IsSpot blocks.now) }
    ensures gap { IfErr result (IsGap blocks.now) }
    ensures position { IsBinarySearchResult (order_at values.now.items name.now) (flat blocks.now) (index_in blocks.now result) }
{
    match place_behind(values, blocks, spot, name) {
        Some(next) => Err(next),
        None => search(values, blocks, name),
    }
}

/// Where the first name stands that is not below this one.
pub(crate) fn not_below<K: Name, T>(
    values: &List<Named<K, T>>,
    blocks: &[Block],
    name: &[u8],
) -> Spot
    requires used { AreUsed blocks.now }
    requires ordered { IsInOrder values.now.items (flat blocks.now) }
    ensures gap { IsGap blocks.now result }
    ensures first { IsFirstNotBelow values.now.items name.now (flat blocks.now) (index_of blocks.now result) }
{
    match search(values, blocks, name) {
        Ok(spot) => spot,
        Err(spot) => spot,
    }
}
