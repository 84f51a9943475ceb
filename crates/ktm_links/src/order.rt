// Keys in order.
ghost use Rattle.std.specs.Prelude.{◌≡◌, ℕ, ◌+◌, ◌-◌, ◌<◌, ◌≤◌, ◌∷◌, ◌++◌, [], IsOk, OnOk, OnErr, length, get_or, set, take, drop, option_to_list, vec_capacity};
ghost use Rattle.std.specs.Bool.{OnFalse, OnTrue};
ghost use Rattle.std.specs.List.{insert, remove, slice_get};
ghost use Rattle.ktm_links.specs.Blocks.{flat, block_at, index_of, joined, AreUsed, IsGap, IsRoom, IsSpot, Settles};

use crate::block::{Block, HALF, Spot};
use crate::keys::Keys;
use crate::list::Key;
use ktm_base::NoMemory;
use std::alloc::Global;
use std::marker::Model;

// With how many keys more a block more is wanted at most.
const EACH: usize = 8;

/// Keys in order, in blocks, so that one is put in or taken out with a move of a block's keys at most.
#[derive(Drop)]
pub(crate) struct Order {
    // Each has a key.
    blocks: Vec<Block>,
    // Blocks with no key, for those that come.
    stock: Vec<Block>,
    // How many keys there are, and how many there can be with these blocks. A block is split only where it is full, and each
    // two neighbours are more than half a block together, so that a block more is wanted only for eight keys more.
    len: usize,
    capacity: usize,
    // Where the last key came. Others may have come and gone since.
    last: Spot,
    alloc: Global,
}

impl Model for Order {
    ghost use Rattle.std.specs.Prelude.{vec_capacity};
    ghost use Rattle.ktm_links.specs.Blocks.{Blocks, blocks_code};

    ghost Value = { Blocks };

    ghost coded = { blocks_code };

    ghost use Rattle.ktm_links.specs.Blocks.{AreBlocks};

    ghost view = { λ o. record {
      blocks = o.blocks.items;
      capacity = o.capacity;
    } };

    ghost invariant = { λ o. AreBlocks o.blocks.items o.stock.items (vec_capacity o.blocks) (vec_capacity o.stock) o.len o.capacity };
}

// Puts the key into the block that has room for it.
fn insert_in(blocks: &mut Vec<Block>, spot: Spot, key: Key)
    requires { IsRoom blocks.old.items spot }
    ensures items { blocks.new.items ≡ set blocks.old.items spot.block (insert (block_at blocks.old.items spot.block) spot.place key) }
    ensures capacity { vec_capacity blocks.new ≡ vec_capacity blocks.old }
{
    blocks[spot.block].insert(spot.place, key);
}

// Takes the key out of its block.
fn remove_in(blocks: &mut Vec<Block>, spot: Spot) -> Key
    requires { IsSpot blocks.old.items spot }
    ensures key { result ≡ get_or (block_at blocks.old.items spot.block) spot.place result }
    ensures items { blocks.new.items ≡ set blocks.old.items spot.block (remove (block_at blocks.old.items spot.block) spot.place) }
    ensures capacity { vec_capacity blocks.new ≡ vec_capacity blocks.old }
{
    blocks[spot.block].remove(spot.place)
}

// Takes the block behind this one out, once its keys stand behind those of this one.
fn join(blocks: &mut Vec<Block>, at: usize) -> Block
    requires within { at + 1 < length blocks.old.items }
    requires few { length (block_at blocks.old.items at) + length (block_at blocks.old.items (at + 1)) ≤ 16 }
    ensures free { result ≡ [] }
    ensures items { blocks.new.items ≡ joined blocks.old.items at }
    ensures capacity { vec_capacity blocks.new ≡ vec_capacity blocks.old }
{
    let mut next = blocks.remove(at + 1);
    blocks[at].take_all(&mut next);
    next
}

// Are this block and the one behind it, if there is one, half a block together at most.
fn may_join(blocks: &[Block], at: usize) -> bool
    requires { at < length blocks.now }
    ensures joins { OnTrue result ((at + 1 < length blocks.now) × (length (block_at blocks.now at) + length (block_at blocks.now (at + 1)) ≤ 16)) }
    ensures not { OnFalse result (at + 1 < length blocks.now → 16 < length (block_at blocks.now at) + length (block_at blocks.now (at + 1))) }
{
    at + 1 < blocks.len() && blocks[at].len() + blocks[at + 1].len() <= HALF
}

// Joins a block that lost a key with a neighbour, where both are half a block together at most, or takes it out, where it has
// no key. It hands out the block that has none.
fn settle(blocks: &mut Vec<Block>, at: usize) -> Option<Block>
    requires { at < length blocks.old.items }
    ensures settles { Settles blocks.old.items blocks.new.items at result }
    ensures capacity { vec_capacity blocks.new ≡ vec_capacity blocks.old }
{
    if may_join(blocks, at) {
        return Some(join(blocks, at));
    }
    if at > 0 && may_join(blocks, at - 1) {
        return Some(join(blocks, at - 1));
    }
    if blocks[at].len() == 0 {
        return Some(blocks.remove(at));
    }
    None
}

// Puts a block into the stock, if there is one.
fn keep(stock: &mut Vec<Block>, freed: Option<Block>)
    requires { length stock.old.items + length (option_to_list freed) ≤ vec_capacity stock.old }
    ensures items { stock.new.items ≡ stock.old.items ++ option_to_list freed }
    ensures capacity { vec_capacity stock.new ≡ vec_capacity stock.old }
{
    if let Some(block) = freed {
        stock.push_reserved(block);
    }
}

// Moves the upper half of the block to this one, which is put behind it.
fn split_in(blocks: &mut Vec<Block>, at: usize, upper: Block)
    requires within { at < length blocks.old.items }
    requires free { upper ≡ [] }
    requires room { length blocks.old.items < vec_capacity blocks.old }
    ensures items { blocks.new.items ≡ insert (set blocks.old.items at (take 16 (block_at blocks.old.items at))) (at + 1) (drop 16 (block_at blocks.old.items at)) }
    ensures capacity { vec_capacity blocks.new ≡ vec_capacity blocks.old }
{
    let mut upper = upper;
    blocks[at].split_to(&mut upper);
    if let Err(_) = blocks.insert(at + 1, upper) {
        unreachable!();
    }
}

impl Order {
    pub(crate) fn new(alloc: Global) -> Order
        ensures { result.blocks ≡ [] }
    {
        Order {
            blocks: Vec::new(alloc),
            stock: Vec::new(alloc),
            len: 0,
            capacity: 0,
            last: Spot { block: 0, place: 0 },
            alloc,
        }
    }

    pub(crate) fn as_blocks(&self) -> &[Block]
        ensures blocks { result.now ≡ self.now.blocks }
        ensures used { AreUsed result.now }
    {
        self.blocks.as_slice()
    }

    /// Where the last key came. Another may stand there by now, or none.
    pub(crate) fn last(&self) -> Spot {
        self.last
    }

    /// How many keys can come without memory.
    pub(crate) fn spare(&self) -> usize
        ensures { result ≡ self.now.capacity - length (flat self.now.blocks) }
    {
        self.capacity - self.len
    }

    // One more block, with which eight more keys can come.
    #[inline(never)]
    fn grow(&mut self) -> Result<(), NoMemory>
        ensures blocks { self.new.blocks ≡ self.old.blocks }
        ensures ok { OnOk result (self.new.capacity ≡ self.old.capacity + 8) }
        ensures spare { OnOk result (self.new.capacity - length (flat self.new.blocks) ≡ self.old.capacity - length (flat self.old.blocks) + 8) }
        ensures err { OnErr result (self.new.capacity ≡ self.old.capacity) }
    {
        let Some(capacity) = self.capacity.checked_add(EACH) else {
            return Err(NoMemory);
        };
        if let Err(_) = self.blocks.reserve(self.stock.len() + 1) {
            return Err(NoMemory);
        }
        if let Err(_) = self.stock.reserve(self.blocks.len() + 1) {
            return Err(NoMemory);
        }
        match Block::new(self.alloc) {
            Ok(block) => {
                self.stock.push_reserved(block);
                self.capacity = capacity;
                Ok(())
            }
            Err(NoMemory) => Err(NoMemory),
        }
    }

    /// Makes room for so many more keys.
    pub(crate) fn reserve(&mut self, n: usize) -> Result<(), NoMemory>
        ensures blocks { self.new.blocks ≡ self.old.blocks }
        ensures room { OnOk result (n ≤ self.new.capacity - length (flat self.new.blocks)) }
        ensures enough { n ≤ self.old.capacity - length (flat self.old.blocks) → IsOk result }
        ensures grows { self.old.capacity ≤ self.new.capacity }
    {
        while self.spare() < n {
            if let Err(NoMemory) = self.grow() {
                return Err(NoMemory);
            }
        }
        Ok(())
    }

    /// The key that stands there.
    pub(crate) fn get(&self, spot: Spot) -> Option<Key>
        requires { IsGap self.now.blocks spot }
        ensures { result ≡ slice_get (flat self.now.blocks) (index_of self.now.blocks spot) }
    {
        match self.blocks.get(spot.block) {
            Some(block) => block.get(spot.place),
            None => None,
        }
    }

    /// The keys from there on.
    pub(crate) fn keys_from(&self, spot: Spot) -> Keys<'_>
        requires { IsGap self.now.blocks spot }
        ensures { result ≡ drop (index_of self.now.blocks spot) (flat self.now.blocks) }
    {
        match self.blocks.get(spot.block) {
            Some(block) => Keys::new(
                &block.as_slice()[spot.place..],
                &self.blocks[spot.block + 1..],
            ),
            None => Keys::new(&[], &[]),
        }
    }

    // Puts the key behind all others, in a block of its own.
    fn push_block(&mut self, key: Key)
        requires room { length (flat self.old.blocks) < self.old.capacity }
        requires full { (last : ℕ) → last + 1 ≡ length self.old.blocks → 32 ≤ length (block_at self.old.blocks last) }
        ensures blocks { self.new.blocks ≡ self.old.blocks ++ (key ∷ []) ∷ [] }
        ensures capacity { self.new.capacity ≡ self.old.capacity }
    {
        match self.stock.pop() {
            Some(block) => {
                let mut block = block;
                block.insert(0, key);
                self.blocks.push_reserved(block);
                self.len += 1;
            }
            None => unreachable!(),
        }
    }

    // Splits a full block in two.
    #[inline(never)]
    fn split(&mut self, at: usize)
        requires within { at < length self.old.blocks }
        requires full { 32 ≤ length (block_at self.old.blocks at) }
        requires room { length (flat self.old.blocks) < self.old.capacity }
        ensures blocks { self.new.blocks ≡ insert (set self.old.blocks at (take 16 (block_at self.old.blocks at))) (at + 1) (drop 16 (block_at self.old.blocks at)) }
        ensures capacity { self.new.capacity ≡ self.old.capacity }
    {
        match self.stock.pop() {
            Some(upper) => split_in(&mut self.blocks, at, upper),
            None => unreachable!(),
        }
    }

    // Where the key goes, once its block has room.
    fn room_at(&mut self, spot: Spot) -> Spot
        requires gap { IsGap self.old.blocks spot }
        requires within { spot.block < length self.old.blocks }
        requires room { length (flat self.old.blocks) < self.old.capacity }
        ensures room { IsRoom self.new.blocks result }
        ensures index { index_of self.new.blocks result ≡ index_of self.old.blocks spot }
        ensures keys { flat self.new.blocks ≡ flat self.old.blocks }
        ensures capacity { self.new.capacity ≡ self.old.capacity }
    {
        if !self.blocks[spot.block].is_full() {
            return spot;
        }
        self.split(spot.block);
        if spot.place > HALF {
            Spot {
                block: spot.block + 1,
                place: spot.place - HALF,
            }
        } else {
            spot
        }
    }

    // Puts the key into a block that has room.
    fn put(&mut self, spot: Spot, key: Key)
        requires spot { IsRoom self.old.blocks spot }
        requires room { length (flat self.old.blocks) < self.old.capacity }
        ensures keys { flat self.new.blocks ≡ insert (flat self.old.blocks) (index_of self.old.blocks spot) key }
        ensures capacity { self.new.capacity ≡ self.old.capacity }
    {
        insert_in(&mut self.blocks, spot, key);
        self.len += 1;
    }

    /// Puts the key in there, and takes no memory.
    pub(crate) fn insert(&mut self, spot: Spot, key: Key)
        requires gap { IsGap self.old.blocks spot }
        requires room { length (flat self.old.blocks) < self.old.capacity }
        ensures keys { flat self.new.blocks ≡ insert (flat self.old.blocks) (index_of self.old.blocks spot) key }
        ensures spare { self.new.capacity - length (flat self.new.blocks) + 1 ≡ self.old.capacity - length (flat self.old.blocks) }
    {
        if spot.block == self.blocks.len() {
            self.push_block(key);
            self.last = spot;
        } else {
            let spot = self.room_at(spot);
            self.put(spot, key);
            self.last = spot;
        }
    }

    /// Takes out the key that stands there.
    pub(crate) fn remove(&mut self, spot: Spot) -> Key
        requires { IsSpot self.old.blocks spot }
        ensures key { result ≡ get_or (flat self.old.blocks) (index_of self.old.blocks spot) result }
        ensures keys { flat self.new.blocks ≡ remove (flat self.old.blocks) (index_of self.old.blocks spot) }
        ensures spare { self.new.capacity - length (flat self.new.blocks) ≡ self.old.capacity - length (flat self.old.blocks) + 1 }
    {
        let key = remove_in(&mut self.blocks, spot);
        self.len -= 1;
        let freed = settle(&mut self.blocks, spot.block);
        keep(&mut self.stock, freed);
        key
    }
}
