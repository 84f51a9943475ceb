// A block of keys.
ghost use Rattle.std.specs.Prelude.{◌≡◌, ◌+◌, ◌++◌, ◌<◌, ◌≤◌, [], IfOk, length, get_or, take, drop};
ghost use Rattle.std.specs.List.{insert, remove, slice_get};
ghost use Rattle.std.specs.Bool.{MatchBool};

use crate::list::Key;
use ktm_base::NoMemory;
use std::alloc::Global;
use std::marker::Model;

// How many keys a block has room for, and how many stay where it is split.
const BLOCK: usize = 32;

pub(crate) const HALF: usize = 16;

/// Where a key stands: in which block, and where in it.
#[derive(Clone, Copy)]
pub(crate) struct Spot {
    pub(crate) block: usize,
    pub(crate) place: usize,
}

/// At most 32 keys, with room for so many.
#[derive(Drop)]
pub(crate) struct Block {
    keys: Vec<Key>,
}

impl Model for Block {
    ghost use Rattle.std.specs.Prelude.{List, ◌≤◌, length, vec_capacity};
    ghost use Rattle.ktm_links.specs.declared.list.Key.{Key};

    ghost Value = { List Key };

    ghost view = { λ b. b.keys.items };

    ghost invariant = { λ b. (length b.keys.items ≤ 32) × (32 ≤ vec_capacity b.keys) };
}

impl Block {
    pub(crate) fn new(alloc: Global) -> Result<Block, NoMemory>
        ensures { IfOk result (λ block. block ≡ []) }
    {
        match Vec::with_capacity(alloc, BLOCK) {
            Ok(keys) => Ok(Block { keys }),
            Err(_) => Err(NoMemory),
        }
    }

    pub(crate) fn as_slice(&self) -> &[Key]
        ensures keys { result.now ≡ self.now }
        ensures bound { length result.now ≤ 32 }
    {
        self.keys.as_slice()
    }

    pub(crate) fn len(&self) -> usize
        ensures keys { result ≡ length self.now }
        ensures bound { result ≤ 32 }
    {
        self.as_slice().len()
    }

    pub(crate) fn is_full(&self) -> bool
        ensures full { MatchBool result (32 ≤ length self.now) (length self.now < 32) }
        ensures bound { length self.now ≤ 32 }
    {
        self.len() >= BLOCK
    }

    pub(crate) fn get(&self, place: usize) -> Option<Key>
        ensures { result ≡ slice_get self.now place }
    {
        match self.as_slice().get(place) {
            Some(key) => Some(*key),
            None => None,
        }
    }

    pub(crate) fn insert(&mut self, place: usize, key: Key)
        requires within { place ≤ length self.old }
        requires room { length self.old < 32 }
        ensures { self.new ≡ insert self.old place key }
    {
        if let Err(_) = self.keys.insert(place, key) {
            unreachable!();
        }
    }

    pub(crate) fn remove(&mut self, place: usize) -> Key
        requires { place < length self.old }
        ensures key { result ≡ get_or self.old place result }
        ensures rest { self.new ≡ remove self.old place }
    {
        self.keys.remove(place)
    }

    /// Moves the keys of another block behind its own.
    pub(crate) fn take_all(&mut self, other: &mut Block)
        requires { length self.old + length other.old ≤ 32 }
        ensures all { self.new ≡ self.old ++ other.old }
        ensures none { other.new ≡ [] }
    {
        if let Err(_) = self.keys.extend_from_slice(other.keys.as_slice()) {
            unreachable!();
        }
        other.keys.clear();
    }

    /// Moves the upper half to a block that has no key.
    pub(crate) fn split_to(&mut self, upper: &mut Block)
        requires { upper.old ≡ [] }
        ensures lower { self.new ≡ take 16 self.old }
        ensures upper { upper.new ≡ drop 16 self.old }
    {
        let keys = self.keys.as_slice();
        if keys.len() > HALF {
            if let Err(_) = upper.keys.extend_from_slice(&keys[HALF..]) {
                unreachable!();
            }
        }
        self.keys.truncate(HALF);
    }
}
