// Keys, one after another.
ghost use Rattle.std.specs.Prelude.{◌≡◌, ◌++◌, [], IfNone, option_to_list};
ghost use Rattle.ktm_links.specs.Blocks.{flat, AreUsed};

use crate::block::Block;
use crate::list::Key;
use std::marker::Model;

/// The keys that are left: those of a block, and the blocks behind it.
#[derive(Drop)]
pub(crate) struct Keys<'a> {
    keys: &'a [Key],
    // Each has a key.
    blocks: &'a [Block],
}

impl<'a> Model for Keys<'a> {
    ghost use Rattle.std.specs.Prelude.{List, ◌++◌};
    ghost use Rattle.ktm_links.specs.declared.list.Key.{Key};
    ghost use Rattle.ktm_links.specs.Blocks.{flat, AreUsed};

    ghost Value = { List Key };

    ghost view = { λ k. k.keys.now ++ flat k.blocks.now };

    ghost invariant = { λ k. AreUsed k.blocks.now };
}

impl<'a> Keys<'a> {
    pub(crate) fn new(keys: &'a [Key], blocks: &'a [Block]) -> Keys<'a>
        requires { AreUsed blocks.now }
        ensures { result ≡ keys.now ++ flat blocks.now }
    {
        Keys { keys, blocks }
    }

    pub(crate) fn next(&mut self) -> Option<Key>
        ensures first { self.old ≡ option_to_list result ++ self.new }
        ensures none { IfNone result (self.old ≡ []) }
    {
        if let [key, rest @ ..] = self.keys {
            self.keys = rest;
            return Some(*key);
        }
        let [block, behind @ ..] = self.blocks else {
            return None;
        };
        let [key, rest @ ..] = block.as_slice() else {
            unreachable!();
        };
        self.keys = rest;
        self.blocks = behind;
        Some(*key)
    }
}
