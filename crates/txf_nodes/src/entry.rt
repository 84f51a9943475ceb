// The entries of a directory, which are lent.
ghost use Rattle.std.specs.Prelude.{◌≡◌, ◌++◌, ◌∷◌, [], map, OnOk};

use ktm_base::NoMemory;
use ktm_names::Pattern;
use std::alloc::Global;
use std::marker::Model;

/// What a directory has under a name.
#[derive(Clone, Copy)]
pub struct Entry<'a> {
    pub name: &'a [u8],
    pub is_directory: bool,
}

/// The entries of a directory, by rising folded name.
#[derive(Drop)]
pub struct Entries<'a> {
    items: Vec<Entry<'a>>,
}

impl<'a> Model for Entries<'a> {
    ghost use Rattle.std.specs.Prelude.{List, map};
    ghost use Rattle.txf_nodes.specs.Children.{Shown, entry_seen};

    ghost Value = { List Shown };

    ghost view = { λ e. map entry_seen e.items.items };
}

impl<'a> Entries<'a> {
    ghost use Rattle.txf_nodes.specs.Children.{entry_seen, matching};

    pub fn new(alloc: Global) -> Self
        ensures { result ≡ [] }
    {
        Entries {
            items: Vec::new(alloc),
        }
    }

    // One entry more.
    fn push(&mut self, entry: Entry<'a>) -> Result<(), NoMemory>
        ensures { OnOk result (self.new ≡ self.old ++ entry_seen entry.entry ∷ []) }
    {
        if let Err(_) = self.items.push(entry) {
            return Err(NoMemory);
        }
        Ok(())
    }

    /// One entry more, if the pattern matches it. The caller knows that it comes behind the others.
    pub fn push_matching(&mut self, entry: Entry<'a>, pattern: &Pattern) -> Result<(), NoMemory>
        ensures { OnOk result (self.new ≡ self.old ++ matching pattern.now.last (entry_seen entry.entry ∷ [])) }
    {
        if !pattern.matches(entry.name) {
            return Ok(());
        }
        self.push(entry)
    }

    pub fn as_slice(&self) -> &[Entry<'a>]
        ensures { map entry_seen result.now ≡ self.now }
    {
        &self.items
    }
}
