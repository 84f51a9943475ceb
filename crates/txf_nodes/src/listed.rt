// The names of entries, as they are listed.
ghost use Rattle.std.specs.Prelude.{◌≡◌, ◌++◌, ◌∷◌, [], ℕ, List, Some, IfOk, OnOk, map};
ghost use Rattle.ktm_world.specs.FileCalls.{listed, entries as found};
ghost use Rattle.ktm_world.specs.Tree.{Tree};
ghost use Rattle.txf_nodes.specs.Found.{shown_text};
ghost use Rattle.txf_nodes.specs.Children.{entries_in, entry_seen, matching};

use crate::{Entries, Entry};
use ktm_base::{NoMemory, TextList};
use std::alloc::Global;

// Puts the name of an entry behind the others, a directory's with a backslash behind it.
fn push_name(texts: &mut TextList, entry: &Entry<'_>) -> Result<(), NoMemory>
    ensures { OnOk result (texts.new ≡ texts.old ++ shown_text (entry_seen entry.now) ∷ []) }
{
    if entry.is_directory {
        texts.push_parts(entry.name, b"\\")
    } else {
        texts.push(entry.name)
    }
}

/// The names of the entries in their order, a directory's with a backslash behind it.
pub fn listed_names(alloc: Global, entries: &Entries<'_>) -> Result<TextList, NoMemory>
    ensures { IfOk result (λ texts. (tree : Tree) (directory : ℕ) (last : List ℕ) → entries.now ≡ matching last (entries_in tree directory) → texts ≡ map listed (found tree (Some directory) last)) }
{
    let mut texts = TextList::new(alloc);
    for entry in entries.as_slice() {
        push_name(&mut texts, entry)?;
    }
    Ok(texts)
}
