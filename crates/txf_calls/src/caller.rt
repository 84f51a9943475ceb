// The names that a caller sees.
ghost use Rattle.std.specs.Prelude.{◌≡◌, Some};
ghost use Rattle.ktm_world.specs.FileCalls.{find_path};
ghost use Rattle.ktm_world.specs.Files.{tree_seen};
ghost use Rattle.ktm_world.specs.Paths.{path_of};
ghost use Rattle.txf_calls.specs.Found.{IsFound};
ghost use Rattle.txf_calls.specs.Leads.{Leads};
ghost use Rattle.std.specs.Prelude.{ℕ, List, None, MatchOption, IfOk};

use crate::along::{Whereabouts, find};
use crate::view::{Seen, View};
use crate::volume::Volume;
use ktm_base::{Id, NoMemory, Text};
use ktm_names::{Path, PathFault};
use ktm_world::law_of_paths;
use std::alloc::Global;

/// A caller of the files: a transaction, or none for a plain call.
#[derive(Drop)]
pub(crate) struct Caller<'a, V: Volume> {
    pub(crate) volume: &'a V,
    pub(crate) who: Option<Id>,
}

impl<'a, V: Volume> View for Caller<'a, V> {
    ghost use Rattle.ktm_world.specs.Files.{tree_seen};

    ghost tree = { λ c. tree_seen (V.files c.volume.now) c.who };

    fn child(&self, directory: u64, name: &[u8]) -> Option<Seen> {
        self.volume.child(self.who, directory, name)
    }
}

/// The path that a text is, if it is one.
pub(crate) fn path_of(alloc: Global, text: &Text) -> Result<Option<Path>, NoMemory>
    ensures { IfOk result (λ path. MatchOption path (path_of text.now ≡ None) (λ path. path_of text.now ≡ Some path)) }
{
    law_of_paths();
    match Path::read(alloc, text.as_slice()) {
        Ok(path) => Ok(Some(path)),
        Err(PathFault::NotAPath) => Ok(None),
        Err(PathFault::NoMemory) => Err(NoMemory),
    }
}

/// Where the path that a text is leads in what the caller sees.
pub(crate) fn whereabouts<'a, V: Volume>(
    volume: &V,
    who: Option<Id>,
    path: &'a Path,
) -> Whereabouts<'a>
    ensures leads { (text : List ℕ) → path_of text ≡ Some path.now → Leads result (find_path (tree_seen (V.files volume.now) who) text) }
    ensures found { (text : List ℕ) → path_of text ≡ Some path.now → IsFound (tree_seen (V.files volume.now) who) result }
{
    law_of_paths();
    find(&Caller { volume, who }, path)
}
