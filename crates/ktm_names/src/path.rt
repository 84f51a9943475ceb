// Paths.
ghost use Rattle.std.specs.Prelude.{◌≡◌, ◌↔◌, ◌<◌, ◌≤◌, ℕ, List, [], Some, All, IsTrue, IfOk, IfErr, length, map, slice_get};
ghost use Rattle.ktm_base.specs.declared.limits.TheConstants.{MOST_PARTS};
ghost use Rattle.ktm_base.specs.Names.{IsName, IsPath};

use crate::PathFault;
use crate::list::PlacedTexts;
use crate::parts::{are_names, parts_of};
use ktm_base::NoMemory;
use std::alloc::Global;
use std::marker::Model;

/// The number of the root, which is a directory and has no name.
pub const ROOT: u64 = 1;

/// A path: the names from the root on, which has none.
#[derive(Drop)]
pub struct Path {
    names: PlacedTexts,
}

impl Model for Path {
    ghost use Rattle.std.specs.Prelude.{ℕ, List, length, All, ◌≤◌};
    ghost use Rattle.ktm_base.specs.declared.limits.TheConstants.{MOST_PARTS};
    ghost use Rattle.ktm_base.specs.Names.{IsName};

    ghost Value = { List (List ℕ) };

    ghost view = { λ p. p.names };

    ghost invariant = { λ p. (length p.names ≤ MOST_PARTS) × All IsName p.names };
}

impl Path {
    /// The path of these names.
    pub(crate) fn of(alloc: Global, names: &[&[u8]]) -> Result<Self, NoMemory>
        requires few { length names.now ≤ MOST_PARTS }
        requires names { All (λ name. IsName name.now) names.now }
        ensures { IfOk result (λ path. path ≡ map (λ name. name.now) names.now) }
    {
        Ok(Path {
            names: PlacedTexts::of(alloc, names)?,
        })
    }

    /// The path that the text is.
    pub fn read(alloc: Global, text: &[u8]) -> Result<Self, PathFault>
        ensures ok { IfOk result (λ path. IsPath path text.now) }
        // it is refused only where it is no path
        ensures not { IfErr result (λ fault. fault ≡ PathFault.NotAPath → (names : List (List ℕ)) → ¬ IsPath names text.now) }
    {
        if text == b"\\".as_slice() {
            return Ok(Path {
                names: PlacedTexts::new(alloc),
            });
        }
        let parts = parts_of(alloc, text)?;
        if !are_names(&parts) {
            return Err(PathFault::NotAPath);
        }
        Ok(Path::of(alloc, &parts)?)
    }

    /// How many names it has.
    pub fn len(&self) -> usize
        ensures value { result ≡ length self.now }
        ensures few { result ≤ MOST_PARTS }
    {
        self.names.len()
    }

    /// Is it the root.
    pub fn is_empty(&self) -> bool
        ensures { IsTrue result ↔ (self.now ≡ []) }
    {
        self.names.len() == 0
    }

    /// Its name at this index, counted from the root.
    pub fn name(&self, index: usize) -> &[u8]
        requires { index < length self.now }
        ensures value { slice_get self.now index ≡ Some result.now }
        ensures name { IsName result.now }
    {
        self.names.get(index)
    }
}

/// A text is the path of one list of names at most.
pub fn law_of_one_path()
    ensures { (x y : List (List ℕ)) (text : List ℕ) → IsPath x text → IsPath y text → x ≡ y }
{}
