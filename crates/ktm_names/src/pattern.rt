// Patterns.
ghost use Rattle.std.specs.Prelude.{◌≡◌, ◌≤◌, ℕ, List, IfOk, IfErr, false, length};
ghost use Rattle.ktm_base.specs.declared.limits.TheConstants.{MOST_NAME_BYTES};
ghost use Rattle.ktm_base.specs.Names.{IsPattern, matches};
ghost use Rattle.ktm_names.specs.Leading.{lead, reaches};
ghost use Rattle.ktm_names.specs.Value.{PatternValue};

use crate::lead::{lead, reaches};
use crate::parts::{are_names, is_last_part, parts_of};
use crate::wildcard::matches;
use crate::{Path, PathFault};
use ktm_base::Text;
use std::alloc::Global;
use std::marker::Model;

/// A pattern: the directory in which it seeks, and its last part, in which a star stands for any characters and a
/// question mark for one.
#[derive(Drop)]
pub struct Pattern {
    directory: Path,
    last: Text,
}

impl Model for Pattern {
    ghost use Rattle.ktm_names.specs.Value.{PatternValue};

    ghost Value = { PatternValue };

    ghost view = { λ p. record { directory = p.directory; last = p.last } };

    ghost use Rattle.std.specs.Prelude.{◌≤◌, length};
    ghost use Rattle.ktm_base.specs.declared.limits.TheConstants.{MOST_NAME_BYTES};

    ghost invariant = { λ p. length p.last ≤ MOST_NAME_BYTES };
}

impl Pattern {
    /// The pattern that the text is.
    pub fn read(alloc: Global, text: &[u8]) -> Result<Self, PathFault>
        ensures ok { IfOk result (λ pattern. IsPattern pattern.directory pattern.last text.now) }
        // it is refused only where it is no pattern
        ensures not { IfErr result (λ fault. fault ≡ PathFault.NotAPath → (directory : List (List ℕ)) (last : List ℕ) → ¬ IsPattern directory last text.now) }
    {
        let parts = parts_of(alloc, text)?;
        let Some((last, directory)) = parts.split_last() else {
            return Err(PathFault::NotAPath);
        };
        if !are_names(directory) || !is_last_part(last) {
            return Err(PathFault::NotAPath);
        }
        Ok(Pattern {
            directory: Path::of(alloc, directory)?,
            last: Text::new(last.to_vec(alloc)?),
        })
    }

    /// The directory in which it seeks.
    pub fn directory(&self) -> &Path
        ensures { result.now ≡ self.now.directory }
    {
        &self.directory
    }

    /// The characters of its last part.
    pub fn last(&self) -> &[u8]
        ensures { result.now ≡ self.now.last }
    {
        self.last.as_slice()
    }

    /// The characters of its last part before the first star or question mark.
    pub fn lead(&self) -> &[u8]
        ensures lead { result.now ≡ lead self.now.last }
        ensures few { length result.now ≤ MOST_NAME_BYTES }
        // which names begin with them
        ensures only { (name : List ℕ) → reaches self.now.last name ≡ false → matches self.now.last name ≡ false }
    {
        lead(self.last.as_slice())
    }

    /// Does the name begin with these characters, and end behind them where the last part does. Only then it is matched.
    pub fn reaches(&self, name: &[u8]) -> bool
        ensures { result ≡ reaches self.now.last name.now }
    {
        reaches(self.last.as_slice(), name)
    }

    /// Does its last part match the name. It takes no memory, and about as many steps at most as its length times that
    /// of the name.
    pub fn matches(&self, name: &[u8]) -> bool
        ensures { result ≡ matches self.now.last name.now }
    {
        matches(self.last.as_slice(), name)
    }
}

/// A text is the pattern of one directory and one last part at most.
pub fn law_of_one_pattern()
    ensures { (x y : PatternValue) (text : List ℕ) → IsPattern x.directory x.last text → IsPattern y.directory y.last text → x ≡ y }
{}
