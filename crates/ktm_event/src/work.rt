// What is recorded of a transaction's work.
ghost use Rattle.std.specs.Prelude.{◌≡◌, ◌==◌, List, length, option_map};
ghost use Rattle.ktm_event.specs.Work.{AreRising, FinalFile, final_file, first_above, first_of, stage_tag};

use crate::event::{READY, SINGLE};
use ktm_base::Id;
use ktm_world::{Change, Setting};

/// A file that a transaction wrote, as it is recorded.
#[derive(Clone, Copy)]
pub struct FilePages<'a> {
    pub file: u64,
    /// How many bytes it has.
    pub len: u64,
    /// The pages that hold them, one for each 4,096 bytes.
    pub pages: &'a [u32],
}

/// The files that a transaction wrote or made, each with its pages, by rising number. They are shown where they stand.
pub trait WrittenFiles {
    /// The files.
    ghost files: { Self → List FinalFile };

    fn is_empty(&self) -> bool
        ensures { result ≡ (length (files self.now) == 0) };

    /// The first of them.
    fn first(&self) -> Option<FilePages<'_>>
        ensures { option_map final_file result ≡ first_of (files self.now) };

    /// The first whose number is above this one.
    fn behind(&self, file: u64) -> Option<FilePages<'_>>
        ensures { option_map final_file result ≡ first_above (files self.now) file };

    /// Their numbers rise.
    ghost rising: { (these : Self) → AreRising (files these) };
}

/// What one participant has to record of a transaction.
#[derive_where(Clone, Copy)]
pub enum Work<'a, F> {
    /// Changes of names in order, and behind them the files that were written. A file is recorded as a cut to nothing and,
    /// where it has bytes, a put of them all, which names their pages.
    Changes {
        names: &'a [Change],
        files: &'a F,
    },
    /// Settings of keys.
    Settings(&'a [Setting]),
    /// An enlistment with its recovery information, which is recorded once it is prepared.
    Enlistment {
        enlistment: Id,
        manager: Id,
        information: &'a [u8],
    },
}

/// What a participant's work is recorded with.
#[derive(Clone, Copy)]
pub enum Stage {
    /// The participant is prepared, and the transaction is still to be decided.
    Ready,
    /// The participant is the only one, and the transaction commits.
    Single,
}

impl Stage {
    pub(crate) fn tag(self) -> u8
        ensures { result ≡ stage_tag self }
    {
        match self {
            Stage::Ready => READY,
            Stage::Single => SINGLE,
        }
    }
}
