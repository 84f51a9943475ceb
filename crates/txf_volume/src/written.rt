// The files that a transaction wrote, as they are recorded.
ghost use Rattle.std.specs.Prelude.{◌≡◌, []};
ghost use Rattle.std.specs.Option.{option_copied, option_map};
ghost use Rattle.ktm_event.specs.Work.{final_file};
ghost use Rattle.txf_volume.specs.Shown.{recorded_file, shown};

use ktm_event::{FilePages, WrittenFiles};
use std::marker::Model;
use txf_overlay::{Overlay, WrittenFile};

/// The files that a transaction wrote or made, by rising number, with the pages of all of their bytes, shown where they stand.
#[derive(Drop)]
pub struct Written<'a> {
    // What it changed, if it changed anything.
    pub(crate) overlay: Option<&'a Overlay>,
}

impl<'a> Model for Written<'a> {
    ghost use Rattle.std.specs.Prelude.{◌≡◌, List, true};
    ghost use Rattle.std.specs.Option.{option_copied};
    ghost use Rattle.ktm_event.specs.Work.{FinalFile};
    ghost use Rattle.txf_volume.specs.Shown.{are_rising, recorded_files};

    ghost Value = { List FinalFile };

    ghost view = { λ w. recorded_files (option_copied w.overlay) };

    ghost invariant = { λ w. are_rising (recorded_files (option_copied w.overlay)) ≡ true };
}

impl<'a> Written<'a> {
    /// Those of a transaction that changed nothing.
    pub fn none() -> Written<'a>
        ensures { shown result ≡ [] }
    {
        Written { overlay: None }
    }
}

// A file, if there is one, as it is shown.
fn file_pages(written: Option<&WrittenFile>) -> Option<FilePages<'_>>
    ensures { option_map final_file result ≡ option_map recorded_file (option_copied written.entry) }
{
    match written {
        Some(written) => Some(FilePages {
            file: written.file(),
            len: written.bytes().len(),
            pages: written.pages(),
        }),
        None => None,
    }
}

impl<'a> WrittenFiles for Written<'a> {
    ghost use Rattle.txf_volume.specs.Shown.{shown, shown-rising};

    ghost files = { shown };

    ghost rising = { shown-rising };

    fn is_empty(&self) -> bool {
        self.first().is_none()
    }

    fn first(&self) -> Option<FilePages<'_>> {
        match self.overlay {
            Some(overlay) => file_pages(overlay.written_from(0)),
            None => None,
        }
    }

    fn behind(&self, file: u64) -> Option<FilePages<'_>> {
        match self.overlay {
            Some(overlay) => file_pages(overlay.written_behind(file)),
            None => None,
        }
    }
}
