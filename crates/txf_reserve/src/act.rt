// What a change holds, and what a call does, part by part.
ghost use Rattle.std.specs.Prelude.{◌≡◌, ◌||◌};
ghost use Rattle.ktm_world.specs.Conflicts.{writes};
ghost use Rattle.ktm_world.specs.Holds.{directories_of, file_overwritten, nodes_changed, opens};
ghost use Rattle.txf_opens.specs.Acts.{act_of};
ghost use Rattle.txf_reserve.specs.Acts.{listed, listed_place};
ghost use Rattle.txf_reserve.specs.Parts.{ArePartsOf};

use ktm_world::Access;
use txf_opens::{Act, Place, asks_write};

/// What a transaction holds by one change.
#[derive(Clone, Copy)]
pub struct Held<'a> {
    /// The file or directory that it makes, changes, moves or drops.
    pub node: Option<u64>,
    /// The name that it drops or moves away.
    pub from: Option<Place<'a>>,
    /// The name that it makes or moves to.
    pub to: Option<Place<'a>>,
    /// The directory that it drops.
    pub dropped: Option<u64>,
    /// Does it move a directory.
    pub moves: bool,
}

/// What a call does, part by part.
#[derive(Clone, Copy)]
pub(crate) struct Parts<'a> {
    /// The file or directory that it changes.
    pub(crate) node: Option<u64>,
    /// The names that it changes.
    pub(crate) from: Option<Place<'a>>,
    pub(crate) to: Option<Place<'a>>,
    /// The directory that it drops.
    pub(crate) dropped: Option<u64>,
    /// Does it move a directory.
    pub(crate) moves: bool,
    /// The file that it opens or changes.
    pub(crate) touched: Option<u64>,
    /// The file whose bytes it writes, empties or deletes.
    pub(crate) overwritten: Option<u64>,
}

// The file, where an open changes it.
fn changed_file(file: u64, access: Access, truncates: bool) -> Option<u64>
    ensures changed { listed result ≡ nodes_changed (opens file (writes access || truncates)) }
    ensures overwritten { listed result ≡ file_overwritten (opens file (writes access || truncates)) }
{
    if asks_write(access, truncates) {
        Some(file)
    } else {
        None
    }
}

/// The directory of the place, if there is one.
pub(crate) fn directory_of(place: Option<Place>) -> Option<u64>
    ensures { listed result ≡ directories_of (listed_place place.entry) }
{
    match place {
        Some(place) => Some(place.directory),
        None => None,
    }
}

/// The parts of what a call does.
pub(crate) fn parts_of<'a>(act: &Act<'a>) -> Parts<'a>
    ensures { ArePartsOf (act_of act.now) result }
{
    let nothing = Parts {
        node: None,
        from: None,
        to: None,
        dropped: None,
        moves: false,
        touched: None,
        overwritten: None,
    };
    match *act {
        Act::Open {
            file,
            access,
            truncates,
            ..
        } => {
            let changed = changed_file(file, access, truncates);
            Parts {
                node: changed,
                touched: Some(file),
                overwritten: changed,
                ..nothing
            }
        }
        Act::Delete { file, at } => Parts {
            node: Some(file),
            from: Some(at),
            touched: Some(file),
            overwritten: Some(file),
            ..nothing
        },
        Act::MoveFile { file, from, to } => Parts {
            node: Some(file),
            from: Some(from),
            to: Some(to),
            touched: Some(file),
            ..nothing
        },
        Act::Make { at } => Parts {
            to: Some(at),
            ..nothing
        },
        Act::DropDirectory { directory, at } => Parts {
            node: Some(directory),
            from: Some(at),
            dropped: Some(directory),
            ..nothing
        },
        Act::MoveDirectory {
            directory,
            from,
            to,
        } => Parts {
            node: Some(directory),
            from: Some(from),
            to: Some(to),
            moves: true,
            ..nothing
        },
    }
}
