// What a transaction holds by one change.
ghost use Rattle.std.specs.Prelude.{◌≡◌, ◌<◌, ◌≤◌, ◌∷◌, [], Some, false, length};
ghost use Rattle.ktm_base.specs.declared.limits.TheConstants.{MOST_NAME_BYTES};
ghost use Rattle.txf_opens.specs.Acts.{place_in};
ghost use Rattle.txf_reserve.specs.Acts.{listed};
ghost use Rattle.txf_reserve.specs.ReserveState.{HoldsToo};

use ktm_base::Id;
use txf_opens::Place;
use txf_reserve::{Held, Reserve};

/// The transaction holds a file too, whose bytes it changed.
pub(crate) fn hold_file(reserve: &mut Reserve, transaction: Id, file: u64)
    requires { 0 < reserve.old.spare }
    ensures { HoldsToo (file ∷ []) [] [] false transaction reserve.old reserve.new }
{
    reserve.hold(
        transaction,
        &Held {
            node: Some(file),
            from: None,
            to: None,
            dropped: None,
            moves: false,
        },
    );
}

/// The transaction holds a node too that it made, and its name.
pub(crate) fn hold_made(reserve: &mut Reserve, transaction: Id, node: u64, at: Place<'_>)
    requires spare { 0 < reserve.old.spare }
    requires short { length at.name.now ≤ MOST_NAME_BYTES }
    ensures { HoldsToo (node ∷ []) (place_in at.entry ∷ []) [] false transaction reserve.old reserve.new }
{
    reserve.hold(
        transaction,
        &Held {
            node: Some(node),
            from: None,
            to: Some(at),
            dropped: None,
            moves: false,
        },
    );
}

/// The transaction holds a node too that it moves, and both names, and where it is a directory the right to move one.
pub(crate) fn hold_moved(
    reserve: &mut Reserve,
    transaction: Id,
    node: u64,
    from: Place<'_>,
    to: Place<'_>,
    is_directory: bool,
)
    requires spare { 0 < reserve.old.spare }
    requires short_from { length from.name.now ≤ MOST_NAME_BYTES }
    requires short_to { length to.name.now ≤ MOST_NAME_BYTES }
    ensures { HoldsToo (node ∷ []) (place_in from.entry ∷ place_in to.entry ∷ []) [] is_directory transaction reserve.old reserve.new }
{
    reserve.hold(
        transaction,
        &Held {
            node: Some(node),
            from: Some(from),
            to: Some(to),
            dropped: None,
            moves: is_directory,
        },
    );
}

/// The transaction holds a node too that it drops, and its name, and the directory that it drops.
pub(crate) fn hold_dropped(
    reserve: &mut Reserve,
    transaction: Id,
    node: u64,
    at: Place<'_>,
    dropped: Option<u64>,
)
    requires spare { 0 < reserve.old.spare }
    requires short { length at.name.now ≤ MOST_NAME_BYTES }
    ensures { HoldsToo (node ∷ []) (place_in at.entry ∷ []) (listed dropped) false transaction reserve.old reserve.new }
{
    reserve.hold(
        transaction,
        &Held {
            node: Some(node),
            from: Some(at),
            to: None,
            dropped,
            moves: false,
        },
    );
}
