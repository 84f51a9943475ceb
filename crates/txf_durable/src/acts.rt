// What changes do, as calls that make them, with others laid over the tree.
ghost use Rattle.std.specs.Prelude.{◌≡◌, ◌≤◌, ◌∷◌, [], Some, true, is_some, length};
ghost use Rattle.std.specs.Option.{option_map};
ghost use Rattle.ktm_base.specs.declared.limits.TheConstants.{MOST_NAME_BYTES};
ghost use Rattle.ktm_world.specs.declared.recorded.Node.{Node};
ghost use Rattle.ktm_world.specs.declared.change.Change.TheVariants.{Move, Drop};
ghost use Rattle.ktm_world.specs.Changes.{applies};
ghost use Rattle.ktm_world.specs.Durable.{acts_of};
ghost use Rattle.ktm_world.specs.Holds.{directory_dropped, is_move_of_directory, makes, opens, place, places_changed};
ghost use Rattle.ktm_world.specs.Tree.{node_at};
ghost use Rattle.txf_durable.specs.Places.{brought};
ghost use Rattle.txf_opens.specs.Acts.{act_of, place_in, HasShortNames};
ghost use Rattle.txf_overlay.specs.OverlayState.{seen};
ghost use Rattle.txf_overlay.specs.Views.{StandsOver};
ghost use Rattle.txf_reserve.specs.Acts.{listed, places_held};
ghost use Rattle.txf_tree.specs.TreeState.{tree_of};

use ktm_world::{Access, Change, ShareMode};
use txf_opens::{Act, Place};
use txf_overlay::Overlay;
use txf_reserve::Held;
use txf_tree::Tree;

// The place to which a change brings its node.
fn brought(change: &Change) -> Option<Place<'_>>
    ensures { option_map place_in result ≡ brought change.now }
{
    match change {
        Change::Make { parent, name, .. } => Some(Place {
            directory: *parent,
            name: name.as_slice(),
        }),
        Change::Move { parent, name, .. } => Some(Place {
            directory: *parent,
            name: name.as_slice(),
        }),
        _ => None,
    }
}

/// The place of a node that is seen, which is there.
pub fn place_seen<'a>(tree: &'a Tree, overlay: &'a Overlay, node: u64) -> Place<'a>
    requires stands { StandsOver (tree_of tree.now) overlay.now }
    requires there { (x : Node) × (node_at (seen (tree_of tree.now) overlay.now) node ≡ Some x) }
    ensures place { Some (place_in result) ≡ option_map (λ n. place n.parent n.name) (node_at (seen (tree_of tree.now) overlay.now) node) }
    ensures short { length result.name.now ≤ MOST_NAME_BYTES }
{
    match overlay.last_change(node) {
        Some(change) => match brought(change) {
            Some(place) => place,
            None => unreachable!(),
        },
        None => match tree.node(node) {
            Some(at) => Place {
                directory: at.parent,
                name: at.name,
            },
            None => unreachable!(),
        },
    }
}

/// Is a node that is seen, which is there, a file.
pub fn is_file_seen(tree: &Tree, overlay: &Overlay, node: u64) -> bool
    requires { StandsOver (tree_of tree.now) overlay.now }
    ensures { (x : Node) → node_at (seen (tree_of tree.now) overlay.now) node ≡ Some x → result ≡ is_some x.content }
{
    match overlay.node(tree, node) {
        Some(seen) => seen.is_file,
        None => false,
    }
}

/// What a change of a file's bytes does.
pub(crate) fn writing<'a>(file: u64) -> Act<'a>
    ensures act { act_of result ≡ opens file true }
    ensures short { HasShortNames result }
{
    Act::Open {
        file,
        access: Access::Write,
        truncates: false,
        share: ShareMode::ReadWrite,
    }
}

// What a make under a name does.
fn making(at: Place<'_>) -> Act<'_>
    requires { length at.name.now ≤ MOST_NAME_BYTES }
    ensures act { act_of result ≡ makes (place_in at.entry) }
    ensures short { HasShortNames result }
{
    Act::Make { at }
}

// What a move of a node that is seen does.
fn moving<'a>(tree: &'a Tree, overlay: &'a Overlay, node: u64, to: Place<'a>) -> Act<'a>
    requires stands { StandsOver (tree_of tree.now) overlay.now }
    requires there { (x : Node) × (node_at (seen (tree_of tree.now) overlay.now) node ≡ Some x) }
    requires short { length to.name.now ≤ MOST_NAME_BYTES }
    ensures act { acts_of (seen (tree_of tree.now) overlay.now) (Move node to.entry.directory to.entry.name.now) ≡ act_of result ∷ [] }
    ensures short { HasShortNames result }
{
    let from = place_seen(tree, overlay, node);
    if is_file_seen(tree, overlay, node) {
        Act::MoveFile {
            file: node,
            from,
            to,
        }
    } else {
        Act::MoveDirectory {
            directory: node,
            from,
            to,
        }
    }
}

// What a drop of a node that is seen does.
fn dropping<'a>(tree: &'a Tree, overlay: &'a Overlay, node: u64) -> Act<'a>
    requires stands { StandsOver (tree_of tree.now) overlay.now }
    requires there { (x : Node) × (node_at (seen (tree_of tree.now) overlay.now) node ≡ Some x) }
    ensures act { acts_of (seen (tree_of tree.now) overlay.now) (Drop node) ≡ act_of result ∷ [] }
    ensures short { HasShortNames result }
{
    let at = place_seen(tree, overlay, node);
    if is_file_seen(tree, overlay, node) {
        Act::Delete { file: node, at }
    } else {
        Act::DropDirectory {
            directory: node,
            at,
        }
    }
}

/// What a change does that applies.
pub(crate) fn act_over<'a>(tree: &'a Tree, overlay: &'a Overlay, change: &'a Change) -> Act<'a>
    requires stands { StandsOver (tree_of tree.now) overlay.now }
    requires applies { applies (seen (tree_of tree.now) overlay.now) change.now ≡ true }
    ensures act { acts_of (seen (tree_of tree.now) overlay.now) change.now ≡ act_of result ∷ [] }
    ensures short { HasShortNames result }
{
    match change {
        Change::Make { parent, name, .. } => making(Place {
            directory: *parent,
            name: name.as_slice(),
        }),
        Change::Put { node, .. } => writing(*node),
        Change::Cut { node, .. } => writing(*node),
        Change::Move { node, parent, name } => {
            let to = Place {
                directory: *parent,
                name: name.as_slice(),
            };
            moving(tree, overlay, *node, to)
        }
        Change::Drop { node } => dropping(tree, overlay, *node),
    }
}

/// What a transaction holds by a change of this node, by what that does.
pub(crate) fn held_by<'a>(node: u64, act: &Act<'a>) -> Held<'a>
    ensures node { listed result.node ≡ node ∷ [] }
    ensures places { places_held result ≡ places_changed (act_of act.now) }
    ensures dropped { listed result.dropped ≡ directory_dropped (act_of act.now) }
    ensures moves { result.moves ≡ is_move_of_directory (act_of act.now) }
{
    let held = Held {
        node: Some(node),
        from: None,
        to: None,
        dropped: None,
        moves: false,
    };
    match *act {
        Act::Open { .. } => held,
        Act::Delete { at, .. } => Held {
            from: Some(at),
            ..held
        },
        Act::MoveFile { from, to, .. } => Held {
            from: Some(from),
            to: Some(to),
            ..held
        },
        Act::Make { at } => Held {
            to: Some(at),
            ..held
        },
        Act::DropDirectory { directory, at } => Held {
            from: Some(at),
            dropped: Some(directory),
            ..held
        },
        Act::MoveDirectory { from, to, .. } => Held {
            from: Some(from),
            to: Some(to),
            moves: true,
            ..held
        },
    }
}
