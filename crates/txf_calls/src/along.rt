// The way along a path.
ghost use Rattle.std.specs.Prelude.{◌≡◌, ◌<◌, ◌≤◌, Some, length, take, slice_get};
ghost use Rattle.ktm_world.specs.FileCalls.{directory_of, entered, walk};
ghost use Rattle.ktm_world.specs.Tree.{child_of, root};
ghost use Rattle.txf_calls.specs.Leads.{Leads, way};

use crate::view::{Seen, View};
use ktm_names::{Path, ROOT};

/// Where a path leads.
#[derive(Clone, Copy)]
pub enum Whereabouts<'a> {
    /// A directory on the way is missing, or is a file.
    NoWay,
    /// The name is free in this directory.
    Free { directory: u64, name: &'a [u8] },
    /// The root.
    Root,
    /// A node, which has this name but for the case of its letters.
    Node { node: Seen, name: &'a [u8] },
}

// The directory with this name in a directory, if there is one.
fn enter<V: View>(view: &V, directory: u64, name: &[u8]) -> Option<u64>
    ensures { result ≡ entered (child_of (V.tree view.now) directory name.now) }
{
    match view.child(directory, name) {
        Some(node) if !node.is_file => Some(node.number),
        _ => None,
    }
}

// The directory that the first names of a path lead to.
fn way<V: View>(view: &V, path: &Path, names: usize) -> Option<u64>
    requires { names ≤ length path.now }
    ensures { result ≡ way (V.tree view.now) root (take names path.now) }
{
    let mut directory = ROOT;
    for i in 0..names {
        match enter(view, directory, path.name(i)) {
            Some(next) => directory = next,
            None => return None,
        }
    }
    Some(directory)
}

/// The directory that a path leads to, if it leads to one: the root, for one without names.
pub fn directory_at<V: View>(view: &V, path: &Path) -> Option<u64>
    ensures { result ≡ directory_of (walk (V.tree view.now) (Some root) path.now) }
{
    way(view, path, path.len())
}

/// Where a path leads. It takes no memory, and a look-up for each name.
pub fn find<'a, V: View>(view: &V, path: &'a Path) -> Whereabouts<'a>
    ensures { Leads result (walk (V.tree view.now) (Some root) path.now) }
{
    let names = path.len();
    if names == 0 {
        return Whereabouts::Root;
    }
    let Some(directory) = way(view, path, names - 1) else {
        return Whereabouts::NoWay;
    };
    let name = path.name(names - 1);
    match view.child(directory, name) {
        Some(node) => Whereabouts::Node { node, name },
        None => Whereabouts::Free { directory, name },
    }
}
