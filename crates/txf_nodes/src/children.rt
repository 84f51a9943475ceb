// The entries of a directory, one after another.
ghost use Rattle.std.specs.Prelude.{◌≡◌, ◌++◌, ◌≤◌, [], IfNone, IfSome, drop, length, option_to_list};
ghost use Rattle.std.specs.List.{slice_get};
ghost use Rattle.std.specs.Option.{option_map};
ghost use Rattle.ktm_base.specs.declared.limits.TheConstants.{MOST_NAME_BYTES};
ghost use Rattle.txf_nodes.specs.Children.{entry_seen};
ghost use Rattle.txf_nodes.specs.Left.{children_of, entries_then};

use crate::entry::Entry;
use crate::name::ChildName;
use crate::nodes::Nodes;
use ktm_links::Walk;
use std::marker::Model;

/// The entries of a directory that are left, by rising folded name. Each next one is found without a search.
#[derive(Drop)]
pub struct Children<'a, C> {
    nodes: &'a Nodes<C>,
    directory: u64,
    first: Option<Entry<'a>>,
    // The names behind that of the first one.
    names: Walk<'a, ChildName, u64>,
}

impl<'a, C> Model for Children<'a, C> {
    ghost use Rattle.std.specs.Prelude.{List, ◌≤◌, IfSome, length};
    ghost use Rattle.ktm_base.specs.declared.limits.TheConstants.{MOST_NAME_BYTES};
    ghost use Rattle.txf_nodes.specs.Children.{Shown};
    ghost use Rattle.txf_nodes.specs.Left.{children_of, entries_then};

    ghost Value = { List Shown };

    ghost view = { λ c. entries_then c.first (children_of c.nodes.now.nodes c.directory c.names) };

    ghost invariant = { λ c. IfSome c.first (λ entry. length entry.name.now ≤ MOST_NAME_BYTES) };
}

// The next entry of the directory, if the next name is that of one.
fn next_child<'a, C>(
    nodes: &'a Nodes<C>,
    directory: u64,
    names: &mut Walk<'a, ChildName, u64>,
) -> Option<Entry<'a>>
    ensures entries { children_of nodes.now.nodes directory names.old ≡ entries_then result (children_of nodes.now.nodes directory names.new) }
    ensures few { IfSome result (λ entry. length entry.name.now ≤ MOST_NAME_BYTES) }
{
    let Some(under) = names.next() else {
        return None;
    };
    let Some(node) = nodes.get(*under.value) else {
        return None;
    };
    if node.parent() != directory {
        return None;
    }
    Some(node.as_entry())
}

impl<'a, C> Children<'a, C> {
    pub(crate) fn new(
        nodes: &'a Nodes<C>,
        directory: u64,
        names: Walk<'a, ChildName, u64>,
    ) -> Children<'a, C>
        ensures { result ≡ children_of nodes.now.nodes directory names.entry }
    {
        let mut names = names;
        let first = next_child(nodes, directory, &mut names);
        Children {
            nodes,
            directory,
            first,
            names,
        }
    }

    /// The first one, if one is left.
    pub fn first(&self) -> Option<Entry<'a>>
        ensures first { option_map entry_seen result ≡ slice_get self.now 0 }
        ensures few { IfSome result (λ entry. length entry.name.now ≤ MOST_NAME_BYTES) }
    {
        self.first
    }

    /// Takes the first one out, if one is left.
    pub fn next(&mut self) -> Option<Entry<'a>>
        ensures first { self.old ≡ option_to_list (option_map entry_seen result) ++ self.new }
        ensures none { IfNone result (self.old ≡ []) }
        ensures few { IfSome result (λ entry. length entry.name.now ≤ MOST_NAME_BYTES) }
    {
        let first = self.first();
        self.skip();
        first
    }

    /// Goes on behind the first one, if one is left.
    pub fn skip(&mut self)
        ensures { self.new ≡ drop 1 self.old }
    {
        if self.first.is_some() {
            self.first = next_child(self.nodes, self.directory, &mut self.names);
        }
    }
}
