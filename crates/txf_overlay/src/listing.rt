// The entries of a directory, as a transaction sees them.
ghost use Rattle.std.specs.Prelude.{◌≡◌, ℕ, List, ◌+◌, ◌≤◌, true, length, Some, IfOk, IfNone, IfSome, option_to_list};
ghost use Rattle.std.specs.List.{list_all};
ghost use Rattle.std.specs.Option.{option_map};
ghost use Rattle.ktm_links.specs.Mapped.{Begins};
ghost use Rattle.ktm_world.specs.Tree.{has_entries, node_at};
ghost use Rattle.txf_tree.specs.Children.{entry_seen, entries_in, matching, shown, Shown};
ghost use Rattle.txf_tree.specs.Places.{number_bytes};
ghost use Rattle.txf_tree.specs.TreeState.{tree_of};
ghost use Rattle.txf_overlay.specs.OverlayState.{is_of_names, seen};
ghost use Rattle.txf_overlay.specs.Listing.{first_order, passed, steps_left, IsNextSeat, IsNoSeat, IsReached, IsStepped};
ghost use Rattle.txf_overlay.specs.Views.{seat_at, StandsOver};

use crate::node::given_name;
use crate::overlay::Overlay;
use ktm_base::NoMemory;
use ktm_links::Name;
use ktm_names::Pattern;
use std::cmp::Ordering;
use txf_tree::{Children, Entries, Entry, Tree, after_place, child_name, number_bytes};

/// A place that the transaction holds, and the node that stands there now.
#[derive(Clone, Copy)]
pub(crate) struct SeatRef<'a> {
    pub(crate) place: &'a [u8],
    pub(crate) node: Option<u64>,
}

// The next entry that is seen, if there is one, and the first held place behind it.
#[derive(Drop)]
struct Step<'a> {
    entry: Option<Entry<'a>>,
    seat: Option<SeatRef<'a>>,
}

// How the place of the first entry, if one is left, stands to this one. Where none is, it is as if it stood behind.
fn order_of(children: &Children<'_>, directory: u64, place: &[u8]) -> Ordering
    ensures { result ≡ first_order directory children.now place.now }
{
    match children.first() {
        Some(entry) => child_name(directory, entry.name).as_slice().cmp(place),
        None => Ordering::Greater,
    }
}

// Takes the first entry out, if its place is the one.
fn pass(children: &mut Children<'_>, order: Ordering)
    ensures { children.new ≡ passed order children.old }
{
    if order.is_eq() {
        children.skip();
    }
}

impl Overlay {
    // The first held place of the directory that is not below this one, and the node that stands there now.
    fn next_seat(&self, directory: u64, from: &[u8]) -> Option<SeatRef<'_>>
        requires { Begins (number_bytes directory) from.now }
        ensures some { IfSome result (λ seat. IsNextSeat self.now.held directory from.now seat.place.now seat.node) }
        ensures none { IfNone result (IsNoSeat self.now.held directory from.now) }
        ensures only { list_all is_of_names self.now.names ≡ true }
    {
        let Some(key) = self.seats.first_from(from) else {
            return None;
        };
        let Some(place) = self.seats.name(key) else {
            unreachable!();
        };
        if !place.starts_with(&number_bytes(directory)) {
            return None;
        }
        match self.seats.get(key) {
            Some(node) => Some(SeatRef { place, node: *node }),
            None => unreachable!(),
        }
    }

    // The entry of a node that stands at a held place.
    fn own_entry(&self, tree: &Tree, node: u64) -> Entry<'_>
        requires stands { StandsOver (tree_of tree.now) self.now }
        requires here { (place : List ℕ) × (seat_at self.now.held place ≡ Some (Some node)) }
        ensures { Some (entry_seen result) ≡ option_map shown (node_at (seen (tree_of tree.now) self.now) node) }
    {
        let Some(change) = self.last_change(node) else {
            unreachable!();
        };
        let Some(name) = given_name(change) else {
            unreachable!();
        };
        Entry {
            name,
            is_directory: !self.is_file(tree, node),
        }
    }

    // Goes on by one entry that is seen: the first of the tree's, where it stands before the first held place, or else the node
    // that stands there. What the tree has at a held place is hidden.
    fn step<'a>(
        &'a self,
        tree: &'a Tree,
        directory: u64,
        children: &mut Children<'a>,
        seat: Option<SeatRef<'a>>,
    ) -> Step<'a>
        requires stands { StandsOver (tree_of tree.now) self.now }
        requires reached { (left : List Shown) × IsReached (tree_of tree.now) self.now directory children.old seat left }
        ensures steps { (left : List Shown) → IsReached (tree_of tree.now) self.now directory children.old seat.entry left → IsStepped (tree_of tree.now) self.now directory children.new result left }
        ensures fewer { steps_left self.now.held children.new result.seat + length (option_to_list result.entry) ≤ steps_left self.now.held children.old seat.entry }
    {
        let mut seat = seat;
        while let Some(held) = seat {
            let order = order_of(children, directory, held.place);
            if order.is_lt() {
                return Step {
                    entry: children.next(),
                    seat,
                };
            }
            pass(children, order);
            seat = self.next_seat(directory, after_place(held.place).as_slice());
            if let Some(node) = held.node {
                return Step {
                    entry: Some(self.own_entry(tree, node)),
                    seat,
                };
            }
        }
        Step {
            entry: children.next(),
            seat: None,
        }
    }

    /// The entries of a directory that are seen and that a pattern matches, by rising folded name. Their names are lent.
    pub fn entries<'a>(
        &'a self,
        tree: &'a Tree,
        directory: u64,
        pattern: &Pattern,
    ) -> Result<Entries<'a>, NoMemory>
        requires { StandsOver (tree_of tree.now) self.now }
        ensures { IfOk result (λ entries. entries ≡ matching pattern.now.last (entries_in (seen (tree_of tree.now) self.now) directory)) }
    {
        let mut entries = Entries::new(self.alloc);
        let from = child_name(directory, pattern.lead());
        let mut children = tree.children(directory, from.as_slice());
        let seat = self.next_seat(directory, from.as_slice());
        let mut step = self.step(tree, directory, &mut children, seat);
        while let Some(entry) = step.entry {
            if !pattern.reaches(entry.name) {
                return Ok(entries);
            }
            if let Err(NoMemory) = entries.push_matching(entry, pattern) {
                return Err(NoMemory);
            }
            step = self.step(tree, directory, &mut children, step.seat);
        }
        Ok(entries)
    }

    /// Is anything seen in the directory. It takes no memory.
    pub fn has_entries<'a>(&'a self, tree: &'a Tree, directory: u64) -> bool
        requires { StandsOver (tree_of tree.now) self.now }
        ensures { result ≡ has_entries (seen (tree_of tree.now) self.now) directory }
    {
        let from = number_bytes(directory);
        let mut children = tree.children(directory, &from);
        let seat = self.next_seat(directory, &from);
        self.step(tree, directory, &mut children, seat)
            .entry
            .is_some()
    }
}
