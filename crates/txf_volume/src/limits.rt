// Whether a call would pass a limit.
ghost use Rattle.std.specs.Prelude.{◌≡◌, ◌<◌, ◌^◌, ◌+◌, ◌≤◌, ◌==◌, ◌&&◌, ◌||◌, Option, Some, None, true, false, is_some, length, nat_lt};
ghost use Rattle.ktm_base.specs.declared.id.Id.{Id};
ghost use Rattle.ktm_world.specs.Changes.{is_drop, node_of};
ghost use Rattle.ktm_world.specs.FileOutcome.{FileOutcome, files_after, next_node_after};
ghost use Rattle.ktm_world.specs.FileUses.{file_changes_waiting, nodes_used, units_used};
ghost use Rattle.ktm_world.specs.Tree.{node_at};
ghost use Rattle.txf_tree.specs.TreeState.{tree_of};
ghost use Rattle.txf_volume.specs.Held.{files_of};
ghost use Rattle.txf_calls.specs.Fits.{opens_file, IsFit, Suits};
ghost use Rattle.txf_volume.specs.Uses.{kept, one_if, own_bytes, IsSteady};

use crate::change::{gain, loss};
use crate::files::Files;
use ktm_base::{END_OF_NODES, Id, MOST_NUMBER};
use ktm_world::Change;
use txf_calls::{Plan, Room};
use txf_tree::{Tree, changes_bytes, is_drop, is_make, node_of};

// One where it is so.
fn one_if(so: bool) -> u128
    ensures one { result ≡ one_if so }
    ensures few { result ≤ 1 }
{
    if so { 1 } else { 0 }
}

// Is a file opened while no handle is free.
pub(crate) fn lacks_handles(plan: &Plan, room: &Room) -> bool
    ensures { result ≡ (is_some plan.now.opened && room.now.handles == 0) }
{
    plan.opened.is_some() && room.handles == 0
}

// Does a change drop a committed node.
fn drops_committed(tree: &Tree, change: &Change) -> bool
    ensures { result ≡ (is_drop change.now && is_some (node_at (tree_of tree.now) (node_of change.now))) }
{
    is_drop(change) && tree.node(node_of(change)).is_some()
}

// Would a node number be beyond the last one, where this one is next.
fn passes_nodes(next_node: u64, plan: &Plan) -> bool
    ensures { result ≡ nat_lt END_OF_NODES (next_node_after next_node plan.now.change) }
{
    match &plan.change {
        Some(Change::Make { node, .. }) => next_node > END_OF_NODES || *node >= END_OF_NODES,
        _ => next_node > END_OF_NODES,
    }
}

impl Files {
    /// How many changes of files wait: what undecided transactions made, moved and dropped.
    pub fn changes_waiting(&self) -> u64
        ensures waiting { result ≡ file_changes_waiting (files_of self.now) }
        ensures steady { IsSteady (files_of self.now) }
        ensures few { result < 2 ^ 63 }
    {
        self.counts.names
    }

    // The units in use.
    fn units_used(&self) -> u128
        ensures units { result ≡ units_used (files_of self.now) }
        ensures steady { IsSteady (files_of self.now) }
        ensures few { result < 2 ^ 66 }
    {
        let own = self.counts.units as u128;
        self.units as u128 + own + self.versions.older_units() as u128
    }

    // The nodes in use.
    fn nodes_used(&self) -> u128
        ensures nodes { result ≡ nodes_used (files_of self.now) }
        ensures steady { IsSteady (files_of self.now) }
        ensures few { result < 2 ^ 66 }
    {
        1 + self.tree.len() as u128 + self.counts.nodes as u128
    }

    // The units of what a plain change ends, where it is kept since somebody first opened it.
    fn kept(&self, change: &Change) -> u128
        ensures kept { result ≡ kept (files_of self.now) change.now }
        ensures few { result < 2 ^ 66 }
    {
        let file = node_of(change);
        if self.versions.is_pinned(file, self.tree.version(file)) {
            loss(self.tree.size(file), change)
        } else {
            0
        }
    }

    // How many bytes a transaction has of its own of a file.
    fn own_size(&self, transaction: Id, file: u64) -> u64
        ensures { result ≡ length (own_bytes (files_of self.now) transaction file) }
    {
        match self.overlay(transaction) {
            Some(overlay) => match overlay.size(file) {
                Some(size) => size,
                None => 0,
            },
            None => 0,
        }
    }

    // The units in use once a plain change is committed.
    fn units_with(&self, change: &Change) -> u128
        requires { Suits (tree_of self.now.tree) (files_of self.now).first_opens change.now }
        ensures { (o : FileOutcome) → o.change ≡ Some change.now → result ≡ units_used (files_after (files_of self.now) None o) }
    {
        let was = self.tree.size(node_of(change));
        self.units_used() + gain(was, change) + self.kept(change) - loss(was, change)
    }

    // The units in use once a transaction has made a change.
    fn units_with_own(&self, transaction: Id, change: &Change) -> u128
        ensures { (o : FileOutcome) → o.change ≡ Some change.now → opens_file (tree_of self.now.tree) o.first ≡ true → result ≡ units_used (files_after (files_of self.now) (Some transaction) o) }
    {
        let file = node_of(change);
        let added = gain(self.bytes_in(transaction, file).len(), change);
        self.units_used() + added - loss(self.own_size(transaction, file), change)
    }

    // The units in use once a call has settled.
    pub(crate) fn units_after(&self, who: Option<Id>, plan: &Plan) -> u128
        requires { IsFit (files_of self.now) who plan.now }
        ensures { result ≡ units_used (files_after (files_of self.now) who plan.now) }
    {
        match (&plan.change, who) {
            (None, _) => self.units_used(),
            (Some(change), None) => self.units_with(change),
            (Some(change), Some(transaction)) => self.units_with_own(transaction, change),
        }
    }

    // The nodes in use once a plain change is committed.
    fn nodes_with(&self, change: &Change) -> u128
        requires { Suits (tree_of self.now.tree) (files_of self.now).first_opens change.now }
        ensures { (o : FileOutcome) → o.change ≡ Some change.now → result ≡ nodes_used (files_after (files_of self.now) None o) }
    {
        self.nodes_used() + one_if(is_make(change)) - one_if(drops_committed(&self.tree, change))
    }

    // The nodes in use once a transaction has made a change that drops none.
    fn nodes_with_own(&self, transaction: Id, change: &Change) -> u128
        requires { is_drop change.now ≡ false }
        ensures { (o : FileOutcome) → o.change ≡ Some change.now → opens_file (tree_of self.now.tree) o.first ≡ true → result ≡ nodes_used (files_after (files_of self.now) (Some transaction) o) }
    {
        self.nodes_used() + one_if(is_make(change))
    }

    // The nodes in use once a call has settled.
    pub(crate) fn nodes_after(&self, who: Option<Id>, plan: &Plan) -> u128
        requires { IsFit (files_of self.now) who plan.now }
        ensures { result ≡ nodes_used (files_after (files_of self.now) who plan.now) }
    {
        match (&plan.change, who) {
            (None, _) => self.nodes_used(),
            (Some(change), None) => self.nodes_with(change),
            (Some(change), Some(transaction)) => self.nodes_with_own(transaction, change),
        }
    }

    // The changes of names that wait once a call has settled.
    pub(crate) fn waiting_after(&self, who: Option<Id>, plan: &Plan) -> u64
        ensures { result ≡ file_changes_waiting (files_after (files_of self.now) who plan.now) }
    {
        let waiting = self.changes_waiting();
        match (&plan.change, who) {
            (Some(change), Some(_)) if !changes_bytes(change) => waiting + 1,
            _ => waiting,
        }
    }

    // The number of the file that is opened last once a call has settled.
    fn last_open_after(&self, plan: &Plan) -> u32
        ensures { (who : Option Id) → result ≡ (files_after (files_of self.now) who plan.now).table.last_open }
    {
        match plan.opened {
            Some(file) => file.number,
            None => self.opens.last(),
        }
    }

    // Would the numbers of open files or nodes be beyond the last ones.
    pub(crate) fn passes_numbers(&self, plan: &Plan) -> bool
        ensures { (who : Option Id) → result ≡ (nat_lt MOST_NUMBER (files_after (files_of self.now) who plan.now).table.last_open || nat_lt END_OF_NODES (files_after (files_of self.now) who plan.now).table.next_node) }
    {
        self.last_open_after(plan) as u64 > u64::from(MOST_NUMBER)
            || passes_nodes(self.next_node, plan)
    }
}
