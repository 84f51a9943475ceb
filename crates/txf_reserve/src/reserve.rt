// What undecided transactions hold.
ghost use Rattle.std.specs.Prelude.{◌≡◌, ℕ, List, [], ◌+◌, ◌<◌, ◌≤◌, ◌&&◌, ◌||◌, not, length, IsOk, OnOk};
ghost use Rattle.std.specs.List.{list_any};
ghost use Rattle.ktm_base.specs.declared.limits.TheConstants.{MOST_NAME_BYTES};
ghost use Rattle.ktm_base.specs.declared.id.Id.{Id};
ghost use Rattle.ktm_world.specs.Holds.{Place as HeldPlace, directories_of, is_in, is_place_in};
ghost use Rattle.ktm_world.specs.Transactions.{is_of, same_id};
ghost use Rattle.txf_opens.specs.Acts.{place_in, HaveShortNames};
ghost use Rattle.txf_reserve.specs.Acts.{listed, listed_place, places_held};
ghost use Rattle.txf_reserve.specs.Checks.{is_number_held};
ghost use Rattle.txf_reserve.specs.HeldPairs.{has_pair};
ghost use Rattle.txf_reserve.specs.Parts.{is_other_among, is_place_held};
ghost use Rattle.txf_reserve.specs.ReserveKeys.{node_key, place_key, AreKeys, IsNodeKey, IsPlaceKey};
ghost use Rattle.txf_reserve.specs.ReserveState.{holds_in, HoldsToo};

use crate::act::{Held, directory_of};
use crate::name::{EmptyName, NodeName, PlaceName, place_key};
use crate::pairs::Pairs;
use ktm_base::{Id, NoMemory};
use ktm_links::{Name, long_bytes};
use std::alloc::Global;
use std::marker::Model;
use txf_opens::Place;

/// What each undecided transaction holds by its changes.
#[derive(Drop)]
pub struct Reserve {
    nodes: Pairs<NodeName>,
    places: Pairs<PlaceName>,
    // The directories in which a transaction holds a name, and those that it dropped.
    uses: Pairs<NodeName>,
    dropped: Pairs<NodeName>,
    // The transactions that moved a directory.
    moves: Pairs<EmptyName>,
}

impl Model for Reserve {
    ghost use Rattle.std.specs.Prelude.{map, min, ◌/◌};
    ghost use Rattle.txf_reserve.specs.ReserveState.{ReserveState};

    ghost Value = { ReserveState };

    ghost use Rattle.txf_reserve.specs.ReserveKeys.{holder_of, number_held, place_held, AreReserved};

    ghost view = { λ r. record {
      nodes = map number_held r.nodes.pairs;
      places = map place_held r.places.pairs;
      uses = map number_held r.uses.pairs;
      dropped = map number_held r.dropped.pairs;
      moves = map holder_of r.moves.pairs;
      spare = min r.nodes.spare (min (r.places.spare / 2) (min (r.uses.spare / 2) (min r.dropped.spare r.moves.spare)));
    } };

    ghost invariant = { λ r. AreReserved r.nodes.pairs r.places.pairs r.uses.pairs r.dropped.pairs r.moves.pairs };
}

// The transaction holds the number too, if there is one.
fn hold_number(pairs: &mut Pairs<NodeName>, transaction: Id, number: Option<u64>)
    requires { 0 < pairs.old.spare }
    ensures held { (n : ℕ) (id : Id) → has_pair pairs.new.pairs (node_key n) id ≡ (has_pair pairs.old.pairs (node_key n) id || (same_id id transaction && is_in (listed number) n)) }
    ensures keys { AreKeys IsNodeKey pairs.old.pairs → AreKeys IsNodeKey pairs.new.pairs }
    ensures spare { pairs.old.spare ≤ pairs.new.spare + 1 }
{
    if let Some(number) = number {
        pairs.insert(&long_bytes(number), transaction);
    }
}

// The transaction holds the name too, if there is one.
fn hold_place(pairs: &mut Pairs<PlaceName>, transaction: Id, place: Option<Place>)
    requires spare { 0 < pairs.old.spare }
    requires short { HaveShortNames (listed_place place) }
    ensures held { (p : HeldPlace) (id : Id) → has_pair pairs.new.pairs (place_key p) id ≡ (has_pair pairs.old.pairs (place_key p) id || (same_id id transaction && is_place_in (listed_place place.entry) p)) }
    ensures keys { AreKeys IsPlaceKey pairs.old.pairs → AreKeys IsPlaceKey pairs.new.pairs }
    ensures spare { pairs.old.spare ≤ pairs.new.spare + 1 }
{
    if let Some(place) = place {
        pairs.insert(place_key(place).as_slice(), transaction);
    }
}

// The transaction holds the right to move directories too, where it moves one.
fn hold_moves(pairs: &mut Pairs<EmptyName>, transaction: Id, moves: bool)
    requires { 0 < pairs.old.spare }
    ensures held { (id : Id) → has_pair pairs.new.pairs [] id ≡ (has_pair pairs.old.pairs [] id || (same_id id transaction && moves)) }
    ensures keys { AreKeys (λ key. key ≡ []) pairs.old.pairs → AreKeys (λ key. key ≡ []) pairs.new.pairs }
    ensures spare { pairs.old.spare ≤ pairs.new.spare + 1 }
{
    if moves {
        pairs.insert(&[], transaction);
    }
}

impl Reserve {
    /// Nothing is held.
    pub fn new(alloc: Global) -> Self
        ensures nodes { result.nodes ≡ [] }
        ensures places { result.places ≡ [] }
        ensures uses { result.uses ≡ [] }
        ensures dropped { result.dropped ≡ [] }
        ensures moves { result.moves ≡ [] }
    {
        Reserve {
            nodes: Pairs::new(alloc),
            places: Pairs::new(alloc),
            uses: Pairs::new(alloc),
            dropped: Pairs::new(alloc),
            moves: Pairs::new(alloc),
        }
    }

    // By how many changes more it can be held without memory.
    fn spare(&self) -> usize
        ensures { result ≡ self.now.spare }
    {
        let names = (self.places.spare() / 2).min(self.uses.spare() / 2);
        let drops = self.dropped.spare().min(self.moves.spare());
        self.nodes.spare().min(names.min(drops))
    }

    /// Makes room for what so many more changes hold.
    pub fn reserve(&mut self, changes: usize) -> Result<(), NoMemory>
        ensures room { OnOk result (changes ≤ self.new.spare) }
        ensures enough { changes ≤ self.old.spare → IsOk result }
        ensures same { self.new ≡ record self.old { spare = self.new.spare } }
        ensures spare { self.old.spare ≤ self.new.spare }
    {
        if changes <= self.spare() {
            return Ok(());
        }
        if changes > usize::MAX / 2 {
            return Err(NoMemory);
        }
        if let Err(NoMemory) = self.nodes.reserve(changes) {
            return Err(NoMemory);
        }
        if let Err(NoMemory) = self.places.reserve(2 * changes) {
            return Err(NoMemory);
        }
        if let Err(NoMemory) = self.uses.reserve(2 * changes) {
            return Err(NoMemory);
        }
        if let Err(NoMemory) = self.dropped.reserve(changes) {
            return Err(NoMemory);
        }
        if let Err(NoMemory) = self.moves.reserve(changes) {
            return Err(NoMemory);
        }
        Ok(())
    }

    /// The transaction holds what one change of it holds, too. It takes no memory.
    pub fn hold(&mut self, transaction: Id, held: &Held)
        requires spare { 0 < self.old.spare }
        requires short { HaveShortNames (places_held held.now) }
        ensures holds { HoldsToo (listed held.now.node) (places_held held.now) (listed held.now.dropped) held.now.moves transaction self.old self.new }
        ensures spare { self.old.spare ≤ self.new.spare + 1 }
    {
        hold_number(&mut self.nodes, transaction, held.node);
        hold_place(&mut self.places, transaction, held.from);
        hold_place(&mut self.places, transaction, held.to);
        hold_number(&mut self.uses, transaction, directory_of(held.from));
        hold_number(&mut self.uses, transaction, directory_of(held.to));
        hold_number(&mut self.dropped, transaction, held.dropped);
        hold_moves(&mut self.moves, transaction, held.moves);
    }

    /// The transaction holds nothing from now on.
    pub fn release(&mut self, transaction: Id)
        ensures nodes { (id : Id) (n : ℕ) → is_in (holds_in self.new id).nodes n ≡ (is_in (holds_in self.old id).nodes n && not (same_id id transaction)) }
        ensures places { (id : Id) (p : HeldPlace) → is_place_in (holds_in self.new id).places p ≡ (is_place_in (holds_in self.old id).places p && not (same_id id transaction)) }
        ensures uses { (id : Id) (n : ℕ) → is_in (holds_in self.new id).uses n ≡ (is_in (holds_in self.old id).uses n && not (same_id id transaction)) }
        ensures dropped { (id : Id) (n : ℕ) → is_in (holds_in self.new id).dropped n ≡ (is_in (holds_in self.old id).dropped n && not (same_id id transaction)) }
        ensures moves { (id : Id) → (holds_in self.new id).moves ≡ ((holds_in self.old id).moves && not (same_id id transaction)) }
        ensures spare { self.old.spare ≤ self.new.spare }
    {
        self.nodes.remove_all(transaction);
        self.places.remove_all(transaction);
        self.uses.remove_all(transaction);
        self.dropped.remove_all(transaction);
        self.moves.remove_all(transaction);
    }

    /// Does another transaction hold the file or directory.
    pub fn is_node_held(&self, who: Option<Id>, node: u64) -> bool
        ensures { result ≡ is_number_held who self.now.nodes node }
    {
        self.nodes.is_held_by_other(&long_bytes(node), who)
    }

    /// Does another transaction hold the use of the directory.
    pub(crate) fn is_used(&self, who: Option<Id>, directory: u64) -> bool
        ensures { result ≡ is_number_held who self.now.uses directory }
    {
        self.uses.is_held_by_other(&long_bytes(directory), who)
    }

    /// Has another transaction dropped the directory.
    pub(crate) fn is_dropped(&self, who: Option<Id>, directory: u64) -> bool
        ensures { result ≡ is_number_held who self.now.dropped directory }
    {
        self.dropped.is_held_by_other(&long_bytes(directory), who)
    }

    /// Does another transaction hold the name.
    pub(crate) fn is_place_held(&self, who: Option<Id>, place: Place) -> bool
        requires { length place.name.now ≤ MOST_NAME_BYTES }
        ensures { result ≡ is_place_held who self.now.places (place_in place.entry) }
    {
        self.places
            .is_held_by_other(place_key(place).as_slice(), who)
    }

    /// Has another transaction moved a directory.
    pub(crate) fn is_moving(&self, who: Option<Id>) -> bool
        ensures { result ≡ is_other_among who self.now.moves }
    {
        self.moves.is_held_by_other(&[], who)
    }
}
