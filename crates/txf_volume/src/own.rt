// What each undecided transaction changed.
ghost use Rattle.std.specs.Prelude.{◌≡◌, [], MatchOption, None, Some, true};
ghost use Rattle.std.specs.Option.{option_copied};
ghost use Rattle.txf_volume.specs.Held.{overlay_in, without_own};
ghost use Rattle.txf_volume.specs.OwnParts.{IsPlace};
ghost use Rattle.txf_volume.specs.Ties.{held_by_two, AreCounts};
ghost use Rattle.txf_laws.specs.Elements.{each_pair};

use crate::counts::Counts;
use ktm_base::Id;
use ktm_places::{Entry, Places};
use std::alloc::Global;
use std::marker::Model;
use txf_overlay::Overlay;

/// A transaction and what it changed.
#[derive(Drop)]
pub(crate) struct Own {
    pub(crate) transaction: Id,
    // What the places gave it as it came.
    pub(crate) stamp: u64,
    pub(crate) overlay: Overlay,
}

impl Model for Own {
    ghost use Rattle.txf_volume.specs.Held.{OwnHeld};

    ghost Value = { OwnHeld };

    ghost view = { λ o. record { transaction = o.transaction; overlay = o.overlay } };
}

impl Entry for Own {
    ghost owner = { λ o. o.transaction };

    fn transaction(&self) -> Id {
        self.transaction
    }

    fn stamp(&self) -> u64 {
        self.stamp
    }
}

/// What each undecided transaction changed, in the order of their first changes.
#[derive(Drop)]
pub(crate) struct Overlays {
    pub(crate) alloc: Global,
    pub(crate) entries: Vec<Own>,
    // Where the entry of each transaction is.
    pub(crate) places: Places,
}

impl Model for Overlays {
    ghost use Rattle.std.specs.Prelude.{List};
    ghost use Rattle.txf_volume.specs.Held.{OwnHeld};

    ghost Value = { List OwnHeld };

    ghost use Rattle.ktm_places.specs.Places.{AreCounted};
    ghost use Rattle.txf_volume.specs.OwnParts.{owners};

    ghost view = { λ o. o.entries.items };

    ghost invariant = { λ o. AreCounted (owners o.entries.items) o.places };
}

impl Overlays {
    /// No transaction has changed anything.
    pub(crate) fn new(alloc: Global) -> Self
        ensures { result ≡ [] }
    {
        Overlays {
            alloc,
            entries: Vec::new(alloc),
            places: Places::new(alloc),
        }
    }

    /// Where the entry of a transaction is, if it changed anything.
    pub(crate) fn place_of(&self, transaction: Id) -> Option<usize>
        ensures { MatchOption result (overlay_in self.now transaction ≡ None) (IsPlace self.now transaction) }
    {
        self.places.place_of(&self.entries, transaction)
    }

    /// What a transaction changed, if it changed anything.
    pub(crate) fn of(&self, transaction: Id) -> Option<&Overlay>
        ensures { option_copied result ≡ overlay_in self.now transaction }
    {
        match self.place_of(transaction) {
            Some(place) => {
                let own = &self.entries[place];
                Some(&own.overlay)
            }
            None => None,
        }
    }

    /// Takes out what a transaction changed, if it changed anything, which counts no more.
    pub(crate) fn take(&mut self, counts: &mut Counts, transaction: Id) -> Option<Overlay>
        requires once { each_pair held_by_two self.old ≡ true }
        requires counted { AreCounts self.old counts.old }
        ensures overlay { result ≡ overlay_in self.old transaction }
        ensures left { self.new ≡ without_own self.old transaction }
        ensures counted { AreCounts self.new counts.new }
    {
        match self.place_of(transaction) {
            Some(place) => {
                let Own { overlay, stamp, .. } = self.entries.remove(place);
                self.places.remove(transaction, stamp);
                *counts = counts.without(Counts::of(&overlay));
                Some(overlay)
            }
            None => None,
        }
    }
}
