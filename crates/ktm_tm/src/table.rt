// The transactions of a boot, with those that a restart brought back.
ghost use Rattle.std.specs.Prelude.{◌≡◌, ◌+◌, ◌-◌, ◌≤◌, ◌<◌, ◌++◌, ◌∷◌, ◌&&◌, [], IsOk, MatchOption, OnOk, false, filter, find, is_some, length, option_and_then, true};
ghost use Rattle.std.specs.List.{list_all};
ghost use Rattle.ktm_world.specs.Durable.{is_before};
ghost use Rattle.ktm_world.specs.Transactions.{change_at, is_live, same_id, transaction_at};
ghost use Rattle.ktm_manager.specs.Rising.{are_rising};
ghost use Rattle.ktm_tm.specs.Listed.{IsAbsent, IsPlace};
ghost use Rattle.ktm_tm.specs.Table.{IsForgotten};
ghost use Rattle.ktm_tm.specs.TmState.{id_after, if_live};

use crate::ending::{Ending, ending_of, is_live};
use crate::place::{find_in, is_number, one_of, place_among, place_in};
use ktm_base::{Id, NoMemory};
use ktm_world::Transaction;
use std::alloc::Global;
use std::marker::Model;

// How many transactions there are at most.
const MOST: usize = u32::MAX as usize;

/// The transactions: those that a restart brought back by rising Id, and then those of this boot by their numbers from 1 on. Of one
/// that has ended only its outcome is kept, and whether it is recorded. One of this boot is found by its number, without a walk.
#[derive(Drop)]
pub(crate) struct TransactionTable {
    boot: u32,
    // The Ids of those that were brought back.
    back: Vec<Id>,
    // How each has ended; what stands at the place of one that has not counts for nothing.
    endings: Vec<Ending>,
    // Those that have not ended, by rising Id.
    live: Vec<Transaction>,
    // How many more there is room for.
    room: usize,
}

impl Model for TransactionTable {
    ghost use Rattle.std.specs.Prelude.{◌-◌, ◌^◌, length, vec_capacity, vec_len};
    ghost use Rattle.ktm_enlist.specs.Groups.{HasRoom};
    ghost use Rattle.ktm_tm.specs.Table.{all_of, IsTable, TableState};

    ghost Value = { TableState };

    ghost view = { λ table. record {
      boot = table.boot;
      made = length table.endings.items - length table.back.items;
      items = all_of table.boot table.back.items table.endings.items table.live.items;
      room = table.room;
    } };

    ghost invariant = { λ table.
        IsTable table.boot table.back.items table.endings.items table.live.items (all_of table.boot table.back.items table.endings.items table.live.items)
        × HasRoom table.room (vec_len table.back) (vec_capacity table.back)
        × HasRoom table.room (vec_len table.endings) (vec_capacity table.endings)
        × HasRoom table.room (vec_len table.live) (vec_capacity table.live)
        × HasRoom table.room (vec_len table.endings) (2 ^ 32 - 1) };
}

impl TransactionTable {
    /// None, at the start of this boot.
    pub fn new(alloc: Global, boot: u32) -> Self
        ensures { result ≡ record { boot = boot; made = 0; items = []; room = 0 } }
    {
        TransactionTable {
            boot,
            back: Vec::new(alloc),
            endings: Vec::new(alloc),
            live: Vec::new(alloc),
            room: 0,
        }
    }

    /// The number of the boot.
    pub fn boot(&self) -> u32
        ensures { result ≡ self.now.boot }
    {
        self.boot
    }

    /// How many were made in this boot.
    pub fn made(&self) -> usize
        ensures { result ≡ self.now.made }
    {
        self.endings.len() - self.back.len()
    }

    // Where the transaction stands: one of this boot by its number, behind those that were brought back.
    fn place(&self, id: Id) -> Option<usize>
        ensures { MatchOption result (IsAbsent self.now.items id) (IsPlace self.now.items id) }
    {
        if id.boot != self.boot {
            return place_in(&self.back, id);
        }
        if is_number(self.made(), id.number) {
            Some(self.back.len() + (id.number as usize - 1))
        } else {
            None
        }
    }

    /// The transaction with this Id.
    pub fn find(&self, id: Id) -> Option<Transaction>
        ensures { result ≡ transaction_at self.now.items id }
    {
        match self.place(id) {
            Some(place) => Some(one_of(&self.live, id, self.endings[place])),
            None => None,
        }
    }

    /// The transaction with this Id, if it has not ended.
    pub fn find_live(&self, id: Id) -> Option<Transaction>
        ensures found { result ≡ option_and_then if_live (transaction_at self.now.items id) }
        ensures first { result ≡ find (λ t. is_live t && same_id t.id id) self.now.items }
    {
        find_in(&self.live, id)
    }

    /// Those that have not ended, in their order.
    pub fn live(&self) -> &[Transaction]
        ensures live { result.now ≡ filter is_live self.now.items }
        ensures rising { are_rising (λ t. t.id) self.now.items ≡ true }
        ensures few { length result.now < 4294967296 }
    {
        &self.live
    }

    /// Takes the memory that one transaction more needs.
    pub fn reserve(&mut self) -> Result<(), NoMemory>
        ensures boot { self.new.boot ≡ self.old.boot }
        ensures made { self.new.made ≡ self.old.made }
        ensures items { self.new.items ≡ self.old.items }
        ensures room { OnOk result (1 ≤ self.new.room) }
        ensures enough { 1 ≤ self.old.room → IsOk result }
    {
        if self.room > 0 {
            return Ok(());
        }
        if self.endings.len() >= MOST {
            return Err(NoMemory);
        }
        self.back.reserve(1)?;
        self.endings.reserve(1)?;
        self.live.reserve(1)?;
        self.room = 1;
        Ok(())
    }

    /// One more of this boot, which has not ended. It takes no memory.
    pub fn add(&mut self, t: Transaction)
        requires next { t.id ≡ id_after self.old.boot self.old.made }
        requires live { is_live t ≡ true }
        requires room { 1 ≤ self.old.room }
        ensures now { self.new ≡ record self.old { made = self.old.made + 1; items = self.old.items ++ t ∷ []; room = self.old.room - 1 } }
        ensures rising { are_rising (λ t. t.id) (self.old.items ++ t ∷ []) ≡ true }
    {
        self.endings.push_reserved(ending_of(&t));
        self.live.push_reserved(t);
        self.room -= 1;
    }

    /// One that a restart brings back, behind the others, while none is made. It takes no memory.
    pub fn bring_back(&mut self, t: Transaction)
        requires earlier { t.id.boot < self.old.boot }
        requires behind { list_all (λ other. is_before other.id t.id) self.old.items ≡ true }
        requires first { self.old.made ≡ 0 }
        requires live { is_live t ≡ true }
        requires room { 1 ≤ self.old.room }
        ensures now { self.new ≡ record self.old { items = self.old.items ++ t ∷ []; room = self.old.room - 1 } }
        ensures rising { are_rising (λ t. t.id) (self.old.items ++ t ∷ []) ≡ true }
    {
        self.back.push_reserved(t.id);
        self.endings.push_reserved(ending_of(&t));
        self.live.push_reserved(t);
        self.room -= 1;
    }

    /// The transaction with its Id, which has not ended, has come this far. Its timeout and when it was made are 0 if it has ended
    /// now. It takes no memory.
    pub fn arrive(&mut self, t: Transaction)
        requires there { is_some (find (λ u. is_live u && same_id u.id t.id) self.old.items) ≡ true }
        requires forgotten { IsForgotten t }
        ensures { self.new ≡ record self.old { items = change_at self.old.items t.id (λ other. t) } }
    {
        let Some(place) = self.place(t.id) else {
            return;
        };
        let Some(at) = place_among(&self.live, t.id) else {
            return;
        };
        if is_live(&t) {
            self.live[at] = t;
        } else {
            self.live.remove(at);
            self.endings[place] = ending_of(&t);
        }
    }
}
