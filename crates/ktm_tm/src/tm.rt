// The transactions of a boot, with those that a restart brought back.
ghost use Rattle.std.specs.Prelude.{◌≡◌, ◌+◌, ◌-◌, ◌≤◌, ◌<◌, ◌++◌, ◌∷◌, ◌&&◌, IsOk, MatchOption, OnOk, Some, false, true, [], count_by, drop, filter, find, option_and_then, slice_get};
ghost use Rattle.ktm_world.specs.Transactions.{transaction_at, is_live, same_id};
ghost use Rattle.ktm_world.specs.TransactionCalls.{is_due, later, no_transaction_left};
ghost use Rattle.std.specs.List.{list_all};
ghost use Rattle.ktm_world.specs.Durable.{is_before};
ghost use Rattle.ktm_tm.specs.Timeouts.{NoneDueBefore};
ghost use Rattle.ktm_tm.specs.TmState.{if_live, next_id, with_new, KeepsManaging, KeepsNow};

use crate::table::TransactionTable;
use crate::timeouts::{due_time, earliest_of, is_due};
use ktm_base::{Id, MOST_LIVE, MOST_NUMBER, NoMemory};
use ktm_enlist::Enlistments;
use ktm_manager::Managers;
use ktm_world::{Phase, Transaction, TransactionOutcome};
use std::alloc::Global;
use std::marker::Model;

/// The transactions, enlistments and resource managers, and the clock of a boot.
#[derive(Drop)]
pub struct Tm {
    // In milliseconds since the boot.
    pub(crate) clock: u64,
    // The time before which no timeout is reached.
    pub(crate) earliest: u64,
    pub(crate) transactions: TransactionTable,
    pub(crate) enlistments: Enlistments,
    // How many of the enlistments are live, and how many were brought back; those of this boot, behind them, are recovered.
    pub(crate) live_enlistments: usize,
    pub(crate) back_enlistments: usize,
    pub(crate) managers: Managers,
    // The number of the resource manager and of the enlistment that were made last, or 0.
    pub(crate) last_manager: u32,
    pub(crate) last_enlistment: u32,
}

impl Model for Tm {
    ghost use Rattle.std.specs.Prelude.{◌≡◌, count_by, true};
    ghost use Rattle.std.specs.List.{list_all};
    ghost use Rattle.ktm_world.specs.Enlistments.{is_live_enlistment};
    ghost use Rattle.ktm_enlist.specs.Telling.{has_manager};
    ghost use Rattle.ktm_tm.specs.Listed.{are_before_next, AreRecoveredBehind};
    ghost use Rattle.ktm_tm.specs.Timeouts.{NoneDueBefore};
    ghost use Rattle.ktm_tm.specs.TmState.{TmState};

    ghost Value = { TmState };

    ghost view = { λ tm. record {
      boot = tm.transactions.boot;
      now = record {
        clock = tm.clock;
        last_transaction = tm.transactions.made;
        last_manager = tm.last_manager;
        last_enlistment = tm.last_enlistment;
        items = tm.transactions.items;
        enlistments = tm.enlistments.enlistments;
      };
      managers = tm.managers.managers;
      room = tm.transactions.room;
      enlistment_room = tm.enlistments.room;
      manager_room = tm.managers.room;
      slots = tm.managers.spare;
    } };

    ghost invariant = { λ tm.
        (are_before_next (λ m. m.id) tm.transactions.boot tm.last_manager tm.managers.managers ≡ true)
        × (are_before_next (λ e. e.id) tm.transactions.boot tm.last_enlistment tm.enlistments.enlistments ≡ true)
        × (list_all (has_manager tm.managers.managers) tm.enlistments.enlistments ≡ true)
        × AreRecoveredBehind tm.back_enlistments tm.enlistments.enlistments
        × (tm.live_enlistments ≡ count_by (is_live_enlistment tm.transactions.items) tm.enlistments.enlistments)
        × NoneDueBefore tm.earliest tm.transactions.items };
}

impl Tm {
    /// Nothing, at the start of this boot.
    pub fn new(alloc: Global, boot: u32) -> Self
        ensures boot { result.boot ≡ boot }
        ensures now { result.now ≡ record { clock = 0; last_transaction = 0; last_manager = 0; last_enlistment = 0; items = []; enlistments = [] } }
        ensures managers { result.managers ≡ [] }
    {
        Tm {
            clock: 0,
            earliest: u64::MAX,
            transactions: TransactionTable::new(alloc, boot),
            enlistments: Enlistments::new(alloc),
            live_enlistments: 0,
            back_enlistments: 0,
            managers: Managers::new(alloc),
            last_manager: 0,
            last_enlistment: 0,
        }
    }

    /// The number of its boot.
    pub fn boot(&self) -> u32
        ensures { result ≡ self.now.boot }
    {
        self.transactions.boot()
    }

    /// The transaction with this Id.
    pub fn find(&self, id: Id) -> Option<Transaction>
        ensures { result ≡ transaction_at self.now.now.items id }
    {
        self.transactions.find(id)
    }

    /// The transaction with this Id, if it has not ended.
    pub fn find_live(&self, id: Id) -> Option<Transaction>
        ensures found { result ≡ option_and_then if_live (transaction_at self.now.now.items id) }
        ensures first { result ≡ find (λ t. is_live t && same_id t.id id) self.now.now.items }
    {
        self.transactions.find_live(id)
    }

    /// The live transaction that stands at this place among them, in the order of creation.
    pub fn live_at(&self, i: usize) -> Option<Transaction>
        ensures { result ≡ slice_get (filter is_live self.now.now.items) i }
    {
        match self.transactions.live().get(i) {
            Some(t) => Some(*t),
            None => None,
        }
    }

    /// Has its timeout been reached, in a phase in which that rolls it back.
    pub fn is_due(&self, t: &Transaction) -> bool
        ensures { result ≡ is_due self.now.now.clock t.now }
    {
        is_due(self.clock, t)
    }

    /// Will it have been reached so many milliseconds later.
    pub fn is_due_in(&self, ms: u64, t: &Transaction) -> bool
        ensures { result ≡ is_due (later self.now.now.clock ms) t.now }
    {
        is_due(self.clock.saturating_add(ms), t)
    }

    /// The place among the live transactions from which on those stand that will be due so many milliseconds later: behind all, where
    /// no timeout is reached by then.
    pub fn due_from(&self, ms: u64) -> usize
        ensures { filter (is_due (later self.now.now.clock ms)) (drop result (filter is_live self.now.now.items)) ≡ filter (is_due (later self.now.now.clock ms)) (filter is_live self.now.now.items) }
    {
        if self.clock.saturating_add(ms) < self.earliest {
            self.live_count()
        } else {
            0
        }
    }

    // The time before which none is due. It is looked for anew where the one that is known has passed.
    fn earliest_now(&self) -> u64
        ensures { NoneDueBefore result self.now.now.items }
    {
        if self.clock < self.earliest {
            self.earliest
        } else {
            earliest_of(self.transactions.live())
        }
    }

    /// So many milliseconds pass. The clock stays at its greatest value.
    pub fn advance(&mut self, ms: u64)
        ensures boot { self.new.boot ≡ self.old.boot }
        ensures now { self.new.now ≡ record self.old.now { clock = later self.old.now.clock ms } }
        ensures room { self.new.room ≡ self.old.room }
        ensures rest { KeepsManaging self.old self.new }
    {
        self.earliest = self.earliest_now();
        self.clock = self.clock.saturating_add(ms);
    }

    /// How many have not ended.
    pub fn live_count(&self) -> usize
        ensures { result ≡ count_by is_live self.now.now.items }
    {
        self.transactions.live().len()
    }

    /// Would one transaction more pass the limit of 64 live ones, or the greatest number.
    pub fn is_full(&self) -> bool
        ensures { result ≡ no_transaction_left self.now.now }
    {
        self.live_count() >= MOST_LIVE || self.transactions.made() >= MOST_NUMBER as usize
    }

    /// Takes the memory that one transaction more needs.
    pub fn reserve(&mut self) -> Result<(), NoMemory>
        ensures boot { self.new.boot ≡ self.old.boot }
        ensures now { self.new.now ≡ self.old.now }
        ensures room { OnOk result (1 ≤ self.new.room) }
        ensures enough { 1 ≤ self.old.room → IsOk result }
        ensures rest { KeepsManaging self.old self.new }
    {
        self.transactions.reserve()
    }

    /// The Id of the transaction that is made next.
    pub fn next_id(&self) -> Id
        requires { no_transaction_left self.now.now ≡ false }
        ensures { result ≡ next_id self.now.boot self.now.now }
    {
        Id {
            boot: self.boot(),
            number: (self.transactions.made() + 1) as u32,
        }
    }

    /// Makes a transaction with the next number. It takes no memory. The timeout is in milliseconds; 0 and 4,294,967,295
    /// mean none.
    pub fn create(&mut self, timeout: u32) -> Id
        requires left { no_transaction_left self.old.now ≡ false }
        requires room { 1 ≤ self.old.room }
        ensures id { result ≡ next_id self.old.boot self.old.now }
        ensures boot { self.new.boot ≡ self.old.boot }
        ensures now { self.new.now ≡ with_new self.old.boot self.old.now timeout }
        ensures room { self.new.room + 1 ≡ self.old.room }
        ensures rest { KeepsManaging self.old self.new }
    {
        let id = self.next_id();
        let t = Transaction {
            id,
            timeout,
            created: self.clock,
            phase: Phase::Active,
            outcome: TransactionOutcome::Undetermined,
            is_recorded: false,
        };
        self.earliest = self.earliest.min(due_time(&t));
        self.transactions.add(t);
        // What is enlisted in it counts from now on.
        self.live_enlistments += self.enlistments.live(id) as usize;
        id
    }

    /// A transaction that a restart brings back, which has not ended, behind the others, while none is made. It takes no memory.
    pub fn bring_back(&mut self, t: Transaction)
        requires earlier { t.id.boot < self.old.boot }
        requires behind { list_all (λ other. is_before other.id t.id) self.old.now.items ≡ true }
        requires first { self.old.now.last_transaction ≡ 0 }
        requires live { is_live t ≡ true }
        requires room { 1 ≤ self.old.room }
        ensures boot { self.new.boot ≡ self.old.boot }
        ensures now { self.new.now ≡ record self.old.now { items = self.old.now.items ++ t ∷ [] } }
        ensures room { self.new.room + 1 ≡ self.old.room }
        ensures rest { KeepsManaging self.old self.new }
    {
        let id = t.id;
        self.earliest = self.earliest.min(due_time(&t));
        self.transactions.bring_back(t);
        // What is enlisted in it counts from now on.
        self.live_enlistments += self.enlistments.live(id) as usize;
    }
}
