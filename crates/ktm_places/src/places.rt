// Where entries are, by counts of their transactions.
ghost use Rattle.std.specs.Prelude.{◌≡◌, ℕ, ◌+◌, ◌-◌, ◌%◌, ◌<◌, List, [], ◌∷◌, ◌++◌, length, false, map, position, remove, slice_get, slice_index_or, OnOk};
ghost use Rattle.std.specs.Option.{option_map};
ghost use Rattle.ktm_base.specs.declared.id.Id.{Id};
ghost use Rattle.std.specs.List.{list_any};
ghost use Rattle.ktm_places.specs.Places.{bucket_of, is_its, no_entries, AreCounted, AreInBuckets, HasBuckets};

use ktm_base::{Id, NoMemory};
use std::alloc::Global;

// How many buckets there are. Transactions of a boot are numbered in order, so two of them share a bucket only where at least so
// many came from the one to the other.
const BUCKETS: usize = 1024;

/// What a transaction has, in a list of such entries.
pub trait Entry {
    /// Whose it is.
    ghost owner: { Self → Id };

    /// The transaction whose it is.
    fn transaction(&self) -> Id
        ensures { result ≡ owner self.now };

    /// What `Places::next_stamp` gave when it came. It says nothing of what the entry is, and only helps to find it.
    fn stamp(&self) -> u64;
}

// How many entries a bucket has, and which came last.
#[derive(Clone, Copy)]
struct Bucket {
    count: usize,
    // The stamp of the entry that came last, and of the one that came before it. They are hints: what is found by one is looked
    // at.
    stamp: u64,
    earlier: u64,
}

// A bucket into which no entry has come.
const EMPTY: Bucket = Bucket {
    count: 0,
    stamp: 0,
    earlier: 0,
};

impl Bucket {
    // One entry more has come, with this stamp.
    fn with(self, stamp: u64) -> Self
        ensures { self.count < usize.MAX → result.count ≡ self.count + 1 }
    {
        Bucket {
            count: self.count.saturating_add(1),
            stamp,
            earlier: self.stamp,
        }
    }

    // The entry with this stamp has gone.
    fn without(self, stamp: u64) -> Self
        ensures { result.count ≡ self.count - 1 }
    {
        Bucket {
            count: self.count.saturating_sub(1),
            stamp: if self.stamp == stamp {
                self.earlier
            } else {
                self.stamp
            },
            earlier: self.earlier,
        }
    }
}

/// How many entries of a list there are in each bucket of transactions, and which came last.
#[derive(Drop)]
pub struct Places {
    // None of them, until `reserve` takes them all.
    buckets: Vec<Bucket>,
    // The stamp of the entry that comes next. Stamps rise along the list.
    next: u64,
    // No transaction has two entries, as far as it is known.
    is_once: bool,
}

// The bucket of a transaction.
fn bucket_of(transaction: Id) -> usize
    ensures is { result ≡ bucket_of transaction }
    ensures within { result < BUCKETS }
{
    transaction.number as usize % BUCKETS
}

// Where the entry with this stamp is, if it is there and stamps rise.
fn stamped<T: Entry>(entries: &[T], stamp: u64) -> usize {
    entries.partition_point(|entry| entry.stamp() < stamp)
}

// Whose the entry at this place is.
fn owner_at<T: Entry>(entries: &[T], place: usize) -> Option<Id>
    ensures { result ≡ option_map T.owner (slice_get entries.now place) }
{
    match entries.get(place) {
        Some(entry) => Some(entry.transaction()),
        None => None,
    }
}

// Where the first entry of the transaction is, by a walk.
fn walked<T: Entry>(entries: &[T], transaction: Id) -> Option<usize>
    ensures { result ≡ position (λ entry. ⟦<Id as PartialEq>⟧.eq (T.owner entry) transaction) entries.now }
{
    entries
        .iter()
        .position(|entry| entry.transaction() == transaction)
}

impl Places {
    /// Of a list with no entries.
    pub fn new(alloc: Global) -> Self
        ensures { AreCounted [] result }
    {
        Places {
            buckets: Vec::new(alloc),
            next: 0,
            is_once: true,
        }
    }

    /// Takes the memory that `add` needs, where it is not there. Out of memory the same entries are counted as before.
    pub fn reserve(&mut self) -> Result<(), NoMemory>
        ensures ok { OnOk result (HasBuckets self.new) }
        ensures counted { (ids : List Id) → AreCounted ids self.old → AreCounted ids self.new }
    {
        if self.buckets.len() < BUCKETS {
            self.buckets.resize(BUCKETS, EMPTY)?;
        }
        Ok(())
    }

    // The bucket of a transaction, which is empty where the buckets have not been taken.
    fn bucket(&self, transaction: Id) -> Bucket
        ensures { result ≡ slice_index_or self.now.buckets.items (bucket_of transaction) no_entries }
    {
        match self.buckets.get(bucket_of(transaction)) {
            Some(bucket) => *bucket,
            None => EMPTY,
        }
    }

    /// Where the first entry of the transaction is. It may walk the list.
    pub fn place_of<T: Entry>(&self, entries: &[T], transaction: Id) -> Option<usize>
        requires { AreCounted (map T.owner entries.now) self.now }
        ensures { result ≡ position (λ entry. ⟦<Id as PartialEq>⟧.eq (T.owner entry) transaction) entries.now }
    {
        let bucket = self.bucket(transaction);
        if bucket.count == 0 {
            return None;
        }
        let place = stamped(entries, bucket.stamp);
        let Some(owner) = owner_at(entries, place) else {
            return walked(entries, transaction);
        };
        let is_its = owner == transaction;
        if is_its && (bucket.count == 1 || self.is_once) {
            return Some(place);
        }
        if !is_its && bucket.count == 1 && bucket_of(owner) == bucket_of(transaction) {
            return None;
        }
        walked(entries, transaction)
    }

    /// The stamp of the entry that comes next.
    pub fn next_stamp(&self) -> u64 {
        self.next
    }

    // One entry more is counted, which has the next stamp.
    fn count(&mut self, transaction: Id)
        requires { HasBuckets self.old }
        ensures counted { (ids : List Id) → length ids < usize.MAX → AreInBuckets ids self.old.buckets.items → AreInBuckets (ids ++ transaction ∷ []) self.new.buckets.items }
        ensures is_once { self.new.is_once ≡ self.old.is_once }
    {
        let bucket = self.bucket(transaction).with(self.next);
        self.buckets[bucket_of(transaction)] = bucket;
        self.next = self.next.wrapping_add(1);
    }

    // One entry less is counted, which had this stamp.
    fn uncount(&mut self, transaction: Id, stamp: u64)
        ensures counted { (ids : List Id) (place : ℕ) → place < length ids → slice_index_or ids place transaction ≡ transaction → AreInBuckets ids self.old.buckets.items → AreInBuckets (remove ids place) self.new.buckets.items }
        ensures is_once { self.new.is_once ≡ self.old.is_once }
    {
        let bucket = self.bucket(transaction).without(stamp);
        let place = bucket_of(transaction);
        if place < self.buckets.len() {
            self.buckets[place] = bucket;
        }
    }

    /// An entry of the transaction's has come, behind the others, with the next stamp, and the transaction may have had one. Where
    /// it may, looking up takes longer from now on. The memory is there (`reserve`), and none is taken.
    pub fn add(&mut self, transaction: Id, had: bool)
        requires { HasBuckets self.old }
        ensures { (ids : List Id) → length ids < usize.MAX → (had ≡ false → list_any (is_its transaction) ids ≡ false) → AreCounted ids self.old → AreCounted (ids ++ transaction ∷ []) self.new }
    {
        if had {
            self.is_once = false;
        }
        self.count(transaction);
    }

    /// The entry of the transaction's at some place has gone, which had this stamp.
    pub fn remove(&mut self, transaction: Id, stamp: u64)
        ensures { (ids : List Id) (place : ℕ) → place < length ids → slice_index_or ids place transaction ≡ transaction → AreCounted ids self.old → AreCounted (remove ids place) self.new }
    {
        self.uncount(transaction, stamp);
    }
}
