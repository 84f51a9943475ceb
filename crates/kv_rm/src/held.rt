// How many settings have keys of the same hash, so that a key that nobody holds is known without a look at each transaction.
ghost use Rattle.std.specs.Prelude.{◌≡◌, ◌+◌, ◌<◌, ◌≤◌, ◌^◌, ℕ, List, cond, count_by, length, nat_lt, OnOk};
ghost use Rattle.ktm_world.specs.Keys.{Own};
ghost use Rattle.kv_rm.specs.Held.{AreHeld, count_at, has_hash, hash_of, one_at};
ghost use Rattle.kv_rm.specs.declared.held.TheConstants.{HASHES};

use ktm_base::NoMemory;
use ktm_world::Setting;
use std::alloc::Global;

// How many hashes there are.
const HASHES: usize = 1024;

// What is multiplied by it at each byte, so that keys that differ in one byte mostly have other hashes.
const MIXER: u32 = 0x5bd1_e995;

/// The hash of a key.
pub fn hash_of(key: &[u8]) -> usize
    ensures is { result ≡ hash_of key.now }
    ensures within { result < HASHES }
{
    let mut hash: u32 = 0;
    for byte in key {
        hash = hash.wrapping_add(u32::from(*byte)).wrapping_mul(MIXER);
    }
    (hash >> 22) as usize
}

/// How many settings of all transactions have a key of each hash. The counts are taken with the first setting.
#[derive(Drop)]
pub struct HeldKeys {
    pub counts: Vec<usize>,
}

impl HeldKeys {
    /// Of no setting.
    pub fn new(alloc: Global) -> Self
        ensures { (hash : ℕ) → count_at result.counts.items hash ≡ 0 }
    {
        HeldKeys {
            counts: Vec::new(alloc),
        }
    }

    /// Takes the counts, where they are not there.
    pub fn reserve(&mut self) -> Result<(), NoMemory>
        ensures ok { OnOk result (HASHES ≤ length self.new.counts.items) }
        ensures held { (own : List Own) → AreHeld own self.old.counts.items → AreHeld own self.new.counts.items }
    {
        if self.counts.len() < HASHES {
            self.counts.resize(HASHES, 0)?;
        }
        Ok(())
    }

    /// Has a setting a key of this hash, beside the caller's own one, if it has one.
    pub fn has_others(&self, hash: usize, has_own: bool) -> bool
        ensures { result ≡ nat_lt (cond has_own 1 0) (count_at self.now.counts.items hash) }
    {
        match self.counts.get(hash) {
            Some(count) => *count > usize::from(has_own),
            None => false,
        }
    }

    /// One setting more has a key of this hash.
    pub fn more(&mut self, hash: usize)
        requires within { hash < length self.old.counts.items }
        requires few { count_at self.old.counts.items hash < 2 ^ 33 }
        ensures counted { (other : ℕ) → count_at self.new.counts.items other ≡ count_at self.old.counts.items other + one_at hash other }
        ensures len { length self.new.counts.items ≡ length self.old.counts.items }
    {
        self.counts[hash] += 1;
    }

    // One setting less has a key of this hash.
    fn less(&mut self, hash: usize)
        requires { 0 < count_at self.old.counts.items hash }
        ensures { (other : ℕ) → count_at self.new.counts.items other + one_at hash other ≡ count_at self.old.counts.items other }
    {
        self.counts[hash] -= 1;
    }

    /// These settings are counted too.
    pub fn add_all(&mut self, settings: &[Setting])
        requires room { HASHES ≤ length self.old.counts.items }
        requires few { (hash : ℕ) → count_at self.old.counts.items hash + count_by (has_hash hash) settings.now < 2 ^ 33 }
        ensures { (hash : ℕ) → count_at self.new.counts.items hash ≡ count_at self.old.counts.items hash + count_by (has_hash hash) settings.now }
    {
        for setting in settings {
            self.more(hash_of(setting.key.as_slice()));
        }
    }

    /// These settings are counted no more.
    pub fn remove_all(&mut self, settings: &[Setting])
        requires { (hash : ℕ) → count_by (has_hash hash) settings.now ≤ count_at self.old.counts.items hash }
        ensures { (hash : ℕ) → count_at self.new.counts.items hash + count_by (has_hash hash) settings.now ≡ count_at self.old.counts.items hash }
    {
        for setting in settings {
            self.less(hash_of(setting.key.as_slice()));
        }
    }
}
