// Settings by rising key, with free places before the first one.
ghost use Rattle.std.specs.Prelude.{◌≡◌, ℕ, List, ◌≤◌, [], drop, length, true, IfOk, OnOk, OnErr};
ghost use Rattle.std.specs.Option.{option_copied};
ghost use Rattle.ktm_keyed.specs.Keyed.{is_rising, put, value_at};
ghost use Rattle.ktm_keyed.specs.Slot.{IsFree, IsHere, IsSlot};

use ktm_base::{Bytes, NoMemory, Text};
use ktm_keyed::{Keyed, Slot, slot_of};
use ktm_world::Setting;
use std::alloc::Global;
use std::marker::Model;

// Of fewer settings than these no places are made free.
const FEW: usize = 16;

/// Settings by rising key. One whose key comes before all others takes a free place before them: so settings that come by
/// falling key are not moved for each one.
#[derive(Drop)]
pub struct SettingList {
    // The settings, behind the free places.
    items: Vec<Setting>,
    free: usize,
}

impl Model for SettingList {
    ghost use Rattle.std.specs.Prelude.{◌≡◌, ◌≤◌, drop, length, true};
    ghost use Rattle.ktm_keyed.specs.Keyed.{is_rising};
    ghost use Rattle.ktm_world.specs.Keys.{OwnSettings};

    ghost Value = { OwnSettings };

    ghost view = { λ l. drop l.free l.items.items };

    ghost invariant = { λ l. record {
      within : l.free ≤ length l.items.items;
      rising : is_rising (drop l.free l.items.items) ≡ true;
    } };
}

// So many free places.
fn free_places(alloc: Global, n: usize) -> Result<Vec<Setting>, NoMemory>
    ensures { IfOk result (λ places. length places.items ≡ n) }
{
    let mut places = Vec::new(alloc);
    places.resize_with(
        n,
        || Keyed {
            key: Text::new(Vec::new(alloc)),
            value: None,
        },
    )?;
    Ok(places)
}

// Makes as many places free before the settings as there are settings.
fn widen(alloc: Global, items: &mut Vec<Setting>) -> Result<usize, NoMemory>
    ensures ok { IfOk result (λ free. drop free items.new.items ≡ items.old.items) }
    ensures within { IfOk result (λ free. free ≤ length items.new.items) }
    ensures err { OnErr result (items.new.items ≡ items.old.items) }
{
    let free = items.len();
    let mut places = free_places(alloc, free)?;
    places.append(items)?;
    *items = places;
    Ok(free)
}

impl SettingList {
    /// No settings.
    pub fn new(alloc: Global) -> Self
        ensures { result ≡ [] }
    {
        SettingList {
            items: Vec::new(alloc),
            free: 0,
        }
    }

    /// Settings that rise by key.
    pub fn from_vec(items: Vec<Setting>) -> Self
        requires { is_rising items.items ≡ true }
        ensures { result ≡ items.items }
    {
        SettingList { items, free: 0 }
    }

    /// The settings alone. It takes no memory.
    pub fn into_vec(self) -> Vec<Setting>
        ensures { result.items ≡ self }
    {
        let SettingList { mut items, free } = self;
        if free > 0 {
            let count = items.len() - free;
            items.rotate_left(free);
            items.truncate(count);
        }
        items
    }

    /// By rising key.
    pub fn as_slice(&self) -> &[Setting]
        ensures settings { result.now ≡ self.now }
        ensures rising { is_rising result.now ≡ true }
    {
        &self.items[self.free..]
    }

    /// Where the key stands.
    pub fn slot(&self, key: &[u8]) -> Slot
        ensures { IsSlot self.now key.now result }
    {
        slot_of(self.as_slice(), key)
    }

    /// What the key that stands there is set to.
    pub fn value_in(&self, slot: Slot) -> Option<&Option<Bytes>>
        ensures { (key : List ℕ) → IsSlot self.now key slot → option_copied result ≡ value_at self.now key }
    {
        match slot {
            Slot::Here(i) => match self.as_slice().get(i) {
                Some(setting) => Some(&setting.value),
                None => None,
            },
            Slot::Free(_) => None,
        }
    }

    /// What the key is set to.
    pub fn get(&self, key: &[u8]) -> Option<&Option<Bytes>>
        ensures { option_copied result ≡ value_at self.now key.now }
    {
        self.value_in(self.slot(key))
    }

    // Makes places free, where none is and a setting comes before many.
    fn make_free(&mut self, alloc: Global) -> Result<(), NoMemory>
        ensures { self.new ≡ self.old }
    {
        if self.free == 0 && self.items.len() >= FEW {
            self.free = widen(alloc, &mut self.items)?;
        }
        Ok(())
    }

    // Puts a setting before all others.
    fn put_first(&mut self, setting: Setting) -> Result<(), NoMemory>
        requires { IsFree self.old setting.key 0 }
        ensures ok { OnOk result (self.new ≡ put self.old setting.key setting.value) }
        ensures err { OnErr result (self.new ≡ self.old) }
    {
        if self.free == 0 {
            if let Err(_) = self.items.insert(0, setting) {
                return Err(NoMemory);
            }
        } else {
            self.free -= 1;
            self.items[self.free] = setting;
        }
        Ok(())
    }

    // Puts a setting in place of the one that stands there under its key.
    fn replace(&mut self, i: usize, setting: Setting)
        requires { IsHere self.old setting.key i }
        ensures { self.new ≡ put self.old setting.key setting.value }
    {
        self.items[self.free + i] = setting;
    }

    // Puts a setting before the one that stands there.
    fn insert(&mut self, i: usize, setting: Setting) -> Result<(), NoMemory>
        requires { IsFree self.old setting.key i }
        ensures ok { OnOk result (self.new ≡ put self.old setting.key setting.value) }
        ensures err { OnErr result (self.new ≡ self.old) }
    {
        if let Err(_) = self.items.insert(self.free + i, setting) {
            return Err(NoMemory);
        }
        Ok(())
    }

    /// Sets the key that stands there, in place of what it was set to.
    pub fn put_in(
        &mut self,
        alloc: Global,
        slot: Slot,
        key: Text,
        value: Option<Bytes>,
    ) -> Result<(), NoMemory>
        requires { IsSlot self.old key slot }
        ensures ok { OnOk result (self.new ≡ put self.old key value) }
        ensures err { OnErr result (self.new ≡ self.old) }
    {
        let setting = Keyed { key, value };
        match slot {
            Slot::Here(i) => {
                self.replace(i, setting);
                Ok(())
            }
            Slot::Free(i) => {
                if i > 0 {
                    return self.insert(i, setting);
                }
                if let Err(NoMemory) = self.make_free(alloc) {
                    return Err(NoMemory);
                }
                self.put_first(setting)
            }
        }
    }

    /// Sets a key.
    pub fn put(&mut self, alloc: Global, key: Text, value: Option<Bytes>) -> Result<(), NoMemory>
        ensures ok { OnOk result (self.new ≡ put self.old key value) }
        ensures err { OnErr result (self.new ≡ self.old) }
    {
        let slot = self.slot(key.as_slice());
        self.put_in(alloc, slot, key, value)
    }
}
