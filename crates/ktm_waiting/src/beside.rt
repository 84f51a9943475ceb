// What other transactions that wait change and set.
ghost use Rattle.std.specs.Prelude.{◌≡◌, ◌&&◌, not, true, false, is_some};
ghost use Rattle.std.specs.List.{list_any};
ghost use Rattle.ktm_keyed.specs.Keyed.{is_rising, value_at};
ghost use Rattle.txf_laws.specs.GoodState.{are_kept_settings, has_one_part_each};
ghost use Rattle.ktm_world.specs.Durable.{Recorded as Transaction, has_changes_part, is_ready, settings_of};
ghost use Rattle.ktm_world.specs.Holds.{holds_by};
ghost use Rattle.ktm_world.specs.Lawful.{set_both};
ghost use Rattle.ktm_world.specs.Transactions.{is_of};
ghost use Rattle.ktm_waiting.specs.Waiting.{others_change, others_set, waits_beside};
ghost use Rattle.txf_laws.specs.Elements.{IsIn};

use crate::parts::{has_part_of, is_decided, settings_of};
use ktm_base::Id;
use ktm_keyed::{Slot, slot_of};
use ktm_world::{DonePart, Recorded, Setting};

// Is the transaction this one.
fn is_of(id: Id, who: Option<Id>) -> bool
    ensures { result ≡ is_of id who }
{
    match who {
        Some(other) => id == other,
        None => false,
    }
}

// Does the transaction wait, and is it another than this one.
fn waits_beside(transaction: &Recorded, who: Option<Id>) -> bool
    ensures { result ≡ waits_beside who transaction.now }
{
    !is_decided(transaction.stage) && !is_of(transaction.id, who)
}

fn has_changes(transaction: &Recorded) -> bool
    ensures { result ≡ has_changes_part transaction.now }
{
    has_part_of(&transaction.parts, DonePart::Files)
}

/// Does another transaction wait with changes. It does not go through them.
pub fn others_change(transactions: &[Recorded], who: Option<Id>) -> bool
    ensures { result ≡ others_change who transactions.now }
{
    transactions
        .iter()
        .any(|t| waits_beside(t, who) && has_changes(t))
}

// Do the settings set or unset the key.
fn sets(settings: &[Setting], key: &[u8]) -> bool
    requires { is_rising settings.now ≡ true }
    ensures { result ≡ is_some (value_at settings.now key.now) }
{
    match slot_of(settings, key) {
        Slot::Here(_) => true,
        Slot::Free(_) => false,
    }
}

// Is there a key that both set or unset. Each of the first is looked up by halves.
fn set_both(a: &[Setting], b: &[Setting]) -> bool
    requires { is_rising b.now ≡ true }
    ensures { result ≡ set_both a.now b.now }
{
    for setting in a {
        if sets(b, setting.key.as_slice()) {
            return true;
        }
    }
    false
}

// Does the transaction set or unset one of the keys.
fn sets_one(transaction: &Recorded, settings: &[Setting]) -> bool
    requires parts { has_one_part_each transaction.now ≡ true }
    requires kept { are_kept_settings transaction.now ≡ true }
    ensures { result ≡ set_both settings.now (settings_of transaction.now) }
{
    set_both(settings, settings_of(&transaction.parts))
}

/// Does another transaction wait that sets or unsets one of the keys.
pub fn others_set(transactions: &[Recorded], who: Option<Id>, settings: &[Setting]) -> bool
    requires parts { (t : Transaction) → IsIn t transactions.now → has_one_part_each t ≡ true }
    requires kept { (t : Transaction) → IsIn t transactions.now → are_kept_settings t ≡ true }
    ensures { result ≡ others_set who settings.now transactions.now }
{
    for t in transactions {
        if waits_beside(t, who) && sets_one(t, settings) {
            return true;
        }
    }
    false
}
