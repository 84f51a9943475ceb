// The state of a snapshot.
ghost use Rattle.std.specs.Prelude.{◌≡◌, ◌&&◌, ◌≤◌, ℕ, IfOk, length, nat_le};
ghost use Rattle.ktm_base.specs.declared.limits.TheConstants.{MOST_LIVE};
ghost use Rattle.ktm_saved.specs.Saved.{ReadsSaved, state_of};
ghost use Rattle.ktm_saved.specs.Reading.{IsBegun, ReadsBegun, ReadsRest};
ghost use Rattle.ktm_waiting.specs.Totals.{AllApply};
ghost use Rattle.ktm_waiting.specs.Waiting.{committed};
ghost use Rattle.ktm_world.specs.Durable.{is_within_limits};
ghost use Rattle.txf_tree.specs.TreeState.{tree_of};

use crate::front::read_front;
use crate::head::Head;
use crate::saved::Saved;
use crate::transactions::read_into;
use ktm_base::NoMemory;
use ktm_records::law_of_spelling;
use ktm_waiting::{Amounts, Transactions, fits_in, limits, without};
use std::alloc::Global;
use txf_durable::Waiting;

// What the files and the keys take.
fn committed(saved: &Saved) -> Amounts
    ensures { result ≡ committed (tree_of saved.now.files.tree) saved.now.keys.items }
{
    Amounts {
        units: u128::from(saved.files.units()),
        nodes: saved.files.nodes() as u128 + 1,
        keys: saved.keys.len() as u128,
        changes: 0,
        enlistments: 0,
    }
}

// Is a state of few transactions and resource managers within the limits.
fn is_within(saved: &Saved, units: u32) -> bool
    requires apply { AllApply (tree_of saved.now.files.tree) saved.now.transactions.transactions }
    requires transactions { length saved.now.transactions.transactions ≤ MOST_LIVE }
    requires managers { length saved.now.managers.managers ≤ MOST_LIVE }
    ensures { (image : ℕ) → result ≡ is_within_limits (state_of units image saved.now) }
{
    match without(limits(units), committed(saved)) {
        Some(room) => fits_in(&saved.transactions.taken(), &room),
        None => false,
    }
}

// What a state that stands in the bytes begins with, without its transactions, and the place where these stand.
fn read_begun(alloc: Global, bytes: &[u8]) -> Result<Option<(Saved, usize)>, NoMemory>
    ensures { IfOk result (λ read. ReadsBegun bytes.now read) }
{
    let Some((front, start)) = read_front(alloc, bytes)? else {
        return Ok(None);
    };
    let transactions = Transactions::new(alloc);
    let waiting = Waiting::new(alloc);
    let saved = Saved {
        events: front.events,
        boots: front.boots,
        files: front.files,
        keys: front.keys,
        managers: front.managers,
        transactions,
        waiting,
    };
    Ok(Some((saved, start)))
}

// Reads the transactions behind that, and tells whether all of it is a good state that stands in the bytes.
fn read_rest(
    alloc: Global,
    bytes: &[u8],
    start: usize,
    units: u32,
    saved: &mut Saved,
) -> Result<bool, NoMemory>
    requires { IsBegun bytes.now start saved.old }
    ensures { IfOk result (λ is. ReadsRest units bytes.now saved.new is) }
{
    law_of_spelling();
    let head = Head {
        boots: saved.boots,
        managers: saved.managers.as_slice(),
        files: &saved.files,
    };
    let Some(end) = read_into(
        alloc,
        bytes,
        start,
        &head,
        &mut saved.transactions,
        &mut saved.waiting,
    )?
    else {
        return Ok(false);
    };
    if end < bytes.len() {
        return Ok(false);
    }
    Ok(is_within(saved, units))
}

// The same of a state of an image with so many units and this number, which is given where it stands there.
fn with_rest(
    alloc: Global,
    bytes: &[u8],
    start: usize,
    units: u32,
    image: u16,
    mut saved: Saved,
) -> Result<Option<Saved>, NoMemory>
    requires { IsBegun bytes.now start saved }
    ensures { IfOk result (λ read. ReadsSaved units image bytes.now read) }
{
    match read_rest(alloc, bytes, start, units, &mut saved) {
        Ok(true) => Ok(Some(saved)),
        Ok(false) => {
            drop(saved);
            Ok(None)
        }
        Err(NoMemory) => {
            drop(saved);
            Err(NoMemory)
        }
    }
}

/// The good state that stands in the bytes of a snapshot of an image with so many units and this number. There is none where the
/// bytes spell no state, or one that is not good. It fails where memory runs out.
pub fn read_state(
    alloc: Global,
    bytes: &[u8],
    units: u32,
    image: u16,
) -> Result<Option<Saved>, NoMemory>
    ensures { IfOk result (λ read. ReadsSaved units image bytes.now read) }
{
    match read_begun(alloc, bytes) {
        Ok(Some((saved, start))) => with_rest(alloc, bytes, start, units, image, saved),
        Ok(None) => Ok(None),
        Err(NoMemory) => Err(NoMemory),
    }
}
