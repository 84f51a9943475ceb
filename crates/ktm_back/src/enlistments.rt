// The enlistments that are brought back, by rising Id.
ghost use Rattle.std.specs.Prelude.{◌≡◌, ◌≤◌, ◌∷◌, [], IfOk, OnOk, filter, length};
ghost use Rattle.std.specs.List.{cons_option, flat_map, position, position_or_len};
ghost use Rattle.ktm_world.specs.Durable.{is_before};
ghost use Rattle.ktm_world.specs.World.{by_rising_id, enlistment_back, enlistments_back, is_brought_back, superior_back, with_enlistment};
ghost use Rattle.ktm_back.specs.Coming.{enlistments_coming, with_all};

use crate::transactions::is_brought_back;
use ktm_base::{Id, NoMemory};
use ktm_phase::Enlistment;
use ktm_world::{EnlistmentKind, Part, Recorded, RecordedPart, Superior};
use std::alloc::Global;

// Does the first Id come before the second: by its boot, and then by its number.
fn is_before(a: Id, b: Id) -> bool
    ensures { result ≡ is_before a b }
{
    a.boot < b.boot || (a.boot == b.boot && a.number < b.number)
}

// The index of the first that this Id comes before.
fn first_behind(enlistments: &[Enlistment], id: Id) -> Option<usize>
    ensures { result ≡ position (λ e. is_before id e.id) enlistments.now }
{
    enlistments.iter().position(|e| is_before(id, e.id))
}

// The place of this Id: before the first that it comes before.
fn place_of(enlistments: &[Enlistment], id: Id) -> usize
    ensures place { result ≡ position_or_len (λ e. is_before id e.id) enlistments.now }
    ensures within { result ≤ length enlistments.now }
{
    first_behind(enlistments, id).unwrap_or(enlistments.len())
}

// Puts an enlistment at its place.
fn put(enlistments: &mut Vec<Enlistment>, e: Enlistment) -> Result<(), NoMemory>
    ensures { OnOk result (enlistments.new.items ≡ with_enlistment enlistments.old.items e) }
{
    let place = place_of(enlistments, e.id);
    match enlistments.insert(place, e) {
        Ok(()) => Ok(()),
        Err(_) => Err(NoMemory),
    }
}

// The enlistment of a part, if it is one's: prepared, and not recovered.
fn enlistment_back(
    alloc: Global,
    transaction: Id,
    part: &RecordedPart,
) -> Result<Option<Enlistment>, NoMemory>
    ensures { IfOk result (λ e. cons_option e [] ≡ enlistment_back transaction part.now) }
{
    match &part.part {
        Part::Enlistment {
            enlistment,
            manager,
            information,
        } => Ok(Some(Enlistment {
            id: *enlistment,
            manager: *manager,
            transaction,
            kind: EnlistmentKind::Plain,
            owes: None,
            is_read_only: false,
            is_prepared: true,
            is_finished: false,
            is_recovered: false,
            information: information.copy(alloc)?,
        })),
        Part::Changes(_) | Part::Settings(_) => Ok(None),
    }
}

// The enlistment of a superior, if there is one: not recovered.
fn superior_back(
    alloc: Global,
    transaction: Id,
    superior: &Option<Superior>,
) -> Result<Option<Enlistment>, NoMemory>
    ensures { IfOk result (λ e. cons_option e [] ≡ superior_back transaction superior.now) }
{
    match superior {
        Some(superior) => Ok(Some(Enlistment {
            id: superior.enlistment,
            manager: superior.manager,
            transaction,
            kind: EnlistmentKind::Superior,
            owes: None,
            is_read_only: false,
            is_prepared: false,
            is_finished: false,
            is_recovered: false,
            information: superior.information.copy(alloc)?,
        })),
        None => Ok(None),
    }
}

// Puts the enlistment at its place, if there is one.
fn put_if(enlistments: &mut Vec<Enlistment>, e: Option<Enlistment>) -> Result<(), NoMemory>
    ensures { OnOk result (enlistments.new.items ≡ with_all enlistments.old.items (cons_option e [])) }
{
    match e {
        Some(e) => put(enlistments, e),
        None => Ok(()),
    }
}

// Puts the enlistment of a part at its place, if it is one's.
fn put_part(
    alloc: Global,
    enlistments: &mut Vec<Enlistment>,
    transaction: Id,
    part: &RecordedPart,
) -> Result<(), NoMemory>
    ensures { OnOk result (enlistments.new.items ≡ with_all enlistments.old.items (enlistment_back transaction part.now)) }
{
    let e = enlistment_back(alloc, transaction, part)?;
    put_if(enlistments, e)
}

// Puts the enlistment of a superior at its place, if there is one.
fn put_superior(
    alloc: Global,
    enlistments: &mut Vec<Enlistment>,
    transaction: Id,
    superior: &Option<Superior>,
) -> Result<(), NoMemory>
    ensures { OnOk result (enlistments.new.items ≡ with_all enlistments.old.items (superior_back transaction superior.now)) }
{
    let e = superior_back(alloc, transaction, superior)?;
    put_if(enlistments, e)
}

// Puts the enlistments of parts at their places, from the last part on.
fn put_parts(
    alloc: Global,
    enlistments: &mut Vec<Enlistment>,
    transaction: Id,
    parts: &[RecordedPart],
) -> Result<(), NoMemory>
    ensures { OnOk result (enlistments.new.items ≡ with_all enlistments.old.items (flat_map (enlistment_back transaction) parts.now)) }
{
    for i in (0..parts.len()).rev() {
        put_part(alloc, enlistments, transaction, &parts[i])?;
    }
    Ok(())
}

// Puts the enlistments of a transaction at their places, the superior's last.
fn put_those_of(
    alloc: Global,
    enlistments: &mut Vec<Enlistment>,
    t: &Recorded,
) -> Result<(), NoMemory>
    ensures { OnOk result (enlistments.new.items ≡ with_all enlistments.old.items (enlistments_back t.now)) }
{
    put_parts(alloc, enlistments, t.id, &t.parts)?;
    put_superior(alloc, enlistments, t.id, &t.superior)
}

// Puts the enlistments of a transaction at their places, the superior's last, where the transaction is brought back.
fn put_if_back(
    alloc: Global,
    enlistments: &mut Vec<Enlistment>,
    t: &Recorded,
) -> Result<(), NoMemory>
    ensures { OnOk result (enlistments.new.items ≡ with_all enlistments.old.items (enlistments_coming (t.now ∷ []))) }
{
    if is_brought_back(t) {
        put_those_of(alloc, enlistments, t)
    } else {
        Ok(())
    }
}

/// The enlistments of the transactions that are brought back, by rising Id, with their recovery information.
pub fn enlistments_back(
    alloc: Global,
    transactions: &[Recorded],
) -> Result<Vec<Enlistment>, NoMemory>
    ensures { IfOk result (λ es. es.items ≡ by_rising_id (flat_map enlistments_back (filter is_brought_back transactions.now))) }
{
    let mut enlistments = Vec::new(alloc);
    for i in (0..transactions.len()).rev() {
        put_if_back(alloc, &mut enlistments, &transactions[i])?;
    }
    Ok(enlistments)
}
