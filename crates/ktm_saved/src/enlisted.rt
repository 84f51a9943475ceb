// Tests of the enlistments of a transaction that is read.
ghost use Rattle.std.specs.Prelude.{◌≡◌, ◌&&◌, not, nat_le};
ghost use Rattle.std.specs.List.{flat_map, list_all, list_any};
ghost use Rattle.ktm_saved.specs.Tests.{against_of, is_enlisted_well};
ghost use Rattle.txf_laws.specs.GoodState.{enlisted, enlisted_in, is_of_object, superiors_in};
ghost use Rattle.ktm_world.specs.Durable.{enlistments_in, enlistments_of, superior_ids};
ghost use Rattle.ktm_world.specs.Transactions.{same_id};
ghost use Rattle.txf_laws.specs.Elements.{each_pair};

use crate::head::Head;
use ktm_base::{Id, MOST_INFORMATION_BYTES};
use ktm_waiting::has_part_of;
use ktm_world::{DonePart, Part, Recorded, RecordedPart, Superior};

/// Was the Id drawn in one of so many boots.
pub(crate) fn is_drawn(boots: u32, id: Id) -> bool
    ensures { result ≡ (is_of_object id && nat_le id.boot boots) }
{
    id.boot > 0 && id.number > 0 && id.boot <= boots
}

fn is_manager(managers: &[Id], manager: Id) -> bool
    ensures { result ≡ list_any (λ other. same_id other manager) managers.now }
{
    managers.iter().any(|other| *other == manager)
}

// Is the enlistment's Id drawn, its resource manager there, and its recovery information not too long.
fn is_enlisted_well(head: &Head<'_>, enlistment: Id, manager: Id, information: &[u8]) -> bool
    ensures { result ≡ is_enlisted_well (against_of head.now) (record { enlistment = enlistment; manager = manager; information = information.now }) }
{
    is_drawn(head.boots, enlistment)
        && is_manager(head.managers, manager)
        && information.len() <= MOST_INFORMATION_BYTES
}

fn is_superior_well(head: &Head<'_>, superior: &Option<Superior>) -> bool
    ensures { result ≡ list_all (is_enlisted_well (against_of head.now)) (superiors_in superior.now) }
{
    match superior {
        Some(s) => is_enlisted_well(head, s.enlistment, s.manager, s.information.as_slice()),
        None => true,
    }
}

fn is_part_well(head: &Head<'_>, part: &Part) -> bool
    ensures { result ≡ list_all (is_enlisted_well (against_of head.now)) (enlisted_in part.now) }
{
    match part {
        Part::Enlistment {
            enlistment,
            manager,
            information,
        } => is_enlisted_well(head, *enlistment, *manager, information.as_slice()),
        Part::Changes(_) | Part::Settings(_) => true,
    }
}

fn are_parts_well(head: &Head<'_>, parts: &[RecordedPart]) -> bool
    ensures { result ≡ list_all (λ p. list_all (is_enlisted_well (against_of head.now)) (enlisted_in p.part)) parts.now }
{
    parts.iter().all(|p| is_part_well(head, &p.part))
}

/// Are all enlistments of the transaction good ones, the superior's included.
pub(crate) fn are_enlisted_well(head: &Head<'_>, transaction: &Recorded) -> bool
    ensures { result ≡ list_all (is_enlisted_well (against_of head.now)) (enlisted transaction.now) }
{
    is_superior_well(head, &transaction.superior) && are_parts_well(head, &transaction.parts)
}

// Is the part no enlistment that one of these is.
fn is_none_of(part: &Part, parts: &[RecordedPart]) -> bool
    ensures { result ≡ list_all (λ x. list_all (λ y. not (same_id x y)) (flat_map (λ p. enlistments_in p.part) parts.now)) (enlistments_in part.now) }
{
    match part {
        Part::Enlistment { enlistment, .. } => {
            !has_part_of(parts, DonePart::Enlistment(*enlistment))
        }
        Part::Changes(_) | Part::Settings(_) => true,
    }
}

fn is_no_superior_of(superior: &Option<Superior>, parts: &[RecordedPart]) -> bool
    ensures { result ≡ list_all (λ x. list_all (λ y. not (same_id x y)) (flat_map (λ p. enlistments_in p.part) parts.now)) (superior_ids superior.now) }
{
    match superior {
        Some(s) => !has_part_of(parts, DonePart::Enlistment(s.enlistment)),
        None => true,
    }
}

// Does no enlistment stand twice in the parts. It takes as many steps as the square of their number.
fn are_parts_apart(parts: &[RecordedPart]) -> bool
    ensures { result ≡ each_pair (λ x y. not (same_id x y)) (flat_map (λ p. enlistments_in p.part) parts.now) }
{
    for (index, p) in parts.iter().enumerate() {
        if !is_none_of(&p.part, &parts[index + 1..]) {
            return false;
        }
    }
    true
}

/// Does no enlistment stand twice in the transaction.
pub(crate) fn are_enlistments_apart(transaction: &Recorded) -> bool
    ensures { result ≡ each_pair (λ x y. not (same_id x y)) (enlistments_of transaction.now) }
{
    is_no_superior_of(&transaction.superior, &transaction.parts)
        && are_parts_apart(&transaction.parts)
}
