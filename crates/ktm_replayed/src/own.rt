// What a restart records by itself of the transactions that are not over, one event after another.
ghost use Rattle.std.specs.Prelude.{◌≡◌, ◌∷◌, [], List, MatchOption};
ghost use Rattle.std.specs.List.{flat_map};
ghost use Rattle.ktm_world.specs.declared.event.Event.{Event as Recording};
ghost use Rattle.ktm_world.specs.World.{own_events};

use ktm_base::Id;
use ktm_waiting::has_undone;
use ktm_world::{DonePart, Recorded};

// The first participant of a transaction that is to be recorded as done.
fn own_done(transaction: &Recorded) -> Option<DonePart>
    ensures { MatchOption result (own_events transaction.now ≡ []) (λ done. (rest : List Recording) × (own_events transaction.now ≡ Recording.Done transaction.now.id done ∷ rest)) }
{
    if has_undone(transaction, DonePart::Files) {
        return Some(DonePart::Files);
    }
    if has_undone(transaction, DonePart::Keys) {
        return Some(DonePart::Keys);
    }
    None
}

/// The first event of the transactions, by its transaction and the participant that is done.
pub(crate) fn first_own(transactions: &[Recorded]) -> Option<(Id, DonePart)>
    ensures { MatchOption result (flat_map own_events transactions.now ≡ []) (λ own. (rest : List Recording) × (flat_map own_events transactions.now ≡ Recording.Done own.0 own.1 ∷ rest)) }
{
    for transaction in transactions {
        if let Some(done) = own_done(transaction) {
            return Some((transaction.id, done));
        }
    }
    None
}
