// Where transactions stand.
ghost use Rattle.std.specs.Prelude.{◌≡◌, ◌<◌, IfSome, MatchOption, find, length, true};
ghost use Rattle.ktm_world.specs.Transactions.{same_id};
ghost use Rattle.ktm_manager.specs.Rising.{are_rising, IsAt, IsNowhere};
ghost use Rattle.ktm_tm.specs.Listed.{is_number};
ghost use Rattle.ktm_tm.specs.Table.{one_of};

use crate::ending::{Ending, ended_with};
use ktm_base::Id;
use ktm_manager::order_of;
use ktm_world::Transaction;

/// Is it the number of one of so many that were made.
pub fn is_number(count: usize, number: u32) -> bool
    ensures { result ≡ is_number count number }
{
    1 <= number && number as usize <= count
}

/// Where the Id stands among Ids that rise, by halves.
pub fn place_in(ids: &[Id], id: Id) -> Option<usize>
    requires { are_rising (λ i. i) ids.now ≡ true }
    ensures { MatchOption result (IsNowhere (λ i. i) ids.now id) (IsAt (λ i. i) ids.now id) }
{
    match ids.binary_search_by(|i| order_of(*i, id)) {
        Ok(place) => Some(place),
        Err(_) => None,
    }
}

/// Where the transaction with this Id stands among transactions by rising Id, by halves.
pub fn place_among(ts: &[Transaction], id: Id) -> Option<usize>
    requires { are_rising (λ t. t.id) ts.now ≡ true }
    ensures place { MatchOption result (IsNowhere (λ t. t.id) ts.now id) (IsAt (λ t. t.id) ts.now id) }
    ensures within { IfSome result (λ i. i < length ts.now) }
{
    match ts.binary_search_by(|t| order_of(t.id, id)) {
        Ok(place) => Some(place),
        Err(_) => None,
    }
}

/// The transaction with this Id among transactions by rising Id.
pub fn find_in(ts: &[Transaction], id: Id) -> Option<Transaction>
    requires { are_rising (λ t. t.id) ts.now ≡ true }
    ensures { result ≡ find (λ t. same_id t.id id) ts.now }
{
    match place_among(ts, id) {
        Some(place) => Some(ts[place]),
        None => None,
    }
}

/// The transaction with this Id: one of the live ones, or else one that has ended so.
pub fn one_of(live: &[Transaction], id: Id, ending: Ending) -> Transaction
    requires { are_rising (λ t. t.id) live.now ≡ true }
    ensures { result ≡ one_of live.now id ending }
{
    match find_in(live, id) {
        Some(t) => t,
        None => ended_with(id, ending),
    }
}
