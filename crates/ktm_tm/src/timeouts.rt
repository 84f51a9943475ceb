// When the timeouts of transactions are reached.
ghost use Rattle.std.specs.Prelude.{◌≡◌, ◌+◌, ◌<◌, ℕ, false, nat_le};
ghost use Rattle.ktm_world.specs.TransactionCalls.{is_due, never_times_out};
ghost use Rattle.ktm_tm.specs.Timeouts.{NoneDueBefore};

use crate::refusals::may_roll_back;
use ktm_world::Transaction;

// Is it one of the two timeouts that mean none.
fn never_times_out(timeout: u32) -> bool
    ensures { result ≡ never_times_out timeout }
{
    timeout == 0 || timeout == u32::MAX
}

// Is the clock at the time of creation and the timeout, or later.
fn is_reached(created: u64, timeout: u32, clock: u64) -> bool
    ensures { result ≡ nat_le (created + timeout) clock }
{
    created <= clock && timeout as u64 <= clock - created
}

/// Is its timeout reached at this time, in a phase in which that rolls it back.
pub fn is_due(clock: u64, t: &Transaction) -> bool
    ensures { result ≡ is_due clock t.now }
{
    !never_times_out(t.timeout) && is_reached(t.created, t.timeout, clock) && may_roll_back(t)
}

/// The time before which its timeout does not roll it back: the greatest one, where that never does.
pub fn due_time(t: &Transaction) -> u64
    ensures { (clock : ℕ) → clock < result → is_due clock t.now ≡ false }
{
    if never_times_out(t.timeout) || !may_roll_back(t) {
        u64::MAX
    } else {
        t.created.saturating_add(t.timeout as u64)
    }
}

/// The time before which none of them is due.
pub fn earliest_of(ts: &[Transaction]) -> u64
    ensures { NoneDueBefore result ts.now }
{
    let mut earliest = u64::MAX;
    for t in ts {
        earliest = earliest.min(due_time(t));
    }
    earliest
}
