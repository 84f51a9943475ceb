// How many transactions and parts there is room for.
use ktm_base::MOST_LIVE;

/// The most parts of the transactions that the log has: those of enlistments, and of each at most one of the files and one
/// of the keys.
pub const MOST_LIVE_PARTS: usize = 3 * MOST_LIVE;

/// The most steps recorded at once that add something, which are of one row. Each adds at most one transaction and one part.
pub const MOST_NOTED: usize = 12;

/// For so many transactions there is room.
pub(crate) const MOST_HEADS: usize = MOST_LIVE + MOST_NOTED;

/// For so many parts there is room.
pub(crate) const MOST_MARKS: usize = MOST_LIVE_PARTS + MOST_NOTED;
