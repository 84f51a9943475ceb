// The parts of a transaction of the log, one after another.
ghost use Rattle.std.specs.Prelude.{◌≡◌, ◌++◌, [], IfNone, count_by, length, option_map, option_to_list};
ghost use Rattle.ktm_trace.specs.Joined.{is_mark_of, parts_at};
ghost use Rattle.ktm_trace.specs.Lent.{part_lent};

use crate::marks::Mark;
use ktm_base::Id;
use ktm_world::DonePart;
use std::marker::Model;

/// A part of a transaction of the log, without what it has in it.
#[derive(Clone, Copy)]
pub struct PartRef {
    pub is_done: bool,
    /// Whose part it is.
    pub who: DonePart,
}

/// The parts that are left of a transaction, in the order in which they became ready.
#[derive(Drop)]
pub struct Parts<'a> {
    // Those of other transactions too.
    marks: &'a [Mark],
    transaction: Id,
}

impl<'a> Model for Parts<'a> {
    ghost use Rattle.std.specs.Prelude.{List};
    ghost use Rattle.ktm_trace.specs.Joined.{parts_at};
    ghost use Rattle.ktm_trace.specs.Traces.{TracedPart};

    ghost Value = { List TracedPart };

    ghost view = { λ p. parts_at p.marks.now p.transaction };
}

// How many of the parts are of this transaction.
fn count_of(marks: &[Mark], transaction: Id) -> usize
    ensures { result ≡ count_by (is_mark_of transaction) marks.now }
{
    marks
        .iter()
        .filter(|m| m.transaction == transaction)
        .count()
}

impl<'a> Parts<'a> {
    pub(crate) fn new(marks: &'a [Mark], transaction: Id) -> Parts<'a>
        ensures { result ≡ parts_at marks.now transaction }
    {
        Parts { marks, transaction }
    }

    /// How many are left.
    pub fn len(&self) -> usize
        ensures { result ≡ length self.now }
    {
        count_of(self.marks, self.transaction)
    }

    /// The next part, if one is left.
    pub fn next(&mut self) -> Option<PartRef>
        ensures first { self.old ≡ option_to_list (option_map part_lent result) ++ self.new }
        ensures none { IfNone result (self.old ≡ []) }
    {
        while let [mark, rest @ ..] = self.marks {
            self.marks = rest;
            if mark.transaction == self.transaction {
                return Some(PartRef {
                    is_done: mark.is_done,
                    who: mark.who,
                });
            }
        }
        None
    }
}
