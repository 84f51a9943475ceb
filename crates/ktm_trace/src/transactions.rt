// The transactions of the log, one after another, with their parts.
ghost use Rattle.std.specs.Prelude.{◌≡◌, ◌++◌, [], IfNone, length, option_map, option_to_list};
ghost use Rattle.ktm_trace.specs.Joined.{joined_all};
ghost use Rattle.ktm_trace.specs.Lent.{transaction_lent};

use crate::heads::Head;
use crate::marks::Mark;
use crate::parts::Parts;
use ktm_base::Id;
use ktm_world::Stage;
use std::marker::Model;

/// A transaction of the log, whose parts are lent.
#[derive(Drop)]
pub struct TransactionRef<'a> {
    pub id: Id,
    pub stage: Stage,
    /// The enlistment of its superior.
    pub superior: Option<Id>,
    pub parts: Parts<'a>,
}

/// The transactions that are left, by rising Id.
#[derive(Drop)]
pub struct Transactions<'a> {
    heads: &'a [Head],
    marks: &'a [Mark],
}

impl<'a> Model for Transactions<'a> {
    ghost use Rattle.std.specs.Prelude.{List};
    ghost use Rattle.ktm_trace.specs.Joined.{joined_all};
    ghost use Rattle.ktm_trace.specs.Traces.{Traced};

    ghost Value = { List Traced };

    ghost view = { λ t. joined_all t.heads.now t.marks.now };
}

impl<'a> Transactions<'a> {
    pub(crate) fn new(heads: &'a [Head], marks: &'a [Mark]) -> Transactions<'a>
        ensures { result ≡ joined_all heads.now marks.now }
    {
        Transactions { heads, marks }
    }

    /// How many are left.
    pub fn len(&self) -> usize
        ensures { result ≡ length self.now }
    {
        self.heads.len()
    }

    /// The next transaction, if one is left.
    pub fn next(&mut self) -> Option<TransactionRef<'a>>
        ensures first { self.old ≡ option_to_list (option_map transaction_lent result) ++ self.new }
        ensures none { IfNone result (self.old ≡ []) }
    {
        let [head, behind @ ..] = self.heads else {
            return None;
        };
        self.heads = behind;
        Some(TransactionRef {
            id: head.id,
            stage: head.stage,
            superior: head.superior,
            parts: Parts::new(self.marks, head.id),
        })
    }
}
