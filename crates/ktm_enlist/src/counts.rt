// What counts of the enlistments of a transaction.

/// How many enlistments of a transaction take part; of these, how many ask for PREPREPARE, can commit in one phase, and owe an
/// answer.
#[derive(Clone, Copy)]
pub struct Counts {
    pub enlistments: u32,
    pub asking: u32,
    pub in_one_phase: u32,
    pub owing: u32,
}

impl Counts {
    /// What counts where there are no enlistments.
    pub(crate) const NONE: Counts = Counts {
        enlistments: 0,
        asking: 0,
        in_one_phase: 0,
        owing: 0,
    };
}
