// What the transactions of a state are tested against.
use ktm_base::Id;
use txf_durable::DurableFiles;

/// What stands before the transactions of a state.
#[derive(Clone, Copy)]
pub(crate) struct Head<'a> {
    pub(crate) boots: u32,
    pub(crate) managers: &'a [Id],
    pub(crate) files: &'a DurableFiles,
}
