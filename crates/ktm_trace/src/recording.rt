// What is read of a transaction when its steps are recorded.
ghost use Rattle.std.specs.Prelude.{◌≡◌};
ghost use Rattle.ktm_trace.specs.Recordings.{behind_step, is_noted_by};

use ktm_base::Id;
use ktm_world::{Fact, Step};

/// A transaction, with those of it that its steps record.
#[derive(Clone, Copy)]
pub struct Recording {
    pub transaction: Id,
    /// Whether the log has a Ready or a Held of it.
    pub is_recorded: bool,
    /// Whether the files take part.
    pub has_files: bool,
    /// Whether the keys take part.
    pub has_keys: bool,
    /// The enlistment that makes the call, where its resource manager is durable.
    pub caller: Option<Id>,
    /// The enlistment of its superior, if it has one.
    pub superior: Option<Id>,
}

impl Recording {
    // Has the log a Ready or a Held once a fact is recorded.
    fn is_noted_by(self, fact: Fact) -> bool
        ensures { result ≡ is_noted_by fact self }
    {
        match fact {
            Fact::ReadyFiles => self.is_recorded || self.has_files,
            Fact::ReadyKeys => self.is_recorded || self.has_keys,
            Fact::Ready => self.caller.is_some() || self.is_recorded,
            Fact::Held => self.superior.is_some() || self.is_recorded,
            _ => self.is_recorded,
        }
    }

    /// What is read behind a step.
    pub(crate) fn behind(self, step: &Step) -> Recording
        ensures { result ≡ behind_step self step.now }
    {
        match step {
            Step::Record(fact) => Recording {
                is_recorded: self.is_noted_by(*fact),
                ..self
            },
            _ => self,
        }
    }
}
