//! The machine, in definitions: the values that pass between its layers, what each command does to files, keys, transactions,
//! resource managers, enlistments and handles, what is recorded of it, what a restart makes of that, and what a transcript of a
//! script is.
#![tactic(auto)]

mod change;
mod command;
mod completion;
mod event;
mod input;
mod laws;
mod limits;
mod make;
mod object;
mod options;
mod pending;
mod recorded;
mod reply;
mod step;

pub use change::{Change, Changes, Contents, NodeKind};
pub use command::{Command, Line, View};
pub use completion::Completion;
pub use event::{DonePart, Entry, Event, Part, Setting, Settings};
pub use input::{PhaseInput, Seen, Share};
pub use laws::{
    law_of_first_opens, law_of_paths, law_of_refusals, law_of_step, law_of_transcripts,
};
pub use limits::{are_good_settings, is_bad_key, is_bad_value};
pub use make::make_all;
pub use object::{Handle, Object, Phase, Transaction, TransactionOutcome};
pub use options::{Access, Disposition, Durability, EnlistmentKind, ShareMode};
pub use pending::Recorded;
pub use recorded::{Node, RecordedPart, Stage, Superior};
pub use reply::{Reply, TransactionState};
pub use step::{Answered, Fact, Owed, Step, Who};
