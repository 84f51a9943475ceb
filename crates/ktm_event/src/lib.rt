//! Events as bytes: a group of them is the payload of one frame of the log. Each group has one spelling, which is
//! written and read here. A list of events is kept as its bytes, in the body of a frame, until it is recorded.
#![tactic(auto)]

mod change;
mod event;
mod fault;
mod field;
mod files;
mod group;
mod kept;
mod laws;
mod part;
mod setting;
mod work;

pub use change::{pages_at, put_pages};
pub use event::{read_event, write_event};
pub use fault::EventFault;
pub use field::{is_text, put_id, read_id};
pub use group::read_group;
pub use kept::Events;
pub use laws::{law_of_events, law_of_groups, law_of_kept_events, law_of_round_trip};
pub use part::{
    part_at, put_enlistment, put_names_and_files_part, put_part, put_record, put_settings_part,
    record_at,
};
pub use work::{FilePages, Stage, Work, WrittenFiles};
