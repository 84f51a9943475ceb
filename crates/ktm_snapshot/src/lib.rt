//! Durable states as bytes, which are written and read piece by piece: a head, nodes, committed keys, resource managers and
//! transactions. The contents of files stand on pages, and are the places of their bytes. Each state has one spelling. A count of things is a number of four bytes of `ktm_codec`.
#![tactic(auto)]

mod entry;
mod head;
mod laws;
mod manager;
mod node;
mod order;
mod part;
mod transaction;
mod works;

pub use entry::{ShownEntry, entry_at, put_entry};
pub use head::{StateHead, head_at, put_head};
pub use laws::{
    law_of_examples, law_of_order, law_of_pieces, law_of_reading, law_of_states, law_of_works,
    law_of_writing,
};
pub use manager::{manager_at, put_manager};
pub use node::{ReadNode, ShownNode, node_at, put_node, show};
pub use order::{is_id_before, is_key_before};
pub use part::put_work;
pub use transaction::{ShownSuperior, put_transaction, transaction_at};
