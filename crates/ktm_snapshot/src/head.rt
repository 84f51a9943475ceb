// The head of a state.
ghost use Rattle.std.specs.Prelude.{◌≡◌, ◌+◌, ◌≤◌, vec_len, vec_capacity};
ghost use Rattle.ktm_codec.specs.Spans.{Adds, Reads};
ghost use Rattle.ktm_snapshot.specs.StateGrammar.{IsHeadOf};

use ktm_codec::{put_u32, put_u64, u32_at, u64_at};

/// What stands at the front of a state.
#[derive(Clone, Copy)]
pub struct StateHead {
    /// How many events were ever recorded.
    pub events: u64,
    /// How many boots there were.
    pub boots: u32,
    /// The number of the next node.
    pub next_node: u64,
}

/// The head at a place, and the place behind it.
pub fn head_at(bytes: &[u8], at: usize) -> Option<(StateHead, usize)>
    ensures { Reads IsHeadOf bytes.now at result }
{
    let (events, after) = u64_at(bytes, at)?;
    let (boots, after) = u32_at(bytes, after)?;
    let (next_node, end) = u64_at(bytes, after)?;
    let head = StateHead {
        events,
        boots,
        next_node,
    };
    Some((head, end))
}

/// Writes the head at the end. It takes no memory.
pub fn put_head(out: &mut Vec<u8>, head: StateHead)
    requires { vec_len out.old + 20 ≤ vec_capacity out.old }
    ensures adds { Adds (IsHeadOf head) out.old.items out.new.items }
    ensures len { vec_len out.new ≡ vec_len out.old + 20 }
    ensures room { vec_capacity out.old ≤ vec_capacity out.new }
{
    put_u64(out, head.events);
    put_u32(out, head.boots);
    put_u64(out, head.next_node);
}
