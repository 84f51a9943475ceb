// The calls on keys, and the room that they have.
use ktm_base::{Bytes, Text};
use std::marker::Model;

/// How many keys may be in use, and how many unset keys may wait.
#[derive(Drop)]
pub struct Room {
    pub keys: u32,
    pub changes: u32,
}

impl Model for Room {
    ghost use Rattle.ktm_world.specs.KeyCalls.{KeyRoom};

    ghost Value = { KeyRoom };

    ghost view = { λ r. record { keys = r.keys; changes = r.changes } };
}

/// A call on keys.
#[derive(Drop)]
pub enum KvCall {
    /// Gives a key a value.
    Set { key: Text, value: Bytes },
    /// Takes the value of a key away.
    Unset { key: Text },
    /// Reads the value of a key.
    Get { key: Text },
    /// Lists the keys.
    List,
}
