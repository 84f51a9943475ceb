// What of a transaction outlives a loss of power.

use crate::{RecordedPart, Stage, Superior};
use ktm_base::Id;
use std::marker::Model;

/// A transaction that is not over.
#[derive(Drop)]
pub struct Recorded {
    pub id: Id,
    pub stage: Stage,
    pub superior: Option<Superior>,
    pub parts: Vec<RecordedPart>,
}

impl Model for Recorded {
    ghost use Rattle.ktm_world.specs.Durable.{Recorded};

    ghost Value = { Recorded };

    ghost view = { λ t. record { id = t.id; stage = t.stage; superior = t.superior; parts = t.parts.items } };
}
