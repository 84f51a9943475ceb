// What is put over contents, unit by unit.
ghost use Rattle.std.specs.Prelude.{◌≡◌, ◌+◌, ◌-◌, ◌*◌, ◌/◌, ◌<◌, ◌≤◌, ◌^◌, [], min, max, length};
ghost use Rattle.ktm_store.specs.Change.{IsSound, bytes_in, from_in, frames_from, head_in, tail_in};

use ktm_base::UNIT_BYTES;
use std::marker::Model;

/// Bytes that are put over contents, and what the contents have at both ends of the units that change.
#[derive(Drop)]
pub(crate) struct Change<'a> {
    // The first unit that changes, and the one behind the last.
    first: u64,
    behind: u64,
    // Where the bytes are put.
    at: u64,
    bytes: &'a [u8],
    // What the contents have in front of them in the first unit, and behind them in the last.
    head: &'a [u8],
    tail: &'a [u8],
}

impl<'a> Model for Change<'a> {
    ghost use Rattle.ktm_store.specs.Change.{ChangeState, IsSound};

    ghost Value = { ChangeState };

    ghost view = { λ c. record { first = c.first; behind = c.behind; at = c.at; bytes = c.bytes.now; head = c.head.now; tail = c.tail.now } };

    ghost invariant = { λ c. IsSound (record { first = c.first; behind = c.behind; at = c.at; bytes = c.bytes.now; head = c.head.now; tail = c.tail.now }) };
}

impl<'a> Change<'a> {
    /// Bytes that are put over contents of this size, some of them behind the begin of the first unit that changes.
    pub fn new(size: u64, at: u64, bytes: &'a [u8], head: &'a [u8], tail: &'a [u8]) -> Change<'a>
        requires some { min size at < at + length bytes.now }
        requires ends { at + length bytes.now < 2 ^ 63 }
        requires head { length head.now ≤ min (at - min size at / 4096 * 4096) 4096 }
        requires tail { length tail.now ≤ ((at + length bytes.now - 1) / 4096 + 1) * 4096 - (at + length bytes.now) }
        ensures { result ≡ record { first = min size at / 4096; behind = (at + length bytes.now - 1) / 4096 + 1; at = at; bytes = bytes.now; head = head.now; tail = tail.now } }
    {
        let end = at + bytes.len() as u64;
        Change {
            first: size.min(at) / UNIT_BYTES,
            behind: (end - 1) / UNIT_BYTES + 1,
            at,
            bytes,
            head,
            tail,
        }
    }

    /// The first unit that changes.
    pub fn first(&self) -> u64
        ensures is { result ≡ self.now.first }
        ensures sound { IsSound self.now }
    {
        self.first
    }

    /// How many units change.
    pub fn units(&self) -> usize
        ensures is { result ≡ self.now.behind - self.now.first }
        ensures sound { IsSound self.now }
    {
        (self.behind - self.first) as usize
    }

    /// How many frames they take at most.
    pub fn frames(&self) -> usize
        ensures { result ≡ frames_from self.now self.now.first }
    {
        let begin = self.at / UNIT_BYTES;
        (self.behind - begin + 1.min(begin - self.first)) as usize
    }

    /// How many bytes of the units are contents, which had this size.
    pub fn size(&self, size: u64) -> u64
        ensures { result ≡ min (max size (self.now.at + length self.now.bytes)) (self.now.behind * 4096) - self.now.first * 4096 }
    {
        let end = self.at + self.bytes.len() as u64;
        size.max(end).min(self.behind * UNIT_BYTES) - self.first * UNIT_BYTES
    }

    /// Where the bytes begin in a unit.
    pub fn from_in(&self, unit: u64) -> usize
        requires { unit < self.now.behind }
        ensures { result ≡ from_in self.now unit }
    {
        self.at.saturating_sub(unit * UNIT_BYTES).min(UNIT_BYTES) as usize
    }

    /// Those of the bytes that are in a unit.
    pub fn bytes_in(&self, unit: u64) -> &[u8]
        requires { unit < self.now.behind }
        ensures bytes { result.now ≡ bytes_in self.now unit }
        ensures sound { IsSound self.now }
    {
        let end = self.at + self.bytes.len() as u64;
        let start = unit * UNIT_BYTES;
        let from = self.at.saturating_sub(start).min(UNIT_BYTES);
        let to = (end - start).min(UNIT_BYTES);
        let skip = start.saturating_sub(self.at);
        &self.bytes[skip as usize..(skip + (to - from)) as usize]
    }

    /// What the contents have in front in a unit.
    pub fn head_in(&self, unit: u64) -> &[u8]
        ensures { result.now ≡ head_in self.now unit }
    {
        if unit == self.first { self.head } else { &[] }
    }

    /// What they have behind there.
    pub fn tail_in(&self, unit: u64) -> &[u8]
        requires { unit < self.now.behind }
        ensures { result.now ≡ tail_in self.now unit }
    {
        if self.behind == unit + 1 {
            self.tail
        } else {
            &[]
        }
    }
}
