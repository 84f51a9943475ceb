// Names, each with its room.
ghost use Rattle.std.specs.Prelude.{◌≡◌, ◌≤◌, List, ℕ, [], length, take};
ghost use Rattle.ktm_links.specs.Numbers.{long_bytes, number_bytes};

use std::marker::Model;

/// What a value stands under: its bytes, in room of its own.
pub trait Name: Drop {
    // The bytes of a name.
    ghost bytes: { Self → List ℕ };

    /// The bytes.
    fn as_slice(&self) -> &[u8]
        ensures { result.now ≡ bytes self.now };
}

/// A name of at most `N` bytes, which takes no memory of its own.
#[derive(Drop)]
pub struct InlineName<const N: usize> {
    room: [u8; N],
    len: usize,
}

impl<const N: usize> Model for InlineName<N> {
    ghost use Rattle.std.specs.Prelude.{List, ℕ, ◌≤◌, take};

    ghost Value = { List ℕ };

    ghost view = { λ n. take n.len n.room };

    ghost invariant = { λ n. n.len ≤ N };
}

impl<const N: usize> InlineName<N> {
    /// The first so many bytes of the room, which is moved and not copied.
    pub fn of(room: [u8; N], len: usize) -> Self
        requires { len ≤ N }
        ensures { result ≡ take len room.entry }
    {
        InlineName { room, len }
    }

    /// A copy of these bytes.
    pub fn new(bytes: &[u8]) -> Self
        requires { length bytes.now ≤ N }
        ensures { result ≡ bytes.now }
    {
        let mut room = [0; N];
        room[..bytes.len()].copy_from_slice(bytes);
        InlineName {
            room,
            len: bytes.len(),
        }
    }
}

impl<const N: usize> Name for InlineName<N> {
    ghost bytes = { λ n. n };

    fn as_slice(&self) -> &[u8] {
        &self.room[..self.len]
    }
}

/// A name of one length alone is its bytes.
impl<const N: usize> Name for [u8; N] {
    ghost bytes = { λ n. n };

    fn as_slice(&self) -> &[u8] {
        self
    }
}

/// A number as a part of a name, its greatest byte first: names are then in the order of the numbers.
pub fn number_bytes(number: u32) -> [u8; 4]
    ensures { result ≡ number_bytes number [] }
{
    [
        (number / 16_777_216) as u8,
        (number / 65_536 % 256) as u8,
        (number / 256 % 256) as u8,
        (number % 256) as u8,
    ]
}

/// A number of 64 bits as a part of a name, its greatest byte first: names are then in the order of the numbers.
pub fn long_bytes(number: u64) -> [u8; 8]
    ensures { result ≡ long_bytes number [] }
{
    let [h3, h2, h1, h0] = number_bytes((number / 4_294_967_296) as u32);
    let [l3, l2, l1, l0] = number_bytes((number % 4_294_967_296) as u32);
    [h3, h2, h1, h0, l3, l2, l1, l0]
}
