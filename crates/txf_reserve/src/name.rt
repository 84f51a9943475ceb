// Names of what transactions hold, by which it is sorted.
ghost use Rattle.std.specs.Prelude.{◌≡◌, ℕ, ◌+◌, ◌<◌, ◌≤◌, ◌∷◌, ◌++◌, [], length, take};
ghost use Rattle.ktm_base.specs.declared.limits.TheConstants.{MOST_NAME_BYTES};
ghost use Rattle.ktm_base.specs.Names.{folded};
ghost use Rattle.txf_opens.specs.Acts.{place_in};
ghost use Rattle.txf_reserve.specs.HeldPairs.{id_bytes, key_bytes, key_name, owner_name};
ghost use Rattle.txf_reserve.specs.ReserveKeys.{place_key};

use ktm_base::{Id, fold};
use ktm_links::{InlineName, Name, long_bytes, number_bytes};
use txf_opens::Place;

// The most bytes of a name: those of a key, of how long it is, and of a transaction, and one more.
const MOST: usize = 274;

/// A name of a pair, in room of its own.
pub(crate) trait PairName: Name {
    // How many bytes there is room for.
    ghost room: { ℕ };

    /// A copy of these bytes.
    fn copied(name: &[u8]) -> Self
        requires { length name.now ≤ room }
        ensures { Self.bytes result ≡ name.now };
}

/// The name of a pair whose key has no bytes.
pub(crate) type EmptyName = InlineName<11>;

/// The name of a pair whose key is a node.
pub(crate) type NodeName = InlineName<19>;

/// The name of a pair whose key is a place: a directory, and a name of at most 255 bytes.
pub(crate) type PlaceName = InlineName<274>;

impl PairName for EmptyName {
    ghost room = { 11 };

    fn copied(name: &[u8]) -> Self {
        InlineName::new(name)
    }
}

impl PairName for NodeName {
    ghost room = { 19 };

    fn copied(name: &[u8]) -> Self {
        InlineName::new(name)
    }
}

impl PairName for PlaceName {
    ghost room = { 274 };

    fn copied(name: &[u8]) -> Self {
        InlineName::new(name)
    }
}

/// The transaction, first its boot and then its number.
pub(crate) fn id_bytes(id: Id) -> [u8; 8]
    ensures { result ≡ id_bytes id [] }
{
    let [b3, b2, b1, b0] = number_bytes(id.boot);
    let [n3, n2, n1, n0] = number_bytes(id.number);
    [b3, b2, b1, b0, n3, n2, n1, n0]
}

// Writes the bytes behind those that are there.
fn put(room: &mut [u8], at: usize, bytes: &[u8])
    requires { at + length bytes.now ≤ length room.old }
    ensures { take (at + length bytes.now) room.new ≡ take at room.old ++ bytes.now }
{
    room[at..at + bytes.len()].copy_from_slice(bytes);
}

// Writes the folded name behind the bytes that are there.
fn put_folded(room: &mut [u8], at: usize, name: &[u8])
    requires { at + length name.now ≤ length room.old }
    ensures { take (at + length name.now) room.new ≡ take at room.old ++ folded name.now }
{
    for (index, byte) in name.iter().enumerate() {
        room[at + index] = fold(*byte);
    }
}

/// What the names of all that hold the key begin with.
pub(crate) fn key_bytes<K: PairName>(key: &[u8]) -> K
    requires fits { length key.now + 11 ≤ K.room }
    requires short { length key.now ≤ 263 }
    ensures { K.bytes result ≡ key_bytes key.now }
{
    let mut room = [0; MOST];
    let len = key.len();
    put(&mut room, 0, &[(len / 256) as u8, (len % 256) as u8]);
    put(&mut room, 2, key);
    K::copied(&room[..2 + len])
}

/// The name of a pair by its key, and then at most one more byte.
pub(crate) fn key_name<K: PairName>(key: &[u8], id: Id, after: &[u8]) -> K
    requires fits { length key.now + 11 ≤ K.room }
    requires short { length key.now ≤ 263 }
    requires one { length after.now ≤ 1 }
    ensures { K.bytes result ≡ key_name key.now id ++ after.now }
{
    let mut room = [0; MOST];
    let len = key.len();
    put(&mut room, 0, &[(len / 256) as u8, (len % 256) as u8]);
    put(&mut room, 2, key);
    put(&mut room, 2 + len, &id_bytes(id));
    put(&mut room, 2 + len + 8, after);
    K::copied(&room[..2 + len + 8 + after.len()])
}

/// The name of a pair by its transaction.
pub(crate) fn owner_name<K: PairName>(id: Id, key: &[u8]) -> K
    requires fits { length key.now + 11 ≤ K.room }
    requires short { length key.now ≤ 263 }
    ensures { K.bytes result ≡ owner_name id key.now }
{
    let mut room = [0; MOST];
    put(&mut room, 0, &id_bytes(id));
    put(&mut room, 8, key);
    K::copied(&room[..8 + key.len()])
}

/// The key of a name in a directory.
pub(crate) fn place_key(place: Place) -> InlineName<263>
    requires { length place.name.now ≤ MOST_NAME_BYTES }
    ensures { result ≡ place_key (place_in place.entry) }
{
    let mut room = [0; 263];
    put(&mut room, 0, &long_bytes(place.directory));
    put_folded(&mut room, 8, place.name);
    InlineName::new(&room[..8 + place.name.len()])
}
