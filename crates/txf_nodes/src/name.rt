// The names under which nodes stand.
ghost use Rattle.std.specs.Prelude.{◌≡◌, ◌+◌, ◌≤◌, ◌++◌, ◌∷◌, [], length, drop};
ghost use Rattle.ktm_base.specs.declared.limits.TheConstants.{MOST_NAME_BYTES};
ghost use Rattle.ktm_base.specs.Bytes.{written};
ghost use Rattle.ktm_base.specs.Names.{folded};
ghost use Rattle.txf_nodes.specs.Places.{child_name, number_bytes};

use ktm_base::fold;
use ktm_links::InlineName;

/// The name of a node by its number, the greatest byte first.
pub type NumberName = [u8; 8];

/// The place of a node: its directory's number, and then its folded name.
pub type ChildName = InlineName<263>;

/// Names rise with the number.
pub fn number_bytes(number: u64) -> NumberName
    ensures { result ≡ number_bytes number }
{
    number.to_be_bytes()
}

// Writes the folded name behind the bytes that come first.
fn write_folded(room: &mut [u8], first: usize, name: &[u8])
    requires { first + length name.now ≤ length room.old }
    ensures { room.new ≡ written room.old first (folded name.now) }
{
    for (index, byte) in name.iter().enumerate() {
        room[first + index] = fold(*byte);
    }
}

// Writes the place of a child of the directory.
fn write_child(room: &mut [u8], directory: u64, name: &[u8])
    requires { 8 + length name.now ≤ length room.old }
    ensures { room.new ≡ child_name directory name.now ++ drop (8 + length name.now) room.old }
{
    room[..8].copy_from_slice(&number_bytes(directory));
    write_folded(room, 8, name);
}

/// The place of a child of the directory.
#[inline(always)]
pub fn child_name(directory: u64, name: &[u8]) -> ChildName
    requires { length name.now ≤ MOST_NAME_BYTES }
    ensures { result ≡ child_name directory name.now }
{
    let mut room = [0; 263];
    write_child(&mut room, directory, name);
    InlineName::of(room, 8 + name.len())
}

// Writes bytes at the front.
fn write_front(room: &mut [u8], bytes: &[u8])
    requires { length bytes.now ≤ length room.old }
    ensures { room.new ≡ bytes.now ++ drop (length bytes.now) room.old }
{
    room[..bytes.len()].copy_from_slice(bytes);
}

/// The first place behind this one.
pub fn after_place(place: &[u8]) -> InlineName<264>
    requires { length place.now ≤ 263 }
    ensures { result ≡ place.now ++ 0 ∷ [] }
{
    let mut room = [0; 264];
    write_front(&mut room, place);
    InlineName::new(&room[..place.len() + 1])
}
