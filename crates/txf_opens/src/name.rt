// Names of open files, by which they are sorted.
ghost use Rattle.std.specs.Prelude.{◌≡◌, ◌∷◌, [], Some};
ghost use Rattle.ktm_links.specs.Numbers.{long_bytes, number_bytes};
ghost use Rattle.txf_opens.specs.Names.{group_bytes, past};

use ktm_base::Id;
use ktm_links::{long_bytes, number_bytes};

/// The name of an open file by its number.
pub(crate) type NumberName = [u8; 4];

/// The name of an open file by its group: the group, and then its number.
pub(crate) type GroupName = [u8; 13];

/// The name of an open file by what it is open on: the node, and then as by its group.
pub(crate) type UseName = [u8; 21];

/// Whether there is a transaction, and which.
pub(crate) fn group_bytes(group: Option<Id>) -> [u8; 9]
    ensures { result ≡ group_bytes group [] }
{
    match group {
        Some(id) => {
            let [b3, b2, b1, b0] = number_bytes(id.boot);
            let [n3, n2, n1, n0] = number_bytes(id.number);
            [1, b3, b2, b1, b0, n3, n2, n1, n0]
        }
        None => [0, 0, 0, 0, 0, 0, 0, 0, 0],
    }
}

/// The name of an open file by its group.
pub(crate) fn group_name(group: Option<Id>, number: u32) -> GroupName
    ensures { result ≡ group_bytes group (number_bytes number []) }
{
    let [kind, b3, b2, b1, b0, g3, g2, g1, g0] = group_bytes(group);
    let [n3, n2, n1, n0] = number_bytes(number);
    [kind, b3, b2, b1, b0, g3, g2, g1, g0, n3, n2, n1, n0]
}

/// The bytes that the names of the open files of a group on a node begin with.
pub(crate) fn use_bytes(node: u64, group: Option<Id>) -> [u8; 17]
    ensures { result ≡ long_bytes node (group_bytes group []) }
{
    let [h3, h2, h1, h0, l3, l2, l1, l0] = long_bytes(node);
    let [kind, b3, b2, b1, b0, g3, g2, g1, g0] = group_bytes(group);
    [
        h3, h2, h1, h0, l3, l2, l1, l0, kind, b3, b2, b1, b0, g3, g2, g1, g0,
    ]
}

/// The name of an open file by what it is open on.
pub(crate) fn use_name(node: u64, group: Option<Id>, number: u32) -> UseName
    ensures { result ≡ long_bytes node (group_bytes group (number_bytes number [])) }
{
    let [h3, h2, h1, h0, l3, l2, l1, l0] = long_bytes(node);
    let [kind, b3, b2, b1, b0, g3, g2, g1, g0, n3, n2, n1, n0] = group_name(group, number);
    [
        h3, h2, h1, h0, l3, l2, l1, l0, kind, b3, b2, b1, b0, g3, g2, g1, g0, n3, n2, n1, n0,
    ]
}

/// The bytes that the names of the open files of transactions on a node begin with.
pub(crate) fn transacted_bytes(node: u64) -> [u8; 9]
    ensures { result ≡ long_bytes node (1 ∷ []) }
{
    let [h3, h2, h1, h0, l3, l2, l1, l0] = long_bytes(node);
    [h3, h2, h1, h0, l3, l2, l1, l0, 1]
}

/// Where the names begin that come after those of the open files of a group on a node.
pub(crate) fn past(node: u64, group: Option<Id>) -> [u8; 22]
    ensures { result ≡ past node group }
{
    let [h3, h2, h1, h0, l3, l2, l1, l0] = long_bytes(node);
    let [kind, b3, b2, b1, b0, g3, g2, g1, g0] = group_bytes(group);
    [
        h3, h2, h1, h0, l3, l2, l1, l0, kind, b3, b2, b1, b0, g3, g2, g1, g0, 255, 255, 255, 255, 0,
    ]
}
