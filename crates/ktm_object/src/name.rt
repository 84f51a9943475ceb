// Names of handles, by which they are sorted.
ghost use Rattle.std.specs.Prelude.{◌≡◌, []};
ghost use Rattle.ktm_object.specs.Names.{label_bytes, owner_bytes, object_owner};

use ktm_base::{Label, Pid};
use ktm_world::Object;

/// The name of a handle by its label: the process, and then the label.
pub(crate) type LabelName = [u8; 3];

/// The name of a handle by an owner: the owner, and then as by its label.
pub(crate) type OwnerName = [u8; 12];

/// What handles stand together by: an object.
#[derive(Clone, Copy)]
pub(crate) struct Owner {
    pub(crate) kind: u8,
    pub(crate) boot: u32,
    pub(crate) number: u32,
}

/// The object, as what its handles stand together by.
pub(crate) fn object_owner(object: Object) -> Owner
    ensures { result ≡ object_owner object }
{
    let (kind, boot, number) = match object {
        Object::Transaction(id) => (1, id.boot, id.number),
        Object::Manager(id) => (2, id.boot, id.number),
        Object::Enlistment(id) => (3, id.boot, id.number),
        Object::File(number) => (4, 0, number),
    };
    Owner { kind, boot, number }
}

/// The name of a handle by its label. Names rise with the process and then with the label.
pub(crate) fn label_bytes(process: Pid, label: Label) -> LabelName
    ensures { result ≡ label_bytes process label }
{
    [process.0, (label.0 / 256) as u8, (label.0 % 256) as u8]
}

/// The bytes that the names of an owner's handles begin with.
pub(crate) fn owner_bytes(owner: Owner) -> [u8; 9]
    ensures { result ≡ owner_bytes owner [] }
{
    [
        owner.kind,
        (owner.boot / 16_777_216) as u8,
        (owner.boot / 65_536 % 256) as u8,
        (owner.boot / 256 % 256) as u8,
        (owner.boot % 256) as u8,
        (owner.number / 16_777_216) as u8,
        (owner.number / 65_536 % 256) as u8,
        (owner.number / 256 % 256) as u8,
        (owner.number % 256) as u8,
    ]
}

/// The name of a handle under its owner.
pub(crate) fn owner_name(owner: Owner, process: Pid, label: Label) -> OwnerName
    ensures { result ≡ owner_bytes owner (label_bytes process label) }
{
    let [kind, b3, b2, b1, b0, n3, n2, n1, n0] = owner_bytes(owner);
    let [process, high, low] = label_bytes(process, label);
    [kind, b3, b2, b1, b0, n3, n2, n1, n0, process, high, low]
}
