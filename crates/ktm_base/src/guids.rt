// The GUID of an object, and the object of a GUID.

ghost use Rattle.std.specs.Prelude.{◌≡◌, IfSome, Some};
ghost use Rattle.ktm_base.specs.Guid.{IsId, guid_of, kind_number};

use crate::{Id, ObjectKind};
use uuid::Uuid;

// The field of a GUID that says the kind.
fn kind_field(kind: ObjectKind) -> u16
    ensures { result ≡ kind_number kind }
{
    match kind {
        ObjectKind::Transaction => 1,
        ObjectKind::Manager => 2,
        ObjectKind::Enlistment => 3,
    }
}

/// The GUID of an object of an image.
pub fn guid(kind: ObjectKind, image: u16, id: Id) -> Uuid
    ensures { result ≡ guid_of kind image id }
{
    let number = u64::from(id.number);
    Uuid::from_fields(id.boot, kind_field(kind), image, &number.to_be_bytes())
}

/// The object of this kind on this image that has the GUID, if one can have it.
pub fn id_of(kind: ObjectKind, image: u16, guid: &Uuid) -> Option<Id>
    // what it finds is an object of a system, and has this GUID
    ensures found { IfSome result (λ id. IsId id × (guid_of kind image id ≡ guid.now)) }
    // it finds each such object, so it finds none only where none has this GUID
    ensures every { (id : Id) → IsId id → guid_of kind image id ≡ guid.now → result ≡ Some id }
{
    let (boot, _, _, number) = guid.as_fields();
    let number = u32::try_from(u64::from_be_bytes(number)).ok()?;
    if boot == 0 || number == 0 {
        return None;
    }
    let id = Id { boot, number };
    if self::guid(kind, image, id) == *guid {
        Some(id)
    } else {
        None
    }
}
