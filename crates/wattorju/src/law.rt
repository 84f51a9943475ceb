// What is so of every value of a type.
ghost use Rattle.ktm_base.specs.Bytes.{AreBytes};
ghost use Rattle.ktm_world.specs.Values.{IsGuid};

use ktm_base::Bytes;
use uuid::Uuid;

// The bytes of a slice are below 256.
fn law_of_slices(bytes: &[u8])
    ensures { AreBytes bytes.now }
{
    let _len = bytes.len();
}

// An array of 16 bytes is a GUID.
fn law_of_arrays(bytes: &[u8; 16])
    ensures { IsGuid bytes.now }
{
    law_of_slices(bytes);
}

/// Bytes are below 256.
pub fn law_of_bytes(bytes: &Bytes)
    ensures { AreBytes bytes.now }
{
    law_of_slices(bytes.as_slice());
}

/// A GUID has 16 bytes.
pub fn law_of_guid(guid: &Uuid)
    ensures { IsGuid guid.now }
{
    law_of_arrays(guid.as_bytes());
}
