// Bytes that are read behind those that are there.
ghost use Rattle.std.specs.Prelude.{option_copied};
ghost use Rattle.ktm_base.specs.Reading.{IsRead, IsReadIf};

use crate::NoMemory;

/// Puts bytes from the offset on behind those that are there, as many as there are and at most so many.
pub fn read_at(bytes: &[u8], offset: u64, most: u64, onto: &mut Vec<u8>) -> Result<(), NoMemory>
    ensures { IsRead bytes.now offset most onto.old onto.new result }
{
    let from = offset.min(bytes.len() as u64) as usize;
    let rest = &bytes[from..];
    let many = most.min(rest.len() as u64) as usize;
    Ok(onto.extend_from_slice(&rest[..many])?)
}

/// Puts bytes from the offset on, at most so many, behind those that are there, or answers `None` where no bytes are given.
pub fn read_if(
    bytes: Option<&[u8]>,
    offset: u64,
    most: u64,
    onto: &mut Vec<u8>,
) -> Option<Result<(), NoMemory>>
    ensures { IsReadIf (option_copied bytes.entry) offset most onto.old onto.new result }
{
    match bytes {
        Some(bytes) => Some(read_at(bytes, offset, most, onto)),
        None => None,
    }
}
