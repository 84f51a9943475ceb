// Bytes that change within the memory that was taken for them.
ghost use Rattle.std.specs.Prelude.{◌≡◌, ◌≤◌, ◌+◌, ◌-◌, ◌++◌, length, vec_capacity, replicate};
ghost use Rattle.ktm_base.specs.Bytes.{written, GrewTo};

/// Appends.
pub fn put_behind(bytes: &mut Vec<u8>, more: &[u8])
    requires { length bytes.old.items + length more.now ≤ vec_capacity bytes.old }
    ensures items { bytes.new.items ≡ bytes.old.items ++ more.now }
    ensures capacity { vec_capacity bytes.old ≤ vec_capacity bytes.new }
{
    bytes.extend_from_slice(more).unwrap();
}

/// Writes over what is there.
pub fn put_over(bytes: &mut Vec<u8>, at: usize, piece: &[u8])
    requires { at + length piece.now ≤ length bytes.old.items }
    ensures items { bytes.new.items ≡ written bytes.old.items at piece.now }
    ensures length { length bytes.new.items ≡ length bytes.old.items }
    ensures capacity { vec_capacity bytes.new ≡ vec_capacity bytes.old }
{
    bytes[at..at + piece.len()].copy_from_slice(piece);
}

/// Adds zeros up to this length, where it is not reached.
pub fn grow(bytes: &mut Vec<u8>, len: usize)
    requires { len ≤ vec_capacity bytes.old }
    ensures grew { GrewTo len bytes.old.items bytes.new.items }
    ensures capacity { vec_capacity bytes.old ≤ vec_capacity bytes.new }
{
    if bytes.len() < len {
        bytes.resize(len, 0).unwrap();
    }
}
