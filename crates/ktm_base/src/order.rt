// The order of names and keys.
ghost use Rattle.std.specs.Prelude.{◌≡◌, ◌+◌, ◌≤◌, drop, length, min};
ghost use Rattle.std.specs.Cmp.Lexicographic.{slice_cmp};
ghost use Rattle.std.specs.Ordering.{nat_cmp};
ghost use Rattle.ktm_base.specs.Order.{digits};

use std::cmp::Ordering;

// The eight bytes from this place on as a number, whose greatest byte is the first.
fn number_at(bytes: &[u8], at: usize) -> u64
    requires { at + 8 ≤ length bytes.now }
    ensures { drop at bytes.now ≡ digits 7 result (drop (at + 8) bytes.now) }
{
    match bytes[at..].first_chunk::<8>() {
        Some(eight) => u64::from_be_bytes(*eight),
        None => unreachable!(),
    }
}

// Which of two names comes first, byte by byte.
fn compare_bytes(a: &[u8], b: &[u8]) -> Ordering
    ensures { result ≡ slice_cmp nat_cmp a.now b.now }
{
    for at in 0..a.len().min(b.len()) {
        if a[at] != b[at] {
            return a[at].cmp(&b[at]);
        }
    }
    a.len().cmp(&b.len())
}

// Which of two names comes first from this place on, where eight bytes of the shorter one are left.
fn compare_last(a: &[u8], b: &[u8], at: usize) -> Ordering
    requires { at + 8 ≡ min (length a.now) (length b.now) }
    ensures { result ≡ slice_cmp nat_cmp (drop at a.now) (drop at b.now) }
{
    let first = number_at(a, at);
    let second = number_at(b, at);
    if first != second {
        return first.cmp(&second);
    }
    a.len().cmp(&b.len())
}

/// Which of two names or keys comes first, byte by byte. Eight bytes are compared as one number, and the last eight may lie over some that
/// were compared.
pub fn compare(a: &[u8], b: &[u8]) -> Ordering
    ensures { result ≡ slice_cmp nat_cmp a.now b.now }
{
    let both = a.len().min(b.len());
    if both < 8 {
        return compare_bytes(a, b);
    }
    for eight in 0..both / 8 {
        let first = number_at(a, 8 * eight);
        let second = number_at(b, 8 * eight);
        if first != second {
            return first.cmp(&second);
        }
    }
    compare_last(a, b, both - 8)
}
