// Frames in bytes, which are read where they lie.
ghost use Rattle.std.specs.Prelude.{◌≡◌, ◌+◌, ◌≤◌, drop, length, IfSome, MatchOption, None, Some};
ghost use Rattle.ktm_log.specs.Log.{first_payload, size_at};

use ktm_codec::u32_in;

// The payload length behind the gate at this place.
pub(crate) fn payload_size(bytes: &[u8], at: usize) -> u32
    requires { at + 5 ≤ length bytes.now }
    ensures { result ≡ size_at (drop at bytes.now) }
{
    u32_in(bytes, at + 1)
}

/// How many bytes the frame of a payload takes, up to the gate behind it.
pub fn frame_len(payload: &[u8]) -> usize
    ensures { result ≡ length payload.now + 5 }
{
    payload.len() + 5
}

/// The payload of the frame that the bytes begin with, if they begin with one.
pub fn first_payload(bytes: &[u8]) -> Option<&[u8]>
    ensures is { MatchOption result (first_payload bytes.now ≡ None) (λ payload. first_payload bytes.now ≡ Some payload.now) }
    ensures fits { IfSome result (λ payload. length payload.now + 6 ≤ length bytes.now) }
{
    if bytes.len() < 6 || bytes[0] != 1 {
        return None;
    }
    let size = payload_size(bytes, 0) as usize;
    if bytes.len() - 6 < size {
        return None;
    }
    Some(&bytes[5..5 + size])
}
