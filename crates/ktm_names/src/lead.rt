// What stands before the first star or question mark of a pattern.
ghost use Rattle.std.specs.Prelude.{◌≡◌, ◌≤◌, length};
ghost use Rattle.ktm_names.specs.Leading.{is_wild, lead, reaches};

use ktm_base::fold;

fn is_wild(character: u8) -> bool
    ensures { result ≡ is_wild character }
{
    character == b'*' || character == b'?'
}

/// The characters before the first star or question mark.
#[tactic(auto, unfolding(crate::specs::Leading::lead))]
pub fn lead(pattern: &[u8]) -> &[u8]
    ensures lead { result.now ≡ lead pattern.now }
    ensures few { length result.now ≤ length pattern.now }
{
    for (index, character) in pattern.iter().enumerate() {
        if is_wild(*character) {
            return &pattern[..index];
        }
    }
    pattern
}

/// Does the name begin with these characters, and end behind them where the pattern does.
#[tactic(auto, unfolding(crate::specs::Leading::reaches))]
pub fn reaches(pattern: &[u8], name: &[u8]) -> bool
    ensures { result ≡ reaches pattern.now name.now }
{
    for (index, character) in pattern.iter().enumerate() {
        if is_wild(*character) {
            return true;
        }
        match name.get(index) {
            Some(other) if fold(*character) == fold(*other) => {}
            _ => return false,
        }
    }
    name.len() == pattern.len()
}
