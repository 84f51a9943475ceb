// Names without case.
ghost use Rattle.std.specs.Prelude.{◌≡◌};
ghost use Rattle.ktm_base.specs.Names.{folded_byte};

/// The byte as names are compared: a to z are mapped onto A to Z, and no other byte changes.
#[tactic(auto, unfolding(crate::specs::Names::folded_byte))]
pub fn fold(byte: u8) -> u8
    ensures { result ≡ folded_byte byte }
{
    match byte {
        b'a'..=b'z' => byte - b'a' + b'A',
        _ => byte,
    }
}
