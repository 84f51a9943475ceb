// The two halves of an image.
ghost use Rattle.std.specs.Prelude.{◌≡◌};
ghost use Rattle.ktm_journal.specs.Image.{half_of};

// One of the two halves behind the header of an image, each of which has an area for a snapshot and one for a log.
#[derive(Clone, Copy)]
pub(crate) enum Half {
    A,
    B,
}

// The half that counts by this selector.
pub(crate) fn half_of(selector: u8) -> Half
    ensures { result ≡ half_of selector }
{
    if selector % 2 == 0 { Half::A } else { Half::B }
}
