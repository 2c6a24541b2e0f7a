// The law of writing and reading.
ghost use Rattle.std.specs.Prelude.{◌≡◌};
ghost use Rattle.elf_image.specs.Addresses.{HaveAddresses};
ghost use Rattle.elf_image.specs.Text.{text_of};
ghost use Rattle.elf_image.specs.Loading.{IsLoadable, image_of};

use rv_core::{Image, Segment};

/// What `write` gives is read again as the same image: so say these clauses with those of `write`
/// and `read`. A call changes nothing; its body only shows that addresses have 32 bits.
pub fn read_of_write(image: &Image)
    ensures loads { IsLoadable (text_of image.now) }
    ensures same { image_of (text_of image.now) ≡ image.now }
{
    image.entry();
    have_addresses(image.segments());
}

// The addresses of segments have 32 bits.
fn have_addresses(segments: &[Segment])
    ensures { HaveAddresses segments.now }
{
    for segment in segments {
        address(segment);
    }
}

// The address of a segment.
fn address(segment: &Segment) -> u32
    ensures { result ≡ segment.now.at }
{
    segment.at
}
