// Replays recorded answers of the writer to records, and prints how many there are and how many differ.
#![tactic(auto)]

ghost use Rattle.std.specs.Prelude.{◌<◌, ◌^◌};

mod written;

use replay_list::{Replays, UnknownTag};

// How long the buffers of a case may be.
#[derive(Clone, Copy, PartialEq, Eq)]
enum Size {
    Small = 1,
    Large = 2,
}

impl TryFrom<u8> for Size {
    type Error = UnknownTag;

    fn try_from(tag: u8) -> Result<Size, UnknownTag> {
        match tag {
            1 => Ok(Size::Small),
            2 => Ok(Size::Large),
            _ => Err(UnknownTag),
        }
    }
}

// Replays a case on a record and an output of up to so many numbers and bytes.
fn is_same_within<const NUMBERS: usize, const BYTES: usize>(content: &[u8]) -> bool
    requires numbers { NUMBERS < 2 ^ 32 }
    requires bytes { BYTES < 2 ^ 32 }
{
    written::is_same(content, &mut [0; NUMBERS], &mut [0; BYTES])
}

// Whether a case is as recorded, on buffers of the size that its tag says.
fn is_same(tag: u8, content: &[u8]) -> bool {
    match Size::try_from(tag) {
        Ok(Size::Small) => is_same_within::<8192, 4096>(content),
        Ok(Size::Large) => is_same_within::<524800, 66048>(content),
        Err(UnknownTag) => false,
    }
}

fn main() {
    let mut content = [0u8; 16384];
    replay_list::replay(&mut content, Replays { is_same });
}
