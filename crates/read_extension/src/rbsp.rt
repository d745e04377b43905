// An RBSP with the place of its last one-bit, which bounds more_rbsp_data().

ghost use Rattle.std.specs.Prelude.{◌≡◌, ◌*◌, ◌≤◌, length};
ghost use Rattle.bits.specs.LastOne.{last_one_of};
ghost use Rattle.vps_definition.specs.Reading.{most_rbsp_bytes};

use record_parts::Record;
use refusals::Refusal;

// An RBSP within the limit, and the place of its last one-bit, worked out once; none where all bits are 0.
#[derive(Clone, Copy)]
pub struct Rbsp<'a> {
    pub bytes: &'a [u8],
    last_one: Option<usize>,
    ghost within: { length bytes.now ≤ most_rbsp_bytes },
    ghost last: { last_one ≡ last_one_of bytes.now },
}

// The place of the last one-bit, sought from the end byte by byte; none where all bits are 0.
fn last_one(bytes: &[u8]) -> Option<usize>
    requires { length bytes.now ≤ most_rbsp_bytes }
    ensures { result ≡ last_one_of bytes.now }
{
    let mut rest = bytes;
    while let Some((last, front)) = rest.split_last() {
        if *last != 0 {
            return Some(8 * front.len() + 7 - last.trailing_zeros() as usize);
        }
        rest = front;
    }
    None
}

impl<'a> Rbsp<'a> {
    ghost use Rattle.std.specs.Prelude.{◌≡◌, ◌*◌, ◌-◌, length};
    ghost use Rattle.bits.specs.Reading.{more_data};
    ghost use Rattle.vps_definition.specs.Reading.{data_bits};
    ghost use Rattle.read_extension.specs.Answers.{IsWithin};

    // The bytes with the place, where they are not too many.
    pub fn new(bytes: &'a [u8]) -> Result<Rbsp<'a>, Refusal>
        ensures { IsWithin bytes.entry result }
    {
        if Record::MOST_RBSP_BYTES < bytes.len() {
            return Err(Refusal::RbspTooLong);
        }
        let last_one = last_one(bytes);
        Ok(Rbsp { bytes, last_one })
    }

    // Whether further data remain at a place: it lies before the last one-bit.
    pub fn more_data(self, at: usize) -> bool
        ensures { result ≡ more_data self.entry.bytes.now at }
    {
        match self.last_one {
            Some(last) => at < last,
            None => false,
        }
    }

    // How many bits are read from a place on while further data remain: those before the last one-bit.
    pub fn data_bits(self, at: usize) -> usize
        ensures { result ≡ data_bits self.entry.bytes.now at (8 * length self.entry.bytes.now - at) }
    {
        match self.last_one {
            Some(last) if self.more_data(at) => last - at,
            _ => 0,
        }
    }
}
