// Reads bits, fields and codes of an RBSP: a reader carries its bytes and a place among their bits, and each step moves it.
#![tactic(auto)]

ghost use Rattle.std.specs.Prelude.{◌≡◌, ◌^◌, ◌<◌, leb};
ghost use Rattle.bits.specs.Bits.{ones_from};

use bit_fields::{bit_at, field_at, window_for};
use refusals::Refusal;

// A place of an RBSP, below the limit of places.
#[derive(Clone, Copy)]
struct Place<'a> {
    bytes: &'a [u8],
    at: usize,
    ghost below: { at < 2 ^ 63 },
}

impl Place<'_> {
    ghost use Rattle.std.specs.Prelude.{◌≡◌, ◌+◌, ◌*◌, ◌<◌, ltb, length};
    ghost use Rattle.bits.specs.Bits.{field_at};
    ghost use Rattle.bits.specs.Code.{code_at};
    ghost use Rattle.bits.specs.Reading.{more_data};
    ghost use Rattle.bit_reader.specs.Answers.{code_answer};

    // Whether the bit so far behind the place stands among the bytes.
    fn has_bit(&self, behind: u32) -> bool
        requires { behind < 64 }
        ensures { result ≡ ltb (self.now.at + behind) (8 * length self.now.bytes.now) }
    {
        (self.at + behind as usize) / 8 < self.bytes.len()
    }

    // A code by its prefix among the next 32 bits, and then its number: also one that is too long for a window, or cut by the end.
    fn code_by_fields(&self) -> Result<(u32, usize), Refusal>
        ensures { code_answer result ≡ code_at self.now.bytes.now self.now.at }
    {
        let zeros = u32::leading_zeros(field_at(self.bytes, self.at, 32));
        if zeros == 32 {
            if self.has_bit(31) {
                return Err(Refusal::CodeTooLong);
            }
            return Err(Refusal::CodePastEnd);
        }
        if !self.has_bit(2 * zeros) {
            return Err(Refusal::CodePastEnd);
        }
        let one = self.at + zeros as usize;
        let code_num = field_at(self.bytes, one, zeros + 1);
        let next = one + (zeros + 1) as usize;
        Ok((code_num - 1, next))
    }

    // A code; at once where it stands whole in a window of eight bytes.
    fn code(&self) -> Result<(u32, usize), Refusal>
        ensures { code_answer result ≡ code_at self.now.bytes.now self.now.at }
    {
        let at = self.at;
        if let Some((window, skipped)) = window_for(self.bytes, at)
            && skipped <= 63
        {
            let rest = window << skipped;
            let zeros = u64::leading_zeros(rest);
            if 2 * zeros as usize <= 63 - skipped {
                let code_num = (rest >> (63 - 2 * zeros)) as u32;
                let next = at + 2 * zeros as usize + 1;
                return Ok((code_num - 1, next));
            }
        }
        self.code_by_fields()
    }

    // Whether a one-bit stands behind the place's bit: in its byte, or in those behind it.
    fn more_data(&self) -> bool
        ensures { result ≡ more_data self.now.bytes.now self.now.at }
    {
        let Place { bytes, at } = *self;
        if field_at(bytes, at + 1, (7 - at % 8) as u32) != 0 {
            return true;
        }
        is_any_set(lists::behind(bytes, at / 8 + 1))
    }
}

// Whether a bit is a one.
fn is_any_set(bytes: &[u8]) -> bool
    ensures { result ≡ leb 1 (ones_from bytes.now 0) }
{
    bytes.iter().any(|b| *b != 0)
}

// The bytes of an RBSP, and a place among its bits, counted from its first. A refused step leaves the place where it was.
#[derive(Clone, Copy)]
pub struct BitReader<'a> {
    pub bytes: &'a [u8],
    pub bit_pos: usize,
}

impl<'a> BitReader<'a> {
    ghost use Rattle.std.specs.Prelude.{◌≡◌};
    ghost use Rattle.refusals.specs.Refusals.{answer_of};
    ghost use Rattle.bits.specs.Reading.{read_field, read_code, read_alignment, ask_aligned, ask_more_data, read_trailing};
    ghost use Rattle.bit_reader.specs.Answers.{IsPlaceOf, Reads, Moves};

    // A reader at the first bit.
    pub fn new(bytes: &'a [u8]) -> BitReader<'a>
        ensures { (result.bytes ≡ bytes.entry) × (result.bit_pos ≡ 0) }
    {
        BitReader { bytes, bit_pos: 0 }
    }

    // The place with its bytes, where it is below the limit.
    fn place(&self) -> Result<Place<'a>, Refusal>
        ensures { IsPlaceOf self.now result }
    {
        let at = bits::place(self.bit_pos)?;
        Ok(Place {
            bytes: self.bytes,
            at,
        })
    }

    // One bit; the reader moves behind it.
    pub fn read_bit(&mut self) -> Result<u32, Refusal>
        ensures { Reads (read_field self.old.bytes.now self.old.bit_pos 1) self.old result self.new }
    {
        self.u(1)
    }

    // A field of a width up to 32; the reader moves behind it.
    pub fn u(&mut self, width: u32) -> Result<u32, Refusal>
        ensures { Reads (read_field self.old.bytes.now self.old.bit_pos width) self.old result self.new }
    {
        let at = bits::place(self.bit_pos)?;
        if 32 < width {
            return Err(Refusal::NotWellFormed);
        }
        self.bit_pos = at + width as usize;
        Ok(field_at(self.bytes, at, width))
    }

    // A code; the reader moves behind it.
    pub fn ue(&mut self) -> Result<u32, Refusal>
        ensures { Reads (read_code self.old.bytes.now self.old.bit_pos) self.old result self.new }
    {
        let place = self.place()?;
        let (value, next) = place.code()?;
        self.bit_pos = next;
        Ok(value)
    }

    // The step to the byte boundary; the bits passed are not looked at.
    pub fn align_to_byte(&mut self) -> Result<(), Refusal>
        ensures { Moves (read_alignment self.old.bit_pos) self.old result self.new }
    {
        let at = bits::place(self.bit_pos)?;
        self.bit_pos = at + bits::to_boundary(at) as usize;
        Ok(())
    }

    // Whether the place is at a byte boundary.
    pub fn byte_aligned(&self) -> Result<bool, Refusal>
        ensures { answer_of result ≡ ask_aligned self.now.bit_pos }
    {
        let at = bits::place(self.bit_pos)?;
        Ok(at % 8 == 0)
    }

    // Whether a one-bit stands behind the place's bit.
    pub fn more_rbsp_data(&self) -> Result<bool, Refusal>
        ensures { answer_of result ≡ ask_more_data self.now.bytes.now self.now.bit_pos }
    {
        let place = self.place()?;
        Ok(place.more_data())
    }

    // The stop bit and the zeros to the boundary; the reader moves behind them.
    pub fn read_rbsp_trailing_bits(&mut self) -> Result<(), Refusal>
        ensures { Moves (read_trailing self.old.bytes.now self.old.bit_pos) self.old result self.new }
    {
        let at = bits::place(self.bit_pos)?;
        if self.bytes.len() <= at / 8 {
            return Err(Refusal::StopBitMissing);
        }
        if bit_at(self.bytes, at) == 0 {
            return Err(Refusal::StopBitZero);
        }
        let zeros = 7 - at % 8;
        if field_at(self.bytes, at + 1, zeros as u32) != 0 {
            return Err(Refusal::AlignmentBitOne);
        }
        self.bit_pos = at + 1 + zeros;
        Ok(())
    }
}
