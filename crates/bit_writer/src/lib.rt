// Writes bits, fields and codes into a lent output: a writer holds the output and a place among its bits, and each step moves it.
#![tactic(auto)]

ghost use Rattle.std.specs.Prelude.{◌≡◌, true, ◌+◌, ◌*◌, ◌^◌, ◌<◌, ◌≤◌, length};
ghost use Rattle.bits.specs.Bits.{weight, with_bit, set_bit, set_bits, bits_of};
ghost use Rattle.bits.specs.Code.{code_of};
ghost use Rattle.bits.specs.Reading.{place_good};
ghost use Rattle.bits.specs.Writing.{field_good, code_good, alignment_bits, trailing_bits};
ghost use Rattle.bit_writer.specs.Answers.{Writes};

use bits::CodeNumber;
use refusals::Refusal;

fn weight_at(at: usize) -> u32
    ensures { result ≡ weight at }
{
    1u32 << (7 - at % 8)
}

// A byte with another bit at a place.
fn with_bit(byte: u8, at: usize, bit: u32) -> u8
    requires { bit < 2 }
    ensures { result ≡ with_bit byte (weight at) bit }
{
    let m = weight_at(at);
    let x = byte as u32;
    (x - x / m % 2 * m + bit * m) as u8
}

fn put_bit(out: &mut [u8], at: usize, bit: u32)
    requires { (bit < 2) × (at < 8 * length out.old) }
    ensures { out.new ≡ set_bit out.old at bit }
{
    let i = at / 8;
    out[i] = with_bit(out[i], at, bit);
}

// The bits of a value where there is room for them, the highest first.
fn put_field(out: &mut [u8], at: usize, value: u64, width: u32)
    requires { (at < 2 ^ 63) × (width ≤ 64) × (at + width ≤ 8 * length out.old) }
    ensures { out.new ≡ set_bits out.old at (bits_of width value) }
{
    for (i, at) in (0..width).rev().zip(at..) {
        put_bit(out, at, ((value >> i) % 2) as u32);
    }
}

// A lent output, and a place among its bits, counted from its first. A refused step leaves both as they were.
// As it is (6): the place is a bit's, and a slice can begin at a byte alone; a refusal leaves it for the caller to see.
#[derive(Drop)]
pub struct BitWriter<'a> {
    pub out: &'a mut [u8],
    pub bit_pos: usize,
}

impl<'a> BitWriter<'a> {
    // A writer at the first bit.
    pub fn new(out: &'a mut [u8]) -> BitWriter<'a>
        ensures same_output { result.out.ghost_name ≡ out.entry.ghost_name }
        ensures unchanged { result.out.now ≡ out.old }
        ensures place { result.bit_pos ≡ 0 }
    {
        BitWriter { out, bit_pos: 0 }
    }

    // The bits of a value, refused without room for them.
    fn put(&mut self, value: u64, width: u32) -> Result<(), Refusal>
        requires { (self.old.bit_pos < 2 ^ 63) × (width ≤ 64) }
        ensures { Writes true (bits_of width value) self.old result self.new }
    {
        if width == 0 {
            return Ok(());
        }
        let at = self.bit_pos;
        let next = at + width as usize;
        if (next + 7) / 8 > self.out.len() {
            return Err(Refusal::OutputTooShort);
        }
        put_field(self.out, at, value, width);
        self.bit_pos = next;
        Ok(())
    }

    // One bit, 0 or 1.
    pub fn write_bit(&mut self, bit: u32) -> Result<(), Refusal>
        ensures { Writes (field_good self.old.bit_pos bit 1) (bits_of 1 bit) self.old result self.new }
    {
        self.write_bits(bit, 1)
    }

    // A field of a width up to 32.
    pub fn write_bits(&mut self, value: u32, width: u32) -> Result<(), Refusal>
        ensures { Writes (field_good self.old.bit_pos value width) (bits_of width value) self.old result self.new }
    {
        bits::place(self.bit_pos)?;
        if width > 32 {
            return Err(Refusal::NotWellFormed);
        }
        if ((value as u64) >> width) > 0 {
            return Err(Refusal::NotWellFormed);
        }
        self.put(value as u64, width)
    }

    // A code: one field of its number.
    pub fn write_ue(&mut self, value: u32) -> Result<(), Refusal>
        ensures { Writes (code_good self.old.bit_pos value) (code_of value) self.old result self.new }
    {
        bits::place(self.bit_pos)?;
        let code = CodeNumber::of(value).ok_or(Refusal::NotWellFormed)?;
        self.put(code.number as u64, code.bits())
    }

    // Zeros to the byte boundary.
    // As it is (2): this one writes the bits and the bit reader passes over them; place and distance are those of bits for both.
    pub fn align_to_byte(&mut self) -> Result<(), Refusal>
        ensures { Writes (place_good self.old.bit_pos) (alignment_bits self.old.bit_pos) self.old result self.new }
    {
        let at = bits::place(self.bit_pos)?;
        self.put(0, bits::to_boundary(at))
    }

    // The stop bit and zeros to the byte boundary.
    pub fn write_rbsp_trailing_bits(&mut self) -> Result<(), Refusal>
        ensures { Writes (place_good self.old.bit_pos) (trailing_bits self.old.bit_pos) self.old result self.new }
    {
        let at = bits::place(self.bit_pos)?;
        let zeros = (7 - at % 8) as u32;
        self.put(1u64 << zeros, zeros + 1)
    }
}
