// An RBSP's extension: the bits before the last one-bit, whose place is sought once, and storing them.
#![tactic(auto)]

ghost use Rattle.std.specs.Prelude.{◌≡◌, ◌+◌, ◌%◌, ◌^◌, ◌<◌, length};
ghost use Rattle.bits.specs.Bits.{bits_of};
ghost use Rattle.vps_definition.specs.Reading.{bits_at};

mod rbsp;

use bit_fields::{bit_at, field_at};
use bit_reader::BitReader;
pub use rbsp::Rbsp;

// The bits of a byte, its highest first.
fn bits_of(byte: u32) -> [u32; 8]
    ensures { result ≡ bits_of 8 byte }
{
    [
        byte / 128 % 2,
        byte / 64 % 2,
        byte / 32 % 2,
        byte / 16 % 2,
        byte / 8 % 2,
        byte / 4 % 2,
        byte / 2 % 2,
        byte % 2,
    ]
}

// Stores the bits from a reader's place on, eight of a byte at a time.
fn store_eights(reader: &BitReader<'_>, numbers: &mut [u32])
    requires { (reader.now.bit_pos + length numbers.old < 2 ^ 64) × (length numbers.old % 8 ≡ 0) }
    ensures { numbers.new ≡ bits_at reader.now.bytes.now reader.now.bit_pos (length numbers.old) }
{
    let BitReader { bytes, bit_pos } = *reader;
    for j in 0..numbers.len() / 8 {
        let byte = field_at(bytes, bit_pos + 8 * j, 8);
        numbers[8 * j..8 * j + 8].copy_from_slice(&bits_of(byte));
    }
}

// Stores the bits from a reader's place on, one at a time.
// As it is (3): tried `(bit_pos..).zip(numbers)`; behind such a loop nothing is known of the numbers that it was lent.
fn store_each(reader: &BitReader<'_>, numbers: &mut [u32])
    requires { reader.now.bit_pos + length numbers.old < 2 ^ 64 }
    ensures { numbers.new ≡ bits_at reader.now.bytes.now reader.now.bit_pos (length numbers.old) }
{
    let BitReader { bytes, bit_pos } = *reader;
    for (j, number) in numbers.iter_mut().enumerate() {
        *number = bit_at(bytes, bit_pos + j);
    }
}

// Stores as many bits as there are places, from a reader's place on.
pub fn store_bits(reader: &BitReader<'_>, numbers: &mut [u32])
    ensures { reader.now.bit_pos + length numbers.old < 2 ^ 64 → numbers.new ≡ bits_at reader.now.bytes.now reader.now.bit_pos (length numbers.old) }
{
    let BitReader { bytes, bit_pos } = *reader;
    if usize::MAX - bit_pos < numbers.len() {
        return;
    }
    let whole = numbers.len() / 8 * 8;
    let (eights, rest) = numbers.split_at_mut(whole);
    store_eights(reader, eights);
    let behind = BitReader {
        bytes,
        bit_pos: bit_pos + whole,
    };
    store_each(&behind, rest);
}
