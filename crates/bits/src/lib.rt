// Bits, fields and codes: the definitions and laws that reading and writing share, and what both know of a place, of a width and
// of a code.
#![tactic(auto)]

ghost use Rattle.std.specs.Prelude.{◌≡◌, ◌+◌, ◌*◌, ◌≤◌, ◌<◌, ◌↔◌, IsSome, IfSome};
ghost use Rattle.bits.specs.Bits.{field_width, to_boundary, bits_of};
ghost use Rattle.bits.specs.Code.{prefix_length, code_of};
ghost use Rattle.bits.specs.Places.{IsPlace};

use refusals::Refusal;

// Places from here on are refused.
const PLACE_LIMIT: usize = 0x8000_0000_0000_0000;

// A place among bits, where it is below the limit.
#[inline]
pub fn place(at: usize) -> Result<usize, Refusal>
    ensures { IsPlace at result }
{
    if at < PLACE_LIMIT {
        Ok(at)
    } else {
        Err(Refusal::NotWellFormed)
    }
}

// A width, 32 at the most.
#[inline]
pub fn field_width(width: u32) -> u32
    ensures { (result ≡ field_width width) × (result ≤ 32) }
{
    width.min(32)
}

// How many bits there are from a place to the next byte boundary: none at one.
#[inline]
pub fn to_boundary(at: usize) -> u32
    ensures { (result ≡ to_boundary at) × (result < 8) }
{
    ((8 - at % 8) % 8) as u32
}

// The number that a value's code ends in, and how many zeros stand before it: one fewer than it has bits.
#[derive(Clone, Copy)]
pub struct CodeNumber {
    pub number: u32,
    pub zeros: u32,
    pub ghost short: { zeros ≤ 31 },
}

impl CodeNumber {
    // That of a value: one more than it. 4,294,967,295 has no code.
    #[inline]
    pub fn of(value: u32) -> Option<Self>
        ensures some { IsSome result ↔ value < 4294967295 }
        ensures number { IfSome result (λ c. c.number ≡ value + 1) }
        ensures zeros { IfSome result (λ c. c.zeros ≡ prefix_length value) }
        ensures code { IfSome result (λ c. bits_of (2 * c.zeros + 1) c.number ≡ code_of value) }
    {
        let number = value.checked_add(1)?;
        Some(Self {
            number,
            zeros: 31 - u32::leading_zeros(number),
        })
    }

    // How many bits the code has.
    #[inline]
    pub fn bits(self) -> u32
        ensures { result ≡ 2 * self.zeros + 1 }
    {
        2 * self.zeros + 1
    }
}
