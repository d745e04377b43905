// Bits joined into one number: those that wait for their byte, and a field behind them.
#![tactic(auto)]

ghost use Rattle.std.specs.Prelude.{◌≡◌, ◌+◌, ◌*◌, ◌^◌, ◌%◌, ◌≤◌};
ghost use Rattle.bits.specs.Bits.{field_width};

use bits::field_width;

// A number, and how many of its lowest bits are meant, the highest first.
#[derive(Clone, Copy)]
pub struct Joined {
    pub value: u64,
    pub count: u32,
    pub ghost few: { count ≤ 64 },
}

// The lowest bits of a number.
fn low_bits(v: u64, width: u32) -> u64
    ensures { result ≡ v % 2 ^ width }
{
    if width >= 64 {
        return v;
    }
    v % (1u64 << width)
}

impl Joined {
    // The bits behind the last whole byte, of so many, as a number, and a field of a width up to 32.
    pub fn of(pending: u32, bits: usize, value: u32, width: u32) -> Joined
        ensures value { result.value ≡ pending * 2 ^ field_width width + value % 2 ^ field_width width }
        ensures count { result.count ≡ bits % 8 + field_width width }
    {
        let w = field_width(width);
        Joined {
            value: ((pending as u64) << w) + low_bits(value as u64, w),
            count: (bits % 8) as u32 + w,
        }
    }

    // Those behind the last whole byte, as a number.
    pub fn rest(self) -> u32
        ensures { result ≡ self.value % 2 ^ (self.count % 8) }
    {
        low_bits(self.value, self.count % 8) as u32
    }
}
