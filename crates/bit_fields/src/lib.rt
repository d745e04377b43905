// Bits and fields of a byte slice, at any place: total functions, to which bits past the end are 0.
#![tactic(auto)]

ghost use Rattle.std.specs.Prelude.{◌≡◌, true, ◌+◌, ◌*◌, ◌-◌, ◌/◌, ◌%◌, ◌^◌, ◌<◌, ◌≤◌, length, get_or};
ghost use Rattle.bits.specs.Bits.{bit_at, field_at, field_width};
ghost use Rattle.bit_fields.specs.Window.{IsFirst, IsWindow};

// The number of the first n bytes, the first of them highest; past the end each byte is 0.
// As it is (3): a copy into a padded array, tried, has six registers saved on each read of over a bit, past the end or not.
fn first_bytes(bytes: &[u8], n: usize) -> u64
    requires { n ≤ 8 }
    ensures { result ≡ field_at bytes.now 0 (8 * n) }
{
    let mut number = 0;
    for i in 0..n {
        let byte = bytes.get(i).copied().unwrap_or(0);
        number = number * 256 + byte as u64;
    }
    number
}

// The 16 bits of the first two bytes, at once where both stand inside.
// As it is (2): one generic function with `window`, tried, gives an array, which costs what it does in `first_bytes`.
fn pair(bytes: &[u8]) -> u32
    ensures { result ≡ field_at bytes.now 0 16 }
{
    match bytes.first_chunk::<2>() {
        Some(two) => u32::from(u16::from_be_bytes(*two)),
        None => first_bytes(bytes, 2) as u32,
    }
}

// The 64 bits of the first eight bytes; none where there are fewer.
fn window(bytes: &[u8]) -> Option<u64>
    ensures { IsFirst bytes.now result }
{
    let eight = bytes.first_chunk::<8>()?;
    Some(u64::from_be_bytes(*eight))
}

// The window that is laid for a place's byte, as one number, and how many of its bits stand before the place; none where there
// are fewer than eight bytes.
// As it is (6): near the end the window begins before the place's byte, so a slice from that byte on would not have it.
pub fn window_for(bytes: &[u8], at: usize) -> Option<(u64, usize)>
    ensures { IsWindow bytes.now at result }
{
    let last = bytes.len().checked_sub(8)?;
    let start = (at / 8).min(last);
    let near = window(&bytes[start..start + 8])?;
    Some((near, at - 8 * start))
}

// The field of a width behind so many bits of a window.
fn field_in(window: u64, skipped: u32, width: u32) -> u32
    requires { (1 ≤ width) × (width ≤ 32) × (skipped + width ≤ 64) }
    ensures { result ≡ window / 2 ^ (64 - (skipped + width)) % 2 ^ width }
{
    ((window >> (64 - (skipped + width))) % (1u64 << width)) as u32
}

// The bit at a place; 0 past the end.
// As it is (6): a place among bits is what is asked for, and a slice can begin at a byte alone.
pub fn bit_at(bytes: &[u8], at: usize) -> u32
    ensures { result ≡ bit_at bytes.now at }
{
    let byte = bytes.get(at / 8).copied().unwrap_or(0) as u32;
    (byte >> (7 - at % 8)) % 2
}

// The field of a width up to 8 behind fewer than 8 bits: it stands in the first two bytes.
fn short_field(bytes: &[u8], skipped: u32, width: u32) -> u32
    requires { (skipped < 8) × (width ≤ 8) }
    ensures { result ≡ field_at bytes.now skipped width }
{
    (pair(bytes) >> (16 - (skipped + width))) % (1u32 << width)
}

// The field of a width, 32 at the most, at any place; its bits past the end are 0. Where the width is known, compilers keep
// only its own way. A wide field stands in the window that is laid for it, or else reaches past the end or has no window.
// As it is (6): a place among bits is what is asked for, and the window may begin before the place's byte.
// As it is (2): a short field's rest was tried by `lists::behind`, which adds the choice of an empty rest's address to each read.
pub fn field_at(bytes: &[u8], at: usize, width: u32) -> u32
    ensures { result ≡ field_at bytes.now at (field_width width) }
{
    if width == 1 {
        return bit_at(bytes, at);
    }
    if width <= 8 {
        let Some(rest) = bytes.get(at / 8..) else {
            return 0;
        };
        return short_field(rest, (at % 8) as u32, width);
    }
    let w = bits::field_width(width);
    if let Some((near, skipped)) = window_for(bytes, at)
        && skipped <= (64 - w) as usize
    {
        return field_in(near, skipped as u32, w);
    }
    let rest = lists::behind(bytes, at / 8);
    field_in(first_bytes(rest, 8), (at % 8) as u32, w)
}
