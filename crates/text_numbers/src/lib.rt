// Numbers in decimal digits, put into a lent text.
#![tactic(auto)]

ghost use Rattle.std.specs.Prelude.{◌≡◌, ◌<◌, replicate, drop};
ghost use Rattle.texts.specs.Adds.{Adds};
ghost use Rattle.text_numbers.specs.Decimal.{decimal};
ghost use Rattle.text_numbers.specs.Aligned.{right_aligned};

use texts::Text;

// Room for the digits of every number of 64 bits.
const MOST_DIGITS: usize = 20;

// The digits of a number, at the end of a room for those of every number; says where they begin.
fn store_digits(n: u64, room: &mut [u8; MOST_DIGITS]) -> usize
    ensures inside { result < 20 }
    ensures digits { drop result room.new ≡ decimal n }
{
    let mut rest = n;
    let mut at = MOST_DIGITS - 1;
    // As it is (3): a loop over a range of places would want an answer behind its end, which is never reached.
    while at > 0 && rest >= 10 {
        room[at] = b'0' + (rest % 10) as u8;
        rest /= 10;
        at -= 1;
    }
    room[at] = b'0' + (rest % 10) as u8;
    at
}

// So many blanks.
fn put_blanks(text: &mut Text, count: usize)
    ensures { Adds (replicate count 32) text.old text.new }
{
    for _ in 0..count {
        text.put(b" ");
    }
}

// A number in decimal digits, with blanks before it where it has fewer than `width` of them.
pub fn put_right_aligned(text: &mut Text, n: u64, width: usize)
    ensures { Adds (right_aligned width (decimal n)) text.old text.new }
{
    let mut room = [0u8; MOST_DIGITS];
    let begin = store_digits(n, &mut room);
    put_blanks(text, width.saturating_sub(MOST_DIGITS - begin));
    text.put(&room[begin..]);
}

// A number in decimal digits.
pub fn put_decimal(text: &mut Text, n: u64)
    ensures { Adds (decimal n) text.old text.new }
{
    put_right_aligned(text, n, 0);
}
