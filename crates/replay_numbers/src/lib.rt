// Numbers of a recorded case's content, and those that an output holds beforehand.
#![tactic(auto)]

ghost use Rattle.std.specs.Prelude.{ℕ, ◌≡◌, ◌-◌, ◌%◌, ◌<◌, get_or, take, drop, length, HoldsAt};
ghost use Rattle.refusals.specs.Refusals.{Decodes};
ghost use Rattle.replay_numbers.specs.Numbers.{two, four, eight, number_at, place_behind, behind_numbers, Recorded};

use refusals::{NoRefusal, Refusal};

// What is left of a content: bytes and numbers are taken from its front; past the end each byte is 0.
#[derive(Clone, Copy)]
pub struct Content<'a> {
    pub rest: &'a [u8],
}

impl<'a> Content<'a> {
    // The next n bytes, or all where there are fewer.
    pub fn bytes(&mut self, n: usize) -> &'a [u8]
        ensures value { result.now ≡ take n self.old.rest.now }
        ensures rest { self.new.rest.now ≡ drop n self.old.rest.now }
    {
        let (bytes, rest) = self.rest.split_at(n.min(self.rest.len()));
        self.rest = rest;
        bytes
    }

    // The next N bytes; past the end each byte is 0.
    fn padded<const N: usize>(&mut self) -> [u8; N]
        ensures value { (k : ℕ) → k < N → get_or result k 0 ≡ get_or self.old.rest.now k 0 }
        ensures rest { self.new.rest.now ≡ drop N self.old.rest.now }
    {
        let next = self.bytes(N);
        let mut bytes = [0; N];
        bytes[..next.len()].copy_from_slice(next);
        bytes
    }

    // The next byte.
    pub fn byte(&mut self) -> u8
        ensures value { result ≡ get_or self.old.rest.now 0 0 }
        ensures rest { self.new.rest.now ≡ drop 1 self.old.rest.now }
    {
        let [byte] = self.padded::<1>();
        byte
    }

    // The number of the next two bytes, the highest byte first.
    pub fn two_bytes(&mut self) -> u32
        ensures value { result ≡ two self.old.rest.now }
        ensures least { result < 65536 }
        ensures rest { self.new.rest.now ≡ drop 2 self.old.rest.now }
    {
        u32::from(u16::from_be_bytes(self.padded()))
    }

    // The number of the next four bytes.
    pub fn four_bytes(&mut self) -> u32
        ensures value { result ≡ four self.old.rest.now }
        ensures rest { self.new.rest.now ≡ drop 4 self.old.rest.now }
    {
        u32::from_be_bytes(self.padded())
    }

    // The number of the next eight bytes.
    pub fn eight_bytes(&mut self) -> usize
        ensures value { result ≡ eight self.old.rest.now }
        ensures rest { self.new.rest.now ≡ drop 8 self.old.rest.now }
    {
        usize::from_be_bytes(self.padded())
    }

    // The next number among others: a byte below 255, or 255 and four bytes.
    pub fn number(&mut self) -> u32
        ensures value { result ≡ number_at self.old.rest.now 0 }
        ensures rest { self.new.rest.now ≡ drop (place_behind self.old.rest.now 0) self.old.rest.now }
    {
        let least = self.byte();
        if least < 255 {
            return u32::from(least);
        }
        self.four_bytes()
    }

    // Puts the next numbers into a record, one after the other.
    pub fn put_numbers(&mut self, numbers: &mut [u32])
        ensures len { length numbers.new ≡ length numbers.old }
        ensures value { (k : ℕ) → k < length numbers.new → get_or numbers.new k 0 ≡ number_at (behind_numbers self.old.rest.now k) 0 }
        ensures rest { self.new.rest.now ≡ behind_numbers self.old.rest.now (length numbers.old) }
    {
        for number in numbers.iter_mut() {
            *number = self.number();
        }
    }
}

// The outcome of a call by the number recorded: what a success says at 0, otherwise the refusal of that number.
pub fn outcome<T: Drop>(number: u32, said: T) -> Result<Result<T, Refusal>, NoRefusal>
    ensures { Recorded number said result }
{
    if number == 0 {
        return Ok(Ok(said));
    }
    Ok(Err(Refusal::try_from(number)?))
}

// What an output holds beforehand at an index.
pub fn pattern(i: usize) -> u8
    ensures { result ≡ 255 - i % 256 }
{
    (255 - i % 256) as u8
}

// Fills a buffer with what it holds beforehand.
// As it is (4): `fill` puts one value everywhere, and `fill_with` gives its closure no index, which it would count by hand.
pub fn fill_pattern<T: From<u8> + Drop>(buffer: &mut [T])
    ensures { (k : ℕ) → k < length buffer.new → HoldsAt (λ y. T.from_gives (255 - k % 256) y) buffer.new k }
{
    for (i, number) in buffer.iter_mut().enumerate() {
        *number = T::from(pattern(i));
    }
}
