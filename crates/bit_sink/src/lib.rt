// Takes fields and codes one after the other, packs and stuffs their bits, and stores the bytes in a lent output where they fit; it counts them in any case.
#![tactic(auto)]

ghost use Rattle.std.specs.Prelude.{◌≡◌, List, [], ◌∷◌, ℕ, ◌<◌, replicate};
ghost use Rattle.bits.specs.Bits.{field_width, to_boundary, bits_of, pack};
ghost use Rattle.bits.specs.Code.{code_of};
ghost use Rattle.bit_sink.specs.Holds.{limit, Holds};
ghost use Rattle.bit_sink.specs.Puts.{SameOutput, Stores, StoresEnd, Puts, Finishes};

use bits::{CodeNumber, field_width, to_boundary};
use joined::Joined;
use lists::store;
use stuffing::{is_guarded, zeros_behind};

mod joined;

// What was pushed so far.
#[derive(Clone, Copy)]
pub struct SoFar {
    // the bits of the RBSP
    pub bits: usize,
    // those behind the last whole byte, as a number
    pub pending: u32,
    // the zeros that the stored bytes end in, up to two
    pub zeros: u32,
    // the place behind the stored bytes, counted also where there is no room
    pub len: usize,
}

impl SoFar {
    // Places and counts from here on are never reached: the limits of the contracts stay far below.
    const LIMIT: usize = 0x4000_0000_0000_0000;

    // No bits yet; the first byte goes to a place of the output.
    pub fn new(start: usize) -> Self
        ensures holds { start < limit → (lent : List ℕ) → Holds start [] result lent lent }
        ensures value { result ≡ record { bits = 0; pending = 0; zeros = 0; len = start } }
    {
        Self {
            bits: 0,
            pending: 0,
            zeros: 0,
            len: start,
        }
    }
}

// A lent output, which has the whole bytes of what was pushed so far.
#[derive(Drop)]
pub struct Sink<'a> {
    pub out: &'a mut [u8],
    pub so_far: SoFar,
}

impl Sink<'_> {
    // Stores a byte, with a 03 before it where it needs one.
    fn store_byte(&mut self, b: u8)
        ensures { Stores (b ∷ []) self.old self.new }
    {
        if self.so_far.len >= SoFar::LIMIT {
            return;
        }
        if is_guarded(self.so_far.zeros, b) {
            store(self.out, self.so_far.len, 3);
            store(self.out, self.so_far.len + 1, b);
            self.so_far.zeros = zeros_behind(0, b);
            self.so_far.len += 2;
            return;
        }
        store(self.out, self.so_far.len, b);
        self.so_far.zeros = zeros_behind(self.so_far.zeros, b);
        self.so_far.len += 1;
    }

    // Stores the whole bytes of a number's bits.
    // As it is (4): `to_be_bytes` gives eight bytes, of which the last count / 8 would be cut out besides the shift, where it is hottest.
    fn store_bytes(&mut self, joined: Joined)
        ensures { Stores (pack (bits_of joined.count joined.value)) self.old self.new }
    {
        for i in 0..joined.count / 8 {
            self.store_byte(((joined.value >> (joined.count - 8 * (i + 1))) % 256) as u8);
        }
    }

    // The end of the bytes: a 03 behind two zeros. Says how far the output is used.
    fn store_end(&mut self) -> usize
        ensures { StoresEnd self.old result self.new }
    {
        if self.so_far.len >= SoFar::LIMIT {
            return self.so_far.len;
        }
        if self.so_far.zeros >= 2 {
            store(self.out, self.so_far.len, 3);
            self.so_far.len + 1
        } else {
            self.so_far.len
        }
    }

    // A field of a width up to 32: the lowest bits of the value.
    pub fn put(&mut self, value: u32, width: u32)
        ensures output { SameOutput self.old self.new }
        ensures puts { Puts (bits_of (field_width width) value) self.old self.new }
    {
        if self.so_far.bits >= SoFar::LIMIT {
            return;
        }
        let joined = Joined::of(self.so_far.pending, self.so_far.bits, value, width);
        self.store_bytes(joined);
        self.so_far.pending = joined.rest();
        self.so_far.bits += field_width(width) as usize;
    }

    // A code, of a value up to 4,294,967,294: the code number as one field of up to 31 bits, or the zeros of its prefix and then the code number.
    pub fn put_code(&mut self, value: u32)
        ensures output { SameOutput self.old self.new }
        ensures puts { value < 4294967295 → Puts (code_of value) self.old self.new }
    {
        let Some(code) = CodeNumber::of(value) else {
            return;
        };
        if code.zeros < 16 {
            self.put(code.number, code.bits());
            return;
        }
        self.put(0, code.zeros);
        self.put(code.number, code.zeros + 1);
    }

    // Zeros to the byte boundary.
    pub fn put_zeros_to_boundary(&mut self)
        ensures output { SameOutput self.old self.new }
        ensures puts { Puts (replicate (to_boundary self.old.so_far.bits) 0) self.old self.new }
    {
        self.put(0, to_boundary(self.so_far.bits));
    }

    // The stop bit, zeros to the boundary, and the end of the stuffing. Says how far the output is used, or would be with room.
    pub fn finish(&mut self) -> usize
        ensures output { SameOutput self.old self.new }
        ensures finishes { Finishes self.old result self.new }
    {
        self.put(1, 1);
        self.put_zeros_to_boundary();
        self.store_end()
    }
}
