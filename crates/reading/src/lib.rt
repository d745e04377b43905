// Reads along a syntax table: from an RBSP into a lent record, which takes the table's numbers as they come.
#![tactic(auto)]

use bit_reader::BitReader;
use bits::{field_width, to_boundary};
use refusals::Refusal;
use table_steps::{Parts, Steps};

// A reading: the RBSP and the place among its bits, the lent record and the place of its next number. Numbers behind the
// record's end are counted and not stored.
// As it is (5): `bytes` and `at` are what a `BitReader` is; held as one, a code's step is shorter and each other use of the two longer.
#[derive(Drop)]
pub struct Reading<'a> {
    pub bytes: &'a [u8],
    pub rec: &'a mut [u32],
    pub at: usize,
    pub n: usize,
}

impl<'a> Reading<'a> {
    ghost use Rattle.std.specs.Prelude.{◌≡◌, ◌+◌, ◌*◌, ◌<◌, set};
    ghost use Rattle.reading.specs.Fits.{limit};
    ghost use Rattle.reading.specs.Steps.{Reaches, Stands, Passed, Coded};

    // Places and numbers from here on are never reached: every table stays far below.
    pub const LIMIT: usize = 0x4000_0000_0000_0000;

    // At the RBSP's first bit, with the record's next number.
    pub fn new(bytes: &'a [u8], rec: &'a mut [u32], n: usize) -> Reading<'a>
        ensures bytes { result.bytes ≡ bytes.entry }
        ensures name { result.rec.ghost_name ≡ rec.entry.ghost_name }
        ensures rec { result.rec.now ≡ rec.old }
        ensures at { result.at ≡ 0 }
        ensures n { result.n ≡ n }
    {
        Reading {
            bytes,
            rec,
            at: 0,
            n,
        }
    }

    // Refuses a step from the limit on.
    fn reach(&self) -> Result<(), Refusal>
        ensures { Reaches self.now result }
    {
        if self.at < Reading::LIMIT && self.n < Reading::LIMIT {
            Ok(())
        } else {
            Err(Refusal::NotWellFormed)
        }
    }

    // The next field of a width up to 32, and past it; refused from the limit on.
    fn pass(&mut self, width: u32) -> Result<u32, Refusal>
        ensures { Passed width self.old result self.new }
    {
        self.reach()?;
        let at = self.at;
        self.at = at + field_width(width) as usize;
        Ok(bit_fields::field_at(self.bytes, at, width))
    }

    // Stores the record's next number.
    fn push(&mut self, v: u32)
        requires { self.old.n < 2 * limit }
        ensures { Stands self.old self.new self.old.at (self.old.n + 1) (set self.old.rec.now self.old.n v) }
    {
        lists::store(self.rec, self.n, v);
        self.n += 1;
    }

    // The next code, and past it.
    fn code(&mut self) -> Result<u32, Refusal>
        ensures { Coded self.old result self.new }
    {
        let mut reader = BitReader {
            bytes: self.bytes,
            bit_pos: self.at,
        };
        let v = reader.ue()?;
        self.at = reader.bit_pos;
        Ok(v)
    }
}

impl Reading<'_> {
    ghost use Rattle.std.specs.Prelude.{ℕ, ◌≡◌, ◌<◌, ◌≤◌, ◌+◌, ◌^◌, IfOk};
    ghost use Rattle.bits.specs.Bits.{field_width};
    ghost use Rattle.vps_definition.specs.Syntax.Syntax.{field, code, done};
    ghost use Rattle.reading.specs.Fits.{limit};
    ghost use Rattle.reading.specs.Meets.{Meets};

    // The next field, kept with `plus` added to it.
    #[inline]
    fn field(&mut self, plus: u32, width: u32) -> Result<u32, Refusal>
        requires { 2 ^ field_width width + plus ≤ 4294967296 }
        ensures goes { Meets ℕ (field (field_width width) plus done) self.old result self.new }
        ensures within { IfOk result (λ v. v < 2 ^ field_width width + plus) }
    {
        let v = self.pass(width)? + plus;
        self.push(v);
        Ok(v)
    }

    // The next code, likewise.
    #[inline]
    fn code_number(&mut self, plus: u32) -> Result<u32, Refusal>
        requires { plus ≤ 1 }
        ensures { Meets ℕ (code plus done) self.old result self.new }
    {
        self.reach()?;
        let v = self.code()? + plus;
        self.push(v);
        Ok(v)
    }
}

impl Steps for Reading<'_> {
    ghost use Rattle.reading.specs.Meets.{Meets, Marked};
    ghost use Rattle.reading.specs.Laws.{place_of, laws};

    ghost place = { place_of };

    ghost goes = { Meets };

    ghost marked = { Marked };

    ghost laws = { laws };

    fn place(&self) -> usize {
        self.n
    }

    fn u(&mut self, width: u32) -> Result<u32, Refusal> {
        self.field(0, width)
    }

    fn u_minus1(&mut self) -> Result<u32, Refusal> {
        self.field(1, 8)
    }

    fn ue(&mut self) -> Result<u32, Refusal> {
        self.code_number(0)
    }

    fn ue_minus1(&mut self) -> Result<u32, Refusal> {
        self.code_number(1)
    }

    fn infer(&mut self, v: u32) -> Result<u32, Refusal> {
        self.reach()?;
        self.push(v);
        Ok(v)
    }

    fn general(&mut self, i: usize, width: u32) -> Result<u32, Refusal> {
        self.pass(width)
    }

    fn layers_minus1(&mut self) -> Result<u32, Refusal> {
        self.pass(6)
    }

    fn align(&mut self, refusal: Option<Refusal>) -> Result<(), Refusal> {
        let bits = self.pass(to_boundary(self.at))?;
        let Some(refusal) = refusal else {
            return Ok(());
        };
        if bits == 0 { Ok(()) } else { Err(refusal) }
    }

    fn check(&self, holds: bool, refusal: Refusal) -> Result<(), Refusal> {
        if holds { Ok(()) } else { Err(refusal) }
    }
}

impl Parts for Reading<'_> {
    ghost use Rattle.std.specs.Prelude.{⊤};

    // The heads of slots stand where the reading stands.
    type Slot = ();

    ghost stands = { λ i s slot. ⊤ };

    fn first_slot(&self) {}

    fn next_slot(&self, _slot: ()) {}

    fn slot_number(&mut self, _slot: (), _j: usize, width: u32) -> Result<u32, Refusal> {
        self.pass(width)
    }

    // The number of the constraints that are not fixed stands 69 bits on.
    fn constraints(&mut self) -> Result<(), Refusal> {
        self.reach()?;
        let length = 77 + bit_fields::field_at(self.bytes, self.at + 69, 8);
        self.infer(length)?;
        table_steps::fields(self, length, 1)
    }

    fn reversed(&mut self, count: u32, width: u32) -> Result<usize, Refusal> {
        if count == 0 {
            return Ok(0);
        }
        self.reach()?;
        let at = self.at;
        let w = field_width(width) as usize;
        let mut sum = 0;
        for i in (0..count as usize).rev() {
            let v = bit_fields::field_at(self.bytes, at + i * w, width);
            self.push(v);
            sum += v as usize;
        }
        self.at = at + count as usize * w;
        Ok(sum)
    }
}
