// Writes along a syntax table: steps through a record's numbers, and pushes their bits into a lent output.
#![tactic(auto)]

ghost use Rattle.std.specs.Prelude.{◌≡◌, ◌+◌, List, [], ℕ, ◌≤◌, ◌<◌, ◌^◌, ltb, length, drop, get_or, replicate, true, IfOk};
ghost use Rattle.bits.specs.Bits.{field_width, bits_of, to_boundary};
ghost use Rattle.bits.specs.Code.{code_of};
ghost use Rattle.bit_sink.specs.Holds.{limit};
ghost use Rattle.vps_definition.specs.Syntax.Syntax.{field, code, late, done};
ghost use Rattle.writing.specs.Emits.{Ready, Stays, Emits};
ghost use Rattle.writing.specs.Pushes.{Takes, HasNext, StepPuts, Pushes};
ghost use Rattle.writing.specs.Marked.{Marked, laws};

use bit_sink::{Sink, SoFar};
use bits::{CodeNumber, field_width, to_boundary};
use record_parts::{Record, number_at};
use refusals::Refusal;
use table_steps::Steps;

mod flags;
mod parts;

// A record and a lent output, and how far the writing is. Behind a refusal no step is owed any more.
// As it is (5): `out` and `so_far` are what `bit_sink::Sink` is; a `Sink` held here was tried: the proof of `vps_writer::put_rbsp` didn't close.
#[derive(Drop)]
pub struct Writing<'a> {
    pub rec: &'a [u32],
    pub out: &'a mut [u8],
    // the record's next number
    pub c: usize,
    // what was pushed into the output
    pub so_far: SoFar,
}

// Whether a value has no more bits than a width, 32 at the most.
#[inline]
fn is_field(value: u32, width: u32) -> bool
    ensures { result ≡ ltb value (2 ^ field_width width) }
{
    if width < 32 {
        return value >> width == 0;
    }
    true
}

// Whether so many bits, of a value that fits its word or not, may follow others in an RBSP.
#[inline]
fn takes(fits: bool, bits: usize, more: usize) -> bool
    ensures { Takes fits bits more result }
{
    fits && bits <= Record::MOST_RBSP_BITS && more <= Record::MOST_RBSP_BITS - bits
}

impl<'a> Writing<'a> {
    // Before the first bit, which goes to byte `start` of the output, with the record's next number.
    pub fn new(rec: &'a [u32], out: &'a mut [u8], start: usize, c: usize) -> Self
        ensures rec { result.rec.now ≡ rec.now }
        ensures same_reference { result.out.ghost_name ≡ out.entry.ghost_name }
        ensures unchanged { result.out.now ≡ out.old }
        ensures c { result.c ≡ c }
        ensures ready { start < limit → Ready start [] result out.old }
    {
        Self {
            rec,
            out,
            c,
            so_far: SoFar::new(start),
        }
    }

    // The record from its next number on.
    #[inline]
    fn rest(&self) -> &'a [u32]
        ensures { result.now ≡ drop self.now.c self.now.rec.now }
    {
        lists::behind(self.rec, self.c)
    }

    // Pushes so many bits, of a value that fits its word or not, by a step of a sink that the output is lent to.
    #[inline]
    fn push<F: FnOnce(&mut Sink)>(
        &mut self,
        fits: bool,
        more: usize,
        step: F,
    ) -> Result<(), Refusal>
        requires { F.IsAlwaysCallable step }
        ensures { (b : List ℕ) → (fits ≡ true → more ≡ length b) → StepPuts (λ x y. F.post step x tt y) fits b → Pushes fits b self.old result self.new }
    {
        if !takes(fits, self.so_far.bits, more) {
            return Err(Refusal::NotWellFormed);
        }
        let mut sink = Sink {
            out: &mut *self.out,
            so_far: self.so_far,
        };
        step(&mut sink);
        self.so_far = sink.so_far;
        Ok(())
    }

    // Pushes a field; the record's next number stays.
    #[inline]
    pub fn push_field(&mut self, value: u32, width: u32) -> Result<(), Refusal>
        ensures { Pushes (ltb value (2 ^ field_width width)) (bits_of (field_width width) value) self.old result self.new }
    {
        self.push(
            is_field(value, width),
            field_width(width) as usize,
            |sink| sink.put(value, width),
        )
    }

    // Pushes a code, likewise.
    #[inline]
    pub fn push_code(&mut self, value: u32) -> Result<(), Refusal>
        ensures { Pushes (ltb value 4294967295) (code_of value) self.old result self.new }
    {
        let code = CodeNumber::of(value).ok_or(Refusal::NotWellFormed)?;
        self.push(true, code.bits() as usize, |sink| sink.put_code(value))
    }

    // The record's next number, of a word that it has `plus` added to.
    #[inline]
    fn next_number(&self, plus: u32) -> Result<u32, Refusal>
        ensures { HasNext plus self.now result }
    {
        match self.rec.get(self.c) {
            Some(&v) if plus <= v => Ok(v),
            _ => Err(Refusal::NotWellFormed),
        }
    }

    // That number, as a field.
    // As it is (2): `code` has its call of `next_number` and its `c += 1` too; one method for both would take the push as a closure, and the table and its bits by its contract alone.
    #[inline]
    fn field(&mut self, plus: u32, width: u32) -> Result<u32, Refusal>
        ensures goes { Emits (field (field_width width) plus done) self.old result self.new }
        ensures within { IfOk result (λ v. v < 2 ^ field_width width + plus) }
    {
        let v = self.next_number(plus)?;
        self.push_field(v - plus, width)?;
        self.c += 1;
        Ok(v)
    }

    // That number, as a code.
    #[inline]
    fn code(&mut self, plus: u32) -> Result<u32, Refusal>
        ensures { Emits (code plus done) self.old result self.new }
    {
        let v = self.next_number(plus)?;
        self.push_code(v - plus)?;
        self.c += 1;
        Ok(v)
    }

    // u(w) of a value that is kept elsewhere in the record.
    #[inline]
    pub fn late(&mut self, value: u32, width: u32) -> Result<u32, Refusal>
        ensures goes { (find : List ℕ → List ℕ → ℕ) → find self.old.rec.now (drop self.old.c self.old.rec.now) ≡ value → Emits (late (field_width width) find done) self.old result self.new }
        ensures stays { Stays self.old self.new }
        ensures next { self.new.c ≡ self.old.c }
        ensures same { IfOk result (λ v. v ≡ value) }
        ensures within { IfOk result (λ v. v < 2 ^ field_width width) }
    {
        self.push_field(value, width)?;
        Ok(value)
    }
}

impl<'a> Steps for Writing<'a> {
    ghost place = { λ s. s.c };

    ghost goes = { λ A. Emits };

    ghost marked = { λ A. Marked };

    ghost laws = { laws };

    #[inline]
    fn place(&self) -> usize {
        self.c
    }

    #[inline]
    fn u(&mut self, width: u32) -> Result<u32, Refusal> {
        self.field(0, width)
    }

    #[inline]
    fn u_minus1(&mut self) -> Result<u32, Refusal> {
        self.field(1, 8)
    }

    #[inline]
    fn ue(&mut self) -> Result<u32, Refusal> {
        self.code(0)
    }

    #[inline]
    fn ue_minus1(&mut self) -> Result<u32, Refusal> {
        self.code(1)
    }

    // The record must have it.
    #[inline]
    fn infer(&mut self, v: u32) -> Result<u32, Refusal> {
        if self.next_number(0)? != v {
            return Err(Refusal::NotWellFormed);
        }
        self.c += 1;
        Ok(v)
    }

    #[inline]
    fn general(&mut self, i: usize, width: u32) -> Result<u32, Refusal> {
        self.late(number_at(self.rec, i), width)
    }

    #[inline]
    fn layers_minus1(&mut self) -> Result<u32, Refusal> {
        self.late(number_at(self.rec, Record::LAYERS).saturating_sub(1), 6)
    }

    // The bits are zeros, whatever a reader refuses.
    #[inline]
    fn align(&mut self, _refusal: Option<Refusal>) -> Result<(), Refusal> {
        let more = to_boundary(self.so_far.bits);
        self.push(true, more as usize, |sink| sink.put(0, more))
    }

    // A record that a reader would refuse is not well formed.
    #[inline]
    fn check(&self, holds: bool, _refusal: Refusal) -> Result<(), Refusal> {
        if holds {
            Ok(())
        } else {
            Err(Refusal::NotWellFormed)
        }
    }
}
