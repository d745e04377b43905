// Steps along a syntax table, the same for reading and writing: each word of a table is a step, and a trait says what the steps
// owe to the table.
#![tactic(auto)]

ghost use Rattle.std.specs.Prelude.{◌≡◌, ℕ, ◌<◌, ◌^◌, List, Bool, true, Result, IfOk};
ghost use Rattle.bits.specs.Bits.{field_width};
ghost use Rattle.refusals.specs.declared.refusal.Refusal.{Refusal};
ghost use Rattle.refusals.specs.Refusals.{number_of};
ghost use Rattle.vps_definition.specs.Syntax.{Syntax};
ghost use Rattle.vps_definition.specs.Words.{u, u_minus1, u_if, ue, ue_minus1, ue_if, inferred, general, general_if, check, aligned, repeat, when};
ghost use Rattle.table_steps.specs.Laws.{StepsLaws};
ghost use Rattle.table_steps.specs.Answers.{GoesAlong};
ghost use Rattle.table_steps.specs.Words.{alignment_number, layers_minus1, kept_field};

use refusals::Refusal;

mod parts;

pub use parts::Parts;

// A walk along a table: over an RBSP and a lent record, or over a record and a lent output.
pub trait Steps {
    // How many numbers of the record lie behind the walk.
    ghost place: { Self → ℕ };

    // From a state, a table is gone along to an answer and a state.
    ghost goes: { (A : Type 0) → Syntax A → Self → Result A Refusal → Self → Type 0 };

    // The same, and where it is gone along to its end, its sections start at these numbers.
    ghost marked: { (A : Type 0) → Syntax A → Self → Result A Refusal → Self → List ℕ → Type 0 };

    // What each `impl` must prove.
    ghost laws: { StepsLaws place goes marked };

    // The record's next number.
    fn place(&self) -> usize
        ensures { result ≡ place self.now };

    // u(w) of a width up to 32.
    fn u(&mut self, width: u32) -> Result<u32, Refusal>
        ensures goes { goes ℕ (u (field_width width)) self.old result self.new }
        ensures within { IfOk result (λ v. v < 2 ^ field_width width) };

    // u(8) of a field that the standard calls minus1; the record has one more.
    fn u_minus1(&mut self) -> Result<u32, Refusal>
        ensures goes { goes ℕ (u_minus1 8) self.old result self.new }
        ensures within { IfOk result (λ v. v < 257) };

    // ue(v).
    fn ue(&mut self) -> Result<u32, Refusal>
        ensures { goes ℕ ue self.old result self.new };

    // ue(v) of a field that the standard calls minus1; the record has one more.
    fn ue_minus1(&mut self) -> Result<u32, Refusal>
        ensures { goes ℕ ue_minus1 self.old result self.new };

    // A number that is not coded.
    fn infer(&mut self, v: u32) -> Result<u32, Refusal>
        ensures goes { goes ℕ (inferred v) self.old result self.new }
        ensures same { IfOk result (λ x. x ≡ v) };

    // Number i of the General section, u(w).
    fn general(&mut self, i: usize, width: u32) -> Result<u32, Refusal>
        ensures goes { goes ℕ (general i (field_width width)) self.old result self.new }
        ensures within { IfOk result (λ v. v < 2 ^ field_width width) };

    // vps_max_layers_minus1, which is one less than the record's first number.
    fn layers_minus1(&mut self) -> Result<u32, Refusal>
        ensures goes { goes ℕ layers_minus1 self.old result self.new }
        ensures within { IfOk result (λ v. v < 64) };

    // The bits to the byte boundary; a one among them is refused where there is a refusal for it, else passed over.
    fn align(&mut self, refusal: Option<Refusal>) -> Result<(), Refusal>
        ensures { goes (Unit {0}) (aligned (alignment_number refusal)) self.old result self.new };

    // Refuses unless a condition holds.
    fn check(&self, holds: bool, refusal: Refusal) -> Result<(), Refusal>
        ensures goes { goes (Unit {0}) (check holds (number_of refusal)) self.now result self.now }
        ensures held { IfOk result (λ _. holds ≡ true) };

    // u(w) where it is coded, else its inferred value.
    // As it is (5): condition, width and inferred value are the row `u_if` of the table, word for word; no function hands them on.
    final fn u_if(&mut self, coded: bool, width: u32, other: u32) -> Result<u32, Refusal>
        ensures { goes ℕ (u_if coded (field_width width) other) self.old result self.new }
    {
        if coded {
            self.u(width)
        } else {
            self.infer(other)
        }
    }

    // ue(v) where it is coded, else its inferred value.
    final fn ue_if(&mut self, coded: bool, other: u32) -> Result<u32, Refusal>
        ensures { goes ℕ (ue_if coded other) self.old result self.new }
    {
        if coded { self.ue() } else { self.infer(other) }
    }

    // Number i of the General section where it is coded, else its inferred value.
    final fn general_if(
        &mut self,
        coded: bool,
        i: usize,
        width: u32,
        other: u32,
    ) -> Result<u32, Refusal>
        ensures { goes ℕ (general_if coded i (field_width width) other) self.old result self.new }
    {
        if coded {
            self.general(i, width)
        } else {
            Ok(other)
        }
    }
}

// A step of a walk, with an answer: it may be taken at every state.
pub trait Step<S, A>: Copy {
    // From a state, the step leads to an answer and a state.
    ghost leads: { Self → S → Result A Refusal → S → Type 0 };

    fn go(&self, steps: &mut S) -> Result<A, Refusal>
        ensures { leads self.now steps.old result steps.new };
}

// So many times the same, up to a refusal: wherever `step` leads, it goes along the table that is repeated.
#[inline]
pub fn repeat<S: Steps, T: Step<S, ()>>(steps: &mut S, n: u64, step: T) -> Result<(), Refusal>
    ensures { (m : Syntax (Unit {0})) → GoesAlong (S.goes (Unit {0})) m (T.leads step) → S.goes (Unit {0}) (repeat n m) steps.old result steps.new }
{
    for _ in 0..n {
        step.go(steps)?;
    }
    Ok(())
}

// A table where a flag is 1, else nothing: wherever `step` leads, it goes along the table.
#[inline]
pub fn when<S: Steps, T: Step<S, ()>>(steps: &mut S, flag: u32, step: T) -> Result<(), Refusal>
    ensures { (m : Syntax (Unit {0})) → GoesAlong (S.goes (Unit {0})) m (T.leads step) → S.goes (Unit {0}) (when flag m) steps.old result steps.new }
{
    if flag == 0 {
        return Ok(());
    }
    step.go(steps)
}

// A field that only the record keeps.
#[derive(Clone, Copy)]
struct KeptField {
    width: u32,
}

impl<S: Steps> Step<S, ()> for KeptField {
    ghost leads = { λ f s r s'. S.goes (Unit {0}) (kept_field (field_width f.width)) s r s' };

    fn go(&self, steps: &mut S) -> Result<(), Refusal> {
        steps.u(self.width)?;
        Ok(())
    }
}

// Fields of a width up to 32, one after another.
#[inline]
pub fn fields<S: Steps>(steps: &mut S, count: u32, width: u32) -> Result<(), Refusal>
    ensures { S.goes (Unit {0}) (repeat count (kept_field (field_width width))) steps.old result steps.new }
{
    repeat(steps, count as u64, KeptField { width })
}
