// The steps of slots of profile, tier and level, whose numbers are coded in another order than the record has them.
#![tactic(auto)]

ghost use Rattle.std.specs.Prelude.{◌≡◌, ℕ, ◌+◌, ◌<◌, ◌≤◌, ◌^◌, Result, IfOk};
ghost use Rattle.bits.specs.Bits.{field_width};
ghost use Rattle.vps_definition.specs.ProfileTierLevel.{constraints, reversed};
ghost use Rattle.table_steps.specs.Answers.{Gives, IsSum};
ghost use Rattle.table_steps.specs.Words.{slot_number};

use crate::Steps;
use refusals::Refusal;

// A walk that goes along slots, too.
pub trait Parts: Steps {
    // A slot's place, for a walk that looks its numbers up.
    type Slot: Copy;

    // Slot i of those that begin at the record's next number stands at this place.
    // As it is (5): it is said of a walk's state, too, which each step changes; a struct of a place and a ghost i holds no state, so each step would have to hand out a new one.
    ghost stands: { ℕ → Self → Self.Slot → Type 0 };

    // The place of the first slot.
    fn first_slot(&self) -> Self::Slot
        ensures { stands 0 self.now result };

    // The place of the slot behind the one at a place.
    fn next_slot(&self, slot: Self::Slot) -> Self::Slot
        ensures { (i : ℕ) → stands i self.now slot → stands (i + 1) self.now result };

    // Number j of the slot at a place, u(w) of a width up to 32, which is coded before the slots.
    fn slot_number(&mut self, slot: Self::Slot, j: usize, width: u32) -> Result<u32, Refusal>
        ensures goes { (i : ℕ) → stands i self.old slot → Self.goes ℕ (slot_number i j (field_width width)) self.old result self.new }
        ensures stays { (i : ℕ) → (place : Self.Slot) → stands i self.old place → stands i self.new place }
        ensures within { IfOk result (λ v. v < 2 ^ field_width width) };

    // The constraints that general_constraints_info() has: their length is kept before them.
    fn constraints(&mut self) -> Result<(), Refusal>
        ensures { Self.goes (Unit {0}) constraints self.old result self.new };

    // So many fields of a width up to 32, coded last first: their sum.
    fn reversed(&mut self, count: u32, width: u32) -> Result<usize, Refusal>
        ensures goes { Gives Self.goes IsSum (reversed count (field_width width)) self.old result self.new }
        ensures within { width ≡ 1 → IfOk result (λ sum. sum ≤ count) };
}
