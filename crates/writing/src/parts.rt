// The steps of slots, whose numbers are coded in another order than the record has them.
#![tactic(auto)]

ghost use Rattle.std.specs.Prelude.{◌≡◌, ◌+◌, ◌-◌, length, drop};
ghost use Rattle.vps_definition.specs.Vps.{slot_at};
ghost use Rattle.ptl_slots.specs.Slot.{next_slot};

use crate::Writing;
use record_parts::number_at;
use refusals::Refusal;
use table_steps::{Parts, Steps};

impl<'a> Writing<'a> {
    // The place of the slot behind the one at a place, or the record's end; a place past the end stays.
    fn place_behind(&self, slot: usize) -> usize
        ensures rest { drop result self.now.rec.now ≡ next_slot self.now.rec.now (drop slot self.now.rec.now) }
        ensures place { result ≡ slot + (length (drop slot self.now.rec.now) - length (drop result self.now.rec.now)) }
    {
        let numbers = lists::behind(self.rec, slot);
        let rest = ptl_slots::behind_slot(numbers);
        slot + (numbers.len() - rest.len())
    }
}

impl<'a> Parts for Writing<'a> {
    // A slot's place is where it stands in the record.
    // As it is (6): given as the record's rest from there on, a slot would leave unsaid what `place_behind` promises of the place.
    type Slot = usize;

    ghost stands = { λ i s slot. drop slot s.rec.now ≡ slot_at i s.rec.now (drop s.c s.rec.now) };

    fn first_slot(&self) -> usize {
        self.c
    }

    fn next_slot(&self, slot: usize) -> usize {
        self.place_behind(slot)
    }

    fn slot_number(&mut self, slot: usize, j: usize, width: u32) -> Result<u32, Refusal> {
        self.late(number_at(lists::behind(self.rec, slot), j), width)
    }

    // The length must be what the bits say, and the bits are coded as they stand behind it.
    fn constraints(&mut self) -> Result<(), Refusal> {
        let more = (ptl_slots::more_constraints(self.rest()) % 256) as u32;
        self.infer(77 + more)?;
        self.flags(77 + more as usize)
    }

    fn reversed(&mut self, count: u32, width: u32) -> Result<usize, Refusal> {
        let numbers = self
            .rest()
            .get(..count as usize)
            .ok_or(Refusal::NotWellFormed)?;
        let mut sum = 0;
        for &v in numbers.iter().rev() {
            self.push_field(v, width)?;
            sum += v as usize;
        }
        self.c += count as usize;
        Ok(sum)
    }
}
