// The VPS's section of profile, tier and level, read or written: the slots' heads, and the slots.
#![tactic(auto)]

ghost use Rattle.std.specs.Prelude.{ℕ, ◌<◌, ◌^◌, List, [], length, IfOk};
ghost use Rattle.bits.specs.Bits.{field_width};
ghost use Rattle.refusals.specs.declared.refusal.Refusal.{Refusal};
ghost use Rattle.vps_definition.specs.Words.{loop};
ghost use Rattle.vps_definition.specs.Vps.{Head, slot_number_if, ptl_head, ptl_slot, ptl_section};
ghost use Rattle.table_steps.specs.Answers.{Gives};
ghost use Rattle.vps_fields.specs.Header.{header_of};
ghost use Rattle.vps_ptl.specs.Section.{slot_count};
ghost use Rattle.vps_ptl.specs.Heads.{table_heads, IsBehind, AreHeads};

use refusals::Refusal;
use table_steps::Parts;
use vps_fields::Header;
use vps_profile::{SlotHead, profile_tier_level};

// How many slots there are: one for one layer, and 256 at the most.
fn slot_count<S: Parts>(steps: &mut S, layers: u32) -> Result<u32, Refusal>
    ensures goes { S.goes ℕ (slot_count layers) steps.old result steps.new }
    ensures within { IfOk result (λ v. v < 257) }
{
    if layers == 1 {
        return steps.infer(1);
    }
    steps.u_minus1()
}

// A slot's head, as it is kept until the slots are gone along.
// As it is (2): `vps_profile::SlotHead` has the same numbers as its steps take them; the list of 256, which each section clears, is a quarter as long in bytes.
#[derive(Clone, Copy)]
struct KeptHead {
    present: u8,
    max_tid: u8,
}

// Number j of slot i, whose place is given, where it is coded, else its inferred value.
fn slot_number_if<S: Parts>(
    steps: &mut S,
    coded: bool,
    slot: S::Slot,
    j: usize,
    width: u32,
    other: u32,
) -> Result<u32, Refusal>
    ensures goes { (i : ℕ) → S.stands i steps.old slot → S.goes ℕ (slot_number_if coded i j (field_width width) other) steps.old result steps.new }
    ensures within { other < 2 ^ field_width width → IfOk result (λ v. v < 2 ^ field_width width) }
    ensures stays { (i : ℕ) → (place : S.Slot) → S.stands i steps.old place → S.stands i steps.new place }
{
    if coded {
        steps.slot_number(slot, j, width)
    } else {
        Ok(other)
    }
}

// The head of slot i, whose place is given; the first slot's profile is present, and the default max tid is the highest.
fn slot_head<S: Parts>(
    steps: &mut S,
    h: &Header,
    slot: S::Slot,
    i: usize,
) -> Result<KeptHead, Refusal>
    ensures goes { (heads : List Head) → S.stands i steps.old slot → Gives S.goes (IsBehind heads) (ptl_head (header_of h.now) i heads) steps.old result steps.new }
    ensures stays { (j : ℕ) → (place : S.Slot) → S.stands j steps.old place → S.stands j steps.new place }
{
    let top = h.max_sublayers_minus1;
    let present = slot_number_if(steps, 0 < i, slot, 0, 1, 1)?;
    let max_tid = slot_number_if(steps, h.default_max_tid_flag == 0, slot, 1, 3, top)?;
    steps.check(max_tid <= top, Refusal::PtlMaxTid)?;
    Ok(KeptHead {
        present: present as u8,
        max_tid: max_tid as u8,
    })
}

// All heads, one after another.
fn slot_heads<S: Parts>(steps: &mut S, h: &Header, heads: &mut [KeptHead]) -> Result<(), Refusal>
    ensures { Gives S.goes (AreHeads heads.new) (loop (ptl_head (header_of h.now)) (length heads.new) 0 []) steps.old result steps.new }
{
    let mut slot = steps.first_slot();
    for (i, head) in heads.iter_mut().enumerate() {
        *head = slot_head(steps, h, slot, i)?;
        slot = steps.next_slot(slot);
    }
    Ok(())
}

// All slots, each behind its head.
fn slots<S: Parts>(steps: &mut S, heads: &[KeptHead]) -> Result<(), Refusal>
    ensures { S.goes (Unit {0}) (loop (ptl_slot (table_heads heads.now)) (length heads.now) 0 tt) steps.old result steps.new }
{
    for kept in heads {
        let head = SlotHead {
            present: kept.present as u32,
            max_tid: kept.max_tid as u32,
        };
        profile_tier_level(steps, head)?;
    }
    Ok(())
}

// The PTL section: the slots' number, which comes back, their heads, and the slots.
pub fn ptl_section<S: Parts>(steps: &mut S, h: &Header, total: u32) -> Result<u32, Refusal>
    ensures { S.goes ℕ (ptl_section (header_of h.now) total) steps.old result steps.new }
{
    let count = slot_count(steps, h.layers)?;
    steps.check(count <= total, Refusal::PtlsOverSets)?;
    let mut all = [KeptHead {
        present: 0,
        max_tid: 0,
    }; 256];
    let heads = &mut all[..count as usize];
    slot_heads(steps, h, heads)?;
    steps.align(Some(Refusal::PtlAlignment))?;
    slots(steps, heads)?;
    Ok(count)
}
