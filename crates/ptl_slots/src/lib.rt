// Finds what stands in a record behind a slot of the PTL section, unchecked. Numbers, a slot's too, are given as the record's rest
// from the first of them on.
#![tactic(auto)]

ghost use Rattle.std.specs.Prelude.{◌≡◌, ◌+◌, ◌<◌, ◌^◌, ℕ, List, eqb, length, drop};
ghost use Rattle.vps_definition.specs.Words.{when, sum};
ghost use Rattle.vps_definition.specs.ProfileTierLevel.{number_of, general_constraints_info, sub_profiles};
ghost use Rattle.ptl_slots.specs.Standing.{standing, Capped};
ghost use Rattle.ptl_slots.specs.Skims.{Skims};
ghost use Rattle.ptl_slots.specs.Slot.{next_slot, more_constraints, front_of};

use lists::{behind, front};
use record_parts::number_at;

// The sum of so many numbers, or more than there are numbers where that is so.
pub fn sum_numbers(numbers: &[u32], count: u32) -> usize
    ensures { Capped (length numbers.now) (sum (standing count 0 numbers.now)) result }
{
    let mut sum = 0;
    for v in front(numbers, count as usize) {
        if numbers.len() < sum {
            return sum;
        }
        sum += *v as usize;
    }
    sum
}

// How many constraints follow the fixed ones, by the bits that stand 70 to 77 numbers behind the constraints' length.
pub fn more_constraints(length: &[u32]) -> usize
    ensures { (result ≡ more_constraints length.now) × (result < 2 ^ 41) }
{
    let mut more = 0;
    for i in 70..78 {
        more = 2 * more + number_at(length, i) as usize;
    }
    more
}

// What stands behind the head, the profile and the tier, where they are present, the level, and two flags.
fn behind_front(slot: &[u32], present: u32) -> &[u32]
    ensures { result.now ≡ drop (front_of (eqb present 0)) slot.now }
{
    if present == 0 {
        return behind(slot, 5);
    }
    behind(slot, 7)
}

// What stands behind the constraints.
fn behind_constraints(flag: &[u32], present: u32) -> &[u32]
    ensures { (rec : List ℕ) → Skims (when present general_constraints_info) rec flag.now tt result.now }
{
    if present == 0 {
        return flag;
    }
    let length = behind(flag, 1);
    if number_at(flag, 0) == 0 {
        return behind(length, 1);
    }
    behind(length, 78 + more_constraints(length))
}

// What stands behind the sublayers' flags and levels.
fn behind_sublayers(flags: &[u32], max_tid: u32) -> &[u32]
    ensures { result.now ≡ drop (sum (standing max_tid 0 flags.now)) (drop max_tid flags.now) }
{
    let levels = behind(flags, max_tid as usize);
    behind(levels, sum_numbers(flags, max_tid))
}

// What stands behind the sub-profiles.
fn behind_sub_profiles(count: &[u32], present: u32) -> &[u32]
    ensures { (rec : List ℕ) → Skims (when present sub_profiles) rec count.now tt result.now }
{
    if present == 0 {
        return count;
    }
    let first = behind(count, 1);
    behind(first, number_at(count, 0) as usize)
}

// The next slot: what stands behind a slot.
pub fn behind_slot(slot: &[u32]) -> &[u32]
    ensures { (rec : List ℕ) → result.now ≡ next_slot rec slot.now }
{
    let present = number_at(slot, 0);
    let max_tid = number_at(slot, 1);
    let front = behind_front(slot, present);
    let constraints = behind_constraints(front, present);
    let sublayers = behind_sublayers(constraints, max_tid);
    behind_sub_profiles(sublayers, present)
}
