// profile_tier_level(), a slot of the PTL section, read or written.
#![tactic(auto)]

ghost use Rattle.refusals.specs.declared.refusal.Refusal.{Refusal};
ghost use Rattle.vps_definition.specs.ProfileTierLevel.{constraints_if, general_constraints_info, profile_and_tier, sub_profiles, profile_tier_level};
ghost use Rattle.vps_profile.specs.Parts.{from_sublayers, from_level};

use refusals::Refusal;
use table_steps::{Parts, Step};

// What is coded of a slot before all slots.
// As it is (1): the flag stays a number, as the record keeps it and the definition has it; as a bool it would be turned back where it is stored, and in each clause.
#[derive(Clone, Copy)]
pub struct SlotHead {
    pub present: u32,
    pub max_tid: u32,
}

// The profile and the tier.
fn profile_and_tier<S: Parts>(steps: &mut S) -> Result<(), Refusal>
    ensures { S.goes (Unit {0}) profile_and_tier steps.old result steps.new }
{
    steps.u(7)?;
    steps.u(1)?;
    Ok(())
}

// The profile and the tier, as a step.
#[derive(Clone, Copy)]
struct ProfileAndTier;

impl<S: Parts> Step<S, ()> for ProfileAndTier {
    ghost leads = { λ step. S.goes (Unit {0}) profile_and_tier };

    fn go(&self, steps: &mut S) -> Result<(), Refusal> {
        profile_and_tier(steps)
    }
}

// The constraints where they are present, else their length 0.
fn constraints_if<S: Parts>(steps: &mut S, present: u32) -> Result<(), Refusal>
    ensures { S.goes (Unit {0}) (constraints_if present) steps.old result steps.new }
{
    if present == 0 {
        steps.infer(0)?;
        return Ok(());
    }
    steps.constraints()
}

// Whether there are constraints, they, and the bits to the boundary.
fn general_constraints_info<S: Parts>(steps: &mut S) -> Result<(), Refusal>
    ensures { S.goes (Unit {0}) general_constraints_info steps.old result steps.new }
{
    let flag = steps.u(1)?;
    constraints_if(steps, flag)?;
    steps.align(None)
}

// The constraints with their flag, as a step.
#[derive(Clone, Copy)]
struct ConstraintsInfo;

impl<S: Parts> Step<S, ()> for ConstraintsInfo {
    ghost leads = { λ step. S.goes (Unit {0}) general_constraints_info };

    fn go(&self, steps: &mut S) -> Result<(), Refusal> {
        general_constraints_info(steps)
    }
}

// The sub-profiles behind their number.
fn sub_profiles<S: Parts>(steps: &mut S) -> Result<(), Refusal>
    ensures { S.goes (Unit {0}) sub_profiles steps.old result steps.new }
{
    let count = steps.u(8)?;
    table_steps::fields(steps, count, 32)
}

// The sub-profiles, as a step.
#[derive(Clone, Copy)]
struct SubProfiles;

impl<S: Parts> Step<S, ()> for SubProfiles {
    ghost leads = { λ step. S.goes (Unit {0}) sub_profiles };

    fn go(&self, steps: &mut S) -> Result<(), Refusal> {
        sub_profiles(steps)
    }
}

// The sublayers' flags and levels, and the sub-profiles.
fn from_sublayers<S: Parts>(steps: &mut S, head: SlotHead) -> Result<(), Refusal>
    ensures { S.goes (Unit {0}) (from_sublayers head.present head.max_tid) steps.old result steps.new }
{
    let levels = steps.reversed(head.max_tid, 1)?;
    steps.align(None)?;
    steps.reversed(levels as u32, 8)?;
    table_steps::when(steps, head.present, SubProfiles)
}

// The level and the two flags behind it, the constraints, and the rest.
fn from_level<S: Parts>(steps: &mut S, head: SlotHead) -> Result<(), Refusal>
    ensures { S.goes (Unit {0}) (from_level head.present head.max_tid) steps.old result steps.new }
{
    steps.u(8)?;
    steps.u(1)?;
    steps.u(1)?;
    table_steps::when(steps, head.present, ConstraintsInfo)?;
    from_sublayers(steps, head)
}

// A slot: its head, which was coded before, and profile_tier_level().
pub fn profile_tier_level<S: Parts>(steps: &mut S, head: SlotHead) -> Result<(), Refusal>
    ensures { S.goes (Unit {0}) (profile_tier_level head.present head.max_tid) steps.old result steps.new }
{
    steps.infer(head.present)?;
    steps.infer(head.max_tid)?;
    table_steps::when(steps, head.present, ProfileAndTier)?;
    from_level(steps, head)
}
