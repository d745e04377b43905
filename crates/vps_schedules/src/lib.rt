// sublayer_hrd_parameters(), the schedules of a sublayer, read or written.
#![tactic(auto)]

ghost use Rattle.vps_definition.specs.TimingHrd.{du_values, schedule, sublayer_hrd};
ghost use Rattle.vps_entries.specs.Hrd.{hrd_of};

use refusals::Refusal;
use table_steps::{Step, Steps};
use vps_entries::Hrd;

// The values of a schedule's decoding units.
fn du_values<S: Steps>(steps: &mut S) -> Result<(), Refusal>
    ensures { S.goes (Unit {0}) du_values steps.old result steps.new }
{
    steps.ue()?;
    steps.ue()?;
    Ok(())
}

// These values, as a step.
#[derive(Clone, Copy)]
struct DuValues;

impl<S: Steps> Step<S, ()> for DuValues {
    ghost leads = { λ step. S.goes (Unit {0}) du_values };

    fn go(&self, steps: &mut S) -> Result<(), Refusal> {
        du_values(steps)
    }
}

// A schedule of sublayer_hrd_parameters().
fn schedule<S: Steps>(steps: &mut S, du: u32) -> Result<(), Refusal>
    ensures { S.goes (Unit {0}) (schedule du) steps.old result steps.new }
{
    steps.ue()?;
    steps.ue()?;
    table_steps::when(steps, du, DuValues)?;
    steps.u(1)?;
    Ok(())
}

// A schedule, as a step.
#[derive(Clone, Copy)]
struct OneSchedule {
    du: u32,
}

impl<S: Steps> Step<S, ()> for OneSchedule {
    ghost leads = { λ step. S.goes (Unit {0}) (schedule step.du) };

    fn go(&self, steps: &mut S) -> Result<(), Refusal> {
        schedule(steps, self.du)
    }
}

// sublayer_hrd_parameters(): the schedules, up to a refusal.
pub fn sublayer_hrd<S: Steps>(steps: &mut S, hrd: Hrd) -> Result<(), Refusal>
    ensures { S.goes (Unit {0}) (sublayer_hrd (hrd_of hrd)) steps.old result steps.new }
{
    let count = hrd.cpb_cnt_minus1 as u64 + 1;
    table_steps::repeat(steps, count, OneSchedule { du: hrd.du })
}
