// A sublayer of ols_timing_hrd_parameters(), read or written.
#![tactic(auto)]

ghost use Rattle.vps_definition.specs.TimingHrd.{sublayer_hrd, timing_sublayer};
ghost use Rattle.vps_entries.specs.Hrd.{hrd_of};

use refusals::Refusal;
use table_steps::{Step, Steps};
use vps_entries::Hrd;

// The schedules of a sublayer, as a step.
#[derive(Clone, Copy)]
struct Schedules {
    hrd: Hrd,
}

impl<S: Steps> Step<S, ()> for Schedules {
    ghost leads = { λ step. S.goes (Unit {0}) (sublayer_hrd (hrd_of step.hrd)) };

    fn go(&self, steps: &mut S) -> Result<(), Refusal> {
        vps_schedules::sublayer_hrd(steps, self.hrd)
    }
}

// The sublayer: how its pictures follow one another, and the schedules where there are some.
pub fn timing_sublayer<S: Steps>(steps: &mut S, hrd: Hrd) -> Result<(), Refusal>
    ensures { S.goes (Unit {0}) (timing_sublayer (hrd_of hrd)) steps.old result steps.new }
{
    let general = steps.u(1)?;
    let within = steps.u_if(general == 0, 1, 1)?;
    let duration = steps.ue_if(within == 1, 0)?;
    steps.check(duration <= 2047, Refusal::ElementalDuration)?;
    let present = vps_entries::is_hrd_present(hrd.nal, hrd.vcl);
    let coded = vps_entries::is_low_delay_coded(within, present, hrd.cpb_cnt_minus1);
    let _low_delay = steps.u_if(coded, 1, 0)?;
    let schedules = Schedules { hrd };
    table_steps::when(steps, hrd.nal, schedules)?;
    table_steps::when(steps, hrd.vcl, schedules)
}
