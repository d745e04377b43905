// general_timing_hrd_parameters(), read or written.
#![tactic(auto)]

ghost use Rattle.vps_definition.specs.TimingHrd.{general_timing_hrd};
ghost use Rattle.table_steps.specs.Answers.{Gives};
ghost use Rattle.vps_entries.specs.Hrd.{IsHrd};

use refusals::Refusal;
use table_steps::Steps;
use vps_entries::Hrd;

// general_timing_hrd_parameters(): what the schedules go by.
pub fn general_timing_hrd<S: Steps>(steps: &mut S) -> Result<Hrd, Refusal>
    ensures { Gives S.goes IsHrd general_timing_hrd steps.old result steps.new }
{
    let units = steps.u(32)?;
    let scale = steps.u(32)?;
    let nal = steps.u(1)?;
    let vcl = steps.u(1)?;
    steps.check(
        vps_entries::are_units_set(units, scale),
        Refusal::TimingZero,
    )?;
    let present = vps_entries::is_hrd_present(nal, vcl);
    let _same_pic_timing = steps.u_if(present, 1, 0)?;
    let du = steps.u_if(present, 1, 0)?;
    let _tick_divisor = steps.u_if(du == 1, 8, 0)?;
    let _bit_rate_scale = steps.u_if(present, 4, 0)?;
    let _size_scale = steps.u_if(present, 4, 0)?;
    let _du_size_scale = steps.u_if(du == 1, 4, 0)?;
    let cpb_cnt_minus1 = steps.ue_if(present, 0)?;
    steps.check(cpb_cnt_minus1 <= 31, Refusal::ScheduleCount)?;
    Ok(Hrd {
        nal,
        vcl,
        du,
        cpb_cnt_minus1,
    })
}
