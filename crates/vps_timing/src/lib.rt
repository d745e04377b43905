// The timing section of the VPS, read or written: its entries, and which entry each set has.
#![tactic(auto)]

ghost use Rattle.refusals.specs.Number.{timing_max_tid};
ghost use Rattle.vps_definition.specs.DpbParameters.{per_sublayer};
ghost use Rattle.vps_definition.specs.TimingHrd.{timing_sublayer, timing_section};
ghost use Rattle.vps_entries.specs.Hrd.{hrd_of};

use refusals::Refusal;
use table_steps::{Step, Steps};
use vps_entries::{Hrd, Indices};
use vps_fields::Header;

// A timing entry's sublayer, as a step.
#[derive(Clone, Copy)]
struct TimingSublayer {
    hrd: Hrd,
}

impl<S: Steps> Step<S, ()> for TimingSublayer {
    ghost leads = { λ step. S.goes (Unit {0}) (timing_sublayer (hrd_of step.hrd)) };

    fn go(&self, steps: &mut S) -> Result<(), Refusal> {
        vps_ols_timing::timing_sublayer(steps, self.hrd)
    }
}

// A timing entry: its max tid, and then its sublayers.
fn timing_entry<S: Steps>(steps: &mut S, header: Header, flag: u32, hrd: Hrd) -> Result<(), Refusal>
    ensures { S.goes (Unit {0}) (per_sublayer header.default_max_tid_flag header.max_sublayers_minus1 timing_max_tid flag (timing_sublayer (hrd_of hrd))) steps.old result steps.new }
{
    vps_entries::per_sublayer(
        steps,
        header,
        flag,
        Refusal::TimingMaxTid,
        TimingSublayer { hrd },
    )
}

// A timing entry, as a step.
#[derive(Clone, Copy)]
struct TimingEntry {
    header: Header,
    flag: u32,
    hrd: Hrd,
}

impl<S: Steps> Step<S, ()> for TimingEntry {
    ghost leads = { λ step. S.goes (Unit {0}) (per_sublayer step.header.default_max_tid_flag step.header.max_sublayers_minus1 timing_max_tid step.flag (timing_sublayer (hrd_of step.hrd))) };

    fn go(&self, steps: &mut S) -> Result<(), Refusal> {
        timing_entry(steps, self.header, self.flag, self.hrd)
    }
}

// The timing section behind its flag, for so many multi-layer sets.
pub fn timing_section<S: Steps>(steps: &mut S, header: Header, multi: u32) -> Result<(), Refusal>
    ensures { S.goes (Unit {0}) (timing_section header.default_max_tid_flag header.max_sublayers_minus1 multi) steps.old result steps.new }
{
    let hrd = vps_hrd::general_timing_hrd(steps)?;
    let flag = steps.u_if(0 < header.max_sublayers_minus1, 1, 0)?;
    let entries = steps.ue_minus1()?;
    steps.check(entries <= multi, Refusal::TimingEntries)?;
    let entry = TimingEntry { header, flag, hrd };
    table_steps::repeat(steps, entries as u64, entry)?;
    let indices = Indices {
        size: entries,
        count: multi,
        refusal: Refusal::TimingIndex,
    };
    indices.all(steps)
}
