// Picture buffers, read or written: dpb_parameters() and what the VPS says about each set's buffer.
#![tactic(auto)]

ghost use Rattle.std.specs.Prelude.{ℕ};
ghost use Rattle.refusals.specs.Number.{dpb_max_tid};
ghost use Rattle.vps_definition.specs.DpbParameters.{dpb_sublayer, per_sublayer, ols_dpb, dpb_section};

use record_parts::Record;
use refusals::Refusal;
use table_steps::{Step, Steps};
use vps_entries::Indices;
use vps_fields::Header;

// One sublayer's triple.
fn dpb_sublayer<S: Steps>(steps: &mut S) -> Result<(), Refusal>
    ensures { S.goes (Unit {0}) dpb_sublayer steps.old result steps.new }
{
    let buffering = steps.ue()?;
    steps.check(buffering <= 15, Refusal::DpbBuffering)?;
    let reorder = steps.ue()?;
    steps.check(reorder <= buffering, Refusal::DpbReorder)?;
    let _latency = steps.ue()?;
    Ok(())
}

// The triple, as a step.
#[derive(Clone, Copy)]
struct DpbSublayer;

impl<S: Steps> Step<S, ()> for DpbSublayer {
    ghost leads = { λ step. S.goes (Unit {0}) dpb_sublayer };

    fn go(&self, steps: &mut S) -> Result<(), Refusal> {
        dpb_sublayer(steps)
    }
}

// A DPB slot: its max tid, and then the triples of its sublayers, up to a refusal.
fn dpb_slot<S: Steps>(steps: &mut S, header: Header, flag: u32) -> Result<(), Refusal>
    ensures { S.goes (Unit {0}) (per_sublayer header.default_max_tid_flag header.max_sublayers_minus1 dpb_max_tid flag dpb_sublayer) steps.old result steps.new }
{
    vps_entries::per_sublayer(steps, header, flag, Refusal::DpbMaxTid, DpbSublayer)
}

// The slot, as a step.
#[derive(Clone, Copy)]
struct DpbSlot {
    header: Header,
    flag: u32,
}

impl<S: Steps> Step<S, ()> for DpbSlot {
    ghost leads = { λ step. S.goes (Unit {0}) (per_sublayer step.header.default_max_tid_flag step.header.max_sublayers_minus1 dpb_max_tid step.flag dpb_sublayer) };

    fn go(&self, steps: &mut S) -> Result<(), Refusal> {
        dpb_slot(steps, self.header, self.flag)
    }
}

// The picture size of a multi-layer set, and its DPB slot.
fn ols_dpb<S: Steps>(steps: &mut S, slots: u32, multi: u32, i: u32) -> Result<(), Refusal>
    ensures { S.goes (Unit {0}) (ols_dpb slots multi i) steps.old result steps.new }
{
    let _width = steps.ue()?;
    let _height = steps.ue()?;
    let _chroma = steps.u(2)?;
    let depth = steps.ue()?;
    steps.check(depth <= 8, Refusal::DpbDepth)?;
    let indices = Indices {
        size: slots,
        count: multi,
        refusal: Refusal::DpbIndex,
    };
    indices.one(steps, i)
}

// The DPB section of so many multi-layer sets; its number is vps_sublayer_dpb_params_present_flag.
pub fn dpb_section<S: Steps>(steps: &mut S, header: Header, multi: u32) -> Result<u32, Refusal>
    ensures { S.goes ℕ (dpb_section header.default_max_tid_flag header.max_sublayers_minus1 multi) steps.old result steps.new }
{
    let slots = steps.ue_minus1()?;
    steps.check(slots <= multi, Refusal::DpbSlots)?;
    let sublayers = 0 < header.max_sublayers_minus1;
    let flag = steps.general_if(sublayers, Record::SUBLAYER_DPB_PARAMS_PRESENT_FLAG, 1, 0)?;
    table_steps::repeat(steps, slots as u64, DpbSlot { header, flag })?;
    let _sets = steps.infer(multi)?;
    for i in 0..multi {
        ols_dpb(steps, slots, multi, i)?;
    }
    Ok(flag)
}
