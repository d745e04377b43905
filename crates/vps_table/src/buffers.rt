// The DPB and the timing section, one behind the other.
#![tactic(auto)]

use refusals::Refusal;
use table_steps::{Step, Steps};
use vps_fields::Header;

// The timing section, as a step.
#[derive(Clone, Copy)]
struct Timing {
    h: Header,
    multi: u32,
}

impl<S: Steps> Step<S, ()> for Timing {
    ghost use Rattle.vps_definition.specs.TimingHrd.{timing_section};

    ghost leads = { λ step. S.goes (Unit {0}) (timing_section step.h.default_max_tid_flag step.h.max_sublayers_minus1 step.multi) };

    fn go(&self, steps: &mut S) -> Result<(), Refusal> {
        vps_timing::timing_section(steps, self.h, self.multi)
    }
}

// The sublayer flag of the DPB section, and where each of the two sections starts.
// As it is (1): the flag stays a number, as it comes from its step and goes into the General section.
#[derive(Clone, Copy)]
pub struct Buffers {
    pub flag: u32,
    pub dpb: usize,
    pub timing: usize,
}

impl Buffers {
    ghost use Rattle.vps_definition.specs.Vps.{multi_layer_sections, single_layer_sections, buffer_sections};
    ghost use Rattle.vps_fields.specs.Header.{header_of};
    ghost use Rattle.vps_table.specs.Buffers.{BuffersMet};

    // Both sections of sets that have several layers.
    fn multi_layer<S: Steps>(steps: &mut S, h: Header, multi: u32) -> Result<Buffers, Refusal>
        ensures { BuffersMet S.marked (multi_layer_sections (header_of h) multi) steps.old result steps.new }
    {
        let dpb = steps.place();
        let flag = vps_dpb::dpb_section(steps, h, multi)?;
        let timing = steps.place();
        let present = steps.u(1)?;
        table_steps::when(steps, present, Timing { h, multi })?;
        Ok(Buffers { flag, dpb, timing })
    }

    // Both of single layers: no slot, no entry, no timing.
    fn single_layer<S: Steps>(steps: &mut S) -> Result<Buffers, Refusal>
        ensures { BuffersMet S.marked single_layer_sections steps.old result steps.new }
    {
        let dpb = steps.place();
        steps.infer(0)?;
        steps.infer(0)?;
        let timing = steps.place();
        steps.infer(0)?;
        Ok(Buffers {
            flag: 0,
            dpb,
            timing,
        })
    }

    // Either, by whether each layer is a set of its own.
    pub fn of<S: Steps>(
        steps: &mut S,
        h: Header,
        each_layer_flag: u32,
        multi: u32,
    ) -> Result<Buffers, Refusal>
        ensures { BuffersMet S.marked (buffer_sections (header_of h) each_layer_flag multi) steps.old result steps.new }
    {
        if each_layer_flag == 0 {
            Buffers::multi_layer(steps, h, multi)
        } else {
            Buffers::single_layer(steps)
        }
    }
}
