// What entries of the VPS go by: whether a number is coded, what it is otherwise, and how many sublayers an entry has; and what
// DPB slots, timing entries and sets share, read or written: indices into a table of entries, and an entry's max tid.
#![tactic(auto)]

ghost use Rattle.std.specs.Prelude.{ℕ, ◌≡◌, ◌&&◌, ltb, eqb};
ghost use Rattle.refusals.specs.Refusals.{number_of};
ghost use Rattle.vps_definition.specs.Syntax.{Syntax};
ghost use Rattle.vps_definition.specs.Words.{loop};
ghost use Rattle.vps_definition.specs.DpbParameters.{sublayers, per_sublayer, index, index_coded, index_inferred};
ghost use Rattle.vps_definition.specs.TimingHrd.{hrd_present};
ghost use Rattle.table_steps.specs.Answers.{GoesAlong};
ghost use Rattle.vps_entries.specs.MaxTid.{max_tid};

use refusals::Refusal;
use table_steps::{Step, Steps};
use vps_fields::Header;

// What the schedules go by: the flags of general_timing_hrd_parameters() and its schedule count.
// As it is (1): the flags stay numbers, as the definition's `Hrd` has them, and as `when`, `is_hrd_present` and a schedule take them.
#[derive(Clone, Copy)]
pub struct Hrd {
    pub nal: u32,
    pub vcl: u32,
    pub du: u32,
    pub cpb_cnt_minus1: u32,
}

// Indices into a table of entries: how many entries there are, how many indices, and how one that is not below is refused.
#[derive(Clone, Copy)]
pub struct Indices {
    pub size: u32,
    pub count: u32,
    pub refusal: Refusal,
}

impl Indices {
    // Whether they are coded.
    pub fn are_coded(self) -> bool
        ensures { result ≡ index_coded self.size self.count }
    {
        1 < self.size && self.size != self.count
    }

    // What the i-th is otherwise: 0 for one entry, else i.
    pub fn inferred(self, i: u32) -> u32
        ensures { result ≡ index_inferred self.size i }
    {
        if self.size == 1 {
            return 0;
        }
        i
    }

    // The i-th of them; refused unless it lies below.
    pub fn one<S: Steps>(self, steps: &mut S, i: u32) -> Result<(), Refusal>
        ensures { S.goes (Unit {0}) (index self.size self.count (number_of self.refusal) i) steps.old result steps.new }
    {
        let v = steps.ue_if(self.are_coded(), self.inferred(i))?;
        steps.check(v < self.size, self.refusal)
    }

    // All of them, up to a refusal.
    pub fn all<S: Steps>(self, steps: &mut S) -> Result<(), Refusal>
        ensures { S.goes (Unit {0}) (loop {A = Unit {0}} (λ i x. index self.size self.count (number_of self.refusal) i) self.count 0 tt) steps.old result steps.new }
    {
        for i in 0..self.count {
            self.one(steps, i)?;
        }
        Ok(())
    }
}

// How many sublayers an entry has: one for each up to the max tid where the flag is 1, else one.
pub fn turns(flag: u32, max_tid: u32) -> u64
    ensures { result ≡ sublayers flag max_tid }
{
    if flag == 0 {
        return 1;
    }
    max_tid as u64 + 1
}

// Whether one of two HRD flags is set.
pub fn is_hrd_present(nal: u32, vcl: u32) -> bool
    ensures { result ≡ hrd_present nal vcl }
{
    nal == 1 || vcl == 1
}

// Whether both the units and the scale are above 0.
pub fn are_units_set(units: u32, scale: u32) -> bool
    ensures { result ≡ (ltb 0 units && ltb 0 scale) }
{
    0 < units && 0 < scale
}

// Whether the low delay flag is coded.
pub fn is_low_delay_coded(within: u32, present: bool, count_minus1: u32) -> bool
    ensures { result ≡ (eqb within 0 && present && eqb count_minus1 0) }
{
    if within != 0 {
        return false;
    }
    present && count_minus1 == 0
}

// An entry's max tid; refused above the sublayers.
pub fn max_tid<S: Steps>(steps: &mut S, header: Header, refusal: Refusal) -> Result<u32, Refusal>
    ensures { S.goes ℕ (max_tid header.default_max_tid_flag header.max_sublayers_minus1 (number_of refusal)) steps.old result steps.new }
{
    let tid = steps.u_if(
        header.default_max_tid_flag == 0,
        3,
        header.max_sublayers_minus1,
    )?;
    steps.check(tid <= header.max_sublayers_minus1, refusal)?;
    Ok(tid)
}

// An entry: its max tid, and then its sublayers: wherever `sublayer` leads, it goes along one.
pub fn per_sublayer<S: Steps, T: Step<S, ()>>(
    steps: &mut S,
    header: Header,
    flag: u32,
    refusal: Refusal,
    sublayer: T,
) -> Result<(), Refusal>
    ensures { (body : Syntax (Unit {0})) → GoesAlong (S.goes (Unit {0})) body (T.leads sublayer) → S.goes (Unit {0}) (per_sublayer header.default_max_tid_flag header.max_sublayers_minus1 (number_of refusal) flag body) steps.old result steps.new }
{
    let tid = max_tid(steps, header, refusal)?;
    table_steps::repeat(steps, turns(flag, tid), sublayer)
}
