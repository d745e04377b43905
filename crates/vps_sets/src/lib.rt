// The VPS's output layer sets, read or written, and counted by the masks of the layers.
#![tactic(auto)]

ghost use Rattle.std.specs.Prelude.{◌≡◌, List, [], ℕ, ◌+◌, ◌<◌, ◌≤◌, ◌&&◌, cond, ltb, eqb, take};
ghost use Rattle.refusals.specs.declared.refusal.Refusal.{Refusal};
ghost use Rattle.vps_definition.specs.Syntax.Syntax.{test};
ghost use Rattle.vps_definition.specs.Words.{general_if, loop};
ghost use Rattle.vps_definition.specs.Vps.{output_flag, row, rows_section, no_rows};
ghost use Rattle.vps_definition.specs.OutputLayerSets as OutputLayerSets;
ghost use Rattle.vps_definition.specs.OutputLayerSets.{digit};
ghost use Rattle.vps_definition.specs.OutputLayerSets.Sets.{each_layer, up_to};
ghost use Rattle.table_steps.specs.Answers.{Gives};
ghost use Rattle.layer_sets.specs.Counted.{Known};
ghost use Rattle.vps_fields.specs.Header.{header_of};
ghost use Rattle.vps_layers.specs.Flags.{FlagsMet, FlagGiven};
ghost use Rattle.vps_sets.specs.Rows.{RowMet, RowsMet};
ghost use Rattle.vps_sets.specs.Sets.{ChosenMet, SetsMet, SectionMet};

use record_parts::Record;
use refusals::Refusal;
use table_steps::{Step, Steps};
use vps_fields::Header;

// Whether a set gives a layer out, as a step.
#[derive(Clone, Copy)]
struct OutputFlag;

impl<S: Steps> Step<S, u32> for OutputFlag {
    ghost leads = { λ step. FlagGiven S.goes output_flag };

    fn go(&self, steps: &mut S) -> Result<u32, Refusal> {
        steps.u(1)
    }
}

// One flag for each layer: whether the set gives it out.
fn output_flags<S: Steps>(steps: &mut S, h: Header) -> Result<u64, Refusal>
    ensures { Gives S.goes (FlagsMet h.layers) (loop output_flag h.layers 0 []) steps.old result steps.new }
{
    vps_layers::flags(steps, h.layers as usize, OutputFlag)
}

// A row: it has one output layer at least.
fn row<S: Steps>(steps: &mut S, h: Header) -> Result<u64, Refusal>
    ensures { (i : ℕ) (rows : List (List ℕ)) → Gives S.goes (RowMet h.layers rows) (row h.layers i rows) steps.old result steps.new }
{
    let mask = output_flags(steps, h)?;
    steps.check(mask != 0, Refusal::NoOutputLayer)?;
    Ok(mask)
}

// One more where a row has several layers.
fn count_row(multi: u32, more: bool) -> u32
    requires { multi < 1000 }
    ensures { result ≡ multi + digit more }
{
    multi + u32::from(more)
}

// How many sets there are, and how many have more than one layer.
#[derive(Clone, Copy)]
pub struct Counts {
    pub total: u32,
    pub multi: u32,
}

// No rows: a 0 stands for their count.
fn no_rows<S: Steps>(steps: &mut S, counts: Counts) -> Result<Counts, Refusal>
    ensures { (n : ℕ) (refs : List (List ℕ)) (sets : OutputLayerSets.Sets) → SetsMet n refs counts sets → Gives S.goes (SetsMet n refs) (no_rows sets) steps.old result steps.new }
{
    steps.infer(0)?;
    Ok(counts)
}

// The layers that the sets are made of: the first fields, and the closed mask of each layer.
#[derive(Clone, Copy)]
struct Layers<'a> {
    h: Header,
    closed: &'a [u64],
}

impl Layers<'_> {
    // The masks, one for each layer where there are as many.
    fn masks(&self) -> &[u64]
        ensures { result.now ≡ take self.now.h.layers self.now.closed.now }
    {
        lists::front(self.closed, self.h.layers as usize)
    }

    // The rows; each row's output layers, with all that these reach, are one or several layers.
    fn rows<S: Steps>(&self, steps: &mut S, count: u32) -> Result<Counts, Refusal>
        requires { count ≤ 256 }
        ensures { Gives S.goes (RowsMet self.now.h.layers self.now.closed.now) (loop (row self.now.h.layers) count 0 []) steps.old result steps.new }
    {
        let closed = self.masks();
        let mut multi = 0;
        for _ in 0..count {
            let outputs = row(steps, self.h)?;
            let layers = layer_sets::cover(closed, outputs);
            multi = count_row(multi, layer_sets::is_multi(layers));
        }
        Ok(Counts {
            total: count + 1,
            multi,
        })
    }

    // The rows behind their count.
    fn chosen<S: Steps>(&self, steps: &mut S) -> Result<Counts, Refusal>
        ensures { Gives S.goes (ChosenMet self.now.h.layers self.now.closed.now) (rows_section self.now.h.layers) steps.old result steps.new }
    {
        let count = steps.u_minus1()?;
        self.rows(steps, count)
    }

    // The sets by the two fields before them.
    fn sets<S: Steps>(&self, steps: &mut S, each: u32, mode: u32) -> Result<Counts, Refusal>
        ensures { (refs : List (List ℕ)) → Known refs self.now.closed.now self.now.h.layers → Gives S.goes (SetsMet self.now.h.layers refs) (test (eqb each 0) (test (eqb mode 2) (rows_section self.now.h.layers) (no_rows up_to)) (no_rows each_layer)) steps.old result steps.new }
    {
        let total = self.h.layers;
        if each != 0 {
            no_rows(steps, Counts { total, multi: 0 })
        } else if mode == 2 {
            self.chosen(steps)
        } else {
            no_rows(
                steps,
                Counts {
                    total,
                    multi: total - 1,
                },
            )
        }
    }
}

// Whether each layer is a set.
fn each_layer_flag<S: Steps>(steps: &mut S, h: Header) -> Result<u32, Refusal>
    ensures { S.goes ℕ (general_if (ltb 1 h.layers && eqb h.all_independent_flag 1) 5 1 (cond (eqb h.layers 1) 1 0)) steps.old result steps.new }
{
    let coded = 1 < h.layers && h.all_independent_flag == 1;
    steps.general_if(
        coded,
        Record::EACH_LAYER_IS_AN_OLS_FLAG,
        1,
        u32::from(h.layers == 1),
    )
}

// How the sets are given otherwise.
fn mode_idc<S: Steps>(steps: &mut S, h: Header, each: u32) -> Result<u32, Refusal>
    ensures { S.goes ℕ (general_if (eqb each 0 && eqb h.all_independent_flag 0) 6 2 2) steps.old result steps.new }
{
    let coded = each == 0 && h.all_independent_flag == 0;
    steps.general_if(coded, Record::OLS_MODE_IDC, 2, 2)
}

// The output layer sets: how many there are in all, and how many with more than one layer; and where they start in the record.
// As it is (1): flag and mode stay numbers, as they come from their steps and go into the General section.
#[derive(Clone, Copy)]
pub struct Sets {
    pub each_layer_flag: u32,
    pub mode_idc: u32,
    pub counts: Counts,
    pub start: usize,
}

impl Sets {
    // The output layer sets, by the closed masks of the layers.
    pub fn of<S: Steps>(steps: &mut S, closed: &[u64], h: Header) -> Result<Sets, Refusal>
        ensures { (refs : List (List ℕ)) → Known refs closed.now h.layers → SectionMet S.marked (header_of h) refs steps.old result steps.new }
    {
        let each_layer_flag = each_layer_flag(steps, h)?;
        let mode_idc = mode_idc(steps, h, each_layer_flag)?;
        steps.check(mode_idc <= 2, Refusal::ModeReserved)?;
        let start = steps.place();
        let counts = Layers { h, closed }.sets(steps, each_layer_flag, mode_idc)?;
        Ok(Sets {
            each_layer_flag,
            mode_idc,
            counts,
            start,
        })
    }
}
