// The VPS's layers, read or written; the layers that each layer reaches are kept as masks.
#![tactic(auto)]

ghost use Rattle.std.specs.Prelude.{◌≡◌, List, [], ◌∷◌, ◌++◌, ℕ, ◌<◌, ◌≤◌, eqb, IfOk};
ghost use Rattle.refusals.specs.declared.refusal.Refusal.{Refusal};
ghost use Rattle.vps_definition.specs.Syntax.{Syntax};
ghost use Rattle.vps_definition.specs.Syntax.Syntax.{test};
ghost use Rattle.vps_definition.specs.Words.{loop};
ghost use Rattle.vps_definition.specs.Vps.{direct_reference, dependent_layer, independent_layer, layer, layers_section};
ghost use Rattle.table_steps.specs.Answers.{Gives};
ghost use Rattle.layer_sets.specs.References.{layers_of};
ghost use Rattle.vps_fields.specs.Header.{header_of};
ghost use Rattle.vps_layers.specs.Flags.{Appended, FlagsMet, FlagGiven, IsFlag};
ghost use Rattle.vps_layers.specs.Layers.{LayerMet, LayersMet};

use refusals::Refusal;
use table_steps::{Step, Steps};
use vps_fields::Header;

// Whether a layer refers to another directly, and the sublayers that it then may use.
fn direct_reference<S: Steps>(steps: &mut S, h: Header, present: u32) -> Result<u32, Refusal>
    ensures goes { (j : ℕ) (flags : List ℕ) → Gives S.goes (Appended flags) (direct_reference present h.max_sublayers_minus1 j flags) steps.old result steps.new }
    ensures within { IfOk result (λ v. v < 2) }
{
    let flag = steps.u(1)?;
    steps.u_if(present == 1 && flag == 1, 3, h.max_sublayers_minus1 + 1)?;
    Ok(flag)
}

// Such a flag, as a step.
#[derive(Clone, Copy)]
struct DirectReference {
    h: Header,
    present: u32,
}

impl<S: Steps> Step<S, u32> for DirectReference {
    ghost leads = { λ step. FlagGiven S.goes (direct_reference step.present step.h.max_sublayers_minus1) };

    fn go(&self, steps: &mut S) -> Result<u32, Refusal> {
        direct_reference(steps, self.h, self.present)
    }
}

// The mask of n flags of layers, each by one more step: a table's loop that appends such a flag in each turn is gone along.
// A mask has place for 64.
pub fn flags<S: Steps, T: Step<S, u32>>(steps: &mut S, n: usize, flag: T) -> Result<u64, Refusal>
    ensures { n ≤ 64 → (f : ℕ → List ℕ → Syntax (List ℕ)) → IsFlag S.goes f (T.leads flag) → Gives S.goes (FlagsMet n) (loop f n 0 []) steps.old result steps.new }
{
    let mut mask = 0;
    for j in 0..n {
        mask = layer_sets::with_flag(mask, flag.go(steps)?, j);
    }
    Ok(mask)
}

// Which layer is coded: the first fields, and the layer's number.
#[derive(Clone, Copy)]
struct Place {
    h: Header,
    i: usize,
    ghost few_layers: { i ≤ 64 },
}

impl Place {
    // The layers below that the layer refers to directly.
    fn direct_references<S: Steps>(self, steps: &mut S, present: u32) -> Result<u64, Refusal>
        ensures { Gives S.goes (FlagsMet self.i) (loop (direct_reference present self.h.max_sublayers_minus1) self.i 0 []) steps.old result steps.new }
    {
        flags(steps, self.i, DirectReference { h: self.h, present })
    }

    // A layer that depends on others: it refers to one of them at least.
    fn dependent_layer<S: Steps>(self, steps: &mut S) -> Result<u64, Refusal>
        ensures { Gives S.goes (FlagsMet self.i) (dependent_layer self.h.max_sublayers_minus1 self.i) steps.old result steps.new }
    {
        let present = steps.u(1)?;
        let mask = self.direct_references(steps, present)?;
        steps.check(mask != 0, Refusal::NoDirectReference)?;
        Ok(mask)
    }

    // The layers that the layer refers to directly: none where it is independent.
    fn references<S: Steps>(self, steps: &mut S, independent: u32) -> Result<u64, Refusal>
        ensures { Gives S.goes (FlagsMet self.i) (test (eqb independent 0) (dependent_layer self.h.max_sublayers_minus1 self.i) independent_layer) steps.old result steps.new }
    {
        if independent == 0 {
            return self.dependent_layer(steps);
        }
        steps.infer(0)?;
        Ok(0)
    }
}

// A layer: the least id of the next, and the layers that it refers to directly.
#[derive(Clone, Copy)]
struct Layer {
    least: u32,
    direct: u64,
}

impl Layer {
    // The layer at a place, whose id is `least` at the least.
    fn of<S: Steps>(steps: &mut S, place: Place, least: u32) -> Result<Layer, Refusal>
        ensures { (refs : List (List ℕ)) → Gives S.goes (LayerMet place.i refs) (layer (header_of place.h) place.i (layers_of least refs)) steps.old result steps.new }
    {
        let id = steps.u(6)?;
        steps.check(least <= id, Refusal::LayerIdsNotRising)?;
        let may_depend = 0 < place.i && place.h.all_independent_flag == 0;
        let independent = steps.u_if(may_depend, 1, 1)?;
        let direct = place.references(steps, independent)?;
        Ok(Layer {
            least: id + 1,
            direct,
        })
    }
}

// All layers: the closed mask of each.
pub fn layers<S: Steps>(steps: &mut S, h: Header) -> Result<[u64; 64], Refusal>
    ensures { Gives S.goes (LayersMet h.layers) (layers_section (header_of h)) steps.old result steps.new }
{
    let mut closed = [0; 64];
    let mut least = 0;
    for i in 0..h.layers as usize {
        let layer = Layer::of(steps, Place { h, i }, least)?;
        layer_sets::close(&mut closed, layer.direct, i);
        least = layer.least;
    }
    Ok(closed)
}
