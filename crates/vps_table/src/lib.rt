// The table of a VPS, read or written section by section, with where each section starts in the record.
#![tactic(auto)]

mod buffers;
mod whole;

ghost use Rattle.vps_definition.specs.Vps.{ols_section};

use refusals::Refusal;
use table_steps::Steps;
use vps_entries::Indices;
pub use whole::Whole;

// The number of sets, and each one's PTL index.
fn ols_section<S: Steps>(steps: &mut S, ptls: u32, total: u32) -> Result<(), Refusal>
    ensures { S.goes (Unit {0}) (ols_section ptls total) steps.old result steps.new }
{
    steps.infer(total)?;
    let indices = Indices {
        size: ptls,
        count: total,
        refusal: Refusal::PtlIndex,
    };
    indices.all(steps)
}
