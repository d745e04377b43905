// The VPS's first fields, read or written.
#![tactic(auto)]

ghost use Rattle.std.specs.Prelude.{◌≤◌, ◌<◌};

use record_parts::Record;
use refusals::Refusal;
use table_steps::Steps;

// The first fields of a VPS.
// As it is (1): the flags stay numbers, as the record keeps them and the definition has them; as bools each clause, and each use of them as a number, would turn them back.
#[derive(Clone, Copy)]
pub struct Header {
    pub id: u32,
    pub layers: u32,
    pub max_sublayers_minus1: u32,
    pub default_max_tid_flag: u32,
    pub all_independent_flag: u32,
    pub ghost some_layers: { 0 < layers },
    pub ghost few_layers: { layers ≤ 64 },
    pub ghost few_sublayers: { max_sublayers_minus1 ≤ 6 },
}

impl Header {
    ghost use Rattle.refusals.specs.declared.refusal.Refusal.{Refusal};
    ghost use Rattle.vps_definition.specs.Vps.{header};
    ghost use Rattle.table_steps.specs.Answers.{Gives};
    ghost use Rattle.vps_fields.specs.Header.{IsHeader};

    // The first fields.
    pub fn of<S: Steps>(steps: &mut S) -> Result<Header, Refusal>
        ensures { Gives S.goes IsHeader header steps.old result steps.new }
    {
        let id = steps.general(Record::VIDEO_PARAMETER_SET_ID, 4)?;
        let layers_minus1 = steps.layers_minus1()?;
        let max_sublayers_minus1 = steps.general(Record::MAX_SUBLAYERS_MINUS1, 3)?;
        steps.check(0 < id, Refusal::IdZero)?;
        steps.check(max_sublayers_minus1 <= 6, Refusal::SublayersReserved)?;
        let several = 0 < layers_minus1 && 0 < max_sublayers_minus1;
        let default_max_tid_flag = steps.general_if(
            several,
            Record::DEFAULT_PTL_DPB_HRD_MAX_TID_FLAG,
            1,
            1,
        )?;
        let all_independent_flag = steps.general_if(
            0 < layers_minus1,
            Record::ALL_INDEPENDENT_LAYERS_FLAG,
            1,
            1,
        )?;
        Ok(Header {
            id,
            layers: layers_minus1 + 1,
            max_sublayers_minus1,
            default_max_tid_flag,
            all_independent_flag,
        })
    }
}
