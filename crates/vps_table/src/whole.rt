// The whole table, its sections in a row.
#![tactic(auto)]

use crate::buffers::Buffers;
use record_parts::Record;
use refusals::Refusal;
use table_steps::Parts;
use vps_fields::Header;
use vps_sets::Sets;

// The numbers of the General section, and where the other sections start in the record.
#[derive(Clone, Copy)]
pub struct Whole {
    pub general: [u32; Record::GENERAL],
    pub starts: [usize; Record::STARTS],
}

impl Whole {
    ghost use Rattle.std.specs.Prelude.{◌≡◌, get_or};
    ghost use Rattle.vps_table.specs.Whole.{WholeMet};

    // vps_extension_flag.
    pub fn extension_flag(&self) -> u32
        ensures { result ≡ get_or self.now.general 8 0 }
    {
        self.general[Record::EXTENSION_FLAG]
    }

    // The whole table.
    pub fn of<S: Parts>(steps: &mut S) -> Result<Whole, Refusal>
        ensures { WholeMet S.Steps.marked steps.old result steps.new }
    {
        let h = Header::of(steps)?;
        let layers = steps.place();
        let closed = vps_layers::layers(steps, h)?;
        let sets = Sets::of(steps, &closed, h)?;
        let ptls = steps.place();
        let count = vps_ptl::ptl_section(steps, &h, sets.counts.total)?;
        let olss = steps.place();
        crate::ols_section(steps, count, sets.counts.total)?;
        let buffers = Buffers::of(steps, h, sets.each_layer_flag, sets.counts.multi)?;
        let extension_flag = steps.general(Record::EXTENSION_FLAG, 1)?;
        let extension = steps.place();
        Ok(Whole {
            general: [
                h.layers,
                h.id,
                h.max_sublayers_minus1,
                h.default_max_tid_flag,
                h.all_independent_flag,
                sets.each_layer_flag,
                sets.mode_idc,
                buffers.flag,
                extension_flag,
            ],
            starts: [
                layers,
                sets.start,
                ptls,
                olss,
                buffers.dpb,
                buffers.timing,
                extension,
            ],
        })
    }
}
