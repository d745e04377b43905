// The output layer sets of a well-formed record, each with its layers as a mask.
#![tactic(auto)]

ghost use Rattle.std.specs.Prelude.{◌≡◌, get_or, is_some, IfSome};
ghost use Rattle.vps_definition.specs.OutputLayerSets.{total_num_olss, included, flagged, refers_by, mask_of, set_mask};
ghost use Rattle.vps_definition.specs.Writing.{well_formed};
ghost use Rattle.vps_definition.specs.Views.{refs_of, sets_of};
ghost use Rattle.record_sets.specs.Rows.{row_of};
ghost use Rattle.record_sets.specs.Sets.{Masked};

use record_parts::Record;

// The output layer sets of a lent record, which is well formed: the record, and the masks of the layers that each layer reaches.
#[derive(Clone, Copy)]
pub struct RecordSets<'a> {
    record: &'a [u32],
    closed: [u64; Record::MOST_LAYERS],
    ghost masked: { Masked «record».now closed },
}

impl<'a> RecordSets<'a> {
    // The section that has the rows of output layer flags.
    const ROWS: usize = 2;

    // The section that begins with how many sets there are.
    const OLS: usize = 4;

    // The sets of a record; none where it isn't well formed.
    pub fn of(record: &'a [u32]) -> Option<RecordSets<'a>>
        ensures formed { is_some result ≡ well_formed «record».now }
        ensures lent { IfSome result (λ sets. sets.«record».now ≡ «record».now) }
    {
        if !vps_writer::is_well_formed(record) {
            return None;
        }
        let n = record_parts::number_at(record, Record::LAYERS);
        let mut closed = [0; Record::MOST_LAYERS];
        record_layers::layer_masks(record, &mut closed, n as usize);
        Some(RecordSets { record, closed })
    }

    // How many layers the record has.
    pub fn layers(&self) -> u32
        ensures { result ≡ get_or self.now.«record».now 0 0 }
    {
        record_parts::number_at(self.record, Record::LAYERS)
    }

    // How many sets it has.
    pub fn count(&self) -> u32
        ensures { result ≡ total_num_olss (get_or self.now.«record».now 0 0) (sets_of self.now.«record».now) }
    {
        let start = record_parts::start_of(self.record, RecordSets::OLS);
        record_parts::number_at(self.record, start)
    }

    // The flags of row k, where the sets are given by rows; none past the last row.
    fn row(&self, k: u32) -> &[u32]
        ensures { result.now ≡ row_of self.now.«record».now k }
    {
        let n = self.layers() as usize;
        let section = lists::behind(
            self.record,
            record_parts::start_of(self.record, RecordSets::ROWS),
        );
        let count = record_parts::number_at(section, 0) as usize;
        let rows = lists::front(lists::behind(section, 1), count * n);
        lists::front(lists::behind(rows, k as usize * n), n)
    }

    // The output layers of row k, and all that they reach.
    fn row_mask(&self, k: u32) -> u64
        ensures { result ≡ mask_of 64 (included (get_or self.now.«record».now 0 0) (refers_by (refs_of self.now.«record».now)) (flagged (row_of self.now.«record».now k))) }
    {
        let closed = lists::front(&self.closed, self.layers() as usize);
        layer_sets::cover(closed, layer_sets::of_flags(self.row(k)))
    }

    // The layers of set i. Past the last set it is what the mode says of i, with no output layer past the last row.
    pub fn mask(&self, i: u32) -> u64
        ensures { result ≡ set_mask (get_or self.now.«record».now 0 0) (refs_of self.now.«record».now) (sets_of self.now.«record».now) i }
    {
        if record_parts::number_at(self.record, Record::EACH_LAYER_IS_AN_OLS_FLAG) != 0 {
            return layer_sets::only(i as usize);
        }
        if record_parts::number_at(self.record, Record::OLS_MODE_IDC) != 2 {
            return layer_sets::up_to(i as usize);
        }
        if i == 0 {
            return layer_sets::only(0);
        }
        self.row_mask(i - 1)
    }
}
