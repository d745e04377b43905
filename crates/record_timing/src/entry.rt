// An entry of the timing section.
ghost use Rattle.std.specs.Prelude.{◌≡◌, ◌+◌, ◌<◌, ltb, is_some, IfSome};
ghost use Rattle.vps_definition.specs.Layout.{timing_count};
ghost use Rattle.vps_definition.specs.Views.{timing_entry, sublayer_count};

use crate::{RecordTiming, Sublayer};

// The section, the entry's index, and the record's numbers from the entry on.
#[derive(Clone, Copy)]
pub struct Entry<'a> {
    pub timing: RecordTiming<'a>,
    pub index: u32,
    pub numbers: &'a [u32],
    ghost is: { numbers.now ≡ timing_entry timing.«record».now index },
    ghost there: { index < timing_count timing.«record».now },
}

impl<'a> Entry<'a> {
    ghost use Rattle.record_timing.specs.Items.{IsEntry, IsSublayer};

    // The entry behind it; none behind the last one.
    pub fn next(self) -> Option<Entry<'a>>
        ensures there { is_some result ≡ ltb (self.entry.index + 1) (timing_count self.entry.timing.«record».now) }
        ensures is { IfSome result (IsEntry self.entry.timing.«record».now (self.entry.index + 1)) }
    {
        let entries = self.timing.entries();
        let index = self.index + 1;
        if index >= entries {
            return None;
        }
        Some(Entry {
            timing: self.timing,
            index,
            numbers: self.timing.behind_entry(self.numbers),
        })
    }

    // How many sublayers it has.
    pub fn sublayers(&self) -> u64
        ensures { result ≡ sublayer_count self.now.timing.«record».now self.now.index }
    {
        let flag = self
            .timing
            .number(RecordTiming::SUBLAYER_CPB_PARAMS_PRESENT_FLAG);
        vps_entries::turns(flag, record_parts::number_at(self.numbers, 0))
    }

    // Its sublayer j; none from their count on.
    pub fn sublayer(self, j: u32) -> Option<Sublayer<'a>>
        ensures there { is_some result ≡ ltb j (sublayer_count self.entry.timing.«record».now self.entry.index) }
        ensures is { IfSome result (IsSublayer self.entry.timing.«record».now self.entry.index j) }
    {
        if j as u64 >= self.sublayers() {
            return None;
        }
        let place = 1 + j as usize * self.timing.sublayer_length();
        Some(Sublayer {
            entry: self,
            index: j,
            numbers: lists::behind(self.numbers, place),
        })
    }
}
