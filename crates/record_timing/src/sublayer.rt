// A sublayer of an entry of the timing section, and its schedules.
ghost use Rattle.std.specs.Prelude.{◌≡◌, ◌+◌, ◌<◌, ltb, get_or, is_ok, is_some, IfOk, IfErr, IfSome};
ghost use Rattle.refusals.specs.Refusals.{number_of};
ghost use Rattle.vps_definition.specs.Views.{sublayer_count, sublayer_at};
ghost use Rattle.record_timing.specs.Timing.{schedule_count, has_sublayer, lacks};

use crate::{Entry, Kind, RecordTiming, Schedule};
use refusals::Refusal;

// The entry, the sublayer's index, and the record's numbers from the sublayer on.
#[derive(Clone, Copy)]
pub struct Sublayer<'a> {
    pub entry: Entry<'a>,
    pub index: u32,
    pub numbers: &'a [u32],
    ghost is: { numbers.now ≡ sublayer_at entry.timing.«record».now entry.index index },
    ghost there: { index < sublayer_count entry.timing.«record».now entry.index },
}

impl<'a> Sublayer<'a> {
    ghost use Rattle.record_timing.specs.Items.{IsSublayer, IsSchedule};

    // Sublayer j of entry e of a record. A record that is not well formed is refused before one that has no such sublayer.
    pub fn of(record: &'a [u32], e: u32, j: u32) -> Result<Sublayer<'a>, Refusal>
        ensures there { is_ok result ≡ has_sublayer «record».now e j }
        ensures is { IfOk result (IsSublayer «record».now e j) }
        ensures refused { IfErr result (λ refusal. number_of refusal ≡ lacks «record».now) }
    {
        let entry = RecordTiming::of(record)?
            .entry(e)
            .ok_or(Refusal::ItemMissing)?;
        entry.sublayer(j).ok_or(Refusal::ItemMissing)
    }

    // The sublayer behind it; none behind the entry's last one.
    // As it is (2): a schedule is found by its list too, and another type is given.
    pub fn next(self) -> Option<Sublayer<'a>>
        ensures there { is_some result ≡ ltb (self.entry.index + 1) (sublayer_count self.entry.entry.timing.«record».now self.entry.entry.index) }
        ensures is { IfSome result (IsSublayer self.entry.entry.timing.«record».now self.entry.entry.index (self.entry.index + 1)) }
    {
        self.entry.sublayer(self.index + 1)
    }

    // Number i of it.
    // As it is (2): numbers of a sublayer, where `RecordTiming` has those behind the timing flag.
    // As it is (6): the place is what is asked, as of `record_parts::number_at`.
    fn number(&self, i: usize) -> u32
        ensures { result ≡ get_or (sublayer_at self.now.entry.timing.«record».now self.now.entry.index self.now.index) i 0 }
    {
        record_parts::number_at(self.numbers, i)
    }

    // Whether its pictures come at a fixed rate within a sequence.
    // As it is (1): it is the record's own number, as the definition and the layout have it.
    pub fn fixed_pic_rate_within_cvs_flag(&self) -> u32
        ensures { result ≡ get_or (sublayer_at self.now.entry.timing.«record».now self.now.entry.index self.now.index) 1 0 }
    {
        self.number(1)
    }

    // How many ticks of the clock a picture lasts, less one.
    pub fn elemental_duration_in_tc_minus1(&self) -> u32
        ensures { result ≡ get_or (sublayer_at self.now.entry.timing.«record».now self.now.entry.index self.now.index) 2 0 }
    {
        self.number(2)
    }

    // Its schedule c of a kind; none from their count on.
    pub fn schedule(self, kind: Kind, c: u32) -> Option<Schedule<'a>>
        ensures there { is_some result ≡ ltb c (schedule_count self.entry.entry.timing.«record».now kind) }
        ensures is { IfSome result (IsSchedule self.entry.entry.timing.«record».now self.entry.entry.index self.entry.index kind c) }
    {
        let timing = self.entry.timing;
        if c >= timing.schedules(kind) {
            return None;
        }
        let place = timing.schedules_start(kind) + c as usize * timing.schedule_length();
        Some(Schedule {
            sublayer: self,
            kind,
            index: c,
            numbers: lists::behind(self.numbers, place),
        })
    }
}
