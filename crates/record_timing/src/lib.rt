// The timing section of a well-formed record: its entries, the sublayers of an entry, and the schedules of a sublayer. Each is
// counted from 0, in the order of the record.
#![tactic(auto)]

ghost use Rattle.std.specs.Prelude.{◌≡◌, true, ltb, get_or, is_ok, is_some, IfOk, IfErr, IfSome};
ghost use Rattle.refusals.specs.Refusals.{number_of};
ghost use Rattle.vps_definition.specs.Layout.{timing_flag, timing_count};
ghost use Rattle.vps_definition.specs.Writing.{well_formed};
ghost use Rattle.vps_definition.specs.Views.{timing_numbers, hrd_of, timing_sublayer_flag, units_in_tick, time_scale, bit_rate_scale, cpb_size_scale, schedule_length, schedules_length, sublayer_length, behind_entry, timing_entry};
ghost use Rattle.record_timing.specs.Timing.{flag_of, schedule_count, schedules_start, has_timing, lacks};

mod entry;
mod schedule;
mod sublayer;

pub use entry::Entry;
use record_parts::Record;
use refusals::Refusal;
pub use schedule::{Kind, Schedule};
pub use sublayer::Sublayer;

// Why a record has no answer for an item that it lacks: a list that is not well formed comes first.
pub fn lacks(record: &[u32]) -> Refusal
    ensures { number_of result ≡ lacks «record».now }
{
    if vps_writer::is_well_formed(record) {
        return Refusal::ItemMissing;
    }
    Refusal::NotWellFormed
}

// The timing section of a lent record, which is well formed and has one.
#[derive(Clone, Copy)]
pub struct RecordTiming<'a> {
    record: &'a [u32],
    ghost formed: { well_formed «record».now ≡ true },
    ghost timed: { timing_flag «record».now ≡ 1 },
}

impl<'a> RecordTiming<'a> {
    ghost use Rattle.record_timing.specs.Items.{IsEntry};

    // The section that begins with the timing flag.
    const TIMING: usize = 6;

    // Places behind the flag, by the names of the standard's fields.
    const NUM_UNITS_IN_TICK: usize = 0;

    const TIME_SCALE: usize = 1;

    const NAL_HRD_PARAMS_PRESENT_FLAG: usize = 2;

    const VCL_HRD_PARAMS_PRESENT_FLAG: usize = 3;

    const DU_HRD_PARAMS_PRESENT_FLAG: usize = 5;

    const BIT_RATE_SCALE: usize = 7;

    const CPB_SIZE_SCALE: usize = 8;

    const CPB_CNT_MINUS1: usize = 10;

    const SUBLAYER_CPB_PARAMS_PRESENT_FLAG: usize = 11;

    // How many entries there are, and where the first of them begins.
    const ENTRY_COUNT: usize = 12;

    const ENTRIES: usize = 13;

    // The timing section of a record. One that is not well formed is refused before one that has none.
    pub fn of(record: &'a [u32]) -> Result<RecordTiming<'a>, Refusal>
        ensures there { is_ok result ≡ has_timing «record».now }
        ensures lent { IfOk result (λ timing. timing.«record».now ≡ «record».now) }
        ensures refused { IfErr result (λ refusal. number_of refusal ≡ lacks «record».now) }
    {
        if !vps_writer::is_well_formed(record) {
            return Err(Refusal::NotWellFormed);
        }
        let start = record_parts::start_of(record, RecordTiming::TIMING);
        if record_parts::number_at(record, start) != 1 {
            return Err(Refusal::ItemMissing);
        }
        Ok(RecordTiming { record })
    }

    // The section behind its flag.
    fn numbers(&self) -> &'a [u32]
        ensures { result.now ≡ timing_numbers self.now.«record».now }
    {
        let start = record_parts::start_of(self.record, RecordTiming::TIMING);
        lists::behind(lists::behind(self.record, start), 1)
    }

    // One of these numbers.
    // As it is (6): the place is what is asked, as of `record_parts::number_at`.
    fn number(&self, i: usize) -> u32
        ensures { result ≡ get_or (timing_numbers self.now.«record».now) i 0 }
    {
        record_parts::number_at(self.numbers(), i)
    }

    // How many units of the clock a tick has.
    pub fn units_in_tick(&self) -> u32
        ensures { result ≡ units_in_tick self.now.«record».now }
    {
        self.number(RecordTiming::NUM_UNITS_IN_TICK)
    }

    // How many units of the clock a second has.
    pub fn time_scale(&self) -> u32
        ensures { result ≡ time_scale self.now.«record».now }
    {
        self.number(RecordTiming::TIME_SCALE)
    }

    // The scale of all bit rates.
    pub fn bit_rate_scale(&self) -> u32
        ensures { result ≡ bit_rate_scale self.now.«record».now }
    {
        self.number(RecordTiming::BIT_RATE_SCALE)
    }

    // The scale of all buffer sizes.
    pub fn cpb_size_scale(&self) -> u32
        ensures { result ≡ cpb_size_scale self.now.«record».now }
    {
        self.number(RecordTiming::CPB_SIZE_SCALE)
    }

    // Whether sublayers have schedules of a kind, as the section's flag.
    // As it is (1): it is the record's own number, which the definition's `Hrd` has, too.
    fn flag(&self, kind: Kind) -> u32
        ensures { result ≡ flag_of (hrd_of self.now.«record».now) kind }
    {
        match kind {
            Kind::Nal => self.number(RecordTiming::NAL_HRD_PARAMS_PRESENT_FLAG),
            Kind::Vcl => self.number(RecordTiming::VCL_HRD_PARAMS_PRESENT_FLAG),
        }
    }

    // How many schedules of a kind each sublayer has.
    pub fn schedules(&self, kind: Kind) -> u32
        ensures { result ≡ schedule_count self.now.«record».now kind }
    {
        if self.flag(kind) == 0 {
            return 0;
        }
        self.number(RecordTiming::CPB_CNT_MINUS1) + 1
    }

    // How many numbers a schedule has.
    fn schedule_length(&self) -> usize
        ensures { result ≡ schedule_length (hrd_of self.now.«record».now) }
    {
        if self.number(RecordTiming::DU_HRD_PARAMS_PRESENT_FLAG) == 0 {
            return 3;
        }
        5
    }

    // How many numbers the schedules of a kind have.
    fn schedules_length(&self, kind: Kind) -> usize
        ensures { result ≡ schedules_length (hrd_of self.now.«record».now) (flag_of (hrd_of self.now.«record».now) kind) }
    {
        self.schedules(kind) as usize * self.schedule_length()
    }

    // Where those of a kind begin in a sublayer.
    fn schedules_start(&self, kind: Kind) -> usize
        ensures { result ≡ schedules_start (hrd_of self.now.«record».now) kind }
    {
        match kind {
            Kind::Nal => 4,
            Kind::Vcl => 4 + self.schedules_length(Kind::Nal),
        }
    }

    // How many numbers a sublayer has.
    fn sublayer_length(&self) -> usize
        ensures { result ≡ sublayer_length (hrd_of self.now.«record».now) }
    {
        4 + self.schedules_length(Kind::Nal) + self.schedules_length(Kind::Vcl)
    }

    // How many entries there are.
    pub fn entries(&self) -> u32
        ensures { result ≡ timing_count self.now.«record».now }
    {
        self.number(RecordTiming::ENTRY_COUNT)
    }

    // What stands behind the entry that begins some numbers.
    fn behind_entry(&self, numbers: &'a [u32]) -> &'a [u32]
        ensures { result.now ≡ behind_entry (hrd_of self.now.«record».now) (timing_sublayer_flag self.now.«record».now) numbers.now }
    {
        let flag = self.number(RecordTiming::SUBLAYER_CPB_PARAMS_PRESENT_FLAG);
        let sublayers = vps_entries::turns(flag, record_parts::number_at(numbers, 0));
        lists::behind(numbers, 1 + sublayers as usize * self.sublayer_length())
    }

    // The numbers from entry e on; behind the last entry, from the indices on.
    fn entry_numbers(&self, e: u32) -> &'a [u32]
        ensures { result.now ≡ timing_entry self.now.«record».now e }
    {
        let mut numbers = lists::behind(self.numbers(), RecordTiming::ENTRIES);
        for _ in 0..e {
            numbers = self.behind_entry(numbers);
        }
        numbers
    }

    // Entry e; none from their count on.
    pub fn entry(self, e: u32) -> Option<Entry<'a>>
        ensures there { is_some result ≡ ltb e (timing_count self.entry.«record».now) }
        ensures is { IfSome result (IsEntry self.entry.«record».now e) }
    {
        if e >= self.entries() {
            return None;
        }
        Some(Entry {
            timing: self,
            index: e,
            numbers: self.entry_numbers(e),
        })
    }
}
