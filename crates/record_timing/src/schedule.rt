// A schedule of a sublayer.
ghost use Rattle.std.specs.Prelude.{◌≡◌, ◌+◌, ◌<◌, ltb, get_or, is_ok, is_some, IfOk, IfErr, IfSome};
ghost use Rattle.refusals.specs.Refusals.{number_of};
ghost use Rattle.record_timing.specs.Timing.{schedule_count, schedule_at, has_schedule, lacks};

use crate::Sublayer;
use refusals::Refusal;

// Which list of a sublayer's schedules: those of NAL or of VCL.
#[derive(Clone, Copy, Debug, PartialEq, Eq)]
pub enum Kind {
    Nal,
    Vcl,
}

// The sublayer, the list, the schedule's index in it, and the record's numbers from the schedule on.
#[derive(Clone, Copy)]
pub struct Schedule<'a> {
    pub sublayer: Sublayer<'a>,
    pub kind: Kind,
    pub index: u32,
    pub numbers: &'a [u32],
    ghost is: { numbers.now ≡ schedule_at sublayer.entry.timing.«record».now sublayer.entry.index sublayer.index kind index },
    ghost there: { index < schedule_count sublayer.entry.timing.«record».now kind },
}

impl<'a> Schedule<'a> {
    ghost use Rattle.record_timing.specs.Items.{IsSchedule};

    // Schedule c of a kind of sublayer j of entry e of a record. A record that is not well formed is refused before one that has no
    // such schedule.
    // As it is (5): a schedule is named by these four, and each is counted on its own; callers have no struct of them.
    pub fn of(
        record: &'a [u32],
        e: u32,
        j: u32,
        kind: Kind,
        c: u32,
    ) -> Result<Schedule<'a>, Refusal>
        ensures there { is_ok result ≡ has_schedule «record».now e j kind c }
        ensures is { IfOk result (IsSchedule «record».now e j kind c) }
        ensures refused { IfErr result (λ refusal. number_of refusal ≡ lacks «record».now) }
    {
        let sublayer = Sublayer::of(record, e, j)?;
        sublayer.schedule(kind, c).ok_or(Refusal::ItemMissing)
    }

    // The schedule behind it in its list; none behind the last one.
    pub fn next(self) -> Option<Schedule<'a>>
        ensures there { is_some result ≡ ltb (self.entry.index + 1) (schedule_count self.entry.sublayer.entry.timing.«record».now self.entry.kind) }
        ensures is { IfSome result (IsSchedule self.entry.sublayer.entry.timing.«record».now self.entry.sublayer.entry.index self.entry.sublayer.index self.entry.kind (self.entry.index + 1)) }
    {
        self.sublayer.schedule(self.kind, self.index + 1)
    }

    // Its bit_rate_value_minus1.
    pub fn bit_rate_value_minus1(&self) -> u32
        ensures { result ≡ get_or (schedule_at self.now.sublayer.entry.timing.«record».now self.now.sublayer.entry.index self.now.sublayer.index self.now.kind self.now.index) 0 0 }
    {
        record_parts::number_at(self.numbers, 0)
    }

    // Its cpb_size_value_minus1.
    pub fn cpb_size_value_minus1(&self) -> u32
        ensures { result ≡ get_or (schedule_at self.now.sublayer.entry.timing.«record».now self.now.sublayer.entry.index self.now.sublayer.index self.now.kind self.now.index) 1 0 }
    {
        record_parts::number_at(self.numbers, 1)
    }
}
