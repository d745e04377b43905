// Link figures of a record, for those who plan links: the bit rate and the buffer size of a schedule, and a sublayer's picture
// interval, as plain numbers. Entries, sublayers and schedules are counted from 0, in the order of the record.
#![tactic(auto)]

ghost use Rattle.std.specs.Prelude.{◌≡◌};
ghost use Rattle.refusals.specs.Refusals.{answer_of};
ghost use Rattle.link_figures.specs.Figures.{rate_in, size_in, interval_in, bit_rate, buffer_size, picture_interval};

use record_timing::{Kind, Schedule, Sublayer};
use refusals::Refusal;

// Microseconds in a second.
const MICROSECONDS: u64 = 1_000_000;

// The bit rate of a schedule, in bit/s.
pub fn rate_of(schedule: &Schedule) -> u64
    ensures { result ≡ rate_in schedule.now }
{
    let scale = schedule.sublayer.entry.timing.bit_rate_scale();
    (schedule.bit_rate_value_minus1() as u64 + 1) << (6 + scale)
}

// Its buffer size, in bits.
// As it is (2): another field and another scale than those of the bit rate; what the two share is one line.
pub fn size_of(schedule: &Schedule) -> u64
    ensures { result ≡ size_in schedule.now }
{
    let scale = schedule.sublayer.entry.timing.cpb_size_scale();
    (schedule.cpb_size_value_minus1() as u64 + 1) << (4 + scale)
}

// How long a picture of a sublayer lasts, in whole microseconds; none where the record doesn't say.
pub fn interval_of(sublayer: &Sublayer) -> Option<u64>
    ensures { result ≡ interval_in sublayer.now }
{
    if sublayer.fixed_pic_rate_within_cvs_flag() != 1 {
        return None;
    }
    let ticks = sublayer.elemental_duration_in_tc_minus1() as u64 + 1;
    let units = ticks * sublayer.entry.timing.units_in_tick() as u64;
    Some(units * MICROSECONDS / sublayer.entry.timing.time_scale() as u64)
}

// The bit rate of a schedule of a record, in bit/s. A list that is not well formed is refused before an item that isn't there.
// As it is (5): an item is named by these four, and each is counted on its own; callers have no struct of them.
pub fn bit_rate(
    record: &[u32],
    entry: u32,
    sublayer: u32,
    kind: Kind,
    schedule: u32,
) -> Result<u64, Refusal>
    ensures { answer_of result ≡ bit_rate «record».now entry sublayer kind schedule }
{
    let schedule = Schedule::of(record, entry, sublayer, kind, schedule)?;
    Ok(rate_of(&schedule))
}

// The buffer size of a schedule of a record, in bits, and refusals likewise.
// As it is (2): the figure of another field; both find the schedule by `Schedule::of`.
// As it is (5): an item is named as for `bit_rate`.
pub fn buffer_size(
    record: &[u32],
    entry: u32,
    sublayer: u32,
    kind: Kind,
    schedule: u32,
) -> Result<u64, Refusal>
    ensures { answer_of result ≡ buffer_size «record».now entry sublayer kind schedule }
{
    let schedule = Schedule::of(record, entry, sublayer, kind, schedule)?;
    Ok(size_of(&schedule))
}

// The picture interval of a sublayer of a record, in whole microseconds; none where the record doesn't say, which is no refusal.
pub fn picture_interval(record: &[u32], entry: u32, sublayer: u32) -> Result<Option<u64>, Refusal>
    ensures { answer_of result ≡ picture_interval «record».now entry sublayer }
{
    let sublayer = Sublayer::of(record, entry, sublayer)?;
    Ok(interval_of(&sublayer))
}
