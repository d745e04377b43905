// The lines of the table, each put into a text.
ghost use Rattle.std.specs.Prelude.{◌≡◌};
ghost use Rattle.texts.specs.Adds.{Adds};
ghost use Rattle.link_figures.specs.Figures.{rate_in, size_in, interval_in};
ghost use Rattle.vps_rates.specs.Lines.{place_columns, interval_column, kind_column, figure_columns, sublayer_line, schedule_line};

use link_figures::{interval_of, rate_of, size_of};
use record_timing::{Kind, Schedule, Sublayer};
use text_numbers::put_right_aligned;
use texts::Text;

// What each line begins with: the entry and the sublayer.
fn put_place(text: &mut Text, entry: u32, sublayer: u32)
    ensures { Adds (place_columns entry sublayer) text.old text.new }
{
    put_right_aligned(text, entry as u64, 5);
    put_right_aligned(text, sublayer as u64, 9);
}

// An interval; a hyphen where it is missing.
fn put_interval(text: &mut Text, interval: Option<u64>)
    ensures { Adds (interval_column interval) text.old text.new }
{
    match interval {
        Some(microseconds) => put_right_aligned(text, microseconds, 21),
        None => text.put(b"                    -"),
    }
}

// A kind, under the heading behind that of the interval.
fn put_kind(text: &mut Text, kind: Kind)
    ensures { Adds (kind_column kind) text.old text.new }
{
    match kind {
        Kind::Nal => text.put(b"                       NAL"),
        Kind::Vcl => text.put(b"                       VCL"),
    }
}

// A schedule's index, bit rate and buffer size.
fn put_figures(text: &mut Text, schedule: &Schedule)
    ensures { Adds (figure_columns schedule.now.index (rate_in schedule.now) (size_in schedule.now)) text.old text.new }
{
    put_right_aligned(text, schedule.index as u64, 9);
    put_right_aligned(text, rate_of(schedule), 17);
    put_right_aligned(text, size_of(schedule), 17);
}

// The line of a sublayer.
pub fn put_sublayer(text: &mut Text, sublayer: &Sublayer)
    ensures { Adds (sublayer_line sublayer.now.entry.index sublayer.now.index (interval_in sublayer.now)) text.old text.new }
{
    put_place(text, sublayer.entry.index, sublayer.index);
    put_interval(text, interval_of(sublayer));
    text.put(b"\n");
}

// The line of a schedule.
pub fn put_schedule(text: &mut Text, schedule: &Schedule)
    ensures { Adds (schedule_line schedule.now.sublayer.entry.index schedule.now.sublayer.index schedule.now.kind schedule.now.index (rate_in schedule.now) (size_in schedule.now)) text.old text.new }
{
    put_place(text, schedule.sublayer.entry.index, schedule.sublayer.index);
    put_kind(text, schedule.kind);
    put_figures(text, schedule);
    text.put(b"\n");
}
