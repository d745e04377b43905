// The table of a record's link figures, written line by line.
ghost use Rattle.std.specs.Prelude.{OnOk};
ghost use Rattle.std.specs.Io.KnownBytes.{Appends};
ghost use Rattle.link_figures.specs.Figures.{rate_in, size_in, interval_in};
ghost use Rattle.vps_rates.specs.Lines.{sublayer_line, schedule_line};
ghost use Rattle.vps_rates.specs.Printed.{schedules_text, sublayer_text, entry_text, table_text};

use crate::lines::{put_schedule, put_sublayer};
use record_timing::{Entry, Kind, RecordTiming, Schedule, Sublayer};
use std::io::{Result, Write};
use texts::Text;

// Room for every line.
const LINE_BYTES: usize = 192;

// The line that says what stands below.
const HEADING: &'static [u8] =
    b"entry sublayer         microseconds kind schedule            bit/s             bits\n";

fn write_sublayer_line<W: Write>(out: &mut W, sublayer: &Sublayer) -> Result<()>
    ensures { OnOk result (Appends (W.contents out.old) (W.contents out.new) (sublayer_line sublayer.now.entry.index sublayer.now.index (interval_in sublayer.now))) }
{
    let mut room = [0u8; LINE_BYTES];
    let mut line = Text::at(&mut room, 0);
    put_sublayer(&mut line, sublayer);
    out.write_all(line.so_far())
}

// As it is (2): the line of another type; what is written is put together by another function.
fn write_schedule<W: Write>(out: &mut W, schedule: &Schedule) -> Result<()>
    ensures { OnOk result (Appends (W.contents out.old) (W.contents out.new) (schedule_line schedule.now.sublayer.entry.index schedule.now.sublayer.index schedule.now.kind schedule.now.index (rate_in schedule.now) (size_in schedule.now))) }
{
    let mut room = [0u8; LINE_BYTES];
    let mut line = Text::at(&mut room, 0);
    put_schedule(&mut line, schedule);
    out.write_all(line.so_far())
}

// The schedules of a kind of a sublayer.
fn write_schedules<W: Write>(out: &mut W, sublayer: &Sublayer, kind: Kind) -> Result<()>
    ensures { OnOk result (Appends (W.contents out.old) (W.contents out.new) (schedules_text sublayer.now.entry.timing.«record».now sublayer.now.entry.index sublayer.now.index kind)) }
{
    let mut rest = sublayer.schedule(kind, 0);
    while let Some(schedule) = rest {
        write_schedule(out, &schedule)?;
        rest = schedule.next();
    }
    Ok(())
}

// A sublayer and its schedules.
fn write_sublayer<W: Write>(out: &mut W, sublayer: &Sublayer) -> Result<()>
    ensures { OnOk result (Appends (W.contents out.old) (W.contents out.new) (sublayer_text sublayer.now.entry.timing.«record».now sublayer.now.entry.index sublayer.now.index)) }
{
    write_sublayer_line(out, sublayer)?;
    write_schedules(out, sublayer, Kind::Nal)?;
    write_schedules(out, sublayer, Kind::Vcl)
}

// The sublayers of an entry.
fn write_entry<W: Write>(out: &mut W, entry: Entry) -> Result<()>
    ensures { OnOk result (Appends (W.contents out.old) (W.contents out.new) (entry_text entry.entry.timing.«record».now entry.entry.index)) }
{
    let mut rest = entry.sublayer(0);
    while let Some(sublayer) = rest {
        write_sublayer(out, &sublayer)?;
        rest = sublayer.next();
    }
    Ok(())
}

// The whole table.
pub fn write_table<W: Write>(out: &mut W, timing: RecordTiming) -> Result<()>
    ensures { OnOk result (Appends (W.contents out.old) (W.contents out.new) (table_text timing.entry.«record».now)) }
{
    out.write_all(HEADING)?;
    let mut rest = timing.entry(0);
    while let Some(entry) = rest {
        write_entry(out, entry)?;
        rest = entry.next();
    }
    Ok(())
}
