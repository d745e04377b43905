// Reads one unit from standard input and prints its link figures, a line for each sublayer and for each schedule, or its refusal.
#![tactic(auto)]

ghost use Rattle.std.specs.Prelude.{OnOk};
ghost use Rattle.std.specs.Io.KnownBytes.{Appends};
ghost use Rattle.refusals.specs.Refusals.{number_of};
ghost use Rattle.vps_definition.specs.Writing.{well_formed};
ghost use Rattle.sentences.specs.Refused.{refused_text};
ghost use Rattle.vps_rates.specs.Printed.{without_table, record_text, rates_text};

mod lines;
mod output;
mod table;

use output::StandardOutput;
use record_timing::RecordTiming;
use refusals::Refusal;
use std::io::Write;
use table::write_table;
use texts::Text;
use vps_reader::parse_vps;

// Standard input.
const STDIN_FILENO: i32 = 0;

// One byte more than the longest unit that can be accepted: a longer one has the answer of its first so many bytes.
const UNIT_BYTES: usize = 98305;

// A work buffer that is long enough for every unit, and a record buffer for every record.
const WORK_BYTES: usize = 65535;

const RECORD_NUMBERS: usize = 535855;

// Room for `refused`, a blank, twenty digits and a newline.
const REFUSED_BYTES: usize = 29;

// `refused` and the number of a refusal.
fn write_refused<W: Write>(out: &mut W, refusal: Refusal) -> std::io::Result<()>
    ensures { OnOk result (Appends (W.contents out.old) (W.contents out.new) (refused_text (number_of refusal))) }
{
    let mut room = [0u8; REFUSED_BYTES];
    let mut text = Text::at(&mut room, 0);
    sentences::put_refused(&mut text, refusal);
    out.write_all(text.so_far())
}

// What is said where there is no table: that the record has no timing section, or the refusal.
fn write_without_table<W: Write>(out: &mut W, refusal: Refusal) -> std::io::Result<()>
    ensures { OnOk result (Appends (W.contents out.old) (W.contents out.new) (without_table (number_of refusal))) }
{
    if refusal.number() == Refusal::ItemMissing.number() {
        return out.write_all(b"no timing\n");
    }
    write_refused(out, refusal)
}

// The figures of a record; of a list that is not well formed, its refusal.
fn write_record<W: Write>(out: &mut W, record: &[u32]) -> std::io::Result<()>
    ensures { OnOk result (Appends (W.contents out.old) (W.contents out.new) (record_text «record».now)) }
{
    match RecordTiming::of(record) {
        Ok(timing) => write_table(out, timing),
        Err(refusal) => write_without_table(out, refusal),
    }
}

// The figures of a unit.
fn write_rates<W: Write>(out: &mut W, unit: &[u8]) -> std::io::Result<()>
    ensures { OnOk result (Appends (W.contents out.old) (W.contents out.new) (rates_text unit.now)) }
{
    let mut work = [0u8; WORK_BYTES];
    let mut record = [0u32; RECORD_NUMBERS];
    match parse_vps(unit, &mut work, &mut record) {
        Ok(parsed) => write_record(out, parsed.record_in(&record)),
        Err(not_parsed) => write_refused(out, not_parsed.refusal()),
    }
}

fn main() {
    let mut unit = [0u8; UNIT_BYTES];
    let got = io::read_full(STDIN_FILENO, &mut unit);
    // where nobody reads any more, there is nothing left to do
    let _ = write_rates(&mut StandardOutput, &unit[..got]);
}
