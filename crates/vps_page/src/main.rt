// Reads one unit from standard input and prints its layer page, or its refusal.
#![tactic(auto)]

ghost use Rattle.std.specs.Prelude.{◌≡◌, take};
ghost use Rattle.refusals.specs.Refusals.{answer_of};
ghost use Rattle.lists.specs.Stored.{overlaid};
ghost use Rattle.vps_writer.specs.Write.{write_of, output_of};
ghost use Rattle.vps_page.specs.Printed.{unit_page, page_text};

use layer_page::layer_page;
use refusals::Refusal;
use texts::Text;
use vps_reader::parse_vps;

// Standard input and output.
const STDIN_FILENO: i32 = 0;

const STDOUT_FILENO: i32 = 1;

// One byte more than the longest unit that can be accepted: a longer one has the answer of its first so many bytes.
const UNIT_BYTES: usize = 98305;

// A work buffer that is long enough for every unit, and a record buffer for every record.
const WORK_BYTES: usize = 65535;

const RECORD_NUMBERS: usize = 535855;

// Room for every text: 257 lines.
const TEXT_BYTES: usize = 257 * layer_page::LINE_BYTES;

// The layer page of a unit, into a lent output, and how many bytes that is. A refusal leaves the output as it was.
fn unit_page(unit: &[u8], output: &mut [u8]) -> Result<usize, Refusal>
    ensures result_value { answer_of result ≡ write_of output.old (unit_page unit.now) }
    ensures output_after { output.new ≡ output_of output.old (unit_page unit.now) }
{
    let mut work = [0u8; WORK_BYTES];
    let mut record = [0u32; RECORD_NUMBERS];
    match parse_vps(unit, &mut work, &mut record) {
        Ok(parsed) => layer_page(parsed.record_in(&record), output),
        Err(not_parsed) => Err(not_parsed.refusal()),
    }
}

// The text for a unit, whole, in a room for every text; the bytes behind it are unchanged.
fn page_text<'a>(unit: &[u8], room: &'a mut [u8; TEXT_BYTES]) -> Text<'a>
    ensures value { take result.place result.bytes.now ≡ page_text unit.now }
    ensures text_after { result.bytes.now ≡ overlaid (page_text unit.now) room.old }
{
    match unit_page(unit, room) {
        Ok(length) => Text::at(room, length),
        Err(refusal) => {
            let mut text = Text::at(room, 0);
            sentences::put_refused(&mut text, refusal);
            text
        }
    }
}

fn main() {
    let mut unit = [0u8; UNIT_BYTES];
    let got = io::read_full(STDIN_FILENO, &mut unit);
    let mut room = [0u8; TEXT_BYTES];
    let text = page_text(&unit[..got], &mut room);
    io::write_all(STDOUT_FILENO, text.so_far());
}
