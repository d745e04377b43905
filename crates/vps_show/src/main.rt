// Reads one unit from standard input and prints its record, a line a section, or its refusal.
#![tactic(auto)]

ghost use Rattle.std.specs.Prelude.{◌≡◌, take};
ghost use Rattle.lists.specs.Stored.{overlaid};
ghost use Rattle.texts.specs.Adds.{Adds};
ghost use Rattle.vps_show.specs.Shown.{shown_unit, shown_input};

mod shown;
mod text;

use texts::Text;
use vps_reader::parse_vps;

// Standard input and output.
const STDIN_FILENO: i32 = 0;

const STDOUT_FILENO: i32 = 1;

// The bytes of a unit, and of the work buffer.
const UNIT_BYTES: usize = 4096;

// The numbers of the record buffer.
const RECORD_NUMBERS: usize = 8192;

// A space and ten digits, which are enough for a number of 32 bits.
const NUMBER_BYTES: usize = 11;

// Nine names, each with its newline.
const NAME_BYTES: usize = 58;

// `ok`, a space, twenty digits and a newline.
const OK_BYTES: usize = 24;

// Room for the text of every input: the lines of a record have no more numbers than the record.
const TEXT_BYTES: usize = RECORD_NUMBERS * NUMBER_BYTES + NAME_BYTES + OK_BYTES;

// The text for a unit.
fn show_unit(unit: &[u8], text: &mut Text)
    ensures { Adds (shown_unit unit.now) text.old text.new }
{
    let mut work = [0u8; UNIT_BYTES];
    let mut record = [0u32; RECORD_NUMBERS];
    let answer = parse_vps(unit, &mut work, &mut record);
    shown::put_answer(text, answer, &record);
}

// The text for an input.
fn show_input(input: &[u8], text: &mut Text)
    ensures { Adds (shown_input input.now) text.old text.new }
{
    if input.len() <= UNIT_BYTES {
        show_unit(input, text);
    } else {
        text.put(b"too long\n");
    }
}

// The text for an input, whole, in a room for every text; the bytes behind it are unchanged.
fn show<'a>(input: &[u8], room: &'a mut [u8; TEXT_BYTES]) -> Text<'a>
    ensures value { take result.place result.bytes.now ≡ shown_input input.now }
    ensures text_after { result.bytes.now ≡ overlaid (shown_input input.now) room.old }
{
    let mut text = Text::at(room, 0);
    show_input(input, &mut text);
    text
}

fn main() {
    // one byte more shows an input that is too long
    let mut input = [0u8; UNIT_BYTES + 1];
    let got = io::read_full(STDIN_FILENO, &mut input);
    let mut room = [0u8; TEXT_BYTES];
    let text = show(&input[..got], &mut room);
    io::write_all(STDOUT_FILENO, text.so_far());
}
