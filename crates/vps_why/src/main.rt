// Reads one unit from standard input and prints `accepted`, or the number of its refusal and the sentence.
#![tactic(auto)]

ghost use Rattle.std.specs.Prelude.{◌≡◌, take};
ghost use Rattle.refusals.specs.Refusals.{number_of};
ghost use Rattle.lists.specs.Stored.{overlaid};
ghost use Rattle.texts.specs.Adds.{Adds};
ghost use Rattle.vps_reader.specs.Answers.{parsed_answer};
ghost use Rattle.vps_why.specs.Why.{refused_line, parsed_line, why};

use refusals::Refusal;
use sentences::put_words;
use text_numbers::put_decimal;
use texts::Text;
use vps_reader::{NotParsed, Parsed, parse_vps};

// Standard input and output.
const STDIN_FILENO: i32 = 0;

const STDOUT_FILENO: i32 = 1;

// One byte more than the longest unit that can be accepted: a longer one has the answer of its first so many bytes.
const UNIT_BYTES: usize = 98305;

// A work buffer that is long enough for every unit.
const WORK_BYTES: usize = 65535;

// Room for every line: twenty digits, a blank, a sentence and a newline.
const LINE_BYTES: usize = 69;

// The number of a refusal and its sentence.
fn put_refused(text: &mut Text, refusal: Refusal)
    ensures { Adds (refused_line (number_of refusal)) text.old text.new }
{
    put_decimal(text, refusal.number() as u64);
    text.put(b" ");
    put_words(text, refusal);
    text.put(b"\n");
}

// The line for an answer of the reader; too short a record buffer is no fault of the unit.
fn put_answer(text: &mut Text, answer: Result<Parsed, NotParsed>)
    ensures { Adds (parsed_line (parsed_answer answer)) text.old text.new }
{
    match answer {
        Ok(_) => text.put(b"accepted\n"),
        Err(NotParsed::RecordTooShort(_)) => text.put(b"accepted\n"),
        Err(NotParsed::Refused(refusal)) => put_refused(text, refusal),
    }
}

// The line for a unit, whole, in a room for every line; the bytes behind it are unchanged.
fn why_of<'a>(unit: &[u8], room: &'a mut [u8; LINE_BYTES]) -> Text<'a>
    ensures value { take result.place result.bytes.now ≡ why unit.now }
    ensures text_after { result.bytes.now ≡ overlaid (why unit.now) room.old }
{
    let mut work = [0u8; WORK_BYTES];
    let mut record = [0u32; 1];
    let answer = parse_vps(unit, &mut work, &mut record);
    let mut line = Text::at(room, 0);
    put_answer(&mut line, answer);
    line
}

fn main() {
    let mut unit = [0u8; UNIT_BYTES];
    let got = io::read_full(STDIN_FILENO, &mut unit);
    let mut room = [0u8; LINE_BYTES];
    let line = why_of(&unit[..got], &mut room);
    io::write_all(STDOUT_FILENO, line.so_far());
}
