// The text for an answer of the reader: a record's sections, a line each, or the refusal.
ghost use Rattle.std.specs.Prelude.{◌≡◌, ◌∷◌, ◌++◌};
ghost use Rattle.vps_reader.specs.Answers.{parsed_answer};
ghost use Rattle.texts.specs.Adds.{Adds};
ghost use Rattle.text_numbers.specs.Decimal.{decimal};
ghost use Rattle.vps_show.specs.Shown.{newline, spaced, part, record_text, shown};

use crate::text::{put_number, put_numbers};
use record_parts::{end_of, start_of};
use texts::Text;
use vps_reader::{NotParsed, Parsed};

// The names of the sections, in their order.
const NAMES: [&'static str; 9] = [
    "general",
    "layers",
    "rows",
    "ptls",
    "ols",
    "dpb",
    "timing",
    "extension",
    "trailer",
];

// The numbers of a section.
// As it is (1): k is a name's place among the nine; an enum would be made from it, and turned into it again for `start_of` and `end_of`.
// As it is (6): k is a section's number, from 0 to 8, and no place in the record or length of it.
fn section(record: &[u32], k: usize) -> &[u32]
    ensures { result.now ≡ part «record».now k }
{
    let end = end_of(record, k).min(record.len());
    record.get(start_of(record, k)..end).unwrap_or_default()
}

// A section's name and its numbers.
fn put_line(text: &mut Text, name: &str, numbers: &[u32])
    ensures { Adds (name.now ++ spaced numbers.now ++ newline) text.old text.new }
{
    text.put(name.as_bytes());
    put_numbers(text, numbers);
    text.put(b"\n");
}

fn put_record(text: &mut Text, record: &[u32])
    ensures { Adds (record_text «record».now) text.old text.new }
{
    for (k, name) in NAMES.iter().enumerate() {
        put_line(text, name, section(record, k));
    }
}

// A word and a number behind it.
fn put_count(text: &mut Text, word: &str, number: u64)
    ensures { Adds (word.now ++ (32 ∷ decimal number) ++ newline) text.old text.new }
{
    text.put(word.as_bytes());
    put_number(text, number);
    text.put(b"\n");
}

// What the answer says of the lent record.
pub fn put_answer(text: &mut Text, answer: Result<Parsed, NotParsed>, record: &[u32])
    ensures { Adds (shown (parsed_answer answer) «record».now) text.old text.new }
{
    match answer {
        Ok(parsed) => {
            put_count(text, "ok", parsed.numbers as u64);
            put_record(text, parsed.record_in(record));
        }
        Err(not_parsed) => {
            let number = not_parsed.refusal().number();
            put_count(text, "refused", u64::from(number));
        }
    }
}
