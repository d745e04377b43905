// The sentence of each refusal, three words, and the number back from the sentence alone; and the line that says a number alone.
#![tactic(auto)]

ghost use Rattle.std.specs.Prelude.{◌↔◌, ◌≡◌, ◌∷◌, map, IsTrue};
ghost use Rattle.refusals.specs.Lent.{lent, output_after};
ghost use Rattle.refusals.specs.Refusals.{answer_of};
ghost use Rattle.refusals.specs.Refusals as Refusals;
ghost use Rattle.texts.specs.Adds.{Adds};
ghost use Rattle.sentences.specs.Sentences.{words_of, blank, sentence_of, number_of};
ghost use Rattle.sentences.specs.Named.{found_number};
ghost use Rattle.sentences.specs.Refused.{refused_text};

use refusals::Refusal;
use text_numbers::put_decimal;
use texts::Text;

// The last number that has a sentence.
const LAST_NUMBER: u32 = 35;

// The place, the field and the fault of each refusal, from number 1 on.
const ROWS: [[&'static str; 3]; LAST_NUMBER as usize] = [
    ["header", "unit", "too-short"],
    ["header", "type", "wrong"],
    ["lengths", "unit", "too-long"],
    ["lengths", "buffer", "too-short"],
    ["layers", "sublayers", "too-many"],
    ["layers", "ids", "not-rising"],
    ["layers", "reference", "missing"],
    ["sets", "mode", "wrong"],
    ["sets", "output-layer", "missing"],
    ["sets", "profiles", "too-many"],
    ["PTL", "top-sublayer", "too-high"],
    ["PTL", "padding", "not-zero"],
    ["PTL", "index", "past-table"],
    ["code", "zeros", "too-many"],
    ["DPB", "slots", "too-many"],
    ["DPB", "top-sublayer", "too-high"],
    ["DPB", "buffering", "over-15"],
    ["DPB", "reorder", "over-buffering"],
    ["DPB", "depth", "over-8"],
    ["DPB", "index", "past-table"],
    ["timing", "clock", "zero"],
    ["timing", "schedule-count", "over-31"],
    ["timing", "entries", "too-many"],
    ["timing", "top-sublayer", "too-high"],
    ["timing", "duration", "over-2047"],
    ["timing", "index", "past-table"],
    ["end", "stop-bit", "missing"],
    ["end", "stop-bit", "zero"],
    ["end", "padding", "not-zero"],
    ["record", "buffer", "too-short"],
    ["writer", "record", "malformed"],
    ["writer", "buffer", "too-short"],
    ["rates", "item", "missing"],
    ["layers", "set-id", "zero"],
    ["code", "bits", "missing"],
];

// Room for every sentence: three words of at most 15 bytes and two blanks.
const SENTENCE_BYTES: usize = 47;

// The words of a refusal.
fn words(refusal: Refusal) -> &'static [&'static str; 3]
    ensures { map (λ word. word.now) result.now ≡ words_of (Refusals.number_of refusal) }
{
    &ROWS[refusal.number() as usize - 1]
}

// A blank, and a word behind it.
fn put_next_word(text: &mut Text, word: &str)
    ensures { Adds (blank ∷ word.now) text.old text.new }
{
    text.put(b" ");
    text.put(word.as_bytes());
}

// A refusal's sentence, as much of it as there is room for.
pub fn put_words(text: &mut Text, refusal: Refusal)
    ensures { Adds (sentence_of (Refusals.number_of refusal)) text.old text.new }
{
    let [place, field, fault] = words(refusal);
    text.put(place.as_bytes());
    put_next_word(text, field);
    put_next_word(text, fault);
}

// The sentence of a refusal's number, as much of it as there is room for; nothing for 0 and numbers past the table.
pub fn put_sentence(text: &mut Text, number: u32)
    ensures { Adds (sentence_of number) text.old text.new }
{
    if let Ok(refusal) = Refusal::try_from(number) {
        put_words(text, refusal);
    }
}

// `refused` and the number of a refusal, on a line.
pub fn put_refused(text: &mut Text, refusal: Refusal)
    ensures { Adds (refused_text (Refusals.number_of refusal)) text.old text.new }
{
    text.put(b"refused ");
    put_decimal(text, refusal.number() as u64);
    text.put(b"\n");
}

// A refusal's sentence into a lent output: how many bytes were written; those behind them are as before. A refusal leaves the output
// as it was. 0 and numbers past the table have the empty sentence.
pub fn sentence(number: u32, output: &mut [u8]) -> Result<usize, Refusal>
    ensures result_value { answer_of result ≡ lent (sentence_of number) output.old }
    ensures output_after { output.new ≡ output_after (sentence_of number) output.old }
{
    let mut room = [0u8; SENTENCE_BYTES];
    let mut text = Text::at(&mut room, 0);
    put_sentence(&mut text, number);
    let said = text.so_far();
    if output.len() < said.len() {
        return Err(Refusal::OutputTooShort);
    }
    Text::at(output, 0).put(said);
    Ok(said.len())
}

// Whether bytes are a refusal's sentence.
fn is_sentence(bytes: &[u8], number: u32) -> bool
    ensures { IsTrue result ↔ sentence_of number ≡ bytes.now }
{
    let mut room = [0u8; SENTENCE_BYTES];
    let mut text = Text::at(&mut room, 0);
    put_sentence(&mut text, number);
    text.so_far() == bytes
}

// The refusal whose sentence the bytes are.
pub fn sentence_number(bytes: &[u8]) -> Option<Refusal>
    ensures { found_number result ≡ number_of bytes.now }
{
    let number = (1..=LAST_NUMBER).find(|number| is_sentence(bytes, *number))?;
    Refusal::try_from(number).ok()
}
