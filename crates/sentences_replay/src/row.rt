// A number and its sentence: stored in outputs of every length, given back, and given for no other bytes that are near.
ghost use Rattle.std.specs.Prelude.{◌≤◌, ◌<◌, ◌≡◌, length};

use refusals::Refusal;
use sentences::{sentence, sentence_number};

// Room for every sentence and some bytes more.
const ROOM: usize = 64;

// What an output holds beforehand.
const BEFORE: u8 = 255;

// Whether an output begins with some bytes and is otherwise as before.
fn holds(output: &[u8], bytes: &[u8]) -> bool {
    output
        .strip_prefix(bytes)
        .is_some_and(|rest| rest.iter().all(|byte| *byte == BEFORE))
}

// Whether a sentence is stored where there is room, and refused with nothing changed where there is none.
fn is_stored(number: u32, bytes: &[u8], output: &mut [u8]) -> bool {
    match sentence(number, output) {
        Ok(n) => n == bytes.len() && holds(output, bytes),
        Err(refusal) => {
            refusal == Refusal::OutputTooShort && output.len() < bytes.len() && holds(output, b"")
        }
    }
}

// In outputs of 0 to 64 bytes.
fn is_stored_always(number: u32, bytes: &[u8]) -> bool {
    (0..=ROOM).all(|room| is_stored(number, bytes, &mut [BEFORE; ROOM][..room]))
}

// Whether no proper beginning gives a number, the empty one included.
fn no_beginning(bytes: &[u8]) -> bool {
    (0..bytes.len()).all(|n| sentence_number(&bytes[..n]).is_none())
}

// Whether no other byte at a place gives a number. Afterwards the bytes are as before.
// As it is (6): `sentence_number` takes the whole text, and the place says which of its bytes is another; a part of the text won't do.
fn no_other_byte(bytes: &mut [u8], at: usize) -> bool
    requires { at < length bytes.old }
    ensures { length bytes.new ≡ length bytes.old }
{
    let byte = bytes[at];
    for change in 1..=u8::MAX {
        bytes[at] = byte ^ change;
        if sentence_number(bytes).is_some() {
            return false;
        }
    }
    bytes[at] = byte;
    true
}

fn no_change(bytes: &mut [u8]) -> bool {
    (0..bytes.len()).all(|at| no_other_byte(bytes, at))
}

// Whether neither another byte anywhere nor a blank behind gives a number.
fn no_neighbour(bytes: &[u8]) -> bool {
    let count = bytes.len();
    if ROOM <= count {
        return false;
    }
    let mut text = [b' '; ROOM];
    text[..count].copy_from_slice(bytes);
    no_change(&mut text[..count]) && sentence_number(&text[..count + 1]).is_none()
}

pub fn is_same(number: u32, bytes: &[u8]) -> bool {
    is_stored_always(number, bytes)
        && sentence_number(bytes).map_or(0, Refusal::number) == number
        && no_beginning(bytes)
        && no_neighbour(bytes)
}

// Whether a number has the empty sentence.
fn is_empty(number: u32) -> bool {
    let mut output = [BEFORE; ROOM];
    is_stored(number, b"", &mut output)
}

// How many of the numbers 0, those past the rows up to 100,000 and the greatest have a sentence.
pub fn other_sentences(rows: u32) -> usize {
    if 1000 < rows {
        return rows as usize;
    }
    (rows + 1..=100_000)
        .chain([0, u32::MAX])
        .filter(|number| !is_empty(*number))
        .count()
}
