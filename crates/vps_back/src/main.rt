// Reads one unit from standard input, writes its record, and prints whether the bytes are the same.
#![tactic(auto)]

ghost use Rattle.std.specs.Prelude.{◌≡◌};
ghost use Rattle.vps_definition.specs.Writing.{write_record};
ghost use Rattle.vps_back.specs.Back.{said, written_back, back};

use refusals::Refusal;
use vps_reader::{NotParsed, parse_vps};
use vps_writer::write_vps_nal;

// Standard input and output.
const STDIN_FILENO: i32 = 0;

const STDOUT_FILENO: i32 = 1;

// The bytes of a unit, and of the work buffer.
const UNIT_BYTES: usize = 4096;

// The numbers of the record buffer.
const RECORD_NUMBERS: usize = 8192;

// The bytes of the output: a header, and an RBSP of as many bytes as the unit's, stuffed.
const OUTPUT_BYTES: usize = 6146;

// What a unit comes back as: so many bytes were written, and they are the unit's, or not.
#[derive(Clone, Copy)]
struct Back {
    count: usize,
    same: bool,
}

// Why a unit doesn't come back.
#[derive(Clone, Copy)]
enum NotBack {
    // the reader's answer
    NotRead(NotParsed),
    // the writer's refusal
    NotWritten(Refusal),
}

impl From<NotParsed> for NotBack {
    ghost use Rattle.std.specs.Prelude.{◌≡◌};
    ghost use Rattle.vps_back.specs.declared.NotBack.TheVariants as NotBackIs;

    ghost from_gives = { λ not_parsed not. not ≡ NotBackIs.NotRead not_parsed };

    fn from(not_parsed: NotParsed) -> NotBack {
        NotBack::NotRead(not_parsed)
    }
}

impl From<Refusal> for NotBack {
    ghost use Rattle.std.specs.Prelude.{◌≡◌};
    ghost use Rattle.vps_back.specs.declared.NotBack.TheVariants as NotBackIs;

    ghost from_gives = { λ refusal not. not ≡ NotBackIs.NotWritten refusal };

    fn from(refusal: Refusal) -> NotBack {
        NotBack::NotWritten(refusal)
    }
}

// A record, written and compared with the unit.
fn written_back(unit: &[u8], record: &[u32]) -> Result<Back, NotBack>
    ensures { said result ≡ written_back unit.now (write_record «record».now) }
{
    let mut output = [0u8; OUTPUT_BYTES];
    let count = write_vps_nal(record, &mut output)?;
    let written = &output[..count];
    Ok(Back {
        count,
        same: written == unit,
    })
}

// A unit, read, written and compared.
fn way_back(unit: &[u8]) -> Result<Back, NotBack>
    ensures { said result ≡ back unit.now }
{
    let mut work = [0u8; UNIT_BYTES];
    let mut record = [0u32; RECORD_NUMBERS];
    let parsed = parse_vps(unit, &mut work, &mut record)?;
    written_back(unit, parsed.record_in(&record))
}

// Prints words that end in a blank, and a number, on a line: each in a write of its own.
fn print_number(words: &[u8], number: u64) {
    io::write_all(STDOUT_FILENO, words);
    io::print_decimal(STDOUT_FILENO, number);
    io::write_all(STDOUT_FILENO, b"\n");
}

// Prints words, and a refusal's number behind them.
fn print_refusal(words: &[u8], refusal: Refusal) {
    print_number(words, u64::from(refusal.number()));
}

fn print_back(answer: Result<Back, NotBack>) {
    match answer {
        Err(NotBack::NotRead(not_parsed)) => print_refusal(b"refused ", not_parsed.refusal()),
        Err(NotBack::NotWritten(refusal)) => print_refusal(b"not written ", refusal),
        Ok(back) => {
            print_number(b"written ", back.count as u64);
            if back.same {
                io::write_all(STDOUT_FILENO, b"same\n");
            } else {
                io::write_all(STDOUT_FILENO, b"different\n");
            }
        }
    }
}

fn main() {
    // one byte more shows an input that is too long
    let mut input = [0u8; UNIT_BYTES + 1];
    let got = io::read_full(STDIN_FILENO, &mut input);
    if got <= UNIT_BYTES {
        print_back(way_back(&input[..got]));
    } else {
        io::write_all(STDOUT_FILENO, b"too long\n");
    }
}
