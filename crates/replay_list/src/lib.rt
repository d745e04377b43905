// Reads a list of recorded answers record by record, has its cases replayed, and prints counts.
#![tactic(auto)]

ghost use Rattle.std.specs.Prelude.{◌≡◌, ◌+◌, ◌<◌, ◌^◌, cond};

use printing::print_count;

// Standard input.
const STDIN_FILENO: i32 = 0;

// More records than any list has.
const MOST_RECORDS: u64 = 1_000_000;

// A tag that no case of a list has.
#[derive(Clone, Copy, Debug)]
pub struct UnknownTag;

// A record of the list.
#[derive(Clone, Copy)]
enum Record<'a> {
    // the end of a kind of cases, with its name
    Kind(&'a [u8]),
    // a case: its tag and its content
    Case(u8, &'a [u8]),
}

// A record is cut off, or longer than what is lent.
#[derive(Clone, Copy, Debug)]
struct Broken;

// Reads the next record from standard input into the start of a lent slice; none at the end of the list.
fn read_record(content: &mut [u8]) -> Result<Option<Record<'_>>, Broken> {
    let mut head = [0u8; 3];
    let got = io::read_full(STDIN_FILENO, &mut head);
    if got == 0 {
        return Ok(None);
    }
    let length = usize::from(u16::from_be_bytes([head[1], head[2]]));
    if got < head.len() || content.len() < length {
        return Err(Broken);
    }
    let content = &mut content[..length];
    if io::read_full(STDIN_FILENO, content) < length {
        return Err(Broken);
    }
    match head[0] {
        0 => Ok(Some(Record::Kind(content))),
        tag => Ok(Some(Record::Case(tag, content))),
    }
}

// How many cases there are of a kind so far, and how many of all kinds differ.
#[derive(Clone, Copy, Default)]
struct Counts {
    cases: u64,
    different: u64,
}

impl Counts {
    // Counts one more case.
    fn add(&mut self, same: bool)
        requires cases { self.old.cases + 1 < 2 ^ 64 }
        requires different { self.old.different + 1 < 2 ^ 64 }
        ensures cases { self.new.cases ≡ self.old.cases + 1 }
        ensures different { self.new.different ≡ self.old.different + cond same 0 1 }
    {
        self.cases += 1;
        self.different += u64::from(!same);
    }
}

// Whether the answers to a case are those recorded, asked with its tag and its content; any case may be asked.
#[derive(Clone, Copy)]
pub struct Replays {
    pub is_same: fn(u8, &[u8]) -> bool,
    ghost callable: { IsAlwaysCallable is_same },
}

// Replays the list on standard input, each record by way of a lent slice; prints how many cases each kind has, and how many
// differ. A record that is cut off or too long counts as a case that differs.
pub fn replay(content: &mut [u8], replays: Replays) {
    let mut counts = Counts::default();
    for _ in 0..MOST_RECORDS {
        match read_record(content) {
            Ok(None) => {
                print_count(b"different", counts.different);
                return;
            }
            Ok(Some(Record::Kind(name))) => {
                print_count(name, counts.cases);
                counts.cases = 0;
            }
            Ok(Some(Record::Case(tag, content))) => counts.add((replays.is_same)(tag, content)),
            Err(Broken) => counts.add(false),
        }
    }
}
