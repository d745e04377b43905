// Reads docs/REFUSALS.md and holds the number and the sentence of each of its rows to the proved ones; prints how many rows and how
// many bytes of sentences there are, how many rows differ, and how many numbers without a row have a sentence.
#![tactic(auto)]

mod page;
mod row;

use lists::behind;
use printing::print_count;

// Standard input.
const STDIN_FILENO: i32 = 0;

// More bytes than the page has.
const PAGE_BYTES: usize = 16384;

// What the rows of a page come to; no sum comes near the limit of its type.
#[derive(Clone, Copy, Default)]
struct Counts {
    rows: u32,
    bytes: usize,
    different: u32,
}

impl Counts {
    // With one more row.
    fn count_row(&mut self, number: u32, sentence: &[u8]) {
        self.rows = self.rows.saturating_add(1);
        self.bytes = self.bytes.saturating_add(sentence.len());
        if !row::is_same(number, sentence) {
            self.different = self.different.saturating_add(1);
        }
    }
}

// What the lines of a page come to; of a row, all that stands from its bar on is looked at.
fn counted(page: &[u8]) -> Counts {
    let mut counts = Counts::default();
    let mut rest = page;
    for line in page.split(|byte| *byte == b'\n') {
        if page::is_row(rest) {
            counts.count_row(page::number(rest), page::sentence(rest));
        }
        rest = behind(behind(rest, line.len()), 1);
    }
    counts
}

fn main() {
    let mut page = [0u8; PAGE_BYTES];
    let got = io::read_full(STDIN_FILENO, &mut page);
    let counts = counted(&page[..got]);
    print_count(b"rows", counts.rows as u64);
    print_count(b"bytes", counts.bytes as u64);
    print_count(b"different", counts.different as u64);
    print_count(
        b"other numbers with a sentence",
        row::other_sentences(counts.rows) as u64,
    );
}
