// A case: how many numbers the record has, how many parts are asked, the record's numbers, and the parts: a section's
// number, the index of its first number, and how many there are.
use replay_numbers::Content;
use vps_sections::{Part, section, section_part};

// The longest record.
const MOST_NUMBERS: usize = 1024;

// A section and the part of the record that it is, as they are recorded.
#[derive(Clone, Copy)]
struct Found {
    section: u32,
    part: Part,
}

// The next of the parts.
impl<'a> From<&mut Content<'a>> for Found {
    fn from(content: &mut Content<'a>) -> Found {
        Found {
            section: content.number(),
            part: Part {
                start: content.number() as usize,
                count: content.number() as usize,
            },
        }
    }
}

impl Found {
    // Whether the section is this part of the record.
    fn is_in(self, record: &[u32]) -> bool {
        let Part { start, count } = self.part;
        let numbers = record
            .get(start..)
            .and_then(|from_start| from_start.get(..count));
        section_part(record, self.section) == self.part
            && numbers == Some(section(record, self.section))
    }
}

// Whether so many parts are as recorded, and nothing is behind them.
fn are_parts(mut content: Content, count: u32, record: &[u32]) -> bool {
    (0..count).all(|_| Found::from(&mut content).is_in(record)) && content.rest.is_empty()
}

// Whether the last of a content's numbers is whole: how many bytes of a number are still to come is counted over all bytes.
fn is_whole(content: &[u8]) -> bool {
    let missing = content
        .iter()
        .fold(0u8, |missing, byte| match (missing, *byte) {
            (0, 255) => 4,
            (0, _) => 0,
            (_, _) => missing.saturating_sub(1),
        });
    missing == 0
}

// Replays a case on a record of just the length recorded.
pub fn is_same(content: &[u8]) -> bool {
    if !is_whole(content) {
        return false;
    }
    let mut content = Content { rest: content };
    let length = content.number() as usize;
    let count = content.number();
    let mut record = [0; MOST_NUMBERS];
    let Some(record) = record.get_mut(..length) else {
        return false;
    };
    content.put_numbers(record);
    are_parts(content, count, record)
}
