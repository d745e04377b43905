// A case: eight numbers, the bytes of the unit that are stored, and the numbers of the record that are stored. Of both,
// one element is stored once and is there so many times more.
use refusals::{NoRefusal, Refusal};
use replay_numbers::{Content, fill_pattern, outcome, pattern};
use vps_writer::write_vps_nal;

// An element that is there again: its index, and how many times more.
#[derive(Clone, Copy)]
struct Again {
    index: usize,
    more: usize,
}

// The next two numbers.
impl<'a> From<&mut Content<'a>> for Again {
    fn from(content: &mut Content<'a>) -> Again {
        Again {
            index: content.number() as usize,
            more: content.number() as usize,
        }
    }
}

// A case, as it is recorded.
#[derive(Clone, Copy)]
struct Case<'a> {
    // what the writer says: the unit's length, or its refusal
    answer: Result<usize, Refusal>,
    // the lengths of the output and of the record
    room: usize,
    length: usize,
    number_again: Again,
    byte_again: Again,
    unit: &'a [u8],
    numbers: Content<'a>,
}

impl<'a> Case<'a> {
    fn read(content: &'a [u8]) -> Result<Case<'a>, NoRefusal> {
        let mut content = Content { rest: content };
        let number = content.number();
        let room = content.number() as usize;
        let length = content.number() as usize;
        let number_again = Again::from(&mut content);
        let byte_again = Again::from(&mut content);
        let bytes = content.number() as usize;
        Ok(Case {
            answer: outcome(number, bytes.saturating_add(byte_again.more))?,
            room,
            length,
            number_again,
            byte_again,
            unit: content.bytes(bytes),
            numbers: content,
        })
    }

    // Puts the numbers into a record.
    fn put_record(&self, record: &mut [u32]) {
        let again = self.number_again;
        let mut numbers = self.numbers;
        let (before, record) = record.split_at_mut(again.index.min(record.len()));
        numbers.put_numbers(before);
        let (same, behind) = record.split_at_mut(again.more.min(record.len()));
        let mut here = numbers;
        same.fill(here.number());
        numbers.put_numbers(behind);
    }

    // The unit's byte at an index; 0 behind the bytes that are stored.
    fn unit_byte(&self, i: usize) -> u8 {
        let again = self.byte_again;
        let stored = i.min(again.index).max(i.saturating_sub(again.more));
        self.unit.get(stored).copied().unwrap_or(0)
    }

    // Whether an output begins with the unit, or with nothing where the record is refused, and is as before behind it.
    fn is_output_same(&self, output: &[u8]) -> bool {
        let length = self.answer.unwrap_or(0);
        let Some((unit, behind)) = output.split_at_checked(length) else {
            return false;
        };
        unit.iter()
            .zip(0..)
            .all(|(byte, i)| *byte == self.unit_byte(i))
            && behind
                .iter()
                .zip(length..)
                .all(|(byte, i)| *byte == pattern(i))
    }

    // Whether the writer's answer and the output are as recorded.
    fn is_call_same(&self, record: &mut [u32], output: &mut [u8]) -> bool {
        self.put_record(record);
        fill_pattern(output);
        write_vps_nal(record, output) == self.answer && self.is_output_same(output)
    }
}

// Replays a case on the beginnings of two buffers, of just the lengths recorded.
pub fn is_same(content: &[u8], record: &mut [u32], output: &mut [u8]) -> bool {
    let Ok(case) = Case::read(content) else {
        return false;
    };
    if record.len() < case.length || output.len() < case.room {
        return false;
    }
    case.is_call_same(&mut record[..case.length], &mut output[..case.room])
}
