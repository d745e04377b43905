// A case: number, length, bits used, lengths of the work buffer and of the record, how often the last byte is there
// again, the unit, the RBSP, and the record's numbers. The RBSP and the numbers are there where they are stored.
use refusals::{NoRefusal, Refusal};
use replay_numbers::{Content, fill_pattern, outcome};
use vps_reader::{NotParsed, Parsed, parse_vps};

// The longest unit and work buffer, and the longest record.
const MOST_BYTES: usize = 65792;

const MOST_NUMBERS: usize = 8192;

// The answer that is recorded: a record's length and the bits used, or a refusal with the length that the record needs.
fn read_answer(content: &mut Content) -> Result<Result<Parsed, NotParsed>, NoRefusal> {
    let number = u32::from(content.byte());
    let numbers = content.four_bytes() as usize;
    let bits_used = content.four_bytes() as usize;
    let answer = outcome(number, Parsed { numbers, bits_used })?;
    Ok(answer.map_err(|refusal| match refusal {
        Refusal::RecordTooShort => NotParsed::RecordTooShort(numbers),
        refusal => NotParsed::Refused(refusal),
    }))
}

// Bytes, and how many there are to be; the content holds fewer where it is cut off.
#[derive(Clone, Copy)]
struct Bytes<'a> {
    length: u32,
    stored: &'a [u8],
}

// With the length in two bytes before them.
impl<'a> From<&mut Content<'a>> for Bytes<'a> {
    fn from(content: &mut Content<'a>) -> Bytes<'a> {
        let length = content.two_bytes();
        Bytes {
            length,
            stored: content.bytes(length as usize),
        }
    }
}

// A case, as it is recorded.
#[derive(Clone, Copy)]
struct Case<'a> {
    answer: Result<Parsed, NotParsed>,
    // the lengths of the buffers
    work: usize,
    record: usize,
    // how often the last byte of the unit and of the RBSP is there again
    again: u32,
    unit: Bytes<'a>,
    rbsp: Bytes<'a>,
    numbers: Content<'a>,
}

impl<'a> Case<'a> {
    fn read(content: &'a [u8]) -> Result<Case<'a>, NoRefusal> {
        let mut content = Content { rest: content };
        let answer = read_answer(&mut content)?;
        let work = content.four_bytes() as usize;
        let record = content.four_bytes() as usize;
        let again = content.four_bytes();
        let unit = Bytes::from(&mut content);
        let rbsp = Bytes::from(&mut content);
        Ok(Case {
            answer,
            work,
            record,
            again,
            unit,
            rbsp,
            numbers: content,
        })
    }

    // The length of what is stored of the RBSP: nothing where none is recorded.
    fn rbsp_length(&self) -> usize {
        if self.rbsp.length == 0 {
            0
        } else {
            self.rbsp.length as usize + self.again as usize
        }
    }

    // Whether the work buffer begins with the RBSP and is as before behind it.
    fn is_work_same(&self, work: &[u8]) -> bool {
        is_begun(work, self.rbsp_length(), &mut [0; MOST_BYTES], |start| {
            put_repeated(self.rbsp.stored, start)
        })
    }

    // Whether the record begins with the numbers and is as before behind them.
    fn is_record_same(&self, record: &[u32]) -> bool {
        let length = self.answer.map_or(0, |parsed| parsed.numbers);
        let mut numbers = self.numbers;
        is_begun(record, length, &mut [0; MOST_NUMBERS], |start| {
            numbers.put_numbers(start)
        })
    }

    // Whether the reader's answer and both buffers are as recorded.
    fn is_call_same(&self, unit: &mut [u8], work: &mut [u8], record: &mut [u32]) -> bool {
        put_repeated(self.unit.stored, unit);
        fill_pattern(work);
        fill_pattern(record);
        let answer = parse_vps(unit, work, record);
        answer == self.answer && self.is_work_same(work) && self.is_record_same(record)
    }

    // Replays the case on buffers of just the lengths recorded.
    fn is_same(&self) -> bool {
        let mut unit = [0; MOST_BYTES];
        let mut work = [0; MOST_BYTES];
        let mut record = [0; MOST_NUMBERS];
        let unit_length = self.unit.length as usize + self.again as usize;
        match (
            unit.get_mut(..unit_length),
            work.get_mut(..self.work),
            record.get_mut(..self.record),
        ) {
            (Some(unit), Some(work), Some(record)) => self.is_call_same(unit, work, record),
            _ => false,
        }
    }
}

// Whether a buffer begins with what is put into so many of its numbers, and is as before behind them.
// As it is (6): the length says how much of the buffer a call was to fill; all of it is compared, so a slice of as many won't do.
fn is_begun<T: From<u8> + PartialEq + Drop, F: FnOnce(&mut [T])>(
    buffer: &[T],
    length: usize,
    expected: &mut [T],
    put: F,
) -> bool
    requires { F.IsAlwaysCallable put }
{
    if expected.len() < buffer.len() || buffer.len() < length {
        return false;
    }
    let expected = &mut expected[..buffer.len()];
    fill_pattern(expected);
    put(&mut expected[..length]);
    buffer == &*expected
}

// Puts bytes into the start of a buffer, and their last one again into what is behind it.
fn put_repeated(bytes: &[u8], buffer: &mut [u8]) {
    buffer.fill(bytes.last().copied().unwrap_or(0));
    if let Some(start) = buffer.get_mut(..bytes.len()) {
        start.copy_from_slice(bytes);
    }
}

// Whether a case is as it is recorded; one with a number that no refusal has is not.
pub fn is_same(content: &[u8]) -> bool {
    Case::read(content).is_ok_and(|case| case.is_same())
}
