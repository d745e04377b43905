// What a case of a step is asked with and expects, and the steps by their numbers.
use refusals::Refusal;
use replay_numbers::{Content, outcome};

// A step of the bit reader or of the bit writer.
#[derive(Clone, Copy, Debug, PartialEq, Eq)]
pub enum Step {
    Bit,
    Field,
    Code,
    Alignment,
    Trailing,
}

// By its tag in a chain: the first five, where 0 is a code as well, and each above is the trailing bits.
impl From<u8> for Step {
    fn from(tag: u8) -> Step {
        match tag {
            1 => Step::Bit,
            2 => Step::Field,
            0 | 3 => Step::Code,
            4 => Step::Alignment,
            5.. => Step::Trailing,
        }
    }
}

// What a step is to say: 0 or a refusal's number, a value, and the place that is recorded behind the step.
#[derive(Clone, Copy)]
pub struct Expected {
    pub number: u32,
    pub value: u32,
    pub next: usize,
}

impl Expected {
    // Where a place stands after a step from another: at a refusal where it was.
    pub fn place_from(self, at: usize) -> usize {
        if self.number == 0 { self.next } else { at }
    }

    // Whether a step with the value says what is expected.
    pub fn is_value(self, answer: Result<u32, Refusal>) -> bool {
        outcome(self.number, self.value) == Ok(answer)
    }

    // Whether a step without a value does.
    pub fn is_done(self, answer: Result<(), Refusal>) -> bool {
        outcome(self.number, ()) == Ok(answer)
    }
}

// The front of a case of reading or writing bits: place, width, number, value, place behind.
#[derive(Clone, Copy)]
pub struct Front {
    pub at: usize,
    pub width: u32,
    pub expected: Expected,
}

// Taken from a case's content.
impl<'a> From<&mut Content<'a>> for Front {
    fn from(content: &mut Content<'a>) -> Front {
        Front {
            at: content.eight_bytes(),
            width: content.four_bytes(),
            expected: Expected {
                number: u32::from(content.byte()),
                value: content.four_bytes(),
                next: content.eight_bytes(),
            },
        }
    }
}
