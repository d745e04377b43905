// What a case asks, by its tag.
use crate::expected::Step;

// A question to the bytes or to the bit reader at a place.
#[derive(Clone, Copy, Debug, PartialEq, Eq)]
pub enum Question {
    BitAt,
    FieldAt,
    ByteAligned,
    MoreRbspData,
}

// What a case asks.
#[derive(Clone, Copy, Debug, PartialEq, Eq)]
pub enum Asked {
    Unstuffing,
    RbspLength,
    Stuffing,
    Question(Question),
    Reading(Step),
    Writing(Step),
    // steps written one behind the other and read again
    Chain,
}

// Tags up to 3 are stuffing, to 10 questions, to 20 steps of the reader, to 29 steps of the writer, and from 30 on chains. The list
// has those up to 7, 11 to 15, 21 to 25 and 30.
impl From<u8> for Asked {
    fn from(tag: u8) -> Asked {
        match tag {
            1 => Asked::Unstuffing,
            2 => Asked::RbspLength,
            0 | 3 => Asked::Stuffing,
            4 => Asked::Question(Question::BitAt),
            5 => Asked::Question(Question::FieldAt),
            6 => Asked::Question(Question::ByteAligned),
            7..=10 => Asked::Question(Question::MoreRbspData),
            11..=20 => Asked::Reading(Step::from(tag - 10)),
            21..=29 => Asked::Writing(Step::from(tag - 20)),
            30.. => Asked::Chain,
        }
    }
}
