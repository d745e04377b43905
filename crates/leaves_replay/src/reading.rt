// Cases of reading bits: place, width, number, value, place behind, and the bytes.
use crate::asked::Question;
use crate::expected::{Front, Step};
use bit_reader::BitReader;
use replay_numbers::Content;

// Whether a step at a place says what is expected, and leaves the reader where it is to stand.
pub fn is_step(step: Step, bytes: &[u8], front: Front) -> bool {
    let expected = front.expected;
    let mut reader = BitReader {
        bytes,
        bit_pos: front.at,
    };
    let is_said = match step {
        Step::Bit => expected.is_value(reader.read_bit()),
        Step::Field => expected.is_value(reader.u(front.width)),
        Step::Code => expected.is_value(reader.ue()),
        Step::Alignment => expected.is_done(reader.align_to_byte()),
        Step::Trailing => expected.is_done(reader.read_rbsp_trailing_bits()),
    };
    is_said && reader.bit_pos == expected.place_from(front.at)
}

pub fn is_step_same(step: Step, mut content: Content) -> bool {
    let front = Front::from(&mut content);
    is_step(step, content.rest, front)
}

// The bit at a place, the field there, byte_aligned() and more_rbsp_data(). A yes has the value 1, a no the value 0. A bit and a
// field are values alone, and refuse nothing.
pub fn is_question_same(question: Question, mut content: Content) -> bool {
    let Front {
        at,
        width,
        expected,
    } = Front::from(&mut content);
    let bytes = content.rest;
    let reader = BitReader { bytes, bit_pos: at };
    match question {
        Question::BitAt => bit_fields::bit_at(bytes, at) == expected.value,
        Question::FieldAt => bit_fields::field_at(bytes, at, width) == expected.value,
        Question::ByteAligned => expected.is_value(reader.byte_aligned().map(u32::from)),
        Question::MoreRbspData => expected.is_value(reader.more_rbsp_data().map(u32::from)),
    }
}
