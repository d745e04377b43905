// Cases of writing bits: place, width, number, value, place behind, the buffer before, the buffer afterwards.
use crate::content::is_buffer_same;
use crate::expected::{Front, Step};
use bit_writer::BitWriter;
use replay_numbers::Content;

// As it is (2): `reading::is_step` has the reader answer with the value that the writer is passed here; one function of both would take a closure for each step.
// Whether a step at a place of an output says what is expected, and leaves the writer where it is to stand.
pub fn is_step(step: Step, out: &mut [u8], front: Front) -> bool {
    let expected = front.expected;
    let mut writer = BitWriter {
        out,
        bit_pos: front.at,
    };
    let answer = match step {
        Step::Bit => writer.write_bit(expected.value),
        Step::Field => writer.write_bits(expected.value, front.width),
        Step::Code => writer.write_ue(expected.value),
        Step::Alignment => writer.align_to_byte(),
        Step::Trailing => writer.write_rbsp_trailing_bits(),
    };
    expected.is_done(answer) && writer.bit_pos == expected.place_from(front.at)
}

pub fn is_same(step: Step, mut content: Content, out: &mut [u8]) -> bool {
    let front = Front::from(&mut content);
    is_buffer_same(content.rest, out, |out| is_step(step, out, front))
}
