// Chains of steps, written one behind the other and read again: how many steps, the steps, the buffer before, the
// buffer afterwards. A step has 9 bytes: step, width, value, number, place behind. A refused step leaves the place and
// is not read; the step behind it stands at the place that is recorded.
use crate::content::is_buffer_same;
use crate::expected::{Expected, Front, Step};
use crate::{reading, writing};
use replay_numbers::Content;

// The bytes of a step.
const LINK_BYTES: usize = 9;

// A step of a chain, at its place.
#[derive(Clone, Copy)]
struct Link {
    step: Step,
    front: Front,
}

impl Link {
    // The next of the steps, at a place.
    fn next(steps: &mut Content, at: usize) -> Link {
        let step = Step::from(steps.byte());
        let width = u32::from(steps.byte());
        let value = steps.four_bytes();
        let number = u32::from(steps.byte());
        let next = steps.two_bytes() as usize;
        Link {
            step,
            front: Front {
                at,
                width,
                expected: Expected {
                    number,
                    value,
                    next,
                },
            },
        }
    }
}

// Whether so many steps are as recorded, each at the place that is recorded behind the one before it.
fn are_steps<F: Fn(Step, &mut [u8], Front) -> bool>(
    count: u32,
    mut steps: Content,
    out: &mut [u8],
    is_step: F,
) -> bool
    requires { F.IsAlwaysCallable is_step }
{
    let mut at = 0;
    for _ in 0..count {
        let Link { step, front } = Link::next(&mut steps, at);
        if !is_step(step, out, front) {
            return false;
        }
        at = front.expected.next;
    }
    true
}

pub fn is_same(mut content: Content, out: &mut [u8]) -> bool {
    let count = content.two_bytes();
    let steps = Content {
        rest: content.bytes(count as usize * LINK_BYTES),
    };
    let is_read = |step, out: &mut [u8], front: Front| {
        front.expected.number != 0 || reading::is_step(step, out, front)
    };
    is_buffer_same(content.rest, out, |out| {
        are_steps(count, steps, out, writing::is_step) && are_steps(count, steps, out, is_read)
    })
}
