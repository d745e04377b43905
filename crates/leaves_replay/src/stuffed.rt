// Cases of stuffing. Adding and removing: number, bytes written, length of the input, the input, the output afterwards.
// Measuring: the length, the input.
use refusals::Refusal;
use replay_numbers::{Content, fill_pattern, outcome};

// Replays adding or removing on an output of just the length recorded.
pub(crate) fn is_same<F: FnOnce(&[u8], &mut [u8]) -> Result<usize, Refusal>>(
    mut content: Content,
    out: &mut [u8],
    stuffed: F,
) -> bool
    requires { F.IsAlwaysCallable stuffed }
{
    let number = u32::from(content.byte());
    let written = content.two_bytes() as usize;
    let length = content.two_bytes() as usize;
    let input = content.bytes(length);
    let Some(out) = out.get_mut(..content.rest.len()) else {
        return false;
    };
    fill_pattern(out);
    outcome(number, written) == Ok(stuffed(input, out)) && &*out == content.rest
}

// Replays measuring.
pub fn is_length_same(mut content: Content) -> bool {
    let length = content.two_bytes() as usize;
    stuffing::rbsp_length(content.rest) == length
}
