// A buffer before and after a case.

// Replays a case on a buffer of just the length recorded: the buffer before and the buffer afterwards stand one behind the other.
pub(crate) fn is_buffer_same<F: FnOnce(&mut [u8]) -> bool>(
    buffers: &[u8],
    out: &mut [u8],
    replay: F,
) -> bool
    requires { F.IsAlwaysCallable replay }
{
    let (before, after) = buffers.split_at(buffers.len() / 2);
    let Some(out) = out.get_mut(..before.len()) else {
        return false;
    };
    out.copy_from_slice(before);
    replay(out) && &*out == after
}
