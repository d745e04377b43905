// Adds emulation prevention bytes to an RBSP and removes them from a NAL unit's payload.
#![tactic(auto)]

ghost use Rattle.std.specs.Prelude.{◌≤◌, ◌≡◌, IsTrue, leb, length};
ghost use Rattle.std.proofs.lemmas.List.Edits.{sets};
ghost use Rattle.refusals.specs.Lent.{lent, output_after};
ghost use Rattle.refusals.specs.Refusals.{answer_of};
ghost use Rattle.stuffing.specs.Stuffing.{guarded, zeros_behind, unstuff, stuff};
ghost use Rattle.stuffing.specs.Machine.{dropped, zeros_in, more_in};

use refusals::Refusal;

// The zeros that end in a byte, counted up to two.
pub fn zeros_behind(zeros: u32, b: u8) -> u32
    ensures { result ≡ zeros_behind zeros b }
{
    if b != 0 {
        return 0;
    }
    if zeros < 2 { zeros + 1 } else { 2 }
}

// Whether a byte behind so many zeros wants a 03 before it.
pub fn is_guarded(zeros: u32, b: u8) -> bool
    ensures { result ≡ guarded zeros b }
{
    zeros >= 2 && b <= 3
}

// Whether a byte behind two others is a 03 to be dropped.
// As it is (2): adding asks for two zeros too, but of numbers that a 03 was counted into, and for 0 or 1 to add to its places.
fn is_dropped(before: u8, last: u8, b: u8) -> bool
    ensures { result ≡ dropped (zeros_in before last) b }
{
    before == 0 && last == 0 && b == 3
}

// The length of what removing leaves. Three bytes are passed at once where the third isn't 0: so stuffed zeros, whose every third
// byte is a 03 to be dropped, take a step for three bytes.
pub fn rbsp_length(ebsp: &[u8]) -> usize
    ensures { result ≡ length (unstuff ebsp.now) }
{
    let mut n = 0;
    let mut rest = ebsp;
    while let Some((three, behind)) = rest.split_first_chunk::<3>() {
        if is_dropped(three[0], three[1], three[2]) {
            n += 2;
            rest = behind;
        } else if three[2] != 0 {
            n += 3;
            rest = behind;
        } else {
            n += 1;
            rest = &rest[1..];
        }
    }
    n + rest.len()
}

// The loops that store know the zeros behind them by two numbers, the byte last taken and the one before it. Where a 03 was dropped or
// added it counts as one of them, and any number but 0 stands for a byte that is none.

// Stores what removing leaves, and counts it. It has room, and no byte is tested for it.
fn remove(ebsp: &[u8], out: &mut [u8]) -> usize
    requires { length (unstuff ebsp.now) ≤ length out.old }
    ensures counted { result ≡ length (unstuff ebsp.now) }
    ensures stored { out.new ≡ sets out.old 0 (unstuff ebsp.now) }
{
    let mut n = 0;
    let mut before = 1;
    let mut last = 1;
    for &b in ebsp {
        if is_dropped(before, last, b) {
            last = 3;
            continue;
        }
        out[n] = b;
        n += 1;
        before = last;
        last = b;
    }
    n
}

// Whether what removing leaves has room.
// As it is (2): adding has a test of its own, since it lengthens by up to a half and removing never does; the last comparison alone is alike.
fn has_room_removed(ebsp: &[u8], out: &[u8]) -> bool
    ensures { result ≡ leb (length (unstuff ebsp.now)) (length out.now) }
{
    ebsp.len() <= out.len() || rbsp_length(ebsp) <= out.len()
}

// Removes the stuffing of a payload into a lent output: `Ok` says how many bytes were written; those behind them are as before.
// A refusal leaves the output as it was.
// As it is (2): adding has this `if` too; one function for both would take the test, the work and what each promises as parameters.
pub fn ebsp_to_rbsp(ebsp: &[u8], rbsp: &mut [u8]) -> Result<usize, Refusal>
    ensures answered { answer_of result ≡ lent (unstuff ebsp.now) rbsp.old }
    ensures left { rbsp.new ≡ output_after (unstuff ebsp.now) rbsp.old }
{
    if has_room_removed(ebsp, rbsp) {
        Ok(remove(ebsp, rbsp))
    } else {
        Err(Refusal::OutputTooShort)
    }
}

// How many bytes a byte up to 03 behind two others gets before it.
fn more_before(before: usize, last: usize) -> usize
    ensures more { result ≡ more_in before last }
    ensures one { result ≤ 1 }
{
    usize::from(before == 0 && last == 0)
}

// Counts what adding makes, and stores it where STORES says so: it then has room, and no byte is tested for it. Before a byte up
// to 03 a 03 is stored; the byte takes its place, or the next one.
fn add<const STORES: bool>(rbsp: &[u8], out: &mut [u8]) -> usize
    requires { IsTrue STORES → length (stuff rbsp.now) ≤ length out.old }
    ensures counted { result ≡ length (stuff rbsp.now) }
    ensures stored { IsTrue STORES → out.new ≡ sets out.old 0 (stuff rbsp.now) }
{
    let mut n = 0;
    let mut before: usize = 1;
    let mut last: usize = 1;
    for &b in rbsp {
        if b > 3 {
            if STORES {
                out[n] = b;
            }
            n += 1;
            last = 4;
            continue;
        }
        let more = more_before(before, last);
        if STORES {
            out[n] = 3;
            out[n + more] = b;
        }
        n += 1 + more;
        before = last + more;
        last = b as usize;
    }
    let more = more_before(before, last);
    if STORES && more == 1 {
        out[n] = 3;
    }
    n + more
}

// The length of what adding makes.
fn ebsp_length(rbsp: &[u8]) -> usize
    ensures { result ≡ length (stuff rbsp.now) }
{
    add::<false>(rbsp, &mut [])
}

// Whether what adding makes has room: at most one byte is added for two.
fn has_room_added(rbsp: &[u8], out: &[u8]) -> bool
    ensures { result ≡ leb (length (stuff rbsp.now)) (length out.now) }
{
    if out.len() < rbsp.len() {
        return false;
    }
    if rbsp.len() / 2 <= out.len() - rbsp.len() {
        return true;
    }
    ebsp_length(rbsp) <= out.len()
}

// Adds stuffing to an RBSP into a lent output: `Ok` says how many bytes were written; those behind them are as before. A refusal
// leaves the output as it was.
pub fn rbsp_to_ebsp(rbsp: &[u8], ebsp: &mut [u8]) -> Result<usize, Refusal>
    ensures answered { answer_of result ≡ lent (stuff rbsp.now) ebsp.old }
    ensures left { ebsp.new ≡ output_after (stuff rbsp.now) ebsp.old }
{
    if has_room_added(rbsp, ebsp) {
        Ok(add::<true>(rbsp, ebsp))
    } else {
        Err(Refusal::OutputTooShort)
    }
}
