// Replays recorded answers on stuffing, reading bits and writing bits, and prints how many there are and how many differ.
#![tactic(auto)]

mod asked;
mod chain;
mod content;
mod expected;
mod reading;
mod stuffed;
mod writing;

use asked::Asked;
use replay_list::Replays;
use replay_numbers::Content;

// Whether a case of stuffing, of the bit reader or of the bit writer is as recorded.
fn is_same(tag: u8, content: &[u8]) -> bool {
    let mut out = [0u8; 1024];
    let content = Content { rest: content };
    match Asked::from(tag) {
        Asked::Unstuffing => stuffed::is_same(content, &mut out, stuffing::ebsp_to_rbsp),
        Asked::RbspLength => stuffed::is_length_same(content),
        Asked::Stuffing => stuffed::is_same(content, &mut out, stuffing::rbsp_to_ebsp),
        Asked::Question(question) => reading::is_question_same(question, content),
        Asked::Reading(step) => reading::is_step_same(step, content),
        Asked::Writing(step) => writing::is_same(step, content, &mut out),
        Asked::Chain => chain::is_same(content, &mut out),
    }
}

fn main() {
    let mut content = [0u8; 4096];
    replay_list::replay(&mut content, Replays { is_same });
}
