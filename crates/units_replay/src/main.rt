// Replays recorded answers of the reader to whole units, and prints how many there are and how many differ.
#![tactic(auto)]

mod unit;

use replay_list::Replays;

fn main() {
    let mut content = [0u8; 16384];
    let is_same = |_tag, content: &[u8]| unit::is_same(content);
    replay_list::replay(&mut content, Replays { is_same });
}
