// Replays recorded answers of section lookup to records, and prints how many there are and how many differ.
#![tactic(auto)]

mod sections;

use replay_list::Replays;

// Whether a case is as recorded: all sections of a record are asked under tag 1.
fn is_same(tag: u8, content: &[u8]) -> bool {
    tag == 1 && sections::is_same(content)
}

fn main() {
    let mut content = [0u8; 4096];
    replay_list::replay(&mut content, Replays { is_same });
}
