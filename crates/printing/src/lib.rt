// What programs print beside text.
#![tactic(auto)]

// Standard output.
const STDOUT_FILENO: i32 = 1;

// Prints a word and a count, on a line.
pub fn print_count(word: &[u8], count: u64) {
    io::write_all(STDOUT_FILENO, word);
    io::write_all(STDOUT_FILENO, b" ");
    io::print_decimal(STDOUT_FILENO, count);
    io::write_all(STDOUT_FILENO, b"\n");
}
