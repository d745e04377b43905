// The rows of a page's table: a bar, a blank, the number, a blank, a bar, a blank, the sentence, a blank, a bar.
use lists::{behind, front};

// What a byte stands for as a digit.
fn digit_of(byte: u8) -> Option<u32> {
    char::from(byte).to_digit(10)
}

// Whether a row of the table stands here.
pub fn is_row(line: &[u8]) -> bool {
    matches!(line, [b'|', _, b'0'..=b'9', ..])
}

// What stands behind the number of a row.
fn behind_number(line: &[u8]) -> &[u8] {
    let digits = behind(line, 2);
    match digits.iter().position(|byte| digit_of(*byte).is_none()) {
        Some(end) => behind(digits, end),
        None => &[],
    }
}

// The number of a row; the greatest where there are too many digits.
pub fn number(line: &[u8]) -> u32 {
    behind(line, 2)
        .iter()
        .map_while(|byte| digit_of(*byte))
        .fold(0u32, |value, digit| {
            value.saturating_mul(10).saturating_add(digit)
        })
}

// The bytes before a blank and a bar.
fn cell(bytes: &[u8]) -> &[u8] {
    match behind(bytes, 1).iter().position(|byte| *byte == b'|') {
        Some(end) => front(bytes, end),
        None => bytes,
    }
}

// The sentence of a row.
pub fn sentence(line: &[u8]) -> &[u8] {
    cell(behind(behind_number(line), 3))
}
