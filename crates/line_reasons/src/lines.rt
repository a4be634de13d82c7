//! One line of a text, found by its number, and cut at blanks into words.
ghost use Rattle.std.specs.Prelude.{◌≡◌, ◌≤◌, ◌==◌, length, take, drop, option_map};
ghost use Rattle.run_text.specs.Pieces.{line_len};
ghost use Rattle.line_reasons.specs.Lines.{line_at, ends_in, text_in, blank_in, word_in, rest_in};

// Where the first line ends.
fn line_end(text: &[u8]) -> usize
    ensures len { result ≡ line_len text.now }
    ensures within { result ≤ length text.now }
{
    for (i, byte) in text.iter().enumerate() {
        if *byte == b'\n' {
            return i + 1;
        }
    }
    text.len()
}

fn after_line(text: &[u8]) -> &[u8]
    ensures { result.now ≡ drop (line_len text.now) text.now }
{
    &text[line_end(text)..]
}

fn first_line(text: &[u8]) -> &[u8]
    ensures { result.now ≡ take (line_len text.now) text.now }
{
    &text[..line_end(text)]
}

/// The line of this number, counted from 1; an empty one after the last.
pub fn line_at(bytes: &[u8], number: u32) -> &[u8]
    ensures { result.now ≡ line_at number bytes.now }
{
    let mut rest = bytes;
    for _past in 0..number.saturating_sub(1) {
        rest = after_line(rest);
    }
    first_line(rest)
}

/// Whether this byte is the last.
#[tactic(auto, unfolding(crate::specs::Lines::ends_in))]
pub fn ends_in(byte: u8, text: &[u8]) -> bool
    ensures { result ≡ ends_in byte text.now }
{
    !text.is_empty() && text[text.len() - 1] == byte
}

/// A line without its line feed.
#[tactic(auto, unfolding(crate::specs::Lines::text_in))]
pub fn text_in(line: &[u8]) -> &[u8]
    ensures { result.now ≡ text_in line.now }
{
    if ends_in(b'\n', line) {
        &line[..line.len().saturating_sub(1)]
    } else {
        line
    }
}

fn blank_in(text: &[u8]) -> Option<usize>
    ensures { result ≡ blank_in text.now }
{
    text.iter().position(|byte| *byte == b' ')
}

/// The word before the first blank.
#[tactic(auto, unfolding(crate::specs::Lines::word_in))]
pub fn word_in(text: &[u8]) -> &[u8]
    ensures { result.now ≡ word_in text.now }
{
    match blank_in(text) {
        Some(place) => &text[..place],
        None => text,
    }
}

/// What stands after the first blank, where there is one.
#[tactic(auto, unfolding(crate::specs::Lines::rest_in))]
pub fn rest_in(text: &[u8]) -> Option<&[u8]>
    ensures { option_map (λ rest. rest.now) result ≡ rest_in text.now }
{
    match blank_in(text) {
        Some(place) => Some(&text[place + 1..]),
        None => None,
    }
}
