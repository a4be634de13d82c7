//! What a single word is: a number, a name, or an image's word.
ghost use Rattle.std.specs.Prelude.{◌≡◌, ◌≤◌, IsTrue, IfSome};
ghost use Rattle.std.specs.Char.{is_ascii_digit};
ghost use Rattle.std.specs.List.{list_all};
ghost use Rattle.command_edge.specs.ImageWords.{IsShortName, starts};
ghost use Rattle.command_words.specs.Words.{is_plain, decimal_of, number_in, is_name, is_image_word, is_trace};

// Whether a word has a byte and doesn't begin with a hyphen.
#[tactic(auto, unfolding(crate::specs::Words::is_plain))]
pub(crate) fn is_plain(word: &str) -> bool
    ensures { result ≡ is_plain word.now }
{
    !word.is_empty() && !word.starts_with('-')
}

fn are_digits(word: &str) -> bool
    ensures { result ≡ list_all is_ascii_digit word.now }
{
    word.bytes().all(|byte| byte.is_ascii_digit())
}

// The number that 1 to 8 digits write in decimal.
#[tactic(auto, unfolding(crate::specs::Words::decimal_of, crate::specs::Words::has_up_to))]
fn decimal_of(word: &str) -> Option<u32>
    ensures { result ≡ decimal_of word.now }
{
    if word.len() <= 8 && are_digits(word) {
        word.parse().ok()
    } else {
        None
    }
}

// A number from `least` to `most`.
#[tactic(auto, unfolding(crate::specs::Words::number_in, crate::specs::Words::in_range))]
pub(crate) fn read_number(word: &str, least: u32, most: u32) -> Option<u32>
    ensures exact { result ≡ number_in least most word.now }
    ensures range { IfSome result (λ number. (least ≤ number) × (number ≤ most)) }
{
    let number = decimal_of(word)?;
    if (least..=most).contains(&number) {
        Some(number)
    } else {
        None
    }
}

#[tactic(auto, unfolding(crate::specs::Words::is_name, crate::specs::Words::has_up_to))]
pub(crate) fn is_name(word: &str) -> bool
    ensures exact { result ≡ is_name word.now }
    ensures fits { IsTrue result → IsShortName word.now }
{
    (1..=63).contains(&word.len())
}

// Whether the image of a word starts a process.
pub(crate) fn starts(word: &str) -> bool
    ensures { result ≡ starts word.now }
{
    !word.starts_with('=')
}

// Whether a word is a name, or one after a `=`.
#[tactic(auto, unfolding(crate::specs::Words::is_image_word))]
pub(crate) fn is_image_word(word: &str) -> bool
    ensures { result ≡ is_image_word word.now }
{
    match word.strip_prefix('=') {
        Some(name) => is_name(name),
        None => is_name(word),
    }
}

#[tactic(auto, unfolding(crate::specs::Words::is_trace))]
pub(crate) fn is_trace(word: &str) -> bool
    ensures { result ≡ is_trace word.now }
{
    word == "--trace"
}
