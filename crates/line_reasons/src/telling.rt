//! A word of a file as it is told: itself where it is short and printable, else three dots.
ghost use Rattle.std.specs.Prelude.{◌≡◌};
ghost use Rattle.std.specs.List.{list_all};
ghost use Rattle.line_reasons.specs.Shown.{is_graphic, shown};

fn are_graphic(word: &[u8]) -> bool
    ensures { result ≡ list_all is_graphic word.now }
{
    word.iter().all(|byte| (33..=126).contains(byte))
}

/// A word as it is told: itself where it is short and printable.
#[tactic(auto, unfolding(crate::specs::Shown::shown))]
pub fn shown<'a>(word: &'a [u8]) -> &'a [u8]
    ensures { result.now ≡ shown word.now }
{
    if word.len() <= 20 && are_graphic(word) {
        word
    } else {
        b"..."
    }
}
