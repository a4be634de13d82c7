//! Reads the line of a part of a move.
ghost use Rattle.std.specs.Prelude.{◌≡◌, ℕ, ◌+◌, ◌==◌, ◌^◌, ◌<◌, ◌≤◌, [], ◌∷◌, MatchOption, IfSome, Some};
ghost use Rattle.kernel_model.specs.declared.part.HandPart.{HandPart as PartOfMove};
ghost use Rattle.repage_command.specs.Grammar.{IsPartWithin};
ghost use Rattle.repage_command.specs.PartFrom.{part_text, is_part_letter, part_alone, part_and_one, part_from, HasPagePart, HasPart};

use kernel_model::HandPart;
use run_text::{page_from, read_numbers, strip_front};
use vm_facts::Page;

// The part of a letter and a page.
fn part_alone(letter: u8, page: Page) -> Option<HandPart>
    ensures is { result ≡ part_alone letter (Some page) }
    ensures parts { IfSome result (HasPagePart letter page []) }
{
    match letter {
        b'E' => Some(HandPart::Expires { page }),
        b'F' => Some(HandPart::Frees { page }),
        _ => None,
    }
}

// The part of a letter, a page and a number.
fn part_and_one(letter: u8, page: Page, n: u32) -> Option<HandPart>
    ensures is { result ≡ part_and_one letter (Some page) n }
    ensures parts { IfSome result (HasPagePart letter page (n ∷ [])) }
{
    match letter {
        b'W' if n > 0 => Some(HandPart::Writes { lo: page, n }),
        _ => None,
    }
}

// The part of a letter, a segment's letter and numbers.
#[tactic(auto, using(crate::proofs::PartTexts::page_part))]
fn part_from(letter: u8, segment: u8, numbers: &[u32]) -> Option<HandPart>
    ensures is { result ≡ part_from letter segment numbers.now }
    ensures parts { IfSome result (HasPart letter segment numbers.now) }
{
    match *numbers {
        [a, b] => match page_from(segment, a, b) {
            Some(page) => part_alone(letter, page),
            None => None,
        },
        [a, b, n] => match page_from(segment, a, b) {
            Some(page) => part_and_one(letter, page, n),
            None => None,
        },
        _ => None,
    }
}

/// Whether a line of this letter is that of a part.
pub fn is_part_letter(letter: u8) -> bool
    ensures { result ≡ is_part_letter letter }
{
    letter == b'E' || letter == b'W' || letter == b'F'
}

/// The part of a line's text.
pub fn read_part_text(text: &[u8]) -> Option<HandPart>
    ensures { MatchOption result ((x : PartOfMove) → IsPartWithin x → text.now ≡ part_text x → ⊥) (λ x. IsPartWithin x × (text.now ≡ part_text x)) }
{
    let Some((letter, rest)) = text.split_first() else {
        return None;
    };
    let Some(after) = strip_front(rest, b" ") else {
        return None;
    };
    let Some((segment, behind)) = after.split_first() else {
        return None;
    };
    let Some(numbers) = read_numbers(behind) else {
        return None;
    };
    let Some(part) = part_from(*letter, *segment, numbers.as_slice()) else {
        return None;
    };
    Some(part)
}
