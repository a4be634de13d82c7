//! The images that words name, each once, and those with which processes start.
ghost use Rattle.std.specs.Prelude.{◌≡◌, ◌≤◌, ◌^◌, ◌<◌, ℕ, map, length, All, IfOk, IfSome, bytes_eq, position};
ghost use Rattle.std.specs.List.{list_any};
ghost use Rattle.command_edge.specs.ImageWords.{starts, name_in, image_names, number_of, number_started, first_images};

use std::alloc::{AllocError, Global};

// Whether the image of a word starts a process.
fn starts(word: &str) -> bool
    ensures { result ≡ starts word.now }
{
    !word.starts_with('=')
}

// The name in a word.
fn name_in(word: &str) -> &str
    ensures { result.now ≡ name_in word.now }
{
    match word.strip_prefix('=') {
        Some(name) => name,
        None => word,
    }
}

fn is_same(some: &str, other: &str) -> bool
    ensures { result ≡ bytes_eq some.now other.now }
{
    some == other
}

// Whether a name is one of these.
fn is_among(names: &[&str], name: &str) -> bool
    ensures { result ≡ list_any (λ other. bytes_eq other.now name.now) names.now }
{
    names.iter().any(|other| is_same(other, name))
}

/// The names of the images of these words, the one of number 1 first: each name once, in the order in
/// which they first appear. A word is a name, or one after a `=`.
pub fn image_names<'a>(alloc: Global, words: &[&'a str]) -> Result<Vec<&'a str>, AllocError>
    ensures few { IfOk result (λ names. length names.items ≤ length words.now) }
    ensures short { (most : ℕ) → All (λ word. length (name_in word.now) < most) words.now
        → IfOk result (λ names. All (λ name. length name.now < most) names.items) }
    ensures exact { IfOk result (λ names. map (λ name. name.now) names.items ≡ image_names (map (λ word. word.now) words.now)) }
{
    let mut names = Vec::new(alloc);
    for &word in words {
        let name = name_in(word);
        if !is_among(names.as_slice(), name) {
            names.push(name)?;
        }
    }
    Ok(names)
}

// The place of a name.
fn place_of(names: &[&str], name: &str) -> Option<usize>
    ensures place { result ≡ position (λ other. bytes_eq other.now name.now) names.now }
    ensures within { IfSome result (λ place. place < length names.now) }
{
    names.iter().position(|other| is_same(other, name))
}

// The number of the image of this name.
fn number_of(names: &[&str], name: &str) -> Option<u32>
    requires { length names.now < 2 ^ 32 }
    ensures range { IfSome result (λ number. (1 ≤ number) × (number ≤ length names.now)) }
    ensures exact { result ≡ number_of (map (λ name. name.now) names.now) name.now }
{
    match place_of(names, name) {
        Some(place) => Some(place as u32 + 1),
        None => None,
    }
}

// The number of the image that a word starts a process of, where it does.
fn number_started(names: &[&str], word: &str) -> Option<u32>
    requires { length names.now < 2 ^ 32 }
    ensures range { IfSome result (λ number. (1 ≤ number) × (number ≤ length names.now)) }
    ensures exact { result ≡ number_started (map (λ name. name.now) names.now) word.now }
{
    if starts(word) {
        number_of(names, word)
    } else {
        None
    }
}

/// The numbers of the images that the first processes start with, in the order of these words: those
/// that aren't after a `=`.
pub fn first_images(alloc: Global, names: &[&str], words: &[&str]) -> Result<Vec<u32>, AllocError>
    requires { length names.now < 2 ^ 32 }
    ensures range { IfOk result (λ first. All (λ number. (1 ≤ number) × (number ≤ length names.now)) first.items) }
    ensures exact { IfOk result (λ first. first.items ≡ first_images (map (λ name. name.now) names.now) (map (λ word. word.now) words.now)) }
{
    let mut first = Vec::new(alloc);
    for word in words {
        if let Some(number) = number_started(names, word) {
            first.push(number)?;
        }
    }
    Ok(first)
}
