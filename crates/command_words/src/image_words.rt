//! The words that name images, with `--trace` among them or not. No list is made of them: they stay where they stand.
ghost use Rattle.std.specs.Prelude.{◌≡◌, ◌<◌, ◌≤◌, ◌++◌, length, map, take, drop, position, IsTrue, IfSome, IfOk};
ghost use Rattle.std.specs.List.{list_all, list_any};
ghost use Rattle.command_edge.specs.ImageWords.{starts};
ghost use Rattle.command_words.specs.Command.{word_list, AreImageWords};
ghost use Rattle.command_words.specs.Words.{is_plain, is_image_word, are_image_words, is_trace, without_trace, word_at};

use crate::word::{is_image_word, is_plain, is_trace, starts};
use std::alloc::{AllocError, Global};

fn are_plain(words: &[&str]) -> bool
    ensures { result ≡ list_all (λ word. is_plain word.now) words.now }
{
    words.iter().all(|word| is_plain(word))
}

fn are_each_image_word(words: &[&str]) -> bool
    ensures { result ≡ list_all (λ word. is_image_word word.now) words.now }
{
    words.iter().all(|word| is_image_word(word))
}

fn starts_some(words: &[&str]) -> bool
    ensures { result ≡ list_any (λ word. starts word.now) words.now }
{
    words.iter().any(|word| starts(word))
}

pub(crate) fn has_trace(words: &[&str]) -> bool
    ensures { result ≡ list_any (λ word. is_trace word.now) words.now }
{
    words.iter().any(|word| is_trace(word))
}

// The place of the first `--trace`.
fn trace_of(words: &[&str]) -> Option<usize>
    ensures place { result ≡ position (λ word. is_trace word.now) words.now }
    ensures within { IfSome result (λ place. place < length words.now) }
{
    words.iter().position(|word| is_trace(word))
}

// The words from a place on; none where there are no more.
pub(crate) fn from_place<'a>(words: &'a [&'a str], place: usize) -> &'a [&'a str]
    ensures { result.now ≡ drop place words.now }
{
    if place < words.len() {
        &words[place..]
    } else {
        &[]
    }
}

// The word at a place, or the empty one.
fn word_at<'a>(words: &[&'a str], place: usize) -> &'a str
    ensures { result.now ≡ word_at (map (λ word. word.now) words.now) place }
{
    if place < words.len() {
        words[place]
    } else {
        ""
    }
}

/// The words of a run's images: the option `--trace` may stand among them.
#[derive(Clone, Copy, Debug, Drop)]
pub struct ImageWords<'a> {
    // those before the option, and those after it
    before: &'a [&'a str],
    after: &'a [&'a str],
}

impl<'a> ImageWords<'a> {
    // All of these words.
    pub(crate) fn all(words: &'a [&'a str]) -> Self
        ensures { word_list result ≡ words.now }
    {
        ImageWords {
            before: words,
            after: &[],
        }
    }

    // These words without the first `--trace`.
    pub(crate) fn without_trace(words: &'a [&'a str]) -> Self
        ensures { map (λ word. word.now) (word_list result) ≡ without_trace (map (λ word. word.now) words.now) }
    {
        match trace_of(words) {
            Some(place) => ImageWords {
                before: &words[..place],
                after: from_place(words, place + 1),
            },
            None => Self::all(words),
        }
    }

    // These words without the fifth, of which there are that many.
    pub(crate) fn without_fifth(words: &'a [&'a str]) -> Self
        requires { 5 ≤ length words.now }
        ensures { word_list result ≡ take 4 words.now ++ drop 5 words.now }
    {
        ImageWords {
            before: &words[..4],
            after: from_place(words, 5),
        }
    }

    fn len(self) -> usize
        ensures { result ≡ length (word_list self.entry) }
    {
        self.before.len() + self.after.len()
    }

    // The word at a place, or the empty one.
    pub(crate) fn word(self, place: usize) -> &'a str
        ensures { result.now ≡ word_at (map (λ word. word.now) (word_list self.entry)) place }
    {
        if place < self.before.len() {
            word_at(self.before, place)
        } else {
            word_at(self.after, place - self.before.len())
        }
    }

    // The words from a place on.
    pub(crate) fn from(self, place: usize) -> Self
        ensures { word_list result ≡ drop place (word_list self.entry) }
    {
        ImageWords {
            before: from_place(self.before, place),
            after: from_place(self.after, place.saturating_sub(self.before.len())),
        }
    }

    // Whether none of them is empty or begins with a hyphen.
    pub(crate) fn are_plain(self) -> bool
        ensures { result ≡ list_all is_plain (map (λ word. word.now) (word_list self.entry)) }
    {
        are_plain(self.before) && are_plain(self.after)
    }

    fn are_each_image_word(self) -> bool
        ensures { result ≡ list_all is_image_word (map (λ word. word.now) (word_list self.entry)) }
    {
        are_each_image_word(self.before) && are_each_image_word(self.after)
    }

    pub(crate) fn starts_some(self) -> bool
        ensures { result ≡ list_any starts (map (λ word. word.now) (word_list self.entry)) }
    {
        starts_some(self.before) || starts_some(self.after)
    }

    // Whether they are up to 16 words of images, one of which starts a process.
    #[tactic(auto, unfolding(crate::specs::Words::are_image_words))]
    pub(crate) fn are_image_words(self) -> bool
        ensures exact { result ≡ are_image_words (map (λ word. word.now) (word_list self.entry)) }
        ensures fits { IsTrue result → AreImageWords (word_list self.entry) }
    {
        self.len() <= 16 && self.are_each_image_word() && self.starts_some()
    }

    /// The words as one list. Only memory can be wanting.
    pub fn to_vec(self, alloc: Global) -> Result<Vec<&'a str>, AllocError>
        ensures words { IfOk result (λ words. words.items ≡ word_list self.entry) }
    {
        let mut words = Vec::with_capacity(alloc, self.len())?;
        words.extend_from_slice(self.before)?;
        words.extend_from_slice(self.after)?;
        Ok(words)
    }
}
