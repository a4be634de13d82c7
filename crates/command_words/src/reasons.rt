//! The first word that isn't what it is for, where words ask for no command. Reading (command.rt) and this must
//! refuse the same words; a law says so.
ghost use Rattle.std.specs.Prelude.{◌≡◌, map, option_map, find, not, IfOk, [], ◌∷◌, true, Some, None, if◌then◌else◌};
ghost use Rattle.std.specs.List.{list_any};
ghost use Rattle.command_edge.specs.ImageWords.{starts};
ghost use Rattle.command_words.specs.Words.{is_image_word, is_plain, without_trace};
ghost use Rattle.command_words.specs.declared.reasons.Argument.TheVariants.{Frames, Swap, Limit, Schedule};
ghost use Rattle.command_words.specs.Reasons.{why_of, least_of, most_of, takes, bad_image, bad_plain, none_starts, why_images, why_rest, why_words, why_form, frames_or_one, why_spread, why_sweep, why_policies, why_other, why_repage, why_command, why_bad, RefusedHaveReasons};

use crate::command::owners_first;
use crate::image_words::{ImageWords, from_place};
use crate::limits::{
    JOURNAL_ENTRIES, LAST_LOAD, LEAST_FRAMES, LEAST_SWAP, MOST_COMPARED, MOST_FRAMES, MOST_LIMIT,
    MOST_SHORT_LIMIT, MOST_SWAP,
};
use crate::word::{is_image_word, is_name, is_plain, read_number, starts};
use std::alloc::{AllocError, Global};

/// What a word of a command is for.
#[derive(Clone, Copy, PartialEq, Eq, Debug, Drop)]
pub enum Argument {
    /// How many page frames there are.
    Frames,
    /// How many blocks of swap there are.
    Swap,
    /// How many instructions may run.
    Limit,
    /// The same, of a run about whose references `opt` and `curve` are asked.
    ShortLimit,
    /// The number of a load.
    Number,
    /// How many frames a replacement has on the references of a run.
    Size,
    /// How many frames policies have on a file of references.
    Compared,
    /// How many of so many frames the front hand is ahead.
    Spread(u32),
    /// The first number of frames of several.
    FirstFrames,
    /// Behind which there is no number of frames. It isn't before this one.
    LastFrames(u32),
    /// How many frames lie between one number and the next.
    MoreFrames,
    /// How many entries of a journal are made.
    Entries,
    /// The first step of a film.
    From,
    /// Behind which there is no step of a film.
    To,
    /// How many entries lie between one step of a film and the next.
    Every,
    /// The name of a schedule.
    Schedule,
    /// The name of a transcript.
    Transcript,
    /// The name of a trace, which is a transcript with its paging entries.
    Trace,
    /// The name of a source.
    Source,
    /// The name of a file of references.
    ReferenceFile,
    /// The name of an image whose instructions are listed.
    Listed,
    /// The name of an image of a run, or one after a `=`.
    Image,
}

/// Why words are no command's.
#[derive(Clone, Copy, Debug, Drop)]
pub enum BadWord<'a> {
    /// There is no word.
    NoCommand,
    /// The first word names no command.
    Unknown(&'a str),
    /// A word is empty or begins with a hyphen, and is no option of the command.
    NotPlain(&'a str),
    /// There is no word for an argument.
    Missing(Argument),
    /// A word isn't what its argument may be.
    Refused(Argument, &'a str),
    /// There is a word more than the command has.
    TooMany(&'a str),
    /// There are more than 16 words of images.
    TooManyImages,
    /// Each image stands after a `=`.
    NoneStarts,
}

impl Argument {
    /// The least that it may be, where it is a number.
    pub fn least(self) -> u32
        ensures { result ≡ least_of self }
    {
        match self {
            Argument::Frames => LEAST_FRAMES,
            Argument::Swap => LEAST_SWAP,
            Argument::Limit | Argument::ShortLimit | Argument::Size | Argument::Every => 1,
            Argument::Compared | Argument::FirstFrames | Argument::MoreFrames => 1,
            Argument::LastFrames(first) => first,
            _ => 0,
        }
    }

    /// The most that it may be, where it is a number.
    pub fn most(self) -> u32
        ensures { result ≡ most_of self }
    {
        match self {
            Argument::Frames | Argument::Size => MOST_FRAMES,
            Argument::Swap => MOST_SWAP,
            Argument::Limit => MOST_LIMIT,
            Argument::ShortLimit => MOST_SHORT_LIMIT,
            Argument::Number => LAST_LOAD,
            Argument::Entries | Argument::From | Argument::To | Argument::Every => JOURNAL_ENTRIES,
            Argument::Compared
            | Argument::FirstFrames
            | Argument::LastFrames(_)
            | Argument::MoreFrames => MOST_COMPARED,
            Argument::Spread(frames) => frames.saturating_sub(1),
            _ => 0,
        }
    }

    // Whether a word may stand for it.
    #[tactic(auto, unfolding(crate::specs::Reasons::takes))]
    fn takes(self, word: &str) -> bool
        ensures { result ≡ takes self word.now }
    {
        match self {
            Argument::Schedule
            | Argument::Transcript
            | Argument::Trace
            | Argument::Source
            | Argument::ReferenceFile => is_name(word),
            Argument::Listed => is_name(word) && starts(word),
            Argument::Image => is_image_word(word),
            _ => read_number(word, self.least(), self.most()).is_some(),
        }
    }
}

fn first_unnamed<'a>(words: &[&'a str]) -> Option<&'a str>
    ensures { result ≡ find (λ word. not (is_image_word word.now)) words.now }
{
    words.iter().copied().find(|word| !is_image_word(word))
}

// The first of these words that is none of an image.
fn bad_image<'a>(words: &[&'a str]) -> Option<BadWord<'a>>
    ensures { option_map why_of result ≡ bad_image (map (λ word. word.now) words.now) }
{
    match first_unnamed(words) {
        Some(word) => Some(BadWord::Refused(Argument::Image, word)),
        None => None,
    }
}

fn first_unplain<'a>(words: &[&'a str]) -> Option<&'a str>
    ensures { result ≡ find (λ word. not (is_plain word.now)) words.now }
{
    words.iter().copied().find(|word| !is_plain(word))
}

// The first of these words that is empty or begins with a hyphen.
fn bad_plain<'a>(words: &[&'a str]) -> Option<BadWord<'a>>
    ensures { option_map why_of result ≡ bad_plain (map (λ word. word.now) words.now) }
{
    match first_unplain(words) {
        Some(word) => Some(BadWord::NotPlain(word)),
        None => None,
    }
}

// Why no word starts a process, where none does.
fn none_starts<'a>(words: &[&'a str]) -> Option<BadWord<'a>>
    ensures { option_map why_of result
        ≡ (if list_any starts (map (λ word. word.now) words.now) then None else Some (none_starts (map (λ word. word.now) words.now))) }
{
    if ImageWords::all(words).starts_some() {
        None
    } else if words.is_empty() {
        Some(BadWord::Missing(Argument::Image))
    } else {
        Some(BadWord::NoneStarts)
    }
}

#[tactic(auto, unfolding(crate::specs::Reasons::why_images))]
fn why_images<'a>(words: &[&'a str]) -> Option<BadWord<'a>>
    ensures { option_map why_of result ≡ why_images (map (λ word. word.now) words.now) }
{
    if words.len() <= 16 {
        bad_image(words).or_else(|| none_starts(words))
    } else {
        Some(BadWord::TooManyImages)
    }
}

#[tactic(auto, unfolding(crate::specs::Reasons::why_rest))]
fn why_rest<'a>(images: bool, words: &[&'a str]) -> Option<BadWord<'a>>
    ensures { option_map why_of result ≡ why_rest images (map (λ word. word.now) words.now) }
{
    if images {
        return why_images(words);
    }
    match words {
        [] => None,
        [word, ..] => Some(BadWord::TooMany(word)),
    }
}

// What is wrong with words for these arguments, in order, and then for images or no more.
#[tactic(auto, unfolding(crate::specs::Reasons::why_words))]
fn why_words<'a>(arguments: &[Argument], images: bool, words: &[&'a str]) -> Option<BadWord<'a>>
    ensures { option_map why_of result ≡ why_words arguments.now images (map (λ word. word.now) words.now) }
{
    let [argument, others @ ..] = arguments else {
        return why_rest(images, words);
    };
    let [word, more @ ..] = words else {
        return Some(BadWord::Missing(*argument));
    };
    if argument.takes(word) {
        why_words(others, images, more)
    } else {
        Some(BadWord::Refused(*argument, word))
    }
}

#[tactic(auto, unfolding(crate::specs::Reasons::why_form))]
fn why_form<'a>(arguments: &[Argument], images: bool, words: &[&'a str]) -> Option<BadWord<'a>>
    ensures { option_map why_of result ≡ why_form arguments.now images (map (λ word. word.now) words.now) }
{
    bad_plain(words).or_else(|| why_words(arguments, images, words))
}

// How many frames a word says that there are, and one where it isn't such a number.
fn frames_or_one(word: &str) -> u32
    ensures { result ≡ frames_or_one word.now }
{
    read_number(word, 1, MOST_COMPARED).unwrap_or(1)
}

// What is wrong with the words `N hands`, of which the first is this, and with those after them.
fn why_spread<'a>(frames: &'a str, words: &[&'a str]) -> Option<BadWord<'a>>
    ensures { option_map why_of result ≡ why_spread frames.now (map (λ word. word.now) words.now) }
{
    if Argument::Compared.takes(frames) {
        let arguments = [
            Argument::Spread(frames_or_one(frames)),
            Argument::ReferenceFile,
        ];
        why_words(&arguments, false, words)
    } else {
        Some(BadWord::Refused(Argument::Compared, frames))
    }
}

// What is wrong with words that ask for several numbers of frames, of which the first is this.
fn why_sweep<'a>(from: &str, words: &[&'a str]) -> Option<BadWord<'a>>
    ensures { option_map why_of result ≡ why_sweep from.now (map (λ word. word.now) words.now) }
{
    let arguments = [
        Argument::FirstFrames,
        Argument::LastFrames(frames_or_one(from)),
        Argument::MoreFrames,
        Argument::ReferenceFile,
    ];
    why_words(&arguments, false, words)
}

// What is wrong with the words after `policies`, none of which is an option.
#[tactic(auto, unfolding(crate::specs::Reasons::why_policies))]
fn why_policies<'a>(words: &[&'a str]) -> Option<BadWord<'a>>
    ensures { option_map why_of result ≡ why_policies (map (λ word. word.now) words.now) }
{
    let [first, second, more @ ..] = words else {
        return why_words(&[Argument::Compared, Argument::ReferenceFile], false, words);
    };
    if more.is_empty() {
        why_words(&[Argument::Compared, Argument::ReferenceFile], false, words)
    } else if *second == "hands" {
        why_spread(first, more)
    } else {
        why_sweep(first, words)
    }
}

// What is wrong with the words after the name of a command other than `run` and `repage`.
#[tactic(auto, unfolding(crate::specs::Reasons::why_other))]
fn why_other<'a>(name: &'a str, words: &[&'a str]) -> Option<BadWord<'a>>
    ensures { option_map why_of result ≡ why_other name.now (map (λ word. word.now) words.now) }
{
    match name {
        "load" => why_form(&[Argument::Number], false, words),
        "replay" => why_form(&[Argument::Transcript], true, words),
        "as" => why_form(&[Argument::Source], false, words),
        "dis" => why_form(&[Argument::Listed], false, words),
        "opt" => why_form(
            &[
                Argument::Size,
                Argument::Frames,
                Argument::Swap,
                Argument::ShortLimit,
                Argument::Schedule,
            ],
            true,
            words,
        ),
        "curve" => why_form(
            &[
                Argument::Frames,
                Argument::Swap,
                Argument::ShortLimit,
                Argument::Schedule,
            ],
            true,
            words,
        ),
        "owners" => why_form(
            &[
                Argument::Entries,
                Argument::Frames,
                Argument::Swap,
                Argument::Limit,
                Argument::Schedule,
            ],
            true,
            words,
        ),
        "film" => why_form(
            &[
                Argument::From,
                Argument::To,
                Argument::Every,
                Argument::Frames,
                Argument::Swap,
                Argument::Limit,
                Argument::Schedule,
            ],
            true,
            words,
        ),
        "stats" => why_form(
            &[
                Argument::Frames,
                Argument::Swap,
                Argument::Limit,
                Argument::Schedule,
            ],
            true,
            words,
        ),
        "refs" => why_form(
            &[
                Argument::Frames,
                Argument::Swap,
                Argument::Limit,
                Argument::Schedule,
            ],
            true,
            words,
        ),
        "grade" => why_form(
            &[
                Argument::Frames,
                Argument::Swap,
                Argument::Limit,
                Argument::Schedule,
                Argument::Trace,
            ],
            true,
            words,
        ),
        "policies" => bad_plain(words).or_else(|| why_policies(words)),
        _ => Some(BadWord::Unknown(name)),
    }
}

// What is wrong with the words after `repage`.
#[tactic(auto, unfolding(crate::specs::Reasons::why_repage))]
fn why_repage<'a>(words: &'a [&'a str]) -> Option<BadWord<'a>>
    ensures { option_map why_of result ≡ why_repage (map (λ word. word.now) words.now) }
{
    if owners_first(words) {
        let arguments = [
            Argument::Entries,
            Argument::Frames,
            Argument::Swap,
            Argument::Trace,
        ];
        why_form(&arguments, true, from_place(words, 1))
    } else {
        why_form(
            &[Argument::Frames, Argument::Swap, Argument::Trace],
            true,
            words,
        )
    }
}

// What is wrong with the words after `run`.
fn why_run<'a>(alloc: Global, words: &'a [&'a str]) -> Result<Option<BadWord<'a>>, AllocError>
    ensures { IfOk result
        (λ bad. option_map why_of bad ≡ why_form (Frames ∷ Swap ∷ Limit ∷ Schedule ∷ []) true (without_trace (map (λ word. word.now) words.now))) }
{
    let plain = ImageWords::without_trace(words).to_vec(alloc)?;
    let arguments = [
        Argument::Frames,
        Argument::Swap,
        Argument::Limit,
        Argument::Schedule,
    ];
    Ok(why_form(&arguments, true, plain.as_slice()))
}

// What is wrong with the words after the name of a command.
#[tactic(auto, unfolding(crate::specs::Reasons::why_command))]
fn why_command<'a>(
    alloc: Global,
    name: &'a str,
    words: &'a [&'a str],
) -> Result<Option<BadWord<'a>>, AllocError>
    ensures { IfOk result (λ bad. option_map why_of bad ≡ why_command name.now (map (λ word. word.now) words.now)) }
{
    if name == "run" {
        why_run(alloc, words)
    } else if name == "repage" {
        Ok(why_repage(words))
    } else {
        Ok(why_other(name, words))
    }
}

/// Why the words after the program's name ask for no command: the first that isn't what it is for. None exactly where
/// they ask for one. Only memory can be wanting. Source: this project's profile.
#[tactic(auto, unfolding(crate::specs::Reasons::why_bad))]
pub fn bad_word<'a>(alloc: Global, words: &'a [&'a str]) -> Result<Option<BadWord<'a>>, AllocError>
    ensures { IfOk result (λ bad. option_map why_of bad ≡ why_bad (map (λ word. word.now) words.now)) }
{
    match words {
        [] => Ok(Some(BadWord::NoCommand)),
        [name, words @ ..] => why_command(alloc, name, words),
    }
}

/// Words have a reason exactly where they ask for no command.
pub fn refused_words_have_reasons()
    ensures { RefusedHaveReasons }
{}
