//! The line that tells which word is wrong, what it is for, and what it may be.
ghost use Rattle.std.specs.Prelude.{◌≡◌, ◌++◌, map, option_map, IfOk, OnOk};
ghost use Rattle.command_words.specs.Reasons.{why_of, NoCommand, Unknown, NotPlain, Missing, Refused, TooManyImages, NoneStarts};
ghost use Rattle.command_words.specs.Explaining.{argument_name, range_text, kind_text, why_text, why_line, words_explained};

use crate::reasons::{Argument, BadWord, bad_word};
use command_edge::put_number;
use std::alloc::{AllocError, Global};

/// The commands that there are.
const COMMANDS: &[u8] =
    b"run, load, opt, curve, owners, film, stats, refs, grade, repage, policies, replay, as or dis";

fn argument_name(argument: Argument) -> &'static [u8]
    ensures { result.now ≡ argument_name argument }
{
    match argument {
        Argument::Frames => b"FRAMES",
        Argument::Swap => b"SWAP",
        Argument::Limit | Argument::ShortLimit => b"LIMIT",
        Argument::Number => b"NUMBER",
        Argument::Size | Argument::Compared | Argument::Entries => b"N",
        Argument::Spread(_) => b"SPREAD",
        Argument::From | Argument::FirstFrames => b"FROM",
        Argument::To | Argument::LastFrames(_) => b"TO",
        Argument::Every | Argument::MoreFrames => b"EVERY",
        Argument::Schedule => b"SCHED",
        Argument::Transcript => b"TRANSCRIPT",
        Argument::Trace => b"TRACE",
        Argument::Source => b"SOURCE",
        Argument::ReferenceFile => b"FILE",
        Argument::Listed | Argument::Image => b"IMAGE",
    }
}

fn put_range(text: &mut Vec<u8>, argument: Argument) -> Result<(), AllocError>
    ensures { OnOk result (text.new.items ≡ text.old.items ++ range_text argument) }
{
    put_number(text, argument.least())?;
    text.extend_from_slice(b" to ")?;
    put_number(text, argument.most())
}

fn put_kind(text: &mut Vec<u8>, argument: Argument) -> Result<(), AllocError>
    ensures { OnOk result (text.new.items ≡ text.old.items ++ kind_text argument) }
{
    match argument {
        Argument::Schedule
        | Argument::Transcript
        | Argument::Trace
        | Argument::Source
        | Argument::ReferenceFile => text.extend_from_slice(b"a name of 1 to 63 bytes"),
        Argument::Listed => {
            text.extend_from_slice(b"a name of 1 to 63 bytes, with no = before it")
        }
        Argument::Image => {
            text.extend_from_slice(b"a name of 1 to 63 bytes, or = and such a name")
        }
        _ => put_range(text, argument),
    }
}

// What is said of a word that names no command.
fn put_unknown(text: &mut Vec<u8>, name: &str) -> Result<(), AllocError>
    ensures { OnOk result (text.new.items ≡ text.old.items ++ why_text (Unknown name.now)) }
{
    if name.is_empty() {
        text.extend_from_slice(b"a word is empty")
    } else {
        text.extend_from_slice(name.as_bytes())?;
        text.extend_from_slice(b" is no command: ")?;
        text.extend_from_slice(COMMANDS)
    }
}

// What is said of a word that is no option.
fn put_option(text: &mut Vec<u8>, word: &str) -> Result<(), AllocError>
    ensures { OnOk result (text.new.items ≡ text.old.items ++ why_text (NotPlain word.now)) }
{
    if word.is_empty() {
        text.extend_from_slice(b"a word is empty")
    } else {
        text.extend_from_slice(word.as_bytes())?;
        text.extend_from_slice(b" is no option of this command")
    }
}

// What is said of an argument that is missing.
fn put_missing(text: &mut Vec<u8>, argument: Argument) -> Result<(), AllocError>
    ensures { OnOk result (text.new.items ≡ text.old.items ++ why_text (Missing argument)) }
{
    text.extend_from_slice(argument_name(argument))?;
    text.extend_from_slice(b" is missing: ")?;
    put_kind(text, argument)?;
    Ok(())
}

// What is said of a word that isn't what its argument may be.
fn put_refused(text: &mut Vec<u8>, argument: Argument, word: &str) -> Result<(), AllocError>
    ensures { OnOk result (text.new.items ≡ text.old.items ++ why_text (Refused argument word.now)) }
{
    text.extend_from_slice(argument_name(argument))?;
    text.extend_from_slice(b" is ")?;
    text.extend_from_slice(word.as_bytes())?;
    text.extend_from_slice(b": ")?;
    put_kind(text, argument)
}

fn put_no_command(text: &mut Vec<u8>) -> Result<(), AllocError>
    ensures { OnOk result (text.new.items ≡ text.old.items ++ why_text NoCommand) }
{
    text.extend_from_slice(b"no command is named: ")?;
    text.extend_from_slice(COMMANDS)
}

fn put_too_many_images(text: &mut Vec<u8>) -> Result<(), AllocError>
    ensures { OnOk result (text.new.items ≡ text.old.items ++ why_text TooManyImages) }
{
    text.extend_from_slice(b"there are more than 16 words of images")
}

fn put_none_starts(text: &mut Vec<u8>) -> Result<(), AllocError>
    ensures { OnOk result (text.new.items ≡ text.old.items ++ why_text NoneStarts) }
{
    text.extend_from_slice(b"no image is started: each has a = before it")
}

fn put_why(text: &mut Vec<u8>, bad: BadWord<'_>) -> Result<(), AllocError>
    ensures { OnOk result (text.new.items ≡ text.old.items ++ why_text (why_of bad.entry)) }
{
    match bad {
        BadWord::NoCommand => put_no_command(text),
        BadWord::Unknown(name) => put_unknown(text, name),
        BadWord::NotPlain(word) => put_option(text, word),
        BadWord::Missing(argument) => put_missing(text, argument),
        BadWord::Refused(argument, word) => put_refused(text, argument, word),
        BadWord::TooMany(word) => {
            text.extend_from_slice(word.as_bytes())?;
            text.extend_from_slice(b" is a word too many")
        }
        BadWord::TooManyImages => put_too_many_images(text),
        BadWord::NoneStarts => put_none_starts(text),
    }
}

fn why_line(alloc: Global, bad: BadWord<'_>) -> Result<Vec<u8>, AllocError>
    ensures { IfOk result (λ text. text.items ≡ why_line (why_of bad.entry)) }
{
    let mut text = Vec::from_slice(alloc, b"vmrun: ")?;
    put_why(&mut text, bad)?;
    text.push(b'\n')?;
    Ok(text)
}

/// Why the words after the program's name ask for no command, as a line that names the word, what it is for, and what
/// that may be: `vmrun: FRAMES is 63: 64 to 4096`. None where they ask for one. Only memory can be wanting. Source: this
/// project's profile.
pub fn explain_words<'a>(alloc: Global, words: &'a [&'a str]) -> Result<Option<Vec<u8>>, AllocError>
    ensures { IfOk result (λ text. option_map (λ line. line.items) text ≡ words_explained (map (λ word. word.now) words.now)) }
{
    match bad_word(alloc, words)? {
        Some(bad) => Ok(Some(why_line(alloc, bad)?)),
        None => Ok(None),
    }
}
