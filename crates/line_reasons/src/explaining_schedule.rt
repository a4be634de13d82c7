//! The line that tells why a schedule is bad: its name, the line's number, and the reason.
ghost use Rattle.std.specs.Prelude.{◌≡◌, ◌++◌, IfOk, IfErr, OnOk, option_map};
ghost use Rattle.io_edge.specs.Calls.{KeepsFiles};
ghost use Rattle.command_edge.specs.Answering.{CountsFault};
ghost use Rattle.line_reasons.specs.ScheduleReasons.{why_of, Missing, Capital, NoLineFeed};
ghost use Rattle.line_reasons.specs.ScheduleExplaining.{argument_name, range_text, given_text, why_text, why_line, line_explained, ExplainsSchedule, LacksSchedule};

use crate::schedule::{Argument, Reason, bad_line};
use crate::telling::shown;
use command_edge::{Unread, put_number, read_file};
use io_edge::Files;
use run_opening::SCHEDULE_BYTES;
use run_text::{Schedule, read_schedule};
use std::alloc::{AllocError, Global};

fn argument_name(argument: Argument) -> &'static [u8]
    ensures { result.now ≡ argument_name argument }
{
    match argument {
        Argument::Process => b"P of d",
        Argument::Turn => b"N of d",
        Argument::Moves => b"N of h",
    }
}

fn put_range(text: &mut Vec<u8>, argument: Argument) -> Result<(), AllocError>
    ensures { OnOk result (text.new.items ≡ text.old.items ++ range_text argument) }
{
    text.extend_from_slice(b"1 to ")?;
    put_number(text, argument.most())
}

// Puts which number has which word.
fn put_given(text: &mut Vec<u8>, argument: Argument, word: &[u8]) -> Result<(), AllocError>
    ensures { OnOk result (text.new.items ≡ text.old.items ++ given_text argument word.now) }
{
    text.extend_from_slice(argument_name(argument))?;
    text.extend_from_slice(b" is ")?;
    text.extend_from_slice(shown(word))
}

fn put_missing(text: &mut Vec<u8>, argument: Argument) -> Result<(), AllocError>
    ensures { OnOk result (text.new.items ≡ text.old.items ++ why_text (Missing argument)) }
{
    text.extend_from_slice(argument_name(argument))?;
    text.extend_from_slice(b" is missing: ")?;
    put_range(text, argument)?;
    Ok(())
}

fn put_capital(text: &mut Vec<u8>, small: u8) -> Result<(), AllocError>
    ensures { OnOk result (text.new.items ≡ text.old.items ++ why_text (Capital small)) }
{
    text.extend_from_slice(b"a capital letter is no event: write ")?;
    text.extend_from_slice(&[small])
}

fn put_no_line_feed(text: &mut Vec<u8>) -> Result<(), AllocError>
    ensures { OnOk result (text.new.items ≡ text.old.items ++ why_text NoLineFeed) }
{
    text.extend_from_slice(b"the last line has no line feed")
}

fn put_reason(text: &mut Vec<u8>, reason: Reason<'_>) -> Result<(), AllocError>
    ensures { OnOk result (text.new.items ≡ text.old.items ++ why_text (why_of reason.entry)) }
{
    match reason {
        Reason::TooManyLines => text.extend_from_slice(b"more than 65536 lines"),
        Reason::NoWord => text.extend_from_slice(b"the line is empty"),
        Reason::CarriageReturn => {
            text.extend_from_slice(b"a carriage return stands before the line's end")
        }
        Reason::Tab => text.extend_from_slice(b"a tab: parts have one blank between them"),
        Reason::Blank => text.extend_from_slice(b"a blank too many: parts have one between them"),
        Reason::Capital(small) => put_capital(text, small),
        Reason::NoEvent(word) => {
            text.extend_from_slice(shown(word))?;
            text.extend_from_slice(b" is no event: d, i, h, w or m")
        }
        Reason::Missing(argument) => put_missing(text, argument),
        Reason::NotNumber(argument, word) => {
            put_given(text, argument, word)?;
            text.extend_from_slice(b": 1 to 8 digits")
        }
        Reason::OutOfRange(argument, word) => {
            put_given(text, argument, word)?;
            text.extend_from_slice(b": ")?;
            put_range(text, argument)
        }
        Reason::TooMany(word) => {
            text.extend_from_slice(shown(word))?;
            text.extend_from_slice(b" is a part too many")
        }
        Reason::NoLineFeed => put_no_line_feed(text),
    }
}

// The line that tells why a line of the schedule of this name is bad.
fn why_line(
    alloc: Global,
    name: &str,
    number: u32,
    reason: Reason<'_>,
) -> Result<Vec<u8>, AllocError>
    ensures { IfOk result (λ text. text.items ≡ why_line name.now number (why_of reason.entry)) }
{
    let mut text = Vec::from_slice(alloc, b"vmrun: ")?;
    text.extend_from_slice(name.as_bytes())?;
    text.extend_from_slice(b" line ")?;
    put_number(&mut text, number)?;
    text.extend_from_slice(b": ")?;
    put_reason(&mut text, reason)?;
    text.push(b'\n')?;
    Ok(text)
}

// What is told of a line of the schedule of this name.
fn line_explained(
    alloc: Global,
    name: &str,
    number: u32,
    bytes: &[u8],
) -> Result<Option<Vec<u8>>, AllocError>
    ensures { IfOk result (λ text. option_map (λ line. line.items) text ≡ line_explained name.now number bytes.now) }
{
    match bad_line(bytes, number) {
        Some(reason) => Ok(Some(why_line(alloc, name, number, reason)?)),
        None => Ok(None),
    }
}

/// Why the schedule of this name is bad: a line with its name, the number of its first bad line and the reason, as
/// `vmrun: s line 3: N of h is 0: 1 to 8192`. None where the schedule is good. The file is read again, and nothing is
/// written (this project's profile). It is an error where the schedule isn't there, a file fails, or memory is refused.
#[tactic(auto, using(crate::proofs::Lacking::lacks_schedule))]
pub fn explain_schedule<F: Files>(
    alloc: Global,
    files: &mut F,
    name: &str,
) -> Result<Option<Vec<u8>>, Unread>
    ensures explains { IfOk result (λ text. ExplainsSchedule name.now (F.holds files.old) (option_map (λ line. line.items) text)) }
    ensures lacks { IfErr result (LacksSchedule name.now (F.holds files.old)) }
    ensures kept { KeepsFiles F.Files files.old files.new }
    ensures open_faults { CountsFault result (F.open_faults files.old) (F.open_faults files.new) }
    ensures page_faults { F.page_faults files.new ≡ F.page_faults files.old }
{
    let bytes = read_file(alloc, files, name, SCHEDULE_BYTES)?;
    match read_schedule(alloc, bytes.as_slice()) {
        Ok(Schedule::Is(_)) => Ok(None),
        Ok(Schedule::BadLine(number)) => {
            let text = line_explained(alloc, name, number, bytes.as_slice())?;
            Ok(text)
        }
        Err(_) => Err(Unread::NoMemory),
    }
}
