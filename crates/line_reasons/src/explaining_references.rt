//! The line that tells why a file of references is bad: its name, the line's number, and the reason.
ghost use Rattle.std.specs.Prelude.{◌≡◌, ◌++◌, IfOk, IfErr, OnOk, option_map};
ghost use Rattle.io_edge.specs.Calls.{KeepsFiles};
ghost use Rattle.command_edge.specs.Answering.{CountsFault};
ghost use Rattle.line_reasons.specs.ReferenceReasons.{why_of, Missing, NoLineFeed, TooManyReferences};
ghost use Rattle.line_reasons.specs.ReferenceExplaining.{argument_name, range_text, why_text, why_line, ExplainsReferences, LacksReferences};

use crate::references::{Argument, Reason, bad_line};
use crate::telling::shown;
use command_edge::{Unread, put_number, read_whole};
use io_edge::Files;
use reference_answers::{REFERENCES_BYTES, References, read_references};
use std::alloc::{AllocError, Global};

fn argument_name(argument: Argument) -> &'static [u8]
    ensures { result.now ≡ argument_name argument }
{
    match argument {
        Argument::Owner => b"SID or IMAGE",
        Argument::Place => b"V",
    }
}

fn put_range(text: &mut Vec<u8>) -> Result<(), AllocError>
    ensures { OnOk result (text.new.items ≡ text.old.items ++ range_text) }
{
    text.extend_from_slice(b"0 to 4294967295, with no zero in front")
}

fn put_missing(text: &mut Vec<u8>, argument: Argument) -> Result<(), AllocError>
    ensures { OnOk result (text.new.items ≡ text.old.items ++ why_text (Missing argument)) }
{
    text.extend_from_slice(argument_name(argument))?;
    text.extend_from_slice(b" is missing: ")?;
    put_range(text)?;
    Ok(())
}

fn put_no_line_feed(text: &mut Vec<u8>) -> Result<(), AllocError>
    ensures { OnOk result (text.new.items ≡ text.old.items ++ why_text NoLineFeed) }
{
    text.extend_from_slice(b"the last line has no line feed")
}

fn put_too_many(text: &mut Vec<u8>) -> Result<(), AllocError>
    ensures { OnOk result (text.new.items ≡ text.old.items ++ why_text TooManyReferences) }
{
    text.extend_from_slice(b"more than 4000000 references")
}

fn put_reason(text: &mut Vec<u8>, reason: Reason<'_>) -> Result<(), AllocError>
    ensures { OnOk result (text.new.items ≡ text.old.items ++ why_text (why_of reason.entry)) }
{
    match reason {
        Reason::CarriageReturn => {
            text.extend_from_slice(b"a carriage return stands before the line's end")
        }
        Reason::Tab => text.extend_from_slice(b"a tab: parts have one blank between them"),
        Reason::Blank => text.extend_from_slice(b"a blank too many: parts have one between them"),
        Reason::NoReference(word) => {
            text.extend_from_slice(shown(word))?;
            text.extend_from_slice(b" is no reference: d, s, x, or a number, ")?;
            put_range(text)
        }
        Reason::Missing(argument) => put_missing(text, argument),
        Reason::NotNumber(argument, word) => {
            text.extend_from_slice(argument_name(argument))?;
            text.extend_from_slice(b" is ")?;
            text.extend_from_slice(shown(word))?;
            text.extend_from_slice(b": ")?;
            put_range(text)
        }
        Reason::TooMany(word) => {
            text.extend_from_slice(shown(word))?;
            text.extend_from_slice(b" is a part too many")
        }
        Reason::NoLineFeed => put_no_line_feed(text),
        Reason::TooManyReferences => put_too_many(text),
    }
}

// The line that tells why a line of the file of this name is bad.
fn why_line(
    alloc: Global,
    name: &str,
    number: u32,
    reason: Reason<'_>,
) -> Result<Vec<u8>, AllocError>
    ensures { IfOk result (λ text. text.items ≡ why_line name.now number (why_of reason.entry)) }
{
    let mut text = Vec::from_slice(alloc, b"vmrun: ")?;
    text.extend_from_slice(name.as_bytes())?;
    text.extend_from_slice(b" line ")?;
    put_number(&mut text, number)?;
    text.extend_from_slice(b": ")?;
    put_reason(&mut text, reason)?;
    text.push(b'\n')?;
    Ok(text)
}

/// Why the file of references of this name is bad: a line with its name, the number of its first bad line and the reason, as
/// `vmrun: trace line 3: V is missing: 0 to 4294967295, with no zero in front`. None where it is good, or has too many bytes. The
/// file is read again, and nothing is written (this project's profile). It is an error where there is no such file, a file fails, or
/// memory is refused.
pub fn explain_references<F: Files>(
    alloc: Global,
    files: &mut F,
    name: &str,
) -> Result<Option<Vec<u8>>, Unread>
    ensures explains { IfOk result (λ text. ExplainsReferences name.now (F.holds files.old) (option_map (λ line. line.items) text)) }
    ensures lacks { IfErr result (LacksReferences name.now (F.holds files.old)) }
    ensures kept { KeepsFiles F.Files files.old files.new }
    ensures open_faults { CountsFault result (F.open_faults files.old) (F.open_faults files.new) }
    ensures page_faults { F.page_faults files.new ≡ F.page_faults files.old }
{
    let Some(bytes) = read_whole(alloc, files, name, REFERENCES_BYTES)? else {
        return Ok(None);
    };
    match read_references(alloc, bytes.as_slice()) {
        Ok(References::Are(_)) => Ok(None),
        Ok(References::BadLine(number)) => {
            let text = why_line(alloc, name, number, bad_line(bytes.as_slice(), number))?;
            Ok(Some(text))
        }
        Err(_) => Err(Unread::NoMemory),
    }
}
