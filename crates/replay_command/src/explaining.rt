//! The line beside the verdict: the first entry that is none of the run, and what comes instead.
ghost use Rattle.std.specs.Prelude.{◌≡◌, ◌<◌, ◌^◌, ◌++◌, map, length, All, IfOk, IfErr, OnOk, option_map};
ghost use Rattle.io_edge.specs.Calls.{KeepsFiles};
ghost use Rattle.flat_state.specs.Flat.{Inputs};
ghost use Rattle.command_edge.specs.ImageWords.{name_in};
ghost use Rattle.replay_check.specs.Images.{AreImageFiles, AreNumbers, images_of};
ghost use Rattle.replay_command.specs.Explaining.{around_number, before_line, expected_text, explanation, Explained, ExplainsTranscript, LacksTranscript};

use crate::images::load_images;
use crate::naming::name_images;
use crate::transcript::read_entries;
use command_edge::{Fault, put_number};
use io_edge::{Files, MemSink, Moved};
use replay_check::{Expected, Flat, Misfit, explain};
use run_text::write_entry;
use std::alloc::{AllocError, Global};
use vm_facts::{Entry, NoMemory};

/// The line of an entry that a step of the flat machine gives has no more bytes than this.
const LINE_BYTES: usize = 4_096;

// Puts a text and the line of an entry after another.
fn put_line(
    alloc: Global,
    text: &mut Vec<u8>,
    before: &[u8],
    entry: &Entry,
) -> Result<(), AllocError>
    ensures { OnOk result (text.new.items ≡ text.old.items ++ before_line before.now entry.now) }
{
    let Ok(mut sink) = MemSink::new(alloc, LINE_BYTES, Vec::new(alloc)) else {
        return Err(AllocError);
    };
    text.extend_from_slice(before)?;
    match write_entry(&mut sink, entry) {
        Moved::Done => text.extend_from_slice(sink.written()),
        Moved::Failed => Err(AllocError),
    }
}

// Puts a number between two texts after another.
fn put_process(
    text: &mut Vec<u8>,
    before: &[u8],
    number: u32,
    behind: &[u8],
) -> Result<(), AllocError>
    ensures { OnOk result (text.new.items ≡ text.old.items ++ around_number before.now number behind.now) }
{
    text.extend_from_slice(before)?;
    put_number(text, number)?;
    text.extend_from_slice(behind)
}

// Puts what the flat machine gives after a text.
fn put_expected(alloc: Global, text: &mut Vec<u8>, expected: &Expected) -> Result<(), AllocError>
    ensures { OnOk result (text.new.items ≡ text.old.items ++ expected_text expected.now) }
{
    match expected {
        Expected::Comes(entry) => put_line(alloc, text, b"the flat machine gives ", entry),
        Expected::Unrefused(entry) => put_line(
            alloc,
            text,
            b"with no f before it the flat machine gives ",
            entry,
        ),
        Expected::CannotStep(pid) => put_process(text, b"process ", *pid, b" cannot step\n"),
        Expected::NoProcess(pid) => put_process(text, b"there is no process ", *pid, b"\n"),
        Expected::TooMany => text.extend_from_slice(b"more than 1000000 instructions\n"),
    }
}

// The line that tells what the flat machine gives in place of an entry.
fn explanation(alloc: Global, misfit: &Misfit) -> Result<Vec<u8>, AllocError>
    ensures { IfOk result (λ text. text.items ≡ explanation misfit.now) }
{
    let mut text = Vec::from_slice(alloc, b"vmrun: line ")?;
    put_number(&mut text, misfit.number)?;
    text.extend_from_slice(b": ")?;
    put_expected(alloc, &mut text, &misfit.expected)?;
    Ok(text)
}

// What is told of these entries, of a run of these images of which the first processes start with these.
fn explained(
    alloc: Global,
    images: &[Flat],
    first: &[u32],
    entries: &[Entry],
) -> Result<Option<Vec<u8>>, NoMemory>
    requires images { AreImageFiles images.now }
    requires first { AreNumbers (length images.now) first.now }
    requires entries { length entries.now < 2 ^ 32 }
    ensures { (A : Inputs) → A.images ≡ images_of images.now → A.first ≡ first.now
        → IfOk result (λ text. Explained A entries.now (option_map (λ line. line.items) text)) }
{
    match explain(alloc, images, first, entries)? {
        Some(misfit) => Ok(Some(explanation(alloc, &misfit)?)),
        None => Ok(None),
    }
}

/// Why `replay_file` says of the transcript of this name that it is no run: a line with the number of the first line
/// after which it is none and what the flat machine gives there, as `vmrun: line 3: the flat machine gives r 1 5`. None
/// where it is a run. The files are read again, and nothing is written (this project's profile). It is an error where the
/// transcript or an image isn't read, or memory is refused: the fault by which `replay_file` would end.
pub fn explain_transcript<'a, F: Files>(
    alloc: Global,
    files: &mut F,
    transcript: &'a str,
    words: &[&'a str],
) -> Result<Option<Vec<u8>>, Fault<'a>>
    requires few { length words.now < 2 ^ 31 }
    requires names { All (λ word. length (name_in word.now) < 64) words.now }
    ensures explains { IfOk result
        (λ text. ExplainsTranscript transcript.now (map (λ word. word.now) words.now) (F.holds files.old) (option_map (λ line. line.items) text)) }
    ensures lacks { IfErr result (LacksTranscript transcript.now (map (λ word. word.now) words.now) (F.holds files.old)
        (record {
          open_before = F.open_faults files.old;
          open_after = F.open_faults files.new;
          page_before = F.page_faults files.old;
          page_after = F.page_faults files.new;
        })) }
    ensures kept { KeepsFiles F.Files files.old files.new }
{
    let entries = read_entries(alloc, files, transcript)?;
    let naming = name_images(alloc, words)?;
    let images = load_images(alloc, files, naming.names.as_slice())?;
    match explained(
        alloc,
        images.as_slice(),
        naming.first.as_slice(),
        entries.as_slice(),
    ) {
        Ok(text) => Ok(text),
        Err(NoMemory) => Err(Fault::NoMemory),
    }
}
