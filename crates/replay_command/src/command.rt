//! `replay`: a transcript and its images are read, judged and answered in one line.
ghost use Rattle.std.specs.Prelude.{◌≡◌, ◌<◌, ◌^◌, map, length, All, IfOk};
ghost use Rattle.io_edge.specs.Calls.{KeepsFiles};
ghost use Rattle.command_edge.specs.ImageWords.{name_in};
ghost use Rattle.replay_check.specs.Images.{AreImageFiles, AreNumbers};
ghost use Rattle.command_edge.specs.Ending.{ending_of};
ghost use Rattle.command_edge.specs.Command.{EndCounted, Made};
ghost use Rattle.replay_command.specs.Reading.{read_of_transcript};
ghost use Rattle.replay_command.specs.Command.{run_line, EndsReplay, EndsVerdict, Replays};

use crate::images::load_images;
use crate::naming::name_images;
use crate::transcript::read_entries;
use command_edge::{Fault, write_ending};
use io_edge::{Files, Sink};
use itoa::Buffer;
use replay_check::{Flat, Verdict, replay};
use std::alloc::{AllocError, Global};
use vm_facts::Entry;

// The line of a run of so many entries.
fn run_line(alloc: Global, entries: u32) -> Result<Vec<u8>, AllocError>
    ensures { IfOk result (λ line. line.items ≡ run_line entries) }
{
    let mut buffer = Buffer::new();
    let mut line = Vec::from_slice(alloc, b"flat run: ")?;
    line.extend_from_slice(buffer.format(entries).as_bytes())?;
    line.extend_from_slice(b" entries\n")?;
    Ok(line)
}

// The line of a run, where these entries are one of these images, of which the first processes start with these.
fn judge<'a>(
    alloc: Global,
    images: &[Flat],
    first: &[u32],
    entries: &[Entry],
) -> Result<Vec<u8>, Fault<'a>>
    requires images { AreImageFiles images.now }
    requires first { AreNumbers (length images.now) first.now }
    requires entries { length entries.now < 2 ^ 32 }
    ensures { EndsVerdict images.now first.now entries.now (ending_of result) }
{
    match replay(alloc, images, first, entries) {
        Ok(Verdict::Run) => match run_line(alloc, entries.len() as u32) {
            Ok(line) => Ok(line),
            Err(_) => Err(Fault::NoMemory),
        },
        Ok(Verdict::BadEntry(line)) => Err(Fault::NotFlatRun(line)),
        Err(_) => Err(Fault::NoMemory),
    }
}

// The line of a run, or why there is none.
fn line_from<'a, F: Files>(
    alloc: Global,
    files: &mut F,
    transcript: &'a str,
    words: &[&'a str],
) -> Result<Vec<u8>, Fault<'a>>
    requires few { length words.now < 2 ^ 31 }
    requires names { All (λ word. length (name_in word.now) < 64) words.now }
    ensures made { Made (EndsReplay transcript.now (map (λ word. word.now) words.now))
        (read_of_transcript transcript.now (map (λ word. word.now) words.now)) (F.holds files.old)
        (record {
          open_before = F.open_faults files.old;
          open_after = F.open_faults files.new;
          page_before = F.page_faults files.old;
          page_after = F.page_faults files.new;
        }) (ending_of result) }
    ensures counted { EndCounted (ending_of result) (record {
      open_before = F.open_faults files.old;
      open_after = F.open_faults files.new;
      page_before = F.page_faults files.old;
      page_after = F.page_faults files.new;
    }) }
    ensures kept { KeepsFiles F.Files files.old files.new }
{
    let entries = read_entries(alloc, files, transcript)?;
    let naming = name_images(alloc, words)?;
    let images = load_images(alloc, files, naming.names.as_slice())?;
    judge(
        alloc,
        images.as_slice(),
        naming.first.as_slice(),
        entries.as_slice(),
    )
}

/// Judges the transcript of this name as a run of the images that words name, writes the line of that,
/// and answers the exit status: 0 where its entries are a run of the flat machine; 2 an absent file; 3
/// no image; 5 a file fault; 8 a fault of the output; 9 want of memory; 14 where they are no run; 15 a bad
/// transcript; 16 one that is too long. At any other status than 0 and 8 the line of the fault is written
/// instead. A last line of the transcript that begins with `vmrun: ` is left out. The transcript is found,
/// read and judged by its grammar before an image is looked for (this project's profile).
pub fn replay_file<F: Files, S: Sink>(
    alloc: Global,
    files: &mut F,
    sink: &mut S,
    transcript: &str,
    words: &[&str],
) -> u8
    requires few { length words.now < 2 ^ 31 }
    requires names { All (λ word. length (name_in word.now) < 64) words.now }
    ensures replays { Replays transcript.now (map (λ word. word.now) words.now) (F.holds files.old)
        (record {
          open_before = F.open_faults files.old;
          open_after = F.open_faults files.new;
          page_before = F.page_faults files.old;
          page_after = F.page_faults files.new;
        })
        (S.written sink.old) (S.written sink.new) (S.faults sink.old) (S.faults sink.new) result }
    ensures kept { KeepsFiles F.Files files.old files.new }
    ensures sink_leads { S.leads sink.old sink.new }
{
    let made = line_from(alloc, files, transcript, words);
    write_ending(alloc, sink, made)
}
