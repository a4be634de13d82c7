//! What is judged: the trace is found and read by its grammar, then the images are. A bad trace is told before an
//! absent image.
ghost use Rattle.std.specs.Prelude.{◌≡◌, ◌+◌, ◌≤◌, ◌<◌, ◌^◌, length, map, IfOk};
ghost use Rattle.io_edge.specs.Calls.{KeepsFiles};
ghost use Rattle.command_edge.specs.Told.{whole_told};
ghost use Rattle.command_words.specs.Command.{IsFittingRun};
ghost use Rattle.command_words.specs.declared.limits.TheConstants.{MOST_LIMIT};
ghost use Rattle.command_edge.specs.Command.{EndCounted, Made};
ghost use Rattle.replay_command.specs.Reading.{items_of, read_of_transcript};
ghost use Rattle.repage_check.specs.Moves.{HaveFewMoves};
ghost use Rattle.repage_command.specs.Reading.{EndsBytes, EndsFew, EndsTrace, EndsCase, IsReady};

use crate::{Trace, read_trace};
use command_edge::{Fault, read_whole};
use command_words::Numbers;
use io_edge::Files;
use paged_model::Line;
use repage_check::has_few_moves;
use replay_check::Flat;
use replay_command::{Naming, TRANSCRIPT_BYTES, load_images, name_images, without_fault_line};
use std::alloc::Global;

/// A trace that was read, and the images over which it is judged.
#[derive(Drop)]
pub(crate) struct Case<'a> {
    pub(crate) lines: Vec<Line>,
    /// The names of the images, and in which of them the first processes start.
    pub(crate) naming: Naming<'a>,
    pub(crate) images: Vec<Flat>,
}

// The lines that the bytes of a trace are.
fn lines_of<'a>(alloc: Global, bytes: &[u8]) -> Result<Vec<Line>, Fault<'a>>
    requires { length bytes.now ≤ 67108864 }
    ensures ends { EndsBytes bytes.now (items_of result) }
    ensures few { IfOk result (λ lines. length lines.items + 2 < 2 ^ 32) }
{
    match read_trace(alloc, without_fault_line(bytes)) {
        Ok(Trace::Is(lines)) => Ok(lines),
        Ok(Trace::BadLine(number)) => Err(Fault::BadTranscript(number)),
        Err(_) => Err(Fault::NoMemory),
    }
}

// The same, where neighbouring lines have few moves of the hands.
fn few_lines_of<'a>(alloc: Global, bytes: &[u8]) -> Result<Vec<Line>, Fault<'a>>
    requires { length bytes.now ≤ 67108864 }
    ensures ends { EndsFew bytes.now (items_of result) }
    ensures few { IfOk result (λ lines. length lines.items + 2 < 2 ^ 32) }
    ensures moves { IfOk result (λ lines. HaveFewMoves lines.items) }
{
    let lines = lines_of(alloc, bytes)?;
    if has_few_moves(lines.as_slice()) {
        Ok(lines)
    } else {
        Err(Fault::TooLong)
    }
}

// The lines of the trace of this name. Neighbouring ones have few moves of the hands.
fn read_lines<'a, F: Files>(
    alloc: Global,
    files: &mut F,
    name: &'a str,
) -> Result<Vec<Line>, Fault<'a>>
    ensures ends { Made (EndsTrace name.now) (λ list. whole_told list name.now 67108864) (F.holds files.old)
        (record {
          open_before = F.open_faults files.old;
          open_after = F.open_faults files.new;
          page_before = F.page_faults files.old;
          page_after = F.page_faults files.new;
        }) (items_of result) }
    ensures counted { EndCounted (items_of result) (record {
      open_before = F.open_faults files.old;
      open_after = F.open_faults files.new;
      page_before = F.page_faults files.old;
      page_after = F.page_faults files.new;
    }) }
    ensures few { IfOk result (λ lines. length lines.items + 2 < 2 ^ 32) }
    ensures moves { IfOk result (λ lines. HaveFewMoves lines.items) }
    ensures kept { KeepsFiles F.Files files.old files.new }
{
    match read_whole(alloc, files, name, TRANSCRIPT_BYTES) {
        Ok(Some(bytes)) => few_lines_of(alloc, bytes.as_slice()),
        Ok(None) => Err(Fault::TooLong),
        Err(unread) => Err(Fault::of_unread(name, unread)),
    }
}

/// The trace of this name, and the images that words name.
pub(crate) fn read_case<'a, F: Files>(
    alloc: Global,
    files: &mut F,
    numbers: Numbers,
    trace: &'a str,
    words: &[&'a str],
) -> Result<Case<'a>, Fault<'a>>
    requires fits { IsFittingRun MOST_LIMIT numbers trace words.now }
    requires limit { numbers.limit ≡ 1000000 }
    ensures made { Made (EndsCase trace.now (map (λ word. word.now) words.now))
        (read_of_transcript trace.now (map (λ word. word.now) words.now)) (F.holds files.old)
        (record {
          open_before = F.open_faults files.old;
          open_after = F.open_faults files.new;
          page_before = F.page_faults files.old;
          page_after = F.page_faults files.new;
        }) result }
    ensures counted { EndCounted result (record {
      open_before = F.open_faults files.old;
      open_after = F.open_faults files.new;
      page_before = F.page_faults files.old;
      page_after = F.page_faults files.new;
    }) }
    ensures ready { IfOk result (IsReady numbers) }
    ensures kept { KeepsFiles F.Files files.old files.new }
{
    let lines = read_lines(alloc, files, trace)?;
    let naming = name_images(alloc, words)?;
    let images = load_images(alloc, files, naming.names.as_slice())?;
    Ok(Case {
        lines,
        naming,
        images,
    })
}
