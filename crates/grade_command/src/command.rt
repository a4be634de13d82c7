//! `grade`, and its verdict in a line: as written, so far as written, or the first line that differs.
ghost use Rattle.std.specs.Prelude.{◌≡◌, map, IfOk};
ghost use Rattle.io_edge.specs.Calls.{KeepsFiles};
ghost use Rattle.command_words.specs.Command.{IsFittingRun};
ghost use Rattle.command_words.specs.declared.limits.TheConstants.{MOST_LIMIT};
ghost use Rattle.command_edge.specs.Ending.{ending_of};
ghost use Rattle.command_edge.specs.Command.{EndCounted, Made};
ghost use Rattle.grade_command.specs.Telling.{written_line, IsGradeEnding};
ghost use Rattle.grade_command.specs.Reading.{trace_told};
ghost use Rattle.grade_command.specs.Command.{EndsReading, EndsGrade, Grades};

use crate::grading::Grade;
use crate::judging::{Graded, grade_in_memory};
use command_edge::{Fault, put_number, write_ending};
use command_words::Numbers;
use io_edge::{Files, Sink};
use replay_command::{load_images, name_images, read_entries};
use run_opening::open_schedule;
use std::alloc::{AllocError, Global};

/// Reads the schedule, the trace and the images that words name, and grades the trace by the run, which is made in memory.
pub(crate) fn grade_from<'a, F: Files>(
    alloc: Global,
    files: &mut F,
    numbers: Numbers,
    schedule: &'a str,
    trace: &'a str,
    words: &[&'a str],
) -> Result<Graded, Fault<'a>>
    requires fits { IsFittingRun MOST_LIMIT numbers schedule words.now }
    ensures made { Made (EndsReading (record { numbers = numbers; schedule = schedule.now; words = map (λ word. word.now) words.now }) trace.now)
        (trace_told (record { numbers = numbers; schedule = schedule.now; words = map (λ word. word.now) words.now }) trace.now) (F.holds files.old)
        (record {
          open_before = F.open_faults files.old;
          open_after = F.open_faults files.new;
          page_before = F.page_faults files.old;
          page_after = F.page_faults files.new;
        }) result }
    ensures counted { EndCounted result (record {
      open_before = F.open_faults files.old;
      open_after = F.open_faults files.new;
      page_before = F.page_faults files.old;
      page_after = F.page_faults files.new;
    }) }
    ensures kept { KeepsFiles F.Files files.old files.new }
{
    let lines = open_schedule(alloc, files, schedule)?;
    let entries = read_entries(alloc, files, trace)?;
    let naming = name_images(alloc, words)?;
    let images = load_images(alloc, files, naming.names.as_slice())?;
    grade_in_memory(
        alloc,
        numbers,
        images.as_slice(),
        naming.names.as_slice(),
        naming.first.as_slice(),
        lines.as_slice(),
        entries.as_slice(),
    )
}

// The line of a trace that is the whole journal.
fn written_line(alloc: Global, entries: u32) -> Result<Vec<u8>, AllocError>
    ensures { IfOk result (λ line. line.items ≡ written_line entries) }
{
    let mut line = Vec::from_slice(alloc, b"as written: ")?;
    put_number(&mut line, entries)?;
    line.extend_from_slice(b" entries\n")?;
    Ok(line)
}

// The line of a trace that is as written, or else what it is.
fn verdict<'a>(alloc: Global, graded: &Graded) -> Result<Vec<u8>, Fault<'a>>
    ensures { IsGradeEnding graded.now (ending_of result) }
{
    match graded.grade {
        Grade::Written => match written_line(alloc, graded.entries) {
            Ok(line) => Ok(line),
            Err(_) => Err(Fault::NoMemory),
        },
        Grade::Front => Err(Fault::WrittenSoFar(graded.entries)),
        Grade::Differs(line) => Err(Fault::NotAsWritten(line)),
    }
}

// The same of the trace of this name.
fn verdict_from<'a, F: Files>(
    alloc: Global,
    files: &mut F,
    numbers: Numbers,
    schedule: &'a str,
    trace: &'a str,
    words: &[&'a str],
) -> Result<Vec<u8>, Fault<'a>>
    requires fits { IsFittingRun MOST_LIMIT numbers schedule words.now }
    ensures made { Made (EndsGrade (record { numbers = numbers; schedule = schedule.now; words = map (λ word. word.now) words.now }) trace.now)
        (trace_told (record { numbers = numbers; schedule = schedule.now; words = map (λ word. word.now) words.now }) trace.now) (F.holds files.old)
        (record {
          open_before = F.open_faults files.old;
          open_after = F.open_faults files.new;
          page_before = F.page_faults files.old;
          page_after = F.page_faults files.new;
        }) (ending_of result) }
    ensures counted { EndCounted (ending_of result) (record {
      open_before = F.open_faults files.old;
      open_after = F.open_faults files.new;
      page_before = F.page_faults files.old;
      page_after = F.page_faults files.new;
    }) }
    ensures kept { KeepsFiles F.Files files.old files.new }
{
    match grade_from(alloc, files, numbers, schedule, trace, words) {
        Ok(graded) => verdict(alloc, &graded),
        Err(fault) => Err(fault),
    }
}

/// Grades the trace of this name by the written policy: its lines are compared with the journal of the run of the schedule and the images
/// that words name, which is made in memory over a blank swap of its own. It writes the line of a trace that is the journal, whole, and
/// answers the exit status: 0 there; 2 an absent file; 3 no image; 4 a bad schedule; 5 a file fault; 8 a fault of the output; 9 want of memory;
/// 11 no swap for a first process; 15 a bad transcript; 16 one that is too long; 19 where the trace differs from the journal; 20 where it is
/// a beginning of it. At any other status than 0 and 8 the line of the fault is written instead. A last line of the trace that begins with
/// `vmrun: ` is left out. The first thing met decides, in the order schedule, trace, images, run; but an output that fails gives 8
/// whatever came before (this project's profile).
pub fn grade_file<F: Files, S: Sink>(
    alloc: Global,
    files: &mut F,
    sink: &mut S,
    numbers: Numbers,
    schedule: &str,
    trace: &str,
    words: &[&str],
) -> u8
    requires fits { IsFittingRun MOST_LIMIT numbers schedule words.now }
    ensures grades { Grades (record { numbers = numbers; schedule = schedule.now; words = map (λ word. word.now) words.now }) trace.now (F.holds files.old)
        (record {
          open_before = F.open_faults files.old;
          open_after = F.open_faults files.new;
          page_before = F.page_faults files.old;
          page_after = F.page_faults files.new;
        })
        (S.written sink.old) (S.written sink.new) (S.faults sink.old) (S.faults sink.new) result }
    ensures kept { KeepsFiles F.Files files.old files.new }
    ensures sink_leads { S.leads sink.old sink.new }
{
    let made = verdict_from(alloc, files, numbers, schedule, trace, words);
    write_ending(alloc, sink, made)
}
