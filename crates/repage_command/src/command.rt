//! `repage`: the trace and its images are read, judged and answered in one line.
ghost use Rattle.std.specs.Prelude.{◌≡◌, length, map, IfOk};
ghost use Rattle.io_edge.specs.Calls.{KeepsFiles};
ghost use Rattle.command_words.specs.Command.{IsFittingRun};
ghost use Rattle.command_words.specs.declared.limits.TheConstants.{MOST_LIMIT};
ghost use Rattle.command_edge.specs.Ending.{ending_of};
ghost use Rattle.command_edge.specs.Command.{EndCounted, Made};
ghost use Rattle.replay_command.specs.Reading.{read_of_transcript};
ghost use Rattle.repage_command.specs.Judging.{IsRepageEnding};
ghost use Rattle.repage_command.specs.Telling.{paged_line};
ghost use Rattle.repage_command.specs.Command.{EndsReading, EndsRepage, Repages, EndsOwners, TellsWhose};

use crate::judging::{Repaged, owners_of_case, repage_case};
use crate::reading::read_case;
use command_edge::{Fault, put_number, write_ending};
use command_words::Numbers;
use io_edge::{Files, Sink};
use std::alloc::{AllocError, Global};

/// Reads the trace and the images that words name, and judges the trace by a machine in memory.
pub(crate) fn repage_from<'a, F: Files>(
    alloc: Global,
    files: &mut F,
    numbers: Numbers,
    trace: &'a str,
    words: &[&'a str],
) -> Result<Repaged, Fault<'a>>
    requires fits { IsFittingRun MOST_LIMIT numbers trace words.now }
    requires limit { numbers.limit ≡ 1000000 }
    ensures made { Made (EndsReading numbers trace.now (map (λ word. word.now) words.now))
        (read_of_transcript trace.now (map (λ word. word.now) words.now)) (F.holds files.old)
        (record {
          open_before = F.open_faults files.old;
          open_after = F.open_faults files.new;
          page_before = F.page_faults files.old;
          page_after = F.page_faults files.new;
        }) result }
    ensures counted { EndCounted result (record {
      open_before = F.open_faults files.old;
      open_after = F.open_faults files.new;
      page_before = F.page_faults files.old;
      page_after = F.page_faults files.new;
    }) }
    ensures kept { KeepsFiles F.Files files.old files.new }
{
    let case = read_case(alloc, files, numbers, trace, words)?;
    repage_case(alloc, numbers, &case)
}

// The line of a run of so many lines.
fn paged_line(alloc: Global, lines: u32) -> Result<Vec<u8>, AllocError>
    ensures { IfOk result (λ line. line.items ≡ paged_line lines) }
{
    let mut line = Vec::from_slice(alloc, b"paged run: ")?;
    put_number(&mut line, lines)?;
    line.extend_from_slice(b" entries\n")?;
    Ok(line)
}

// The line of a trace that is a run, or else its first line that can't come.
fn verdict<'a>(alloc: Global, repaged: &Repaged) -> Result<Vec<u8>, Fault<'a>>
    ensures { IsRepageEnding repaged.now (ending_of result) }
{
    match repaged.bad {
        None => match paged_line(alloc, repaged.lines) {
            Ok(line) => Ok(line),
            Err(_) => Err(Fault::NoMemory),
        },
        Some(line) => Err(Fault::NotPaged(line)),
    }
}

// The same of the trace of this name.
fn verdict_from<'a, F: Files>(
    alloc: Global,
    files: &mut F,
    numbers: Numbers,
    trace: &'a str,
    words: &[&'a str],
) -> Result<Vec<u8>, Fault<'a>>
    requires fits { IsFittingRun MOST_LIMIT numbers trace words.now }
    requires limit { numbers.limit ≡ 1000000 }
    ensures made { Made (EndsRepage numbers trace.now (map (λ word. word.now) words.now))
        (read_of_transcript trace.now (map (λ word. word.now) words.now)) (F.holds files.old)
        (record {
          open_before = F.open_faults files.old;
          open_after = F.open_faults files.new;
          page_before = F.page_faults files.old;
          page_after = F.page_faults files.new;
        }) (ending_of result) }
    ensures counted { EndCounted (ending_of result) (record {
      open_before = F.open_faults files.old;
      open_after = F.open_faults files.new;
      page_before = F.page_faults files.old;
      page_after = F.page_faults files.new;
    }) }
    ensures kept { KeepsFiles F.Files files.old files.new }
{
    match repage_from(alloc, files, numbers, trace, words) {
        Ok(repaged) => verdict(alloc, &repaged),
        Err(fault) => Err(fault),
    }
}

/// Judges the trace of this name as a run of the paged machine, by any policy, over the images that words name, with so many frames and blocks
/// of swap. It writes the line of that, and answers the exit status: 0 where its lines are a run; 2 an absent file; 3 no image; 5 a file
/// fault; 8 a fault of the output; 9 want of memory; 11 no swap for a first process; 14 where they are no run; 15 a bad transcript; 16 one
/// that is too long, or in which neighbouring lines move the hands more than 1,000,000 times. At any other status than 0 and 8 the line of the
/// fault is written instead. A last line of the trace that begins with `vmrun: ` is left out. The first thing met decides, in the order
/// trace, images, verdict; but an output that fails gives 8 whatever came before (this project's profile).
pub fn repage_file<F: Files, S: Sink>(
    alloc: Global,
    files: &mut F,
    sink: &mut S,
    numbers: Numbers,
    trace: &str,
    words: &[&str],
) -> u8
    requires fits { IsFittingRun MOST_LIMIT numbers trace words.now }
    requires limit { numbers.limit ≡ 1000000 }
    ensures repages { Repages numbers trace.now (map (λ word. word.now) words.now) (F.holds files.old)
        (record {
          open_before = F.open_faults files.old;
          open_after = F.open_faults files.new;
          page_before = F.page_faults files.old;
          page_after = F.page_faults files.new;
        })
        (S.written sink.old) (S.written sink.new) (S.faults sink.old) (S.faults sink.new) result }
    ensures kept { KeepsFiles F.Files files.old files.new }
    ensures sink_leads { S.leads sink.old sink.new }
{
    let made = verdict_from(alloc, files, numbers, trace, words);
    write_ending(alloc, sink, made)
}

// Who owns what after so many lines of the trace of this name.
fn owners_from<'a, F: Files>(
    alloc: Global,
    files: &mut F,
    wanted: u32,
    numbers: Numbers,
    trace: &'a str,
    words: &[&'a str],
) -> Result<Vec<u8>, Fault<'a>>
    requires fits { IsFittingRun MOST_LIMIT numbers trace words.now }
    requires limit { numbers.limit ≡ 1000000 }
    ensures made { Made (EndsOwners wanted numbers trace.now (map (λ word. word.now) words.now))
        (read_of_transcript trace.now (map (λ word. word.now) words.now)) (F.holds files.old)
        (record {
          open_before = F.open_faults files.old;
          open_after = F.open_faults files.new;
          page_before = F.page_faults files.old;
          page_after = F.page_faults files.new;
        }) (ending_of result) }
    ensures counted { EndCounted (ending_of result) (record {
      open_before = F.open_faults files.old;
      open_after = F.open_faults files.new;
      page_before = F.page_faults files.old;
      page_after = F.page_faults files.new;
    }) }
    ensures kept { KeepsFiles F.Files files.old files.new }
{
    let case = read_case(alloc, files, numbers, trace, words)?;
    owners_of_case(alloc, numbers, &case, wanted)
}

/// Writes who owns what after so many lines of the trace of this name, or after all of them, and answers the status: those of `repage_file`,
/// where 14 is of a trace of which so many first lines are no run. What is read, and in which order, is as there (this project's profile).
pub fn repage_owners<F: Files, S: Sink>(
    alloc: Global,
    files: &mut F,
    sink: &mut S,
    wanted: u32,
    numbers: Numbers,
    trace: &str,
    words: &[&str],
) -> u8
    requires fits { IsFittingRun MOST_LIMIT numbers trace words.now }
    requires limit { numbers.limit ≡ 1000000 }
    ensures tells { TellsWhose wanted numbers trace.now (map (λ word. word.now) words.now) (F.holds files.old)
        (record {
          open_before = F.open_faults files.old;
          open_after = F.open_faults files.new;
          page_before = F.page_faults files.old;
          page_after = F.page_faults files.new;
        })
        (S.written sink.old) (S.written sink.new) (S.faults sink.old) (S.faults sink.new) result }
    ensures kept { KeepsFiles F.Files files.old files.new }
    ensures sink_leads { S.leads sink.old sink.new }
{
    let made = owners_from(alloc, files, wanted, numbers, trace, words);
    write_ending(alloc, sink, made)
}
