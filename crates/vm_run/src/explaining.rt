//! What is told beside the line of a fault, by the command and the status.
ghost use Rattle.std.specs.Prelude.{◌≡◌, ◌==◌, IfOk, IfErr, map, option_map};
ghost use Rattle.io_edge.specs.Calls.{KeepsFiles};
ghost use Rattle.command_edge.specs.declared.fault.Fault.TheVariants.{NoMemory};
ghost use Rattle.command_words.specs.Command.{IsFittingRun};
ghost use Rattle.command_words.specs.declared.limits.TheConstants.{MOST_LIMIT};
ghost use Rattle.command_words.specs.Explaining.{words_explained};
ghost use Rattle.source_commands.specs.Explaining.{ExplainsSource, LacksSource};
ghost use Rattle.line_reasons.specs.ScheduleExplaining.{ExplainsSchedule, LacksSchedule};
ghost use Rattle.line_reasons.specs.ReferenceExplaining.{ExplainsReferences, LacksReferences};
ghost use Rattle.repage_command.specs.Explaining.{ExplainsRepage, LacksWhy};
ghost use Rattle.vm_run.specs.Explaining.{Explains, LacksFile, LacksReason, LacksWhere, ToldWhere};

use command_edge::Fault;
use command_words::{Command, Numbers, explain_words, read_words};
use grade_command::explain_grade;
use io_edge::Files;
use line_reasons::{explain_references, explain_schedule};
use question_command::explain_limit;
use repage_command::explain_repage;
use replay_command::explain_transcript;
use source_commands::explain_source;
use std::alloc::Global;

/// The status of what was done.
const DONE: u8 = 0;

/// The status of bad words.
const BAD_WORDS: u8 = 1;

/// The status of a bad schedule.
const BAD_SCHEDULE: u8 = 4;

/// The status of a transcript that is no run of the flat machine, or of a trace that is none of the paged machine.
const NOT_A_RUN: u8 = 14;

/// The status of a bad source.
const BAD_SOURCE: u8 = 17;

/// The status of a bad line of references.
const BAD_REFERENCES: u8 = 18;

/// The status of a trace that the policy doesn't write.
const NOT_AS_WRITTEN: u8 = 19;

// Why a source is bad.
fn explain_bad_source<'a, F: Files>(
    alloc: Global,
    files: &mut F,
    source: &'a str,
) -> Result<Option<Vec<u8>>, Fault<'a>>
    ensures explains { IfOk result (λ text. ExplainsSource source.now (F.holds files.old) (option_map (λ line. line.items) text)) }
    ensures lacks { IfErr result (LacksFile (LacksSource source.now (F.holds files.old)) source.now) }
    ensures kept { KeepsFiles F.Files files.old files.new }
{
    match explain_source(alloc, files, source) {
        Ok(text) => Ok(text),
        Err(unread) => Err(Fault::of_unread(source, unread)),
    }
}

// Why a schedule is bad.
fn explain_bad_schedule<'a, F: Files>(
    alloc: Global,
    files: &mut F,
    schedule: &'a str,
) -> Result<Option<Vec<u8>>, Fault<'a>>
    ensures explains { IfOk result (λ text. ExplainsSchedule schedule.now (F.holds files.old) (option_map (λ line. line.items) text)) }
    ensures lacks { IfErr result (LacksFile (LacksSchedule schedule.now (F.holds files.old)) schedule.now) }
    ensures kept { KeepsFiles F.Files files.old files.new }
{
    match explain_schedule(alloc, files, schedule) {
        Ok(text) => Ok(text),
        Err(unread) => Err(Fault::of_unread(schedule, unread)),
    }
}

// Why a file of references is bad.
fn explain_bad_references<'a, F: Files>(
    alloc: Global,
    files: &mut F,
    references: &'a str,
) -> Result<Option<Vec<u8>>, Fault<'a>>
    ensures explains { IfOk result (λ text. ExplainsReferences references.now (F.holds files.old) (option_map (λ line. line.items) text)) }
    ensures lacks { IfErr result (LacksFile (LacksReferences references.now (F.holds files.old)) references.now) }
    ensures kept { KeepsFiles F.Files files.old files.new }
{
    match explain_references(alloc, files, references) {
        Ok(text) => Ok(text),
        Err(unread) => Err(Fault::of_unread(references, unread)),
    }
}

// Why the first line of a trace that can't come can't, where the status says that there is one.
fn explain_judged<'a, F: Files>(
    alloc: Global,
    files: &mut F,
    numbers: Numbers,
    trace: &'a str,
    images: &[&'a str],
    status: u8,
) -> Result<Option<Vec<u8>>, Fault<'a>>
    requires fits { IsFittingRun MOST_LIMIT numbers trace images.now }
    requires limit { numbers.limit ≡ 1000000 }
    ensures explains { IfOk result (λ text. ToldWhere (status == 14)
        (ExplainsRepage numbers trace.now (map (λ word. word.now) images.now) (F.holds files.old) (option_map (λ line. line.items) text))
        (option_map (λ line. line.items) text)) }
    ensures lacks { IfErr result (λ fault. LacksWhere (status == 14)
        (LacksWhy numbers trace.now (map (λ word. word.now) images.now) (F.holds files.old) (record {
          open_before = F.open_faults files.old;
          open_after = F.open_faults files.new;
          page_before = F.page_faults files.old;
          page_after = F.page_faults files.new;
        }) fault)) }
    ensures kept { KeepsFiles F.Files files.old files.new }
{
    if status == NOT_A_RUN {
        explain_repage(alloc, files, numbers, trace, images)
    } else {
        Ok(None)
    }
}

// Why words ask for no command.
fn explain_bad_words<'a>(alloc: Global, words: &'a [&'a str]) -> Result<Option<Vec<u8>>, Fault<'a>>
    ensures explains { IfOk result (λ text. option_map (λ line. line.items) text ≡ words_explained (map (λ word. word.now) words.now)) }
    ensures lacks { IfErr result (λ fault. fault ≡ NoMemory) }
{
    match explain_words(alloc, words) {
        Ok(text) => Ok(text),
        Err(_) => Err(Fault::NoMemory),
    }
}

/// What else a user should know of words for which `vmrun` answered this status, for standard error: where they are bad,
/// which of them isn't what it is for; where a schedule, a source or a file of references is bad, why the line that was named is;
/// where a transcript is no run of the flat machine, what that gives there; where a trace isn't as the policy writes it, what that writes
/// there; where a trace is no run of the paged machine, why its first line that can't come can't; where `opt` or `curve` answered about a run
/// that LIMIT cut, that it was cut. None for every other command and status. The files are read again, so a reason may be lost where that
/// fails, and is that of the files as they are then (this project's profile).
pub fn explain<'a, F: Files>(
    alloc: Global,
    words: &'a [&'a str],
    files: &mut F,
    status: u8,
) -> Result<Option<Vec<u8>>, Fault<'a>>
    ensures explains { IfOk result (λ text. Explains (map (λ word. word.now) words.now) status (F.holds files.old) (option_map (λ line. line.items) text)) }
    ensures lacks { IfErr result (LacksReason (map (λ word. word.now) words.now) status (F.holds files.old)
        (record {
          open_before = F.open_faults files.old;
          open_after = F.open_faults files.new;
          page_before = F.page_faults files.old;
          page_after = F.page_faults files.new;
        })) }
    ensures kept { KeepsFiles F.Files files.old files.new }
{
    match read_words(words) {
        Some(Command::Assemble { source }) if status == BAD_SOURCE => {
            explain_bad_source(alloc, files, source)
        }
        Some(Command::Replay { transcript, images }) if status == NOT_A_RUN => {
            explain_transcript(alloc, files, transcript, images)
        }
        Some(
            Command::Grade {
                numbers,
                schedule,
                trace,
                images,
            },
        ) if status == NOT_AS_WRITTEN => {
            explain_grade(alloc, files, numbers, schedule, trace, images)
        }
        Some(
            Command::Repage {
                numbers,
                trace,
                images,
            }
            | Command::RepageOwners {
                numbers,
                trace,
                images,
                ..
            },
        ) => explain_judged(alloc, files, numbers, trace, images, status),
        Some(Command::Policies { references, .. }) if status == BAD_REFERENCES => {
            explain_bad_references(alloc, files, references)
        }
        Some(
            Command::Optimum {
                numbers,
                schedule,
                images,
                ..
            }
            | Command::Curve {
                numbers,
                schedule,
                images,
            },
        ) if status == DONE => explain_limit(alloc, files, numbers, schedule, images),
        Some(
            Command::Run { schedule, .. }
            | Command::Optimum { schedule, .. }
            | Command::Curve { schedule, .. }
            | Command::Owners { schedule, .. }
            | Command::Film { schedule, .. }
            | Command::Stats { schedule, .. }
            | Command::References { schedule, .. }
            | Command::Grade { schedule, .. },
        ) if status == BAD_SCHEDULE => explain_bad_schedule(alloc, files, schedule),
        None if status == BAD_WORDS => explain_bad_words(alloc, words),
        _ => Ok(None),
    }
}
