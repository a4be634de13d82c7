//! The line beside the verdict: what the policy writes in place of the trace's line.
ghost use Rattle.std.specs.Prelude.{◌≡◌, map, option_map, IfOk, IfErr};
ghost use Rattle.io_edge.specs.Calls.{KeepsFiles};
ghost use Rattle.command_words.specs.Command.{IsFittingRun};
ghost use Rattle.command_words.specs.declared.limits.TheConstants.{MOST_LIMIT};
ghost use Rattle.grade_command.specs.Telling.{parted_text_if};
ghost use Rattle.grade_command.specs.Explaining.{ExplainsGrade, LacksPolicy};

use crate::command::grade_from;
use crate::grading::Grade;
use crate::judging::Graded;
use command_edge::Fault;
use command_words::Numbers;
use io_edge::Files;
use std::alloc::Global;

// The line that tells it, where the trace differs.
fn parted_text_if(graded: Graded) -> Option<Vec<u8>>
    ensures { option_map (λ line. line.items) result ≡ parted_text_if graded.grade graded.why.items }
{
    let Graded {
        grade,
        entries: _,
        why,
    } = graded;
    match grade {
        Grade::Differs(_) => Some(why),
        _ => None,
    }
}

/// What the policy writes in place of the line that `grade_file` names of the trace of this name: a line as `vmrun: line 3: the policy writes
/// D`, or that the policy has ended there. None where the trace is as written, whole or so far. The files are read again, and the run is made
/// again, so an error is the fault of this time (this project's profile).
pub fn explain_grade<'a, F: Files>(
    alloc: Global,
    files: &mut F,
    numbers: Numbers,
    schedule: &'a str,
    trace: &'a str,
    words: &[&'a str],
) -> Result<Option<Vec<u8>>, Fault<'a>>
    requires fits { IsFittingRun MOST_LIMIT numbers schedule words.now }
    ensures explains { IfOk result (λ text. ExplainsGrade (record { numbers = numbers; schedule = schedule.now; words = map (λ word. word.now) words.now })
        trace.now (F.holds files.old) (option_map (λ line. line.items) text)) }
    ensures lacks { IfErr result (LacksPolicy (record { numbers = numbers; schedule = schedule.now; words = map (λ word. word.now) words.now }) trace.now
        (F.holds files.old) (record {
          open_before = F.open_faults files.old;
          open_after = F.open_faults files.new;
          page_before = F.page_faults files.old;
          page_after = F.page_faults files.new;
        })) }
    ensures kept { KeepsFiles F.Files files.old files.new }
{
    match grade_from(alloc, files, numbers, schedule, trace, words) {
        Ok(graded) => Ok(parted_text_if(graded)),
        Err(fault) => Err(fault),
    }
}
