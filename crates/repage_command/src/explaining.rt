//! The line beside the verdict: why the first bad line of a trace can't come.
ghost use Rattle.std.specs.Prelude.{◌≡◌, map, option_map, IfOk, IfErr};
ghost use Rattle.io_edge.specs.Calls.{KeepsFiles};
ghost use Rattle.command_words.specs.Command.{IsFittingRun};
ghost use Rattle.command_words.specs.declared.limits.TheConstants.{MOST_LIMIT};
ghost use Rattle.repage_command.specs.Judging.{why_if};
ghost use Rattle.repage_command.specs.Explaining.{ExplainsRepage, LacksWhy};

use crate::command::repage_from;
use crate::judging::Repaged;
use command_edge::Fault;
use command_words::Numbers;
use io_edge::Files;
use std::alloc::Global;

// The line that tells it, where a line can't come.
fn why_if(repaged: Repaged) -> Option<Vec<u8>>
    ensures { option_map (λ line. line.items) result ≡ why_if repaged.bad repaged.why.items }
{
    let Repaged { bad, lines: _, why } = repaged;
    match bad {
        Some(_) => Some(why),
        None => None,
    }
}

/// Why the line that `repage_file` names of the trace of this name can't come: a line as `vmrun: line 312: G d 1 40 40 1: no frame is free`. None
/// where the trace is a run. The files are read again, and the trace is judged again, so an error is the fault of this time (this project's
/// profile).
pub fn explain_repage<'a, F: Files>(
    alloc: Global,
    files: &mut F,
    numbers: Numbers,
    trace: &'a str,
    words: &[&'a str],
) -> Result<Option<Vec<u8>>, Fault<'a>>
    requires fits { IsFittingRun MOST_LIMIT numbers trace words.now }
    requires limit { numbers.limit ≡ 1000000 }
    ensures explains { IfOk result (λ text. ExplainsRepage numbers trace.now (map (λ word. word.now) words.now) (F.holds files.old)
        (option_map (λ line. line.items) text)) }
    ensures lacks { IfErr result (LacksWhy numbers trace.now (map (λ word. word.now) words.now) (F.holds files.old) (record {
      open_before = F.open_faults files.old;
      open_after = F.open_faults files.new;
      page_before = F.page_faults files.old;
      page_after = F.page_faults files.new;
    })) }
    ensures kept { KeepsFiles F.Files files.old files.new }
{
    match repage_from(alloc, files, numbers, trace, words) {
        Ok(repaged) => Ok(why_if(repaged)),
        Err(fault) => Err(fault),
    }
}
