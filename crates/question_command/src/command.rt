//! The commands that ask about a run: words are read, the question is put, the answer written.
ghost use Rattle.std.specs.Prelude.{◌≡◌, ◌≤◌, map, option_map, length, All, IfOk, IfErr};
ghost use Rattle.io_edge.specs.Calls.{KeepsFiles};
ghost use Rattle.command_edge.specs.ImageWords.{IsShortName, image_names, first_images};
ghost use Rattle.replay_check.specs.Images.{AreImageFiles};
ghost use Rattle.command_words.specs.Command.{AreImageWords, IsFittingRun};
ghost use Rattle.command_words.specs.declared.limits.TheConstants.{MOST_SHORT_LIMIT};
ghost use Rattle.command_edge.specs.Ending.{ending_of};
ghost use Rattle.command_edge.specs.Command.{EndCounted, Made};
ghost use Rattle.reference_commands.specs.Reading.{read_told};
ghost use Rattle.reference_commands.specs.Asking.{IsQuestion, limit_of};
ghost use Rattle.reference_commands.specs.Ends.{EndsQuestion, Answers};
ghost use Rattle.question_command.specs.Explaining.{told_text, ExplainsLimit, LacksLimit};
ghost use Rattle.reference_commands.specs.InMemory.{inputs_with, IsRunnable, EndsAnswer, AllDiffer};

use crate::asking::{FilmQuestion, film_answer};
use command_edge::{Fault, write_ending};
use command_words::Numbers;
use io_edge::{Files, Sink};
use reference_commands::replay_command::{load_images, name_images};
use reference_commands::{Question, curve_over, optimum_over, references_over, run_owners};
use replay_check::Flat;
use run_opening::open_schedule;
use std::alloc::Global;
use vm_facts::Event;

// The answer about the run over these images.
fn answer_over<'a>(
    alloc: Global,
    question: Question,
    numbers: Numbers,
    images: &[Flat],
    names: &[&str],
    first: &[u32],
    lines: &[Event],
) -> Result<Vec<u8>, Fault<'a>>
    requires question { IsQuestion question }
    requires images { AreImageFiles images.now }
    requires few { length names.now ≤ 16 }
    requires named { map (λ image. image.name) images.now ≡ map (λ name. name.now) names.now }
    requires short { All (λ name. IsShortName name.now) names.now }
    requires differ { AllDiffer (map (λ name. name.now) names.now) }
    requires runnable { IsRunnable numbers (length images.now) first.now lines.now }
    requires limit { numbers.limit ≤ limit_of question }
    ensures { EndsAnswer question (inputs_with numbers images.now first.now lines.now) (ending_of result) }
{
    match question {
        Question::Optimum(frames) => {
            optimum_over(alloc, frames, numbers, images, names, first, lines)
        }
        Question::Curve => curve_over(alloc, numbers, images, names, first, lines),
        Question::Owners(entries) => {
            run_owners(alloc, entries, numbers, images, names, first, lines)
        }
        Question::Film(steps) => {
            let asked = FilmQuestion::Film(steps);
            film_answer(alloc, numbers, images, names, first, lines, asked)
        }
        Question::Stats => {
            let asked = FilmQuestion::Stats;
            film_answer(alloc, numbers, images, names, first, lines, asked)
        }
        Question::WasCut => {
            let asked = FilmQuestion::WasCut;
            film_answer(alloc, numbers, images, names, first, lines, asked)
        }
        Question::References => references_over(alloc, numbers, images, names, first, lines),
    }
}

// The answer about the run that words name.
fn answer_from<'a, F: Files>(
    alloc: Global,
    files: &mut F,
    question: Question,
    numbers: Numbers,
    schedule: &'a str,
    words: &[&'a str],
) -> Result<Vec<u8>, Fault<'a>>
    requires question { IsQuestion question }
    requires fits { IsFittingRun (limit_of question) numbers schedule words.now }
    ensures made { Made (EndsQuestion question (record { numbers = numbers; schedule = schedule.now; words = map (λ word. word.now) words.now }))
        (read_told schedule.now (map (λ word. word.now) words.now)) (F.holds files.old)
        (record {
          open_before = F.open_faults files.old;
          open_after = F.open_faults files.new;
          page_before = F.page_faults files.old;
          page_after = F.page_faults files.new;
        }) (ending_of result) }
    ensures counted { EndCounted (ending_of result) (record {
      open_before = F.open_faults files.old;
      open_after = F.open_faults files.new;
      page_before = F.page_faults files.old;
      page_after = F.page_faults files.new;
    }) }
    ensures kept { KeepsFiles F.Files files.old files.new }
{
    let lines = open_schedule(alloc, files, schedule)?;
    let naming = name_images(alloc, words)?;
    let images = load_images(alloc, files, naming.names.as_slice())?;
    answer_over(
        alloc,
        question,
        numbers,
        images.as_slice(),
        naming.names.as_slice(),
        naming.first.as_slice(),
        lines.as_slice(),
    )
}

/// What a user should know of a run about whose references an answer was written: that LIMIT cut it, so that the answer is about its
/// beginning. None of a run that is over. The schedule and the images are read again, and the run is made again, so the fault is that of
/// this time.
pub fn explain_limit<'a, F: Files>(
    alloc: Global,
    files: &mut F,
    numbers: Numbers,
    schedule: &'a str,
    words: &[&'a str],
) -> Result<Option<Vec<u8>>, Fault<'a>>
    requires { IsFittingRun MOST_SHORT_LIMIT numbers schedule words.now }
    ensures explains { IfOk result (λ text. ExplainsLimit (record { numbers = numbers; schedule = schedule.now; words = map (λ word. word.now) words.now })
        (F.holds files.old) (option_map (λ line. line.items) text)) }
    ensures lacks { IfErr result (LacksLimit (record { numbers = numbers; schedule = schedule.now; words = map (λ word. word.now) words.now })
        (F.holds files.old) (record {
          open_before = F.open_faults files.old;
          open_after = F.open_faults files.new;
          page_before = F.page_faults files.old;
          page_after = F.page_faults files.new;
        })) }
    ensures kept { KeepsFiles F.Files files.old files.new }
{
    match answer_from(alloc, files, Question::WasCut, numbers, schedule, words) {
        Ok(text) => Ok(text_if(text)),
        Err(fault) => Err(fault),
    }
}

// A text that has a byte.
fn text_if(text: Vec<u8>) -> Option<Vec<u8>>
    ensures { told_text (option_map (λ line. line.items) result) ≡ text.items }
{
    if text.is_empty() { None } else { Some(text) }
}

/// Reads the schedule and the images that words name, runs them over files in memory and a blank swap of its own, writes the answer to a
/// question about the run, and answers the exit status: 0 where the answer was written; 2 an absent file; 3 no image; 4 a bad schedule; 5 a
/// file fault, before the run; 8 a fault of the output; 9 want of memory; 10 a journal with no room for a further entry, of 16,777,216,
/// where the run is to be finished; 11 no swap for a first process. At any other status than 0 and 8 the line of the fault is written
/// instead. The first thing met decides, in the order schedule, images, run; but an output that fails gives 8 whatever came before. The
/// run is to be finished for a question about its references, but for one about so many entries it goes up to these, and for a film up to
/// the last of its steps (this project's profile).
pub fn ask_command<F: Files, S: Sink>(
    alloc: Global,
    files: &mut F,
    sink: &mut S,
    question: Question,
    numbers: Numbers,
    schedule: &str,
    words: &[&str],
) -> u8
    requires question { IsQuestion question }
    requires fits { IsFittingRun (limit_of question) numbers schedule words.now }
    ensures answers { Answers question (record { numbers = numbers; schedule = schedule.now; words = map (λ word. word.now) words.now }) (F.holds files.old)
        (record {
          open_before = F.open_faults files.old;
          open_after = F.open_faults files.new;
          page_before = F.page_faults files.old;
          page_after = F.page_faults files.new;
        })
        (S.written sink.old) (S.written sink.new) (S.faults sink.old) (S.faults sink.new) result }
    ensures kept { KeepsFiles F.Files files.old files.new }
    ensures sink_leads { S.leads sink.old sink.new }
{
    let made = answer_from(alloc, files, question, numbers, schedule, words);
    write_ending(alloc, sink, made)
}
