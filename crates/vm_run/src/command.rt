//! `vmrun`, the call that the program makes: the words are read, and their command is done. Its contract is the
//! headline.
ghost use Rattle.std.specs.Prelude.{◌≡◌, map};
ghost use Rattle.command_words.specs.Asked.{request_of, asked_of};
ghost use Rattle.question_command.specs.Outside.{KeepsOutside};
ghost use Rattle.question_command.specs.Sight.{call_faults, seen_of_all};
ghost use Rattle.vm_run.specs.Headline.{CarriesFor};
ghost use Rattle.vm_run.specs.Failing.{FailsByStatus};
ghost use Rattle.vm_run.specs.Obeying.{Obeys, LeavesFiles, LeavesDevice};

use command_edge::{Fault, write_ending};
use command_words::{Command, read_words};
use grade_command::grade_file;
use io_edge::{Files, Sink, SwapDev};
use question_command::reference_commands::run_command::{load_command, run_command};
use question_command::{Question, ask_command};
use reference_answers::compare_policies;
use repage_command::{repage_file, repage_owners};
use replay_command::replay_file;
use source_commands::{assemble_file, list_file};
use std::alloc::Global;

// Does what the words of a command line ask for, and answers the status.
fn obey<F: Files, D: SwapDev, E: SwapDev, S: Sink>(
    alloc: Global,
    words: &[&str],
    files: &mut F,
    zero: &mut D,
    one: &mut E,
    sink: &mut S,
) -> u8
    ensures obeys { Obeys (asked_of (map (λ word. word.now) words.now))
        (seen_of_all F.Files D.SwapDev E.SwapDev S.Sink files.old files.new zero.old zero.new one.old one.new sink.old sink.new) result }
    ensures headline { CarriesFor (request_of (map (λ word. word.now) words.now)) (F.holds files.old) (D.image zero.old) (E.image one.old)
        (D.blocks zero.old) (E.blocks one.old) (S.written sink.old) (S.written sink.new) (S.faults sink.old) (S.faults sink.new)
        (call_faults F.Files D.SwapDev E.SwapDev files.old files.new zero.old zero.new one.old one.new) result }
    ensures files { LeavesFiles (asked_of (map (λ word. word.now) words.now)) (files.new ≡ files.old) }
    ensures kept { KeepsOutside F.Files D.SwapDev E.SwapDev S.Sink files.old files.new zero.old zero.new one.old one.new sink.old sink.new }
    ensures zero { LeavesDevice (asked_of (map (λ word. word.now) words.now)) result (zero.new ≡ zero.old) }
    ensures one { LeavesDevice (asked_of (map (λ word. word.now) words.now)) result (one.new ≡ one.old) }
{
    match read_words(words) {
        Some(
            Command::Run {
                traced,
                numbers,
                schedule,
                images,
            },
        ) => run_command(
            alloc, files, zero, one, sink, traced, numbers, schedule, images,
        ),
        Some(Command::Load { number }) => load_command(alloc, zero, one, sink, number),
        Some(Command::Replay { transcript, images }) => {
            replay_file(alloc, files, sink, transcript, images)
        }
        Some(Command::Assemble { source }) => assemble_file(alloc, files, sink, source),
        Some(Command::Show { image }) => list_file(alloc, files, sink, image),
        Some(
            Command::Optimum {
                size,
                numbers,
                schedule,
                images,
            },
        ) => ask_command(
            alloc,
            files,
            sink,
            Question::Optimum(size),
            numbers,
            schedule,
            images,
        ),
        Some(
            Command::Curve {
                numbers,
                schedule,
                images,
            },
        ) => ask_command(
            alloc,
            files,
            sink,
            Question::Curve,
            numbers,
            schedule,
            images,
        ),
        Some(
            Command::Owners {
                entries,
                numbers,
                schedule,
                images,
            },
        ) => ask_command(
            alloc,
            files,
            sink,
            Question::Owners(entries),
            numbers,
            schedule,
            images,
        ),
        Some(
            Command::Film {
                steps,
                numbers,
                schedule,
                images,
            },
        ) => ask_command(
            alloc,
            files,
            sink,
            Question::Film(steps),
            numbers,
            schedule,
            images,
        ),
        Some(
            Command::Stats {
                numbers,
                schedule,
                images,
            },
        ) => ask_command(
            alloc,
            files,
            sink,
            Question::Stats,
            numbers,
            schedule,
            images,
        ),
        Some(
            Command::References {
                numbers,
                schedule,
                images,
            },
        ) => ask_command(
            alloc,
            files,
            sink,
            Question::References,
            numbers,
            schedule,
            images,
        ),
        Some(
            Command::Grade {
                numbers,
                schedule,
                trace,
                images,
            },
        ) => grade_file(alloc, files, sink, numbers, schedule, trace, images),
        Some(
            Command::Repage {
                numbers,
                trace,
                images,
            },
        ) => repage_file(alloc, files, sink, numbers, trace, images),
        Some(
            Command::RepageOwners {
                entries,
                numbers,
                trace,
                images,
            },
        ) => repage_owners(alloc, files, sink, entries, numbers, trace, images),
        Some(
            Command::Policies {
                comparison,
                references,
            },
        ) => compare_policies(alloc, files, sink, comparison, references),
        None => write_ending(alloc, sink, Err(Fault::BadWords)),
    }
}

/// Does what the words of a command line ask for, without the program's name, over files, two swap devices and an
/// output, and answers the exit status: 0 where it was done; 1 bad words; 2 an absent file; 3 no image; 4 a bad schedule;
/// 5 a file fault; 6 a fault of a swap device that is read, 7 of one that is written; 8 a fault of the output; 9 want of
/// memory; 10 a full journal; 11 no swap for a first process; 12 a swap device that is too short; 14 a transcript or a trace that is no run;
/// 15 a bad transcript; 16 one that is too long, or a file of references; 17 a bad source; 18 a bad line of references; 19 a trace that the
/// policy doesn't write; 20 one of which it writes more. The first thing met decides, but an output that fails gives 8 whatever came before
/// (this project's profile).
///
/// At 5, 6, 7 and 8 just one call failed of the kind that the status names: of a file, a read of a swap device, a write of one, of the
/// output. At 8 one of the others may have failed before, and at any other status none failed.
///
/// A run reads its pages from the files, and a load from files of its own in memory; both write to the swap devices and read from
/// them. Other commands leave the devices as they are: the runs of `opt`, `curve`, `owners`, `film`, `stats`, `refs`, `grade` and `repage` have a
/// swap of their own in memory.
pub fn vmrun<F: Files, D: SwapDev, E: SwapDev, S: Sink>(
    alloc: Global,
    words: &[&str],
    files: &mut F,
    zero: &mut D,
    one: &mut E,
    sink: &mut S,
) -> u8
    ensures obeys { Obeys (asked_of (map (λ word. word.now) words.now))
        (seen_of_all F.Files D.SwapDev E.SwapDev S.Sink files.old files.new zero.old zero.new one.old one.new sink.old sink.new) result }
    ensures headline { CarriesFor (request_of (map (λ word. word.now) words.now)) (F.holds files.old) (D.image zero.old) (E.image one.old)
        (D.blocks zero.old) (E.blocks one.old) (S.written sink.old) (S.written sink.new) (S.faults sink.old) (S.faults sink.new)
        (call_faults F.Files D.SwapDev E.SwapDev files.old files.new zero.old zero.new one.old one.new) result }
    ensures files { LeavesFiles (asked_of (map (λ word. word.now) words.now)) (files.new ≡ files.old) }
    ensures kept { KeepsOutside F.Files D.SwapDev E.SwapDev S.Sink files.old files.new zero.old zero.new one.old one.new sink.old sink.new }
    ensures zero { LeavesDevice (asked_of (map (λ word. word.now) words.now)) result (zero.new ≡ zero.old) }
    ensures one { LeavesDevice (asked_of (map (λ word. word.now) words.now)) result (one.new ≡ one.old) }
    ensures fails { FailsByStatus
        (seen_of_all F.Files D.SwapDev E.SwapDev S.Sink files.old files.new zero.old zero.new one.old one.new sink.old sink.new) result }
{
    obey(alloc, words, files, zero, one, sink)
}
