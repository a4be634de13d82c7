//! `run`: what the words name is opened, run over two swap devices, and written. `load` and the questions make their
//! cores here too.
ghost use Rattle.std.specs.Prelude.{◌≡◌, ◌<◌, ◌≤◌, length, map, IfOk};
ghost use Rattle.io_edge.specs.FileRequests.{FileNotes};
ghost use Rattle.io_edge.specs.Striping.{MeetsNeeds};
ghost use Rattle.machine_state.specs.New.{AreSound};
ghost use Rattle.machine_state.specs.Sourced.{AreNames};
ghost use Rattle.machine_state.specs.Applying.{facts_named};
ghost use Rattle.command_words.specs.Command.{word_list, AreAllowed, AreImageWords, IsFittingRun};
ghost use Rattle.command_words.specs.declared.limits.TheConstants.{MOST_FRAMES, MOST_LIMIT};
ghost use Rattle.vm_core.specs.Starting.{IsFresh};
ghost use Rattle.run_command.specs.Naming.{shown_as};
ghost use Rattle.run_command.specs.Machines.{machine_up_to, machine_of, SuitsMachine, IsOfOpening};
ghost use Rattle.run_command.specs.Outside.{KeepsOutside, Early};
ghost use Rattle.run_command.specs.Sight.{faults_seen, call_faults, seen_beside, seen_of_all};
ghost use Rattle.run_command.specs.Ends.{Runs, RunsOpened};
ghost use Rattle.run_command.specs.Headlines.{CarriesHeadline};

use crate::naming::name_images;
use crate::paired::run_paired;
use crate::writing::write_run;
use command_edge::Fault;
use command_words::{ImageWords, JOURNAL_ENTRIES, Numbers};
use io_edge::{Files, Sink, SwapDev};
use run_opening::{OpenedImage, Opening, open_run};
use std::alloc::Global;
use vm_core::Core;
use vm_facts::{NoMemory, Params};

/// The core of a run, with no process yet, whose journal has at most so many entries.
pub fn core_up_to(
    alloc: Global,
    numbers: Numbers,
    entries: u32,
    images: &[OpenedImage<'_>],
) -> Result<Core, NoMemory>
    requires some { 0 < numbers.frames }
    requires most { numbers.frames ≤ MOST_FRAMES }
    requires few { length images.now ≤ 16 }
    requires sound { AreSound (facts_named (map shown_as images.now)) }
    requires names { AreNames (map shown_as images.now) }
    ensures machine { IfOk result (λ core. core.machine ≡ machine_up_to entries numbers (map shown_as images.now)) }
    ensures fresh { IfOk result IsFresh }
{
    let Ok(named) = name_images(alloc, images) else {
        return Err(NoMemory);
    };
    let params = Params {
        frames: numbers.frames,
        swap_blocks: numbers.swap,
        limit: numbers.limit,
        journal: entries,
    };
    Core::new(alloc, params, named)
}

/// The core of a run, with no process yet.
pub fn core_of(
    alloc: Global,
    numbers: Numbers,
    images: &[OpenedImage<'_>],
) -> Result<Core, NoMemory>
    requires some { 0 < numbers.frames }
    requires most { numbers.frames ≤ MOST_FRAMES }
    requires few { length images.now ≤ 16 }
    requires sound { AreSound (facts_named (map shown_as images.now)) }
    requires names { AreNames (map shown_as images.now) }
    ensures machine { IfOk result (λ core. core.machine ≡ machine_of numbers (map shown_as images.now)) }
    ensures fresh { IfOk result IsFresh }
{
    core_up_to(alloc, numbers, JOURNAL_ENTRIES, images)
}

// Runs what was opened, and writes the run.
fn run_opened<F: Files, D: SwapDev, E: SwapDev, S: Sink>(
    alloc: Global,
    files: &mut F,
    zero: &mut D,
    one: &mut E,
    sink: &mut S,
    traced: bool,
    numbers: Numbers,
    opening: &Opening<'_>,
) -> u8
    requires allowed { AreAllowed numbers }
    requires ready { SuitsMachine opening.now (F.holds files.old) }
    requires devices { MeetsNeeds (D.blocks zero.old) (E.blocks one.old) numbers.swap }
    ensures runs { (notes : FileNotes) → RunsOpened (IsOfOpening numbers opening.now (F.holds files.old)) (F.notes files.old) traced
        (seen_beside (F.holds files.old) (faults_seen F.Files files.old files.new) notes (F.notes files.new) D.SwapDev E.SwapDev S.Sink zero.old zero.new
        one.old one.new sink.old sink.new) result }
    ensures kept { KeepsOutside F.Files D.SwapDev E.SwapDev S.Sink files.old files.new zero.old zero.new one.old one.new sink.old sink.new }
    ensures zero_left { Early result (zero.new ≡ zero.old) }
    ensures one_left { Early result (one.new ≡ one.old) }
{
    let Ok(mut core) = core_of(alloc, numbers, opening.images.as_slice()) else {
        return write_run(alloc, sink, traced, &[], Err(Fault::NoMemory));
    };
    let ending = run_paired(
        &mut core,
        files,
        zero,
        one,
        opening.first.as_slice(),
        opening.lines.as_slice(),
    );
    let status = write_run(alloc, sink, traced, core.journal(), ending);
    core.end();
    status
}

// Opens a schedule and the images of words, runs them, and writes the run.
fn run_words<F: Files, D: SwapDev, E: SwapDev, S: Sink>(
    alloc: Global,
    files: &mut F,
    zero: &mut D,
    one: &mut E,
    sink: &mut S,
    traced: bool,
    numbers: Numbers,
    schedule: &str,
    words: &[&str],
) -> u8
    requires allowed { AreAllowed numbers }
    requires words { AreImageWords words.now }
    ensures runs { Runs (record { traced = traced; numbers = numbers; schedule = schedule.now; words = map (λ word. word.now) words.now })
        (seen_of_all F.Files D.SwapDev E.SwapDev S.Sink files.old files.new zero.old zero.new one.old one.new sink.old sink.new) result }
    ensures headline { CarriesHeadline (record { traced = traced; numbers = numbers; schedule = schedule.now; words = map (λ word. word.now) words.now })
        (F.holds files.old) (D.image zero.old) (E.image one.old) (D.blocks zero.old) (E.blocks one.old)
        (S.written sink.old) (S.written sink.new) (S.faults sink.old) (S.faults sink.new)
        (call_faults F.Files D.SwapDev E.SwapDev files.old files.new zero.old zero.new one.old one.new) result }
    ensures kept { KeepsOutside F.Files D.SwapDev E.SwapDev S.Sink files.old files.new zero.old zero.new one.old one.new sink.old sink.new }
    ensures zero_left { Early result (zero.new ≡ zero.old) }
    ensures one_left { Early result (one.new ≡ one.old) }
{
    let opened = open_run(
        alloc,
        files,
        schedule,
        words,
        numbers.swap,
        zero.blocks(),
        one.blocks(),
    );
    match opened {
        Ok(opening) => run_opened(alloc, files, zero, one, sink, traced, numbers, &opening),
        Err(fault) => write_run(alloc, sink, traced, &[], Err(fault)),
    }
}

/// Runs a schedule and the images of words, over files and two swap devices, writes the transcript, and answers the exit
/// status: 0 where the run is finished; 2 an absent file; 3 no image; 4 a bad schedule; 5 a file fault; 6 a fault of a swap
/// device that is read, 7 of one that is written; 8 a fault of the output; 9 want of memory; 10 a journal with no room for a
/// further entry, of 16,777,216; 11 no swap for a first process; 12 a swap device that is too short. At any other status than 0
/// and 8 the line of the fault follows the transcript, which has the paging entries where `traced` asks for them. The first
/// thing met decides, in the order schedule, images, devices, first processes, run; but an output that fails gives 8 whatever
/// came before (this project's profile).
pub fn run_command<F: Files, D: SwapDev, E: SwapDev, S: Sink>(
    alloc: Global,
    files: &mut F,
    zero: &mut D,
    one: &mut E,
    sink: &mut S,
    traced: bool,
    numbers: Numbers,
    schedule: &str,
    images: ImageWords<'_>,
) -> u8
    requires fits { IsFittingRun MOST_LIMIT numbers schedule (word_list images) }
    ensures runs { Runs (record { traced = traced; numbers = numbers; schedule = schedule.now; words = map (λ word. word.now) (word_list images.entry) })
        (seen_of_all F.Files D.SwapDev E.SwapDev S.Sink files.old files.new zero.old zero.new one.old one.new sink.old sink.new) result }
    ensures headline { CarriesHeadline
        (record { traced = traced; numbers = numbers; schedule = schedule.now; words = map (λ word. word.now) (word_list images.entry) })
        (F.holds files.old) (D.image zero.old) (E.image one.old) (D.blocks zero.old) (E.blocks one.old)
        (S.written sink.old) (S.written sink.new) (S.faults sink.old) (S.faults sink.new)
        (call_faults F.Files D.SwapDev E.SwapDev files.old files.new zero.old zero.new one.old one.new) result }
    ensures kept { KeepsOutside F.Files D.SwapDev E.SwapDev S.Sink files.old files.new zero.old zero.new one.old one.new sink.old sink.new }
    ensures zero_left { Early result (zero.new ≡ zero.old) }
    ensures one_left { Early result (one.new ≡ one.old) }
{
    match images.to_vec(alloc) {
        Ok(words) => run_words(
            alloc,
            files,
            zero,
            one,
            sink,
            traced,
            numbers,
            schedule,
            words.as_slice(),
        ),
        Err(_) => write_run(alloc, sink, traced, &[], Err(Fault::NoMemory)),
    }
}
