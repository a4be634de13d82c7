//! `load`: the workload of a number is made, run, and its counts written.
ghost use Rattle.io_edge.specs.FileRequests.{FileNotes};
ghost use Rattle.std.specs.Prelude.{◌≡◌, ◌<◌, ◌≤◌, ◌^◌, ℕ, List, length, map, Option};
ghost use Rattle.io_edge.specs.FileHolding.{NamedFile};
ghost use Rattle.io_edge.specs.Striping.{MeetsNeeds};
ghost use Rattle.machine_state.specs.New.{AreSound};
ghost use Rattle.machine_state.specs.Applying.{facts_named};
ghost use Rattle.machine_state.specs.Files.{AreFiles};
ghost use Rattle.machine_state.specs.Sourced.{AreNames};
ghost use Rattle.vm_core.specs.FirstProcesses.{StartsFrom};
ghost use Rattle.vm_core.specs.Schedules.{HaveFewMoves};
ghost use Rattle.vm_core.specs.RunEnds.{IsAskedOf};
ghost use Rattle.run_command.specs.Naming.{shown_as};
ghost use Rattle.run_command.specs.Machines.{machine_of};
ghost use Rattle.run_command.specs.Outside.{KeepsDevices, KeepsOutput, Early};
ghost use Rattle.run_command.specs.Sight.{seen_beside};
ghost use Rattle.run_command.specs.Loads.{load_first, load_numbers, WritesCounts, Loads, LoadRuns};

use crate::command::core_of;
use crate::paired::run_paired;
use command_edge::{Fault, write_ending};
use command_words::Numbers;
use io_edge::{Files, Sink, SureFiles, SwapDev};
use load_maker::{Load, counts_of, load_text, make_load};
use run_opening::{OpenedImage, device_fault, open_images};
use std::alloc::Global;
use vm_facts::{Entry, Event};

// The numbers of a load's run.
const LOAD_NUMBERS: Numbers = Numbers {
    frames: 128,
    swap: 8_192,
    limit: 200_000,
};

// Writes the six lines of a load that is finished, or the line of its fault, and answers the status. Where these find no memory,
// that is how it ends.
fn write_counts<S: Sink>(
    alloc: Global,
    sink: &mut S,
    number: u32,
    journal: &[Entry],
    ending: Result<(), Fault<'_>>,
) -> u8
    ensures writes { WritesCounts number journal.now ending.entry (S.written sink.old) (S.written sink.new) (S.faults sink.old) (S.faults sink.new) result }
    ensures leads { S.leads sink.old sink.new }
{
    let made = match ending {
        Ok(()) => match load_text(alloc, number, counts_of(4, journal)) {
            Ok(text) => Ok(text),
            Err(_) => Err(Fault::NoMemory),
        },
        Err(fault) => Err(fault),
    };
    write_ending(alloc, sink, made)
}

// Runs a schedule over images that were opened, begun with four processes of the first, and writes what the run did.
fn run_load<D: SwapDev, E: SwapDev, S: Sink>(
    alloc: Global,
    files: &mut SureFiles,
    zero: &mut D,
    one: &mut E,
    sink: &mut S,
    number: u32,
    images: &[OpenedImage<'_>],
    lines: &[Event],
) -> u8
    requires some { 1 ≤ length images.now }
    requires few { length images.now ≤ 16 }
    requires sound { AreSound (facts_named (map shown_as images.now)) }
    requires names { AreNames (map shown_as images.now) }
    requires are_files { AreFiles (map shown_as images.now) (⟦<SureFiles as Files>⟧.holds files.old) }
    requires moves { HaveFewMoves lines.now }
    requires count { length lines.now < 2 ^ 32 }
    requires devices { MeetsNeeds (D.blocks zero.old) (E.blocks one.old) load_numbers.swap }
    ensures runs { (told : Option (List NamedFile)) (opens pages : ℕ) (notes : FileNotes)
        → LoadRuns (λ A image. IsAskedOf A (machine_of load_numbers (map shown_as images.now)) load_first lines.now
        (⟦<SureFiles as Files>⟧.holds files.old) image)
        (λ A. StartsFrom A (machine_of load_numbers (map shown_as images.now)) load_first) number (seen_beside told (record {
          open_before = opens;
          open_after = opens;
          page_before = pages;
          page_after = pages;
        }) notes notes D.SwapDev E.SwapDev S.Sink zero.old zero.new one.old one.new sink.old sink.new) result }
    ensures devices { KeepsDevices D.SwapDev E.SwapDev zero.old zero.new one.old one.new }
    ensures output { KeepsOutput S.Sink sink.old sink.new }
    ensures zero_left { Early result (zero.new ≡ zero.old) }
    ensures one_left { Early result (one.new ≡ one.old) }
{
    let Ok(mut core) = core_of(alloc, LOAD_NUMBERS, images) else {
        return write_counts(alloc, sink, number, &[], Err(Fault::NoMemory));
    };
    let ending = run_paired(&mut core, files, zero, one, &[1, 1, 1, 1], lines);
    let status = write_counts(alloc, sink, number, core.journal(), ending);
    core.end();
    status
}

/// Makes the workload of a number, runs it over two swap devices with 128 frames, 8,192 blocks of swap and at most 200,000
/// instructions, begun with four processes of its first image, writes six lines that count over the journal, and answers the exit
/// status: 0 where the run is finished; 6 a fault of a swap device that is read, 7 of one that is written; 8 a fault of the output;
/// 9 want of memory, also for the lines; 10 a journal with no room for a further entry, of 16,777,216; 12 a swap device that is
/// too short. At any other status than 0 and 8 the line of the fault is written in place of the
/// six lines. The devices are judged before the run, device 0 first; an output that fails gives 8 whatever came before (this
/// project's profile).
pub fn load_command<D: SwapDev, E: SwapDev, S: Sink>(
    alloc: Global,
    zero: &mut D,
    one: &mut E,
    sink: &mut S,
    number: u32,
) -> u8
    ensures loads { (told : Option (List NamedFile)) (opens pages : ℕ) (notes : FileNotes) → Loads number (seen_beside told (record {
      open_before = opens;
      open_after = opens;
      page_before = pages;
      page_after = pages;
    }) notes notes D.SwapDev E.SwapDev S.Sink zero.old zero.new one.old one.new sink.old sink.new) result }
    ensures devices { KeepsDevices D.SwapDev E.SwapDev zero.old zero.new one.old one.new }
    ensures output { KeepsOutput S.Sink sink.old sink.new }
    ensures zero_left { Early result (zero.new ≡ zero.old) }
    ensures one_left { Early result (one.new ≡ one.old) }
{
    let Ok(Load { files, lines }) = make_load(alloc, number) else {
        return write_counts(alloc, sink, number, &[], Err(Fault::NoMemory));
    };
    if let Some(fault) = device_fault(LOAD_NUMBERS.swap, zero.blocks(), one.blocks()) {
        return write_counts(alloc, sink, number, &[], Err(fault));
    }
    let mut files = SureFiles::new(files);
    match open_images(alloc, &mut files, &["w", "v"]) {
        Ok(images) => run_load(
            alloc,
            &mut files,
            zero,
            one,
            sink,
            number,
            images.as_slice(),
            lines.as_slice(),
        ),
        Err(fault) => write_counts(alloc, sink, number, &[], Err(fault)),
    }
}
