//! Makes a run in memory, and gives its references or its owners.
ghost use Rattle.std.specs.Prelude.{◌≡◌, ◌≤◌, ℕ, List, Option, Some, Err, map, length, All, IfOk};
ghost use Rattle.vm_facts.specs.SwapImages.{SwapImage};
ghost use Rattle.flat_state.specs.Flat.{Inputs};
ghost use Rattle.machine_state.specs.Going.{IsRunning};
ghost use Rattle.command_edge.specs.ImageWords.{IsShortName};
ghost use Rattle.replay_check.specs.Images.{AreImageFiles, AreNumbers, images_of};
ghost use Rattle.run_command.specs.Full.{RunFull, RunOver};
ghost use Rattle.run_command.specs.RunEnds.{RunEnds};
ghost use Rattle.command_words.specs.declared.limits.TheConstants.{MOST_LIMIT};
ghost use Rattle.run_command.specs.Reading.{items_of};
ghost use Rattle.command_edge.specs.Ending.{ending_of};
ghost use Rattle.io_edge.specs.Octets.{AreOctetFiles};
ghost use Rattle.run_stats.specs.Owners.{owners_lines};
ghost use Rattle.run_command.specs.Machines.{journal_entries};
ghost use Rattle.reference_commands.specs.Answering.{blank_stores};
ghost use Rattle.reference_commands.specs.InMemory.{file_of, inputs_with, AreOpened, IsRunnable, HasRun, StaysRunning, EndsRun, EndsAnswer, AllDiffer};
ghost use Rattle.reference_commands.specs.declared.question.Question.TheVariants as questions;

use crate::copying::files_of;
use crate::growing::GrowingText;
use command_edge::Fault;
use command_words::{JOURNAL_ENTRIES, Numbers};
use io_edge::{Files, Moved, SureFiles, SureSwap};
use machine_state::Machine;
use replay_check::{Flat, references};
use run_command::core_up_to;
use run_command::vm_core::{Core, Unfinished, run_schedule};
use run_opening::{OpenedImage, open_images};
use run_stats::owner_lines::write_owners;
use std::alloc::Global;
use vm_facts::{Entry, Event, NoMemory, Page, Stop};

// The references of a run that ended so. Nothing in memory fails, so a run that stops has a full journal, or found no memory.
fn references_at_end<'a>(
    alloc: Global,
    images: &[Flat],
    first: &[u32],
    journal: &[Entry],
    ran: Result<(), Unfinished>,
) -> Result<Vec<Page>, Fault<'a>>
    requires images { AreImageFiles images.now }
    requires first { AreNumbers (length images.now) first.now }
    ensures ends { (A : Inputs) (after : Option SwapImage) → A.images ≡ images_of images.now → A.first ≡ first.now → A.limit ≤ MOST_LIMIT
        → RunEnds A journal.now (blank_stores A.swap_blocks) ran after →
        (ran ≡ Err (Unfinished.Stopped Stop.JournalFull) → journal_entries ≤ length journal.now)
        → EndsRun A (items_of result) }
{
    match ran {
        Ok(()) => match references(alloc, images, first, journal) {
            Ok(pages) => Ok(pages),
            Err(_) => Err(Fault::NoMemory),
        },
        Err(Unfinished::NoSpace(pid)) => Err(Fault::NoSpace(pid)),
        Err(Unfinished::Stopped(Stop::JournalFull)) => Err(Fault::JournalFull),
        Err(Unfinished::Stopped(_)) => Err(Fault::NoMemory),
    }
}

/// The lines about who owns what in a machine that runs, and whether its run is over. The one error is that no memory is left.
pub fn lines_of(alloc: Global, machine: &Machine, over: bool) -> Result<Vec<u8>, NoMemory>
    requires running { IsRunning machine.now }
    ensures { IfOk result (λ text. text.items ≡ owners_lines machine.now over) }
{
    let mut text = GrowingText::new(alloc);
    match write_owners(&mut text, machine, over) {
        Moved::Done => Ok(text.into_bytes()),
        Moved::Failed => Err(NoMemory),
    }
}

// The lines of a machine with these sizes, whose run is over.
fn lines_over<'a>(alloc: Global, machine: &Machine) -> Result<Vec<u8>, Fault<'a>>
    requires running { IsRunning machine.now }
    ensures { (A : Inputs) (entries : ℕ) → machine.now.params.journal ≡ entries → machine.now.params.swap_blocks ≡ A.swap_blocks
        → RunOver A machine.now (blank_stores A.swap_blocks) → EndsAnswer (questions.Owners entries) A (ending_of result) }
{
    match lines_of(alloc, machine, true) {
        Ok(text) => Ok(text),
        Err(_) => Err(Fault::NoMemory),
    }
}

// The lines of a machine with these sizes, whose journal is full.
fn lines_full<'a>(alloc: Global, machine: &Machine) -> Result<Vec<u8>, Fault<'a>>
    requires running { IsRunning machine.now }
    ensures { (A : Inputs) (entries : ℕ) → machine.now.params.journal ≡ entries → machine.now.params.swap_blocks ≡ A.swap_blocks
        → RunFull A machine.now (blank_stores A.swap_blocks) → EndsAnswer (questions.Owners entries) A (ending_of result) }
{
    match lines_of(alloc, machine, false) {
        Ok(text) => Ok(text),
        Err(_) => Err(Fault::NoMemory),
    }
}

// Who owns what in a machine whose run ended so. Nothing in memory fails, so a run that stops has a full journal, or found no memory.
fn owners_at_end<'a>(
    alloc: Global,
    machine: &Machine,
    ran: Result<(), Unfinished>,
) -> Result<Vec<u8>, Fault<'a>>
    requires running { StaysRunning machine.now ran }
    ensures ends { (A : Inputs) (entries : ℕ) → HasRun A entries machine.now ran → EndsAnswer (questions.Owners entries) A (ending_of result) }
{
    match ran {
        Ok(()) => lines_over(alloc, machine),
        Err(Unfinished::NoSpace(pid)) => Err(Fault::NoSpace(pid)),
        Err(Unfinished::Stopped(Stop::JournalFull)) => lines_full(alloc, machine),
        Err(Unfinished::Stopped(_)) => Err(Fault::NoMemory),
    }
}

// A core that ran, and how its run ended. The core must be ended.
struct Ran {
    core: Core,
    end: Result<(), Unfinished>,
}

// Runs images that were opened from these files in memory, over a blank swap, with a journal of at most so many entries.
fn run_opened(
    alloc: Global,
    files: &mut SureFiles,
    numbers: Numbers,
    entries: u32,
    images: &[Flat],
    opened: &[OpenedImage<'_>],
    first: &[u32],
    lines: &[Event],
) -> Result<Ran, NoMemory>
    requires held { ⟦<SureFiles as Files>⟧.holds files.old ≡ Some (map file_of images.now) }
    requires octets { AreOctetFiles (map file_of images.now) }
    requires images { AreImageFiles images.now }
    requires opened { AreOpened images.now opened.now }
    requires runnable { IsRunnable numbers (length images.now) first.now lines.now }
    ensures { IfOk result (λ ran. HasRun (inputs_with numbers images.now first.now lines.now) entries ran.core.machine ran.end) }
{
    let mut swap = SureSwap::new(alloc, numbers.swap)?;
    let mut core = core_up_to(alloc, numbers, entries, opened)?;
    let end = run_schedule(&mut core, files, &mut swap, first, lines);
    Ok(Ran { core, end })
}

/// Files in memory, and images that were opened from them.
pub struct OpenedInMemory<'a> {
    pub files: SureFiles,
    pub images: Vec<OpenedImage<'a>>,
}

/// Images of these names, held in memory and opened there. The one error is that no memory is left.
pub fn open_in_memory<'a>(
    alloc: Global,
    images: &[Flat],
    names: &[&'a str],
) -> Result<OpenedInMemory<'a>, NoMemory>
    requires images { AreImageFiles images.now }
    requires few { length names.now ≤ 16 }
    requires named { map (λ image. image.name) images.now ≡ map (λ name. name.now) names.now }
    requires short { All (λ name. IsShortName name.now) names.now }
    requires differ { AllDiffer (map (λ name. name.now) names.now) }
    ensures held { IfOk result (λ opening. ⟦<SureFiles as Files>⟧.holds opening.files ≡ Some (map file_of images.now)) }
    ensures octets { IfOk result (λ opening. AreOctetFiles (map file_of images.now)) }
    ensures opened { IfOk result (λ opening. AreOpened images.now opening.images.items) }
{
    let Ok(held) = files_of(alloc, images) else {
        return Err(NoMemory);
    };
    let mut files = SureFiles::new(held);
    let Ok(opened) = open_images(alloc, &mut files, names) else {
        return Err(NoMemory);
    };
    Ok(OpenedInMemory {
        files,
        images: opened,
    })
}

// Runs a schedule over images of these names, begun with first processes in images of these numbers, over files in memory and a blank
// swap, with a journal of at most so many entries.
fn run_images(
    alloc: Global,
    numbers: Numbers,
    entries: u32,
    images: &[Flat],
    names: &[&str],
    first: &[u32],
    lines: &[Event],
) -> Result<Ran, NoMemory>
    requires images { AreImageFiles images.now }
    requires few { length names.now ≤ 16 }
    requires named { map (λ image. image.name) images.now ≡ map (λ name. name.now) names.now }
    requires short { All (λ name. IsShortName name.now) names.now }
    requires differ { AllDiffer (map (λ name. name.now) names.now) }
    requires runnable { IsRunnable numbers (length images.now) first.now lines.now }
    ensures { IfOk result (λ ran. HasRun (inputs_with numbers images.now first.now lines.now) entries ran.core.machine ran.end) }
{
    let OpenedInMemory {
        mut files,
        images: opened,
    } = open_in_memory(alloc, images, names)?;
    run_opened(
        alloc,
        &mut files,
        numbers,
        entries,
        images,
        opened.as_slice(),
        first,
        lines,
    )
}

/// Runs a schedule over images of these names, begun with first processes in images of these numbers, over files in memory and a blank
/// swap, and answers the references of the run: the pages that its counted instructions touch, one after another.
pub fn run_references<'a>(
    alloc: Global,
    numbers: Numbers,
    images: &[Flat],
    names: &[&str],
    first: &[u32],
    lines: &[Event],
) -> Result<Vec<Page>, Fault<'a>>
    requires images { AreImageFiles images.now }
    requires few { length names.now ≤ 16 }
    requires named { map (λ image. image.name) images.now ≡ map (λ name. name.now) names.now }
    requires short { All (λ name. IsShortName name.now) names.now }
    requires differ { AllDiffer (map (λ name. name.now) names.now) }
    requires runnable { IsRunnable numbers (length images.now) first.now lines.now }
    ensures { EndsRun (inputs_with numbers images.now first.now lines.now) (items_of result) }
{
    let Ok(ran) = run_images(alloc, numbers, JOURNAL_ENTRIES, images, names, first, lines) else {
        return Err(Fault::NoMemory);
    };
    let Ran { core, end } = ran;
    let pages = references_at_end(alloc, images, first, core.journal(), end);
    core.end();
    pages
}

/// Runs it in the same way up to so many entries of its journal, and answers who owns what then, or where the run is over before.
pub fn run_owners<'a>(
    alloc: Global,
    entries: u32,
    numbers: Numbers,
    images: &[Flat],
    names: &[&str],
    first: &[u32],
    lines: &[Event],
) -> Result<Vec<u8>, Fault<'a>>
    requires images { AreImageFiles images.now }
    requires few { length names.now ≤ 16 }
    requires named { map (λ image. image.name) images.now ≡ map (λ name. name.now) names.now }
    requires short { All (λ name. IsShortName name.now) names.now }
    requires differ { AllDiffer (map (λ name. name.now) names.now) }
    requires runnable { IsRunnable numbers (length images.now) first.now lines.now }
    ensures { EndsAnswer (questions.Owners entries) (inputs_with numbers images.now first.now lines.now) (ending_of result) }
{
    let Ok(ran) = run_images(alloc, numbers, entries, images, names, first, lines) else {
        return Err(Fault::NoMemory);
    };
    let Ran { core, end } = ran;
    let text = owners_at_end(alloc, core.machine(), end);
    core.end();
    text
}
