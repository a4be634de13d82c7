//! What is asked of a film, and the run in memory that answers it.
ghost use Rattle.io_edge.specs.WithFiles.{stores};
ghost use Rattle.std.specs.Prelude.{◌≡◌, ◌<◌, ◌≤◌, ◌^◌, [], ℕ, List, length, map, All, Some, IfOk};
ghost use Rattle.vm_facts.specs.SwapImages.{SwapImage};
ghost use Rattle.flat_state.specs.Flat.{Inputs};
ghost use Rattle.io_edge.specs.Octets.{AreOctetFiles};
ghost use Rattle.machine_state.specs.New.{AreSound};
ghost use Rattle.machine_state.specs.Outside.{IsBacked};
ghost use Rattle.machine_state.specs.Sourced.{AreNames};
ghost use Rattle.machine_state.specs.Applying.{facts_named};
ghost use Rattle.machine_state.specs.Files.{AreFiles};
ghost use Rattle.command_edge.specs.ImageWords.{IsShortName};
ghost use Rattle.replay_check.specs.Images.{AreImageFiles};
ghost use Rattle.command_edge.specs.Ending.{ending_of};
ghost use Rattle.command_words.specs.declared.limits.TheConstants.{MOST_FRAMES};
ghost use Rattle.film_core.specs.Schedules.{HaveFewMoves};
ghost use Rattle.film_core.specs.RunEnds.{IsAskedOf};
ghost use Rattle.film_core.specs.Films.{IsFilming, IsUnbegun, FilmBegun};
ghost use Rattle.reference_commands.specs.Naming.{shown_as};
ghost use Rattle.reference_commands.specs.Machines.{machine_up_to};
ghost use Rattle.reference_commands.specs.Asking.{IsQuestion};
ghost use Rattle.reference_commands.specs.InMemory.{file_of, inputs_with, AreOpened, IsRunnable, EndsAnswer, AllDiffer};
ghost use Rattle.question_command.specs.Filmed.{IsAskable};
ghost use Rattle.question_command.specs.Asked.{question_of};

use crate::counting::count_begun;
use crate::ending::end_begun;
use crate::filming::film_begun;
use command_edge::Fault;
use command_words::{FilmSteps, Numbers};
use film_core::{Film, Started};
use io_edge::{Files, SureFiles, SureSwap, SwapDev};
use reference_commands::run_command::name_images;
use reference_commands::{OpenedInMemory, open_in_memory};
use replay_check::Flat;
use run_opening::OpenedImage;
use std::alloc::Global;
use vm_facts::{Event, NoMemory, Params};

/// What is asked of a run that goes on from entry to entry (this project's profile).
#[derive(Clone, Copy, Debug, PartialEq, Eq, Drop)]
pub enum FilmQuestion {
    /// Who owns what after each of several numbers of entries, from 0 to 16,777,216, at least one apart.
    Film(FilmSteps),
    /// What it did, counted, and how it came to its end.
    Stats,
    /// Whether the limit of instructions cut it.
    WasCut,
}

// The answer about a film that was begun, of so many images.
fn answer_begun<'a, F: Files, D: SwapDev>(
    alloc: Global,
    film: &mut Film,
    files: &mut F,
    swap: &mut D,
    lines: &[Event],
    images: u32,
    asked: FilmQuestion,
) -> Result<Vec<u8>, Fault<'a>>
    requires filming { IsFilming film.old lines.now (F.holds files.old) (stores F.Files D.SwapDev files.old swap.old) }
    requires first { film.old.machine.kernel.journal ≡ [] }
    requires moves { HaveFewMoves lines.now }
    requires count { length lines.now < 2 ^ 32 }
    requires backed { IsBacked film.old.machine (F.holds files.old) (D.blocks swap.old) }
    requires question { IsQuestion (question_of asked) }
    ensures { (A : Inputs) (image : SwapImage) → A.lines ≡ lines.now → length A.images ≡ images
        → FilmBegun A film.old (F.holds files.old) (stores F.Files D.SwapDev files.old swap.old) image
        → EndsAnswer (question_of asked) A (ending_of result) }
{
    match asked {
        FilmQuestion::Film(steps) => film_begun(alloc, film, files, swap, lines, steps),
        FilmQuestion::Stats => count_begun(alloc, film, files, swap, lines, images),
        FilmQuestion::WasCut => end_begun(alloc, film, files, swap, lines),
    }
}

// The answer about a film that had no call yet, of so many images.
fn answer_run<'a, F: Files, D: SwapDev>(
    alloc: Global,
    film: &mut Film,
    files: &mut F,
    swap: &mut D,
    first: &[u32],
    lines: &[Event],
    images: u32,
    asked: FilmQuestion,
) -> Result<Vec<u8>, Fault<'a>>
    requires unbegun { IsUnbegun film.old }
    requires some { 0 < film.old.machine.params.limit }
    requires frames { 64 ≤ film.old.machine.params.frames }
    requires few { length first.now ≤ 16 }
    requires numbers { All (λ n. (1 ≤ n) × (n ≤ length film.old.machine.images)) first.now }
    requires moves { HaveFewMoves lines.now }
    requires count { length lines.now < 2 ^ 32 }
    requires area { film.old.machine.params.swap_blocks ≤ D.blocks swap.old }
    requires files { AreFiles film.old.machine.images (F.holds files.old) }
    requires question { IsQuestion (question_of asked) }
    requires inputs { IsAskable film.old.machine first.now lines.now (F.holds files.old) (stores F.Files D.SwapDev files.old swap.old) }
    ensures { (A : Inputs) (image : SwapImage) → IsAskedOf A film.old.machine first.now lines.now (F.holds files.old) image → stores F.Files D.SwapDev
        files.old swap.old ≡ Some image
        → length A.images ≡ images → EndsAnswer (question_of asked) A (ending_of result) }
{
    match film.start(files, swap, first, lines) {
        Ok(Started::Ok) => { answer_begun(alloc, film, files, swap, lines, images, asked) },
        Ok(Started::NoSpace(pid)) => Err(Fault::NoSpace(pid)),
        Err(_) => Err(Fault::NoMemory),
    }
}

/// The film of a run of these images, with no process yet.
pub fn film_of(
    alloc: Global,
    numbers: Numbers,
    images: &[OpenedImage<'_>],
) -> Result<Film, NoMemory>
    requires some { 0 < numbers.frames }
    requires most { numbers.frames ≤ MOST_FRAMES }
    requires few { length images.now ≤ 16 }
    requires sound { AreSound (facts_named (map shown_as images.now)) }
    requires names { AreNames (map shown_as images.now) }
    ensures machine { IfOk result (λ film. film.machine ≡ machine_up_to 0 numbers (map shown_as images.now)) }
    ensures unbegun { IfOk result IsUnbegun }
{
    let Ok(named) = name_images(alloc, images) else {
        return Err(NoMemory);
    };
    let params = Params {
        frames: numbers.frames,
        swap_blocks: numbers.swap,
        limit: numbers.limit,
        journal: 0,
    };
    let film = Film::new(alloc, params, named)?;
    Ok(film)
}

// The answer about a run of images that were opened from these files in memory, over a blank swap.
fn answer_opened<'a>(
    alloc: Global,
    files: &mut SureFiles,
    numbers: Numbers,
    images: &[Flat],
    opened: &[OpenedImage<'_>],
    first: &[u32],
    lines: &[Event],
    asked: FilmQuestion,
) -> Result<Vec<u8>, Fault<'a>>
    requires held { ⟦<SureFiles as Files>⟧.holds files.old ≡ Some (map file_of images.now) }
    requires octets { AreOctetFiles (map file_of images.now) }
    requires images { AreImageFiles images.now }
    requires opened { AreOpened images.now opened.now }
    requires runnable { IsRunnable numbers (length images.now) first.now lines.now }
    requires question { IsQuestion (question_of asked) }
    ensures { EndsAnswer (question_of asked) (inputs_with numbers images.now first.now lines.now) (ending_of result) }
{
    let Ok(mut swap) = SureSwap::new(alloc, numbers.swap) else {
        return Err(Fault::NoMemory);
    };
    let Ok(mut film) = film_of(alloc, numbers, opened) else {
        return Err(Fault::NoMemory);
    };
    let text = answer_run(
        alloc,
        &mut film,
        files,
        &mut swap,
        first,
        lines,
        images.len() as u32,
        asked,
    );
    film.end();
    text
}

/// Runs a schedule over images of these names, begun with first processes in images of these numbers, over files in memory and a blank
/// swap, from entry to entry, and answers what is asked. The faults are want of memory; no swap for a first process; and, but of a film, a
/// journal with no room for a further entry.
pub fn film_answer<'a>(
    alloc: Global,
    numbers: Numbers,
    images: &[Flat],
    names: &[&str],
    first: &[u32],
    lines: &[Event],
    asked: FilmQuestion,
) -> Result<Vec<u8>, Fault<'a>>
    requires images { AreImageFiles images.now }
    requires few { length names.now ≤ 16 }
    requires named { map (λ image. image.name) images.now ≡ map (λ name. name.now) names.now }
    requires short { All (λ name. IsShortName name.now) names.now }
    requires differ { AllDiffer (map (λ name. name.now) names.now) }
    requires runnable { IsRunnable numbers (length images.now) first.now lines.now }
    requires question { IsQuestion (question_of asked) }
    ensures { EndsAnswer (question_of asked) (inputs_with numbers images.now first.now lines.now) (ending_of result) }
{
    let Ok(opening) = open_in_memory(alloc, images, names) else {
        return Err(Fault::NoMemory);
    };
    let OpenedInMemory {
        mut files,
        images: opened,
    } = opening;
    answer_opened(
        alloc,
        &mut files,
        numbers,
        images,
        opened.as_slice(),
        first,
        lines,
        asked,
    )
}
