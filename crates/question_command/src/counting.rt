//! The run of `stats`: the film goes on to its end, and each entry is noted.
ghost use Rattle.io_edge.specs.WithFiles.{stores};
ghost use Rattle.std.specs.Prelude.{◌≡◌, ◌+◌, ◌<◌, ◌^◌, ◌++◌, ◌&&◌, not, nat_lt, [], ◌∷◌, ℕ, false, true, List, length, map, All, Option, Some, IfOk, OnOk};
ghost use Rattle.vm_facts.specs.SwapImages.{SwapImage};
ghost use Rattle.vm_facts.specs.declared.entry.Entry.{Entry};
ghost use Rattle.io_edge.specs.FileHolding.{NamedFile};
ghost use Rattle.reference_commands.specs.Machines.{journal_entries};
ghost use Rattle.run_stats.specs.declared.look.Look.{Look as Looked};
ghost use Rattle.run_stats.specs.Notes.{note_by};
ghost use Rattle.flat_state.specs.Flat.{Inputs};
ghost use Rattle.io_edge.specs.Octets.{AreOctetFiles};
ghost use Rattle.machine_state.specs.Going.{IsRunning};
ghost use Rattle.machine_state.specs.Outside.{IsBacked};
ghost use Rattle.command_edge.specs.ImageWords.{IsShortName};
ghost use Rattle.replay_check.specs.Images.{AreImageFiles};
ghost use Rattle.command_edge.specs.Ending.{ending_of};
ghost use Rattle.film_core.specs.Schedules.{HaveFewMoves};
ghost use Rattle.film_core.specs.RunEnds.{IsAskedOf};
ghost use Rattle.film_core.specs.Films.{IsFilming, IsUnbegun, FilmBegun};
ghost use Rattle.question_command.specs.Counted.{look_at_film, Counted};
ghost use Rattle.question_command.specs.Filmed.{IsAskable};
ghost use Rattle.reference_commands.specs.Answering.{SaysStats};
ghost use Rattle.reference_commands.specs.InMemory.{EndsAnswer};
ghost use Rattle.reference_commands.specs.declared.question.Question.TheVariants as questions;

use crate::ending::finish_of;
use crate::filming::goes_on;
use command_edge::Fault;
use command_words::{JOURNAL_ENTRIES, Numbers};
use film_core::{Film, Started};
use io_edge::{Files, SureFiles, SureSwap, SwapDev};
use reference_commands::{OpenedInMemory, open_in_memory};
use replay_check::Flat;
use run_opening::OpenedImage;
use run_stats::{Look, Note, look_over, note_entry, put_finish, stats_text};
use std::alloc::Global;
use vm_facts::{Event, NoMemory};

// What is looked at of a film.
fn look_at_film(film: &Film) -> Look
    requires running { IsRunning film.now.machine }
    ensures { result ≡ look_at_film film.now }
{
    look_over(film.machine(), film.mark())
}

// The film goes on by one entry, which is noted.
fn count_entry<F: Files, D: SwapDev>(
    film: &mut Film,
    files: &mut F,
    swap: &mut D,
    lines: &[Event],
    notes: &mut Vec<Note>,
) -> Result<(), NoMemory>
    requires filming { IsFilming film.old lines.now (F.holds files.old) (stores F.Files D.SwapDev files.old swap.old) }
    requires more { film.old.over ≡ false }
    requires room { length film.old.machine.kernel.journal + 1 < 2 ^ 32 }
    requires moves { HaveFewMoves lines.now }
    requires count { length lines.now < 2 ^ 32 }
    requires backed { IsBacked film.old.machine (F.holds files.old) (D.blocks swap.old) }
    ensures filming { OnOk result (IsFilming film.new lines.now (F.holds files.new) (stores F.Files D.SwapDev files.new swap.new)) }
    ensures counts { OnOk result
        ((A : Inputs) (first : Looked) → A.lines ≡ lines.now → Counted A film.old (F.holds files.old) (stores F.Files D.SwapDev files.old swap.old) first
        notes.old.items
        → Counted A film.new (F.holds files.new) (stores F.Files D.SwapDev files.new swap.new) first notes.new.items) }
    ensures longer { OnOk result (length film.new.machine.kernel.journal ≡ length film.old.machine.kernel.journal + 1) }
    ensures backed { OnOk result (IsBacked film.new.machine (F.holds files.new) (D.blocks swap.new)) }
{
    let before = look_at_film(film);
    match film.go_on(files, swap, lines) {
        Ok(()) => note_last(film, before, notes),
        Err(_) => Err(NoMemory),
    }
}

// Notes the last entry of a film, before which this was looked at.
fn note_last(film: &Film, before: Look, notes: &mut Vec<Note>) -> Result<(), NoMemory>
    requires running { IsRunning film.now.machine }
    ensures { OnOk result ((so_far : List Entry) (entry : Entry) → film.now.machine.kernel.journal ≡ so_far ++ entry ∷ []
        → notes.new.items ≡ notes.old.items ++ note_by before entry (look_at_film film.now) ∷ []) }
{
    match film.journal().last() {
        Some(entry) => {
            notes.push(note_entry(before, entry, look_at_film(film)))?;
            Ok(())
        }
        None => Ok(()),
    }
}

// The notes of all entries of a film that was begun: it goes on until the run is over, or has as many entries as it may have.
fn count_on<F: Files, D: SwapDev>(
    alloc: Global,
    film: &mut Film,
    files: &mut F,
    swap: &mut D,
    lines: &[Event],
) -> Result<Vec<Note>, NoMemory>
    requires filming { IsFilming film.old lines.now (F.holds files.old) (stores F.Files D.SwapDev files.old swap.old) }
    requires first { film.old.machine.kernel.journal ≡ [] }
    requires moves { HaveFewMoves lines.now }
    requires count { length lines.now < 2 ^ 32 }
    requires backed { IsBacked film.old.machine (F.holds files.old) (D.blocks swap.old) }
    ensures counted { IfOk result
        (λ notes. (A : Inputs) (image : SwapImage) → A.lines ≡ lines.now → FilmBegun A film.old (F.holds files.old)
        (stores F.Files D.SwapDev files.old swap.old) image
        → Counted A film.new (F.holds files.new) (stores F.Files D.SwapDev files.new swap.new) (look_at_film film.old) notes.items) }
    ensures running { OnOk result (IsRunning film.new.machine) }
    ensures ends { OnOk result (not film.new.over && nat_lt (length film.new.machine.kernel.journal) journal_entries ≡ false) }
{
    let mut notes = Vec::new(alloc);
    while goes_on(film, JOURNAL_ENTRIES) {
        count_entry(film, files, swap, lines, &mut notes)?;
    }
    Ok(notes)
}

// The table of a film that is over, of so many images, by what was looked at at first and by its notes.
fn whole_table(
    alloc: Global,
    film: &Film,
    lines: &[Event],
    first: &Look,
    notes: &[Note],
    images: u32,
) -> Result<Vec<u8>, NoMemory>
    requires running { IsRunning film.now.machine }
    requires over { film.now.over ≡ true }
    ensures { IfOk result (λ text. (A : Inputs) (holds : Option (List NamedFile)) (i : Option SwapImage) → A.lines ≡ lines.now → length A.images ≡ images
        → Counted A film.now holds i first.now notes.now → SaysStats A text.items) }
{
    let (pid, sid) = film.machine().next_numbers();
    let mut text = stats_text(
        alloc,
        film.journal(),
        first,
        notes,
        pid.saturating_sub(1),
        sid.saturating_sub(1),
        images,
    )?;
    put_finish(&mut text, finish_of(film, lines), film.counted())?;
    Ok(text)
}

// The same, or want of memory.
fn table_over<'a>(
    alloc: Global,
    film: &Film,
    lines: &[Event],
    first: &Look,
    notes: &[Note],
    images: u32,
) -> Result<Vec<u8>, Fault<'a>>
    requires running { IsRunning film.now.machine }
    requires over { film.now.over ≡ true }
    ensures { (A : Inputs) (holds : Option (List NamedFile)) (i : Option SwapImage) → A.lines ≡ lines.now → length A.images ≡ images
        → Counted A film.now holds i first.now notes.now → EndsAnswer questions.Stats A (ending_of result) }
{
    match whole_table(alloc, film, lines, first, notes, images) {
        Ok(text) => Ok(text),
        Err(_) => Err(Fault::NoMemory),
    }
}

// The same of a film that is over, or else has as many entries as it may have.
fn table_of<'a>(
    alloc: Global,
    film: &Film,
    lines: &[Event],
    first: &Look,
    notes: &[Note],
    images: u32,
) -> Result<Vec<u8>, Fault<'a>>
    requires running { IsRunning film.now.machine }
    requires ends { not film.now.over && nat_lt (length film.now.machine.kernel.journal) journal_entries ≡ false }
    ensures { (A : Inputs) (holds : Option (List NamedFile)) (i : Option SwapImage) → A.lines ≡ lines.now → length A.images ≡ images
        → Counted A film.now holds i first.now notes.now → EndsAnswer questions.Stats A (ending_of result) }
{
    if film.is_over() {
        table_over(alloc, film, lines, first, notes, images)
    } else {
        Err(Fault::JournalFull)
    }
}

/// The table of a film that was begun, of so many images, or the fault for which it isn't there.
pub(crate) fn count_begun<'a, F: Files, D: SwapDev>(
    alloc: Global,
    film: &mut Film,
    files: &mut F,
    swap: &mut D,
    lines: &[Event],
    images: u32,
) -> Result<Vec<u8>, Fault<'a>>
    requires filming { IsFilming film.old lines.now (F.holds files.old) (stores F.Files D.SwapDev files.old swap.old) }
    requires first { film.old.machine.kernel.journal ≡ [] }
    requires moves { HaveFewMoves lines.now }
    requires count { length lines.now < 2 ^ 32 }
    requires backed { IsBacked film.old.machine (F.holds files.old) (D.blocks swap.old) }
    ensures { (A : Inputs) (image : SwapImage) → A.lines ≡ lines.now → length A.images ≡ images
        → FilmBegun A film.old (F.holds files.old) (stores F.Files D.SwapDev files.old swap.old) image
        → EndsAnswer questions.Stats A (ending_of result) }
{
    let first = look_at_film(film);
    match count_on(alloc, film, files, swap, lines) {
        Ok(notes) => table_of(alloc, film, lines, &first, notes.as_slice(), images),
        Err(_) => Err(Fault::NoMemory),
    }
}
