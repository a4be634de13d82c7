//! The whole table as text: processes, spaces, images, the run.
ghost use Rattle.std.specs.Prelude.{◌≡◌, ℕ, ◌++◌, IfOk, OnOk};
ghost use Rattle.std.specs.List.{flat_map};
ghost use Rattle.process_counts.specs.Tables.{deed_of};
ghost use Rattle.run_stats.specs.Ends.{ending_at, IsEnding};
ghost use Rattle.run_stats.specs.Sums.{sum_in};
ghost use Rattle.run_stats.specs.Rows.{ended_row, process_heads, paging_heads, run_heads};
ghost use Rattle.run_stats.specs.Table.{lines_to, process_row, paging_row, process_rows, space_row, image_row, run_row, last_rows, table_by, stats_text};

use crate::ends::{Ending, ending_at, endings_of};
use crate::heads::PagingHead;
use crate::look::Look;
use crate::noting::Note;
use crate::rows::{
    paging_heads, paging_words, process_heads, process_words, put_ended, put_plain, put_row,
    run_heads, run_words,
};
use crate::sums::{Tally, tally_of};
use process_counts::{Deeds, Owner, deeds_of};
use std::alloc::{AllocError, Global};
use vm_facts::Entry;

// Puts what a process did, by the journal.
fn put_deeds(text: &mut Vec<u8>, deeds: &Deeds, pid: u32) -> Result<(), AllocError>
    ensures { OnOk result (text.new.items ≡ text.old.items ++ flat_map (process_row (deed_of deeds.now) pid) process_heads) }
{
    let heads = process_heads();
    for head in heads {
        let count = deeds.of(pid, *head);
        put_row(text, b"process ", pid, process_words(*head), count)?;
    }
    Ok(())
}

// Puts the pages that came while a process ran.
fn put_paging(text: &mut Vec<u8>, tally: &Tally, pid: u32) -> Result<(), AllocError>
    ensures { OnOk result (text.new.items ≡ text.old.items ++ flat_map (paging_row (sum_in tally.now) pid) paging_heads) }
{
    let heads = paging_heads();
    for head in heads {
        let count = tally.paging.of(pid, *head);
        put_row(text, b"process ", pid, paging_words(*head), count)?;
    }
    Ok(())
}

// Puts how a process ended, as often as it did.
fn put_all_ends(text: &mut Vec<u8>, journal: &[Entry], pid: u32) -> Result<(), AllocError>
    ensures { OnOk result (text.new.items ≡ text.old.items ++ flat_map (ended_row pid) journal.now) }
{
    for entry in journal {
        put_ended(text, pid, entry)?;
    }
    Ok(())
}

// Puts how a process ended, where it did. The journal is walked only where a process ended twice, as in no run.
fn put_end(
    text: &mut Vec<u8>,
    journal: &[Entry],
    ending: Ending,
    pid: u32,
) -> Result<(), AllocError>
    requires { IsEnding pid ending journal.now }
    ensures { OnOk result (text.new.items ≡ text.old.items ++ flat_map (ended_row pid) journal.now) }
{
    match ending {
        Ending::Never => Ok(()),
        Ending::Once(status) => put_row(text, b"process ", pid, b" ended ", u128::from(status)),
        Ending::Often => put_all_ends(text, journal, pid),
    }
}

// Puts all rows of a process.
fn put_process(
    text: &mut Vec<u8>,
    journal: &[Entry],
    deeds: &Deeds,
    endings: &[Ending],
    tally: &Tally,
    pid: u32,
) -> Result<(), AllocError>
    requires { (other : ℕ) → IsEnding other (ending_at endings.now other) journal.now }
    ensures { OnOk result (text.new.items ≡ text.old.items ++ process_rows (deed_of deeds.now) (sum_in tally.now) journal.now pid) }
{
    put_deeds(text, deeds, pid)?;
    put_paging(text, tally, pid)?;
    put_end(text, journal, ending_at(endings, pid), pid)?;
    Ok(())
}

fn put_processes(
    text: &mut Vec<u8>,
    journal: &[Entry],
    deeds: &Deeds,
    endings: &[Ending],
    tally: &Tally,
    count: u32,
) -> Result<(), AllocError>
    requires { (pid : ℕ) → IsEnding pid (ending_at endings.now pid) journal.now }
    ensures { OnOk result (text.new.items ≡ text.old.items ++ lines_to (process_rows (deed_of deeds.now) (sum_in tally.now) journal.now) count) }
{
    for before in 0..count {
        put_process(text, journal, deeds, endings, tally, before + 1)?;
    }
    Ok(())
}

// Puts the pages of a space that were written to swap.
fn put_space(text: &mut Vec<u8>, tally: &Tally, sid: u32) -> Result<(), AllocError>
    ensures { OnOk result (text.new.items ≡ text.old.items ++ space_row (sum_in tally.now) sid) }
{
    let count = tally.written.of(Owner::Space(sid));
    put_row(text, b"space ", sid, b" pages-written ", count)
}

fn put_spaces(text: &mut Vec<u8>, tally: &Tally, count: u32) -> Result<(), AllocError>
    ensures { OnOk result (text.new.items ≡ text.old.items ++ lines_to (space_row (sum_in tally.now)) count) }
{
    for before in 0..count {
        put_space(text, tally, before + 1)?;
    }
    Ok(())
}

// Puts the pages of an image that were written to swap.
fn put_image(text: &mut Vec<u8>, tally: &Tally, image: u32) -> Result<(), AllocError>
    ensures { OnOk result (text.new.items ≡ text.old.items ++ image_row (sum_in tally.now) image) }
{
    let count = tally.written.of(Owner::Image(image));
    put_row(text, b"image ", image, b" pages-written ", count)
}

fn put_images(text: &mut Vec<u8>, tally: &Tally, count: u32) -> Result<(), AllocError>
    ensures { OnOk result (text.new.items ≡ text.old.items ++ lines_to (image_row (sum_in tally.now)) count) }
{
    for before in 0..count {
        put_image(text, tally, before + 1)?;
    }
    Ok(())
}

// Puts what the hands and the devices did.
fn put_run(text: &mut Vec<u8>, tally: &Tally) -> Result<(), AllocError>
    ensures { OnOk result (text.new.items ≡ text.old.items ++ flat_map (run_row (sum_in tally.now)) run_heads) }
{
    let heads = run_heads();
    for head in heads {
        put_plain(text, run_words(*head), tally.run.of(*head))?;
    }
    Ok(())
}

// Puts the rows of the start, of the blocks held and of the free frames.
fn put_last(text: &mut Vec<u8>, tally: &Tally) -> Result<(), AllocError>
    ensures { OnOk result (text.new.items ≡ text.old.items ++ last_rows (sum_in tally.now) tally.now.most_held tally.now.least_free) }
{
    let fills = tally.paging.of(0, PagingHead::ZeroFills);
    put_plain(text, b"start zero-fills ", fills)?;
    put_plain(text, b"swap most-held ", tally.most_held)?;
    put_plain(text, b"frames least-free ", u128::from(tally.least_free))
}

// The table, by what is counted.
#[tactic(auto, unfolding(crate::specs::Table::table_by))]
fn table_by(
    alloc: Global,
    journal: &[Entry],
    deeds: &Deeds,
    endings: &[Ending],
    tally: &Tally,
    processes: u32,
    spaces: u32,
    images: u32,
) -> Result<Vec<u8>, AllocError>
    requires { (pid : ℕ) → IsEnding pid (ending_at endings.now pid) journal.now }
    ensures { IfOk result (λ text. text.items
        ≡ table_by (deed_of deeds.now) (sum_in tally.now) journal.now tally.now.most_held tally.now.least_free processes spaces images) }
{
    let mut text = Vec::new(alloc);
    put_processes(&mut text, journal, deeds, endings, tally, processes)?;
    put_spaces(&mut text, tally, spaces)?;
    put_images(&mut text, tally, images)?;
    put_run(&mut text, tally)?;
    put_last(&mut text, tally)?;
    Ok(text)
}

/// The table of a run with so many processes, spaces and images: by its journal, by what is looked at before its first entry, and by
/// what is noted of each entry (the rows are this project's profile). The journal and the notes are walked once. The one error is that
/// no memory is left.
pub fn stats_text(
    alloc: Global,
    journal: &[Entry],
    start: &Look,
    notes: &[Note],
    processes: u32,
    spaces: u32,
    images: u32,
) -> Result<Vec<u8>, AllocError>
    ensures { IfOk result (λ text. text.items ≡ stats_text journal.now start.now notes.now processes spaces images) }
{
    let deeds = deeds_of(alloc, journal)?;
    let endings = endings_of(alloc, journal)?;
    let tally = tally_of(alloc, start, notes)?;
    table_by(
        alloc,
        journal,
        &deeds,
        endings.as_slice(),
        &tally,
        processes,
        spaces,
        images,
    )
}
