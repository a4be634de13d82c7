//! The lines of the pages that are due for a fill, the next one first.
#![tactic(auto, using(run_text::proofs::Putting::text_none))]

ghost use Rattle.std.specs.Prelude.{◌++◌, slice_get};
ghost use Rattle.std.specs.List.{flat_map};
ghost use Rattle.run_text.specs.Text.{page_text};
ghost use Rattle.run_text.specs.Writing.{PutsText};
ghost use Rattle.owner_lines.specs.Carried.{due_if};
ghost use Rattle.owner_lines.specs.Owners.{from_text, fill_line, due_line};

use io_edge::{Failed, Sink};
use machine_state::Machine;
use run_text::{Writer, put_page};
use vm_facts::Page;

// Puts a page after a word.
fn put_word_and_page<S: Sink>(
    out: &mut Writer<'_, S>,
    word: &[u8],
    page: &Page,
) -> Result<(), Failed>
    ensures { PutsText S.Sink result (word.now ++ page_text page.now) out.old out.new }
{
    out.put(word)?;
    put_page(out, page)
}

// Puts the parent's page, where there is one.
fn put_parent<S: Sink>(out: &mut Writer<'_, S>, parent: Option<Page>) -> Result<(), Failed>
    ensures { PutsText S.Sink result (from_text parent) out.old out.new }
{
    match parent {
        Some(page) => put_word_and_page(out, b" from", &page),
        None => Ok(()),
    }
}

// Puts the line of a page that is due.
fn put_fill<S: Sink>(
    out: &mut Writer<'_, S>,
    page: &Page,
    parent: Option<Page>,
) -> Result<(), Failed>
    ensures { PutsText S.Sink result (fill_line page.now parent) out.old out.new }
{
    put_word_and_page(out, b"due", page)?;
    put_parent(out, parent)?;
    out.put(b"\n")
}

// Puts the line of the page that is due at a place, where there is one.
fn put_due_at<S: Sink>(
    out: &mut Writer<'_, S>,
    machine: &Machine,
    place: usize,
) -> Result<(), Failed>
    ensures { PutsText S.Sink result (due_if (slice_get machine.now.kernel.place.due place)) out.old out.new }
{
    match machine.due_at(place) {
        Some((page, parent)) => put_fill(out, &page, parent),
        None => Ok(()),
    }
}

/// Puts the lines of the pages that are to be filled before anything else, the next one first.
pub(crate) fn put_due<S: Sink>(out: &mut Writer<'_, S>, machine: &Machine) -> Result<(), Failed>
    ensures { PutsText S.Sink result (flat_map due_line machine.now.kernel.place.due) out.old out.new }
{
    for place in 0..machine.due_count() {
        put_due_at(out, machine, place)?;
    }
    Ok(())
}
