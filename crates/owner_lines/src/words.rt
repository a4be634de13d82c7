//! Words and pages that a line has only where something is so.
#![tactic(auto, using(run_text::proofs::Putting::text_none))]

ghost use Rattle.run_text.specs.Writing.{PutsText};
ghost use Rattle.owner_lines.specs.Owners.{word_if, page_if};

use io_edge::{Failed, Sink};
use run_text::{Writer, put_page};
use vm_facts::Page;

/// Puts a word where something is so.
pub(crate) fn put_if<S: Sink>(
    out: &mut Writer<'_, S>,
    is_so: bool,
    word: &[u8],
) -> Result<(), Failed>
    ensures { PutsText S.Sink result (word_if is_so word.now) out.old out.new }
{
    if is_so { out.put(word) } else { Ok(()) }
}

/// Puts a page after a space, where there is one.
pub(crate) fn put_page_if<S: Sink>(
    out: &mut Writer<'_, S>,
    page: Option<Page>,
) -> Result<(), Failed>
    ensures { PutsText S.Sink result (page_if page) out.old out.new }
{
    match page {
        Some(page) => put_page(out, &page),
        None => Ok(()),
    }
}
