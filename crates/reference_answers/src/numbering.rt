//! Pages become numbers, in the order of their first references. The crates below know numbers alone.
ghost use Rattle.std.specs.Prelude.{◌≡◌, ◌<◌, ◌≤◌, length, map, vec_len, IfOk, OnOk};
ghost use Rattle.flat_model.specs.Touched.{distinct};
ghost use Rattle.reference_answers.specs.Grammar.{most_references};
ghost use Rattle.reference_answers.specs.Numbers.{number_from, numbers_of};
ghost use Rattle.reference_answers.specs.Keys.{key_of, with_page};

use indexmap::IndexSet;
use std::alloc::Global;
use vm_facts::{NoMemory, Page};

/// The parts of a page's name: its segment, then the space or the image, and the page's number.
type Key = (u8, u32, u32);

/// References by number, with the pages that are numbered.
#[derive(Drop)]
pub(crate) struct Numbered {
    /// The pages, each once: page n stands at place n - 1.
    pub(crate) pages: Vec<Page>,
    /// The number of each reference's page.
    pub(crate) numbers: Vec<u32>,
}

/// Numbers the pages of references from 1, in the order of their first references.
pub(crate) fn number_pages(alloc: Global, refs: &[Page]) -> Result<Numbered, NoMemory>
    requires { length refs.now ≤ most_references }
    ensures pages { IfOk result (λ numbered. numbered.pages.items ≡ distinct refs.now) }
    ensures numbers { IfOk result (λ numbered. numbered.numbers.items ≡ numbers_of refs.now) }
{
    let mut keys = IndexSet::new(alloc);
    let mut pages = Vec::new(alloc);
    let mut numbers = Vec::new(alloc);
    for page in refs {
        let number = number_page(&mut keys, &mut pages, *page)?;
        numbers.push(number)?;
    }
    Ok(Numbered { pages, numbers })
}

/// The number of a page among pages, which it joins as the last one where it is none of them. The keys are those of
/// the pages, in their order.
fn number_page(keys: &mut IndexSet<Key>, pages: &mut Vec<Page>, page: Page) -> Result<u32, NoMemory>
    requires small { vec_len pages.old < most_references }
    requires keys { keys.old.keys ≡ map key_of pages.old.items }
    ensures keys { OnOk result (keys.new.keys ≡ map key_of pages.new.items) }
    ensures pages { OnOk result (pages.new.items ≡ with_page pages.old.items page) }
    ensures number { IfOk result (λ number. number ≡ number_from 1 pages.new.items page) }
{
    let (place, is_new) = keys.insert_full(key_of(page))?;
    if is_new {
        pages.push(page)?;
    }
    Ok(place as u32 + 1)
}

/// The key of a page: two pages with one key are the same.
fn key_of(page: Page) -> Key
    ensures { result ≡ key_of page }
{
    match page {
        Page::Data { sid, v } => (0, sid, v),
        Page::Stack { sid, v } => (1, sid, v),
        Page::Text { image, v } => (2, image, v),
    }
}
