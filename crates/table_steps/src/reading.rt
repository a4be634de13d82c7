//! Reads that begin: from swap, or from the files of images. Each page takes a free frame, in order; the device may
//! not be called yet.
ghost use Rattle.std.specs.Prelude.{◌≡◌, ℕ, ◌+◌, ◌-◌, ◌<◌, ◌≤◌, ◌^◌, ◌++◌, [], length, true, Some, IfOk};
ghost use Rattle.std.specs.Vec.{vec_len, vec_capacity};
ghost use Rattle.transfer_ring.specs.Sound.{inbound_pages, IsSource};
ghost use Rattle.swap_book.specs.Book.{IsBook};
ghost use Rattle.page_model.specs.Conditions.{EachPage};
ghost use Rattle.page_model.specs.Steps.{get_all};
ghost use Rattle.page_model.specs.Placement.{Reads, IsThere, state_of};
ghost use Rattle.page_model.specs.Reading.{source_for};
ghost use Rattle.flat_state.specs.PageNames.{pages_from};
ghost use Rattle.kernel_tables.specs.Conditions.{CanBringIn};
ghost use Rattle.kernel_tables.specs.View.{source_of, placement_of, frames_of};
ghost use Rattle.kernel_tables.specs.Shown.{is_on_swap};
ghost use Rattle.kernel_tables.specs.Known.{Known, MayBring};
ghost use Rattle.kernel_tables.specs.Machine.{lists_of, images_of, image_at, image_shown};
ghost use Rattle.kernel_tables.specs.Moves.{BroughtPage, BeganRead, HasSource, AreFrom, opened};
ghost use Rattle.kernel_tables.specs.Sourced.{IsFilePage, IsSourced, named_at, image_by, is_text};
ghost use Rattle.kernel_tables.specs.Steps.{AreTextsHere, source_by};

use flat_state::{beside, number_of};
use kernel_tables::{Named, Tables};
use std::alloc::Global;
use transfer_ring::{Begun, Inbound, Source, Transfer};
use vax_pte::Place;
use vm_facts::{NoMemory, Page};

/// Room for the pages of a read.
pub fn room_in(alloc: Global, n: u32) -> Result<Vec<Inbound>, NoMemory>
    ensures none { IfOk result (λ parts. parts.items ≡ []) }
    ensures room { IfOk result (λ parts. n ≤ vec_capacity parts) }
{
    Ok(Vec::with_capacity(alloc, n as usize)?)
}

// Whether a page is text.
fn is_text(page: Page) -> bool
    ensures { result ≡ is_text page }
{
    match page {
        Page::Text { .. } => true,
        Page::Data { .. } | Page::Stack { .. } => false,
    }
}

// Whether an entry says that the page is on swap.
fn is_on_swap(entry: Option<Place>) -> bool
    ensures { result ≡ is_on_swap entry }
{
    matches!(entry, Some(Place::Swap))
}

// The number of the image of a space.
fn image_of_space(tables: &Tables, sid: u32) -> u32
    requires { 0 < image_at tables.now sid }
    ensures { result ≡ image_at tables.now sid }
{
    match tables.spaces.image_of(sid) {
        Some(image) => image,
        None => unreachable!(),
    }
}

// The number of the image that a page is of.
fn image_number(tables: &Tables, page: Page) -> u32
    requires { 0 < image_by (image_at tables.now) page }
    ensures { result ≡ image_by (image_at tables.now) page }
{
    match page {
        Page::Text { image, .. } => image,
        Page::Data { sid, .. } => image_of_space(tables, sid),
        Page::Stack { sid, .. } => image_of_space(tables, sid),
    }
}

// The image that a page is filled from.
fn image_of(tables: &Tables, page: Page) -> &Named
    requires { IsFilePage (images_of tables.now) (image_at tables.now) page }
    ensures { named_at (images_of tables.now) (image_by (image_at tables.now) page) ≡ Some (image_shown result.now) }
{
    &tables.images[image_number(tables, page) as usize - 1]
}

// The bytes of its image's file that fill a page.
fn file_source(tables: &Tables, page: Page) -> Source
    requires { IsFilePage (images_of tables.now) (image_at tables.now) page }
    ensures kind { source_of result ≡ source_by true }
    ensures range { IsSource result }
    ensures own { IsSourced (images_of tables.now) (image_at tables.now) tables.now.book.holdings tables.now.book.size page result }
{
    let named = image_of(tables, page);
    let (offset, count) = named.facts.file_span(is_text(page), number_of(page));
    Source::File {
        id: named.file,
        offset,
        count,
    }
}

// Where the bytes of a page are read from: its image's file, or its blocks.
fn source_of(tables: &Tables, page: Page, from_file: bool) -> Source
    requires has { HasSource tables.now from_file page }
    requires book { IsBook tables.now.book.size tables.now.book.holdings }
    ensures kind { source_of result ≡ source_by from_file }
    ensures range { IsSource result }
    ensures own { IsSourced (images_of tables.now) (image_at tables.now) tables.now.book.holdings tables.now.book.size page result }
{
    if from_file {
        file_source(tables, page)
    } else {
        Source::Swap(tables.block_of(page))
    }
}

// Whether a page that has no frame is read from its image's file.
fn comes_from_file(tables: &Tables, page: Page) -> bool
    requires known { Known (lists_of tables.now) }
    requires there { IsThere (placement_of (lists_of tables.now)) page }
    ensures { source_by result ≡ source_for (state_of (placement_of (lists_of tables.now)) page) }
{
    !is_on_swap(tables.spaces.entry(page))
}

// A page takes the first free frame, into which it is read from swap or from its image's file.
fn bring(tables: &mut Tables, page: Page, from_file: bool) -> Inbound
    requires free { 0 < length tables.old.core.free }
    requires texts { AreTextsHere tables.old.core.slots }
    requires small { length tables.old.core.slots ≤ 2 ^ 21 }
    requires has { HasSource tables.old from_file page }
    requires book { IsBook tables.old.book.size tables.old.book.holdings }
    ensures { BroughtPage tables.old tables.new page from_file result }
{
    let source = source_of(tables, page, from_file);
    let token = tables.take_frame().begin_fill();
    let place = Place::Frame {
        f: token.number(),
        valid: false,
        changed: false,
    };
    tables.spaces.set_places(page, place);
    Inbound {
        page,
        token,
        source,
    }
}

// So many pages of a segment, from one on, take frames in turn, into which they are read.
fn bring_all(
    tables: &mut Tables,
    parts: &mut Vec<Inbound>,
    page: Page,
    lo: u32,
    n: u32,
    from_file: bool,
)
    requires may { MayBring (opened tables.old parts.old.items (source_by from_file) page) page lo n }
    requires has { EachPage (HasSource tables.old from_file) (pages_from page lo n) }
    requires book { IsBook tables.old.book.size tables.old.book.holdings }
    requires from { AreFrom tables.old from_file parts.old.items }
    requires room { vec_len parts.old + n ≤ vec_capacity parts.old }
    requires fits { lo + n < 2 ^ 32 }
    ensures place { placement_of (opened tables.new parts.new.items (source_by from_file) page)
        ≡ get_all (placement_of (opened tables.old parts.old.items (source_by from_file) page)) (Reads (source_by from_file) page) (pages_from page lo n) }
    ensures frames { frames_of (opened tables.new parts.new.items (source_by from_file) page)
        ≡ frames_of (opened tables.old parts.old.items (source_by from_file) page) }
    ensures known { Known (opened tables.new parts.new.items (source_by from_file) page) }
    ensures pages { inbound_pages parts.new.items ≡ inbound_pages parts.old.items ++ pages_from page lo n }
    ensures from { AreFrom tables.old from_file parts.new.items }
    ensures images { (sid : ℕ) → image_at tables.new sid ≡ image_at tables.old sid }
    ensures rest { tables.new ≡ record tables.old { core = tables.new.core; spaces = tables.new.spaces } }
{
    if n == 0 {
        return;
    }
    let part = bring(tables, beside(page, lo), from_file);
    tables.core.stands();
    parts.push_reserved(part);
    bring_all(tables, parts, page, lo + 1, n - 1, from_file);
}

/// The read of so many pages of a segment begins, from one on, for a page that is demanded. `parts` is empty and has
/// room for them.
pub fn read_run(tables: &mut Tables, mut parts: Vec<Inbound>, page: Page, lo: u32, n: u32)
    requires known { Known (lists_of tables.old) }
    requires can { CanBringIn (placement_of (lists_of tables.old)) page lo n }
    requires has { (b : _) → source_by b ≡ source_for (state_of (placement_of (lists_of tables.old)) page)
        → EachPage (HasSource tables.old b) (pages_from page lo n) }
    requires book { IsBook tables.old.book.size tables.old.book.holdings }
    requires none { parts.items ≡ [] }
    requires room { n ≤ vec_capacity parts }
    ensures { BeganRead tables.old tables.new page lo n }
{
    let from_file = comes_from_file(tables, beside(page, lo));
    bring_all(tables, &mut parts, page, lo, n, from_file);
    let read = Transfer::Read {
        demanded: page,
        parts,
    };
    match tables.ring.begin_read(read) {
        Begun::Ok => {}
        Begun::RingFull(_refused) => unreachable!(),
    }
}
