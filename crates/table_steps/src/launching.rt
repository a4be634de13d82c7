//! Moves of the clock's hands, and writes that begin. Pages leave their frames here, but the device may not be called
//! yet. Pages that the hands pass over must stay.
ghost use Rattle.std.specs.Prelude.{◌≡◌, ℕ, ◌+◌, ◌-◌, ◌<◌, ◌≤◌, ◌^◌, ◌++◌, [], length, true, Some, IsSome, IsTrue, IfOk, option_map};
ghost use Rattle.std.specs.Vec.{vec_len, vec_capacity};
ghost use Rattle.core_map.specs.Slots.{slot_at, slot_page as page_held, is_resident};
ghost use Rattle.transfer_ring.specs.Sound.{outbound_pages};
ghost use Rattle.flat_state.specs.PageNames.{pages_from};
ghost use Rattle.page_model.specs.Frames.{next_frame};
ghost use Rattle.page_model.specs.Conditions.{EachPage};
ghost use Rattle.page_model.specs.Moves.{launch_run};
ghost use Rattle.page_model.specs.Steps.{launch_all};
ghost use Rattle.page_model.specs.Hands.{expire, sweep, hand_move, hand_run, back_run};
ghost use Rattle.page_model.specs.Ownership.{block_of};
ghost use Rattle.kernel_tables.specs.Calls.{IsRunOf};
ghost use Rattle.kernel_tables.specs.Known.{Known};
ghost use Rattle.kernel_tables.specs.Launches.{RetiredPage, LaunchedPage, launching, HaveOwnBlocks, MayLaunch, MayPutOut, HasBlocks, MovedOn, put_out, under, expired, valid_named};
ghost use Rattle.kernel_tables.specs.Machine.{lists_of, image_at};
ghost use Rattle.kernel_tables.specs.Shown.{entry_in, is_frame, frame_named, changed_named};
ghost use Rattle.kernel_tables.specs.View.{placement_of, frames_of};

use crate::landing;
use core_map::Whose;
use flat_state::{beside, is_among};
use kernel_tables::Tables;
use std::alloc::Global;
use transfer_ring::{Begun, Outbound, Transfer};
use vax_pte::Place;
use vm_facts::{NoMemory, Page};

/// Room for the pages of a write.
pub fn room_in(alloc: Global, n: u32) -> Result<Vec<Outbound>, NoMemory>
    ensures none { IfOk result (λ parts. parts.items ≡ []) }
    ensures room { IfOk result (λ parts. n ≤ vec_capacity parts) }
{
    Ok(Vec::with_capacity(alloc, n as usize)?)
}

// The frame after this one, of so many.
fn next_frame(frames: u32, frame: u32) -> u32
    requires { frame ≤ frames }
    ensures { result ≡ next_frame frames frame }
{
    if frame == frames { 1 } else { frame + 1 }
}

// A page leaves its frame for a write to its blocks.
fn launch(tables: &mut Tables, page: Page) -> Outbound
    requires frame { IsTrue (is_frame (entry_in tables.old.spaces page)) }
    requires resident { IsTrue (is_resident (slot_at tables.old.core.slots (frame_named (entry_in tables.old.spaces page)))) }
    requires above { 1 ≤ frame_named (entry_in tables.old.spaces page) }
    requires small { frame_named (entry_in tables.old.spaces page) < 2 ^ 21 }
    requires block { IsSome (block_of tables.old.book.holdings page) }
    ensures { LaunchedPage tables.old tables.new page (frame_named (entry_in tables.old.spaces page)) result }
{
    let block = tables.block_of(page);
    let (frame, _changed) = tables.spaces.frame_of(page);
    let token = tables.core.lift(frame).begin_clean();
    let place = Place::Frame {
        f: frame,
        valid: false,
        changed: true,
    };
    tables.spaces.set_places(page, place);
    Outbound { page, token, block }
}

// So many pages of a segment, from one on, leave their frames in turn.
fn launch_all(tables: &mut Tables, parts: &mut Vec<Outbound>, page: Page, lo: u32, n: u32)
    requires may { MayLaunch (launching tables.old parts.old.items) page lo n }
    requires blocks { EachPage (λ q. IsSome (block_of tables.old.book.holdings q)) (pages_from page lo n) }
    requires room { vec_len parts.old + n ≤ vec_capacity parts.old }
    requires fits { lo + n < 2 ^ 32 }
    ensures place { placement_of (launching tables.new parts.new.items)
        ≡ launch_all (placement_of (launching tables.old parts.old.items)) (pages_from page lo n) }
    ensures frames { frames_of (launching tables.new parts.new.items) ≡ frames_of (launching tables.old parts.old.items) }
    ensures known { Known (launching tables.new parts.new.items) }
    ensures pages { outbound_pages parts.new.items ≡ outbound_pages parts.old.items ++ pages_from page lo n }
    ensures blocks { HaveOwnBlocks tables.old.book.holdings parts.old.items → HaveOwnBlocks tables.old.book.holdings parts.new.items }
    ensures images { (sid : ℕ) → image_at tables.new sid ≡ image_at tables.old sid }
    ensures rest { tables.new ≡ record tables.old { core = tables.new.core; spaces = tables.new.spaces } }
{
    if n == 0 {
        return;
    }
    let part = launch(tables, beside(page, lo));
    tables.core.stands();
    parts.push_reserved(part);
    launch_all(tables, parts, page, lo + 1, n - 1);
}

// The write of so many pages of a segment begins, from one on. `parts` is empty and has room for them.
fn write_run(tables: &mut Tables, mut parts: Vec<Outbound>, page: Page, lo: u32, n: u32)
    requires may { MayLaunch (lists_of tables.old) page lo n }
    requires blocks { EachPage (λ q. IsSome (block_of tables.old.book.holdings q)) (pages_from page lo n) }
    requires some { 0 < n }
    requires most { n ≤ 16 }
    requires ring { length tables.old.ring < 16 }
    requires empty { parts.items ≡ [] }
    requires room { n ≤ vec_capacity parts }
    ensures { MovedOn tables.old tables.new (launch_run (placement_of (lists_of tables.old)) (pages_from page lo n)) }
{
    launch_all(tables, &mut parts, page, lo, n);
    match tables.ring.begin_write(Transfer::Write { parts }) {
        Begun::Ok => {}
        Begun::RingFull(_refused) => unreachable!(),
    }
}

// The frame of a clean page goes to the tail of the free list, and still holds the page.
fn retire(tables: &mut Tables, page: Page)
    requires frame { IsTrue (is_frame (entry_in tables.old.spaces page)) }
    requires resident { IsTrue (is_resident (slot_at tables.old.core.slots (frame_named (entry_in tables.old.spaces page)))) }
    requires holds { page_held (slot_at tables.old.core.slots (frame_named (entry_in tables.old.spaces page))) ≡ Some page }
    requires above { 1 ≤ frame_named (entry_in tables.old.spaces page) }
    requires small { frame_named (entry_in tables.old.spaces page) < 2 ^ 21 }
    ensures { RetiredPage tables.old tables.new page (frame_named (entry_in tables.old.spaces page)) }
{
    let (frame, _changed) = tables.spaces.frame_of(page);
    let token = tables.core.lift(frame).release();
    landing::rest_page(tables, token, page);
}

/// The write of a run of a page's segment begins; where that has no pages, the frame of the page, which is clean,
/// goes to the tail of the free list. `parts` is empty and has room for the run.
pub fn put_out(tables: &mut Tables, parts: Vec<Outbound>, page: Page, lo: u32, n: u32)
    requires known { Known (lists_of tables.old) }
    requires may { MayPutOut (placement_of (lists_of tables.old)) page lo n }
    requires blocks { HasBlocks (placement_of (lists_of tables.old)) tables.old.book.holdings }
    requires empty { parts.items ≡ [] }
    requires room { n ≤ vec_capacity parts }
    ensures { MovedOn tables.old tables.new (put_out (placement_of (lists_of tables.old)) page lo n) }
{
    if n > 0 {
        write_run(tables, parts, page, lo, n);
    } else {
        parts.destroy_empty();
        retire(tables, page);
    }
}

// The page that a resident frame holds, unless it is one of these.
fn unlocked_page(tables: &Tables, frame: u32, locked: &[Page]) -> Option<Page>
    ensures { under (lists_of tables.now) locked.now frame ≡ option_map (λ q. (q, valid_named (entry_in tables.now.spaces q))) result }
{
    let Whose::Resident(page) = tables.core.owner(frame) else {
        return None;
    };
    if is_among(page, locked) {
        None
    } else {
        Some(page)
    }
}

// The page that a resident frame holds, unless it is one of these, and whether it is valid.
fn page_under(tables: &Tables, frame: u32, locked: &[Page]) -> Option<(Page, bool)>
    ensures { result ≡ under (lists_of tables.now) locked.now frame }
{
    let page = unlocked_page(tables, frame, locked)?;
    Some((page, tables.spaces.is_valid(page)))
}

// Whether the entry of a page says that it is valid, and that it was changed, by one look.
fn marks_of(tables: &Tables, page: Page) -> (bool, bool)
    ensures valid { result.0 ≡ valid_named (entry_in tables.now.spaces page) }
    ensures changed { result.1 ≡ changed_named (entry_in tables.now.spaces page) }
{
    match tables.spaces.entry(page) {
        Some(Place::Frame { valid, changed, .. }) => (valid, changed),
        _ => (false, false),
    }
}

// The front hand makes the valid page of its frame invalid, unless it is one of these.
fn expire(tables: &mut Tables, locked: &[Page])
    requires small { tables.old.front < 2 ^ 21 }
    requires above { 1 ≤ tables.old.front }
    ensures lists { lists_of tables.new ≡ expired (lists_of tables.old) locked.now }
    ensures rest { tables.new ≡ record tables.old { spaces = tables.new.spaces } }
{
    let Some(page) = unlocked_page(tables, tables.front, locked) else {
        return;
    };
    let (valid, changed) = marks_of(tables, page);
    if valid {
        let place = Place::Frame {
            f: tables.front,
            valid: false,
            changed,
        };
        tables.spaces.set_places(page, place);
    }
}

// The back hand frees the frame of a page that is invalid there and clean, or begins the write of a run of its page's segment, by a
// look at the page's entry. `parts` is empty and has room for the run.
fn sweep_by_look(tables: &mut Tables, locked: &[Page], parts: Vec<Outbound>, lo: u32, n: u32)
    requires known { Known (lists_of tables.old) }
    requires run { IsRunOf (back_run (placement_of (lists_of tables.old)) locked.now) lo n }
    requires room { 0 < n → length (lists_of tables.old).transfers < 16 }
    requires blocks { HasBlocks (placement_of (lists_of tables.old)) tables.old.book.holdings }
    requires empty { parts.items ≡ [] }
    requires capacity { n ≤ vec_capacity parts }
    ensures { MovedOn tables.old tables.new (sweep (placement_of (lists_of tables.old)) locked.now) }
{
    match page_under(tables, tables.back, locked) {
        Some((page, false)) => put_out(tables, parts, page, lo, n),
        Some((_page, true)) => parts.destroy_empty(),
        None => parts.destroy_empty(),
    }
}

// The back hand's part of a move. A run of a write is that of the page under the hand, whose entry was looked at for it: it is invalid
// and not locked, and isn't looked at again.
fn sweep(tables: &mut Tables, locked: &[Page], parts: Vec<Outbound>, lo: u32, n: u32)
    requires known { Known (lists_of tables.old) }
    requires run { IsRunOf (back_run (placement_of (lists_of tables.old)) locked.now) lo n }
    requires room { 0 < n → length (lists_of tables.old).transfers < 16 }
    requires blocks { HasBlocks (placement_of (lists_of tables.old)) tables.old.book.holdings }
    requires empty { parts.items ≡ [] }
    requires capacity { n ≤ vec_capacity parts }
    ensures { MovedOn tables.old tables.new (sweep (placement_of (lists_of tables.old)) locked.now) }
{
    if n == 0 {
        return sweep_by_look(tables, locked, parts, lo, n);
    }
    let Whose::Resident(page) = tables.core.owner(tables.back) else {
        unreachable!()
    };
    put_out(tables, parts, page, lo, n);
}

// Both hands go on by one frame.
fn advance(tables: &mut Tables)
    requires front { tables.old.front < length tables.old.core.slots }
    requires back { tables.old.back < length tables.old.core.slots }
    ensures front { tables.new.front ≡ next_frame (length tables.old.core.slots - 1) tables.old.front }
    ensures back { tables.new.back ≡ next_frame (length tables.old.core.slots - 1) tables.old.back }
    ensures rest { tables.new ≡ record tables.old { front = tables.new.front; back = tables.new.back } }
{
    let frames = tables.core.frames();
    tables.front = next_frame(frames, tables.front);
    tables.back = next_frame(frames, tables.back);
}

/// One move of both hands, which pass over the locked pages. `lo` and `n` are the run of the write that it begins;
/// `n` is 0 where it begins none. `parts` is empty and has room for the run.
pub fn move_hands(tables: &mut Tables, locked: &[Page], parts: Vec<Outbound>, lo: u32, n: u32)
    requires known { Known (lists_of tables.old) }
    requires front { (1 ≤ tables.old.front) × (tables.old.front < length tables.old.core.slots) }
    requires back { (1 ≤ tables.old.back) × (tables.old.back < length tables.old.core.slots) }
    requires run { IsRunOf (hand_run (placement_of (lists_of tables.old)) locked.now) lo n }
    requires room { 0 < n → length (lists_of tables.old).transfers < 16 }
    requires blocks { HasBlocks (placement_of (lists_of tables.old)) tables.old.book.holdings }
    requires empty { parts.items ≡ [] }
    requires capacity { n ≤ vec_capacity parts }
    ensures { MovedOn tables.old tables.new (hand_move (placement_of (lists_of tables.old)) locked.now) }
{
    expire(tables, locked);
    sweep(tables, locked, parts, lo, n);
    advance(tables);
}
