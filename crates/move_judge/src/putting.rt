//! Judges the line `P`: pages of a process begin to be written, or a clean one is freed. No page may move before
//! every reason was tried.
ghost use Rattle.std.specs.Prelude.{◌≡◌, ◌≤◌, ◌<◌, ◌+◌, ◌^◌, ℕ, None, [], true, IfOk, OnOk, OnErr};
ghost use Rattle.vm_facts.specs.declared.entry.Entry.TheVariants as entries;
ghost use Rattle.flat_state.specs.Flat.{FlatState};
ghost use Rattle.flat_state.specs.PageNames.{number_of, beside, pages_from};
ghost use Rattle.page_model.specs.Placement.{IsThere, is_dirty};
ghost use Rattle.page_model.specs.Runs.{is_seated};
ghost use Rattle.page_model.specs.Conditions.{IsShared};
ghost use Rattle.kernel_model.specs.Coupled.{SameTables};
ghost use Rattle.machine_state.specs.Going.{CanGoOn, IsRunning};
ghost use Rattle.machine_state.specs.Calls.{CanPush};
ghost use Rattle.machine_state.specs.Conditions.{HasStopped};
ghost use Rattle.paged_model.specs.Reasons.{unless, or_reason};
ghost use Rattle.paged_model.specs.declared.reason.Reason.TheVariants as reasons;
ghost use Rattle.paged_model.specs.Moves.{is_there, if_there, wrong_length, each_page, apart};
ghost use Rattle.paged_model.specs.Leaving.{holder_stays, owner_stays, unseated_by, unseated_if, unseated, put_along, put_reason_by, put_reason};
ghost use Rattle.swapper.specs.Putting.{IsOfSegment};
ghost use Rattle.move_judge.specs.Judged.{Judged};

use crate::holding::holder_stays;
use crate::looking::{apart, due_first, no_room, state, wrong_length};
use crate::reasons::{or_reason, unless};
use crate::space_of;
use flat_state::{beside, number_of};
use machine_state::Machine;
use paged_model::Reason;
use swapper::{is_dirty, is_seated};
use vm_facts::{Page, PageState, Stop};

fn is_seat(m: &Machine, page: Page) -> bool
    requires running { IsRunning m.now }
    requires there { IsThere m.now.kernel.place page }
    requires shared { IsShared m.now.kernel.place page }
    ensures { result ≡ is_seated m.now.kernel.place page }
{
    is_seated(m.core(), space_of(m, page), page)
}

fn is_dirty_seat(m: &Machine, page: Page) -> bool
    requires running { IsRunning m.now }
    requires there { IsThere m.now.kernel.place page }
    requires shared { IsShared m.now.kernel.place page }
    requires seated { is_seated m.now.kernel.place page ≡ true }
    ensures { result ≡ is_dirty m.now.kernel.place page }
{
    is_dirty(m.core(), space_of(m, page), page)
}

// Why a page in this state, in no frame off the free list, can't leave one.
fn unseated_by(page: Page, state: PageState) -> Option<Reason>
    ensures { result ≡ unseated_by page state }
{
    match state {
        PageState::Invalid(_) => Some(Reason::FrameIsFree(page)),
        state => Some(Reason::InState(page, state)),
    }
}

fn unseated_if(m: &Machine, page: Page, seated: bool) -> Option<Reason>
    requires { IsRunning m.now }
    ensures { result ≡ unseated_if m.now.kernel.place page seated }
{
    if seated {
        None
    } else {
        unseated_by(page, state(m, page))
    }
}

// The page isn't in a frame off the free list.
fn unseated(m: &Machine, page: Page) -> Option<Reason>
    requires running { IsRunning m.now }
    requires there { IsThere m.now.kernel.place page }
    requires shared { IsShared m.now.kernel.place page }
    ensures { result ≡ unseated m.now.kernel.place page }
{
    unseated_if(m, page, is_seat(m, page))
}

// One page that is there is written with another.
fn put_with(m: &Machine, page: Page, other: Page) -> Option<Reason>
    requires running { IsRunning m.now }
    requires there { IsThere m.now.kernel.place other }
    requires shared { IsShared m.now.kernel.place other }
    ensures { result ≡ or_reason (unseated m.now.kernel.place other)
        (or_reason (unless (is_dirty m.now.kernel.place other) (reasons.IsClean other)) (apart page other)) }
{
    match unseated(m, other) {
        Some(reason) => Some(reason),
        None => or_reason(
            unless(is_dirty_seat(m, other), Reason::IsClean(other)),
            apart(page, other),
        ),
    }
}

fn put_along(m: &Machine, page: Page, other: Page) -> Option<Reason>
    requires running { IsRunning m.now }
    requires shared { IsShared m.now.kernel.place other }
    ensures { result ≡ put_along m.now.kernel.place page other }
{
    match m.state_of(other) {
        None => Some(Reason::NoPage(other)),
        Some(_) => put_with(m, page, other),
    }
}

// The first reason that one of so many pages gives, from this one on. There are few, one after another.
fn each_along(m: &Machine, page: Page, lo: u32, n: u32) -> Option<Reason>
    requires running { IsRunning m.now }
    requires fits { lo + n < 2 ^ 32 }
    requires shared { (v : ℕ) → IsShared m.now.kernel.place (beside page v) }
    ensures { result ≡ each_page (put_along m.now.kernel.place page) (pages_from page lo n) }
{
    if n == 0 {
        return None;
    }
    match put_along(m, page, beside(page, lo)) {
        Some(reason) => Some(reason),
        None => each_along(m, page, lo + 1, n - 1),
    }
}

// By whether a page is dirty: those after it are written with it, or it is freed alone.
fn put_reason_by(m: &Machine, page: Page, n: u32, dirty: bool) -> Option<Reason>
    requires running { IsRunning m.now }
    requires fits { number_of page + n < 2 ^ 32 }
    requires shared { (v : ℕ) → IsShared m.now.kernel.place (beside page v) }
    ensures { result ≡ put_reason_by m.now.kernel.place page n dirty }
{
    if dirty {
        or_reason(each_along(m, page, number_of(page), n), no_room(m))
    } else {
        unless(n == 1, Reason::IsClean(page))
    }
}

// Why so many pages, few of them, don't leave their frames from one on that is there.
fn put_few(m: &Machine, page: Page, n: u32) -> Option<Reason>
    requires running { IsRunning m.now }
    requires there { IsThere m.now.kernel.place page }
    requires own { IsShared m.now.kernel.place page }
    requires shared { (v : ℕ) → IsShared m.now.kernel.place (beside page v) }
    requires low { number_of page ≤ 4096 }
    requires few { n ≤ 16 }
    ensures { result ≡ or_reason (unseated m.now.kernel.place page) (put_reason_by m.now.kernel.place page n (is_dirty m.now.kernel.place page)) }
{
    match unseated(m, page) {
        Some(reason) => Some(reason),
        None => put_reason_by(m, page, n, is_dirty_seat(m, page)),
    }
}

// The same of a page of a space, and of any number of pages.
fn put_there(m: &Machine, sid: u32, page: Page, n: u32) -> Option<Reason>
    requires running { IsRunning m.now }
    requires there { IsThere m.now.kernel.place page }
    requires own { IsOfSegment sid page }
    requires low { number_of page ≤ 4096 }
    ensures { result ≡ or_reason (wrong_length n)
        (or_reason (unseated m.now.kernel.place page) (put_reason_by m.now.kernel.place page n (is_dirty m.now.kernel.place page))) }
{
    match wrong_length(n) {
        Some(reason) => Some(reason),
        None => put_few(m, page, n),
    }
}

// The same of a page that may not be there.
fn put_if(m: &Machine, sid: u32, page: Page, n: u32) -> Option<Reason>
    requires running { IsRunning m.now }
    requires own { IsOfSegment sid page }
    ensures { result ≡ if_there (is_there m.now.kernel.place page) page
        (or_reason (wrong_length n) (or_reason (unseated m.now.kernel.place page)
        (put_reason_by m.now.kernel.place page n (is_dirty m.now.kernel.place page)))) }
{
    match m.state_of(page) {
        None => Some(Reason::NoPage(page)),
        Some(_) => put_there(m, sid, page, n),
    }
}

// The same by who holds the space.
fn put_of(m: &Machine, sid: u32, page: Page, n: u32) -> Option<Reason>
    requires running { IsRunning m.now }
    requires own { IsOfSegment sid page }
    requires clear { m.now.kernel.place.due ≡ [] }
    ensures judged { (F : FlatState) → SameTables m.now.kernel F → result ≡ or_reason (holder_stays F m.now.kernel.place sid)
        (if_there (is_there m.now.kernel.place page) page
        (or_reason (wrong_length n) (or_reason (unseated m.now.kernel.place page)
        (put_reason_by m.now.kernel.place page n (is_dirty m.now.kernel.place page))))) }
    ensures can { result ≡ None → CanPush m.now.kernel.place page n }
{
    match holder_stays(m, sid) {
        Some(reason) => Some(reason),
        None => put_if(m, sid, page, n),
    }
}

// By whose the page is, where nothing is due.
fn put_clear(m: &Machine, page: Page, n: u32) -> Option<Reason>
    requires running { IsRunning m.now }
    requires clear { m.now.kernel.place.due ≡ [] }
    ensures judged { (F : FlatState) → SameTables m.now.kernel F → result ≡ or_reason (owner_stays F m.now.kernel.place page)
        (if_there (is_there m.now.kernel.place page) page
        (or_reason (wrong_length n) (or_reason (unseated m.now.kernel.place page)
        (put_reason_by m.now.kernel.place page n (is_dirty m.now.kernel.place page))))) }
    ensures can { result ≡ None → CanPush m.now.kernel.place page n }
{
    match page {
        Page::Data { sid, .. } => put_of(m, sid, page, n),
        Page::Stack { sid, .. } => put_of(m, sid, page, n),
        Page::Text { .. } => Some(Reason::OfText(page)),
    }
}

fn put_reason(m: &Machine, page: Page, n: u32) -> Option<Reason>
    requires { IsRunning m.now }
    ensures judged { (F : FlatState) → SameTables m.now.kernel F → result ≡ put_reason F m.now.kernel.place page n }
    ensures can { result ≡ None → CanPush m.now.kernel.place page n }
{
    match due_first(m) {
        Some(reason) => Some(reason),
        None => put_clear(m, page, n),
    }
}

/// `P`: of a process that goes out, so many pages from this one on begin to be written, or a clean one is freed.
pub fn judge_put(m: &mut Machine, page: Page, n: u32) -> Result<Option<Reason>, Stop>
    requires ready { CanGoOn m.old }
    ensures judged { (F : FlatState) → SameTables m.old.kernel F → IfOk result (λ reason. reason ≡ put_reason F m.old.kernel.place page n) }
    ensures made { IfOk result (Judged (entries.Put page n) m.old m.new) }
    ensures stop { OnErr result (HasStopped m.old m.new) }
    ensures goes_on { OnOk result (CanGoOn m.new) }
{
    match put_reason(m, page, n) {
        Some(reason) => Ok(Some(reason)),
        None => {
            m.push(page, n)?;
            Ok(None)
        }
    }
}
