//! Judges the lines by which pages take frames, or are taken back: `Z`, `C`, `G`, `R`. No page may move before every
//! reason was tried.
ghost use Rattle.std.specs.Prelude.{◌≡◌, ◌≤◌, ◌+◌, ◌^◌, ◌<◌, None, IfOk, OnOk, OnErr};
ghost use Rattle.vm_facts.specs.declared.page.PageState.TheVariants.{Unfilled};
ghost use Rattle.vm_facts.specs.declared.entry.Entry.TheVariants as entries;
ghost use Rattle.flat_state.specs.PageNames.{number_of, pages_from};
ghost use Rattle.page_model.specs.Placement.{IsThere, state_of};
ghost use Rattle.page_model.specs.Conditions.{IsShared};
ghost use Rattle.core_map.specs.Frames.{Frames};
ghost use Rattle.kernel_model.specs.Asks.{HasSpace};
ghost use Rattle.machine_state.specs.Going.{CanGoOn, IsRunning};
ghost use Rattle.machine_state.specs.Showing.{ShowsCore};
ghost use Rattle.machine_state.specs.Views.{IsNamedBy, ShowsSpace};
ghost use Rattle.machine_state.specs.Conditions.{HasStopped};
ghost use Rattle.page_model.specs.Pages.{is_on_swap};
ghost use Rattle.paged_model.specs.Reasons.{or_reason};
ghost use Rattle.paged_model.specs.Moves.{zero_by, zero_reason, parent_by, copy_due, copy_reason, reclaim_reason, not_among, comes_along, reads_with, read_reason, each_page, run_reason, get_by, get_reason};
ghost use Rattle.move_judge.specs.Homes.{IsHome};
ghost use Rattle.move_judge.specs.Judged.{CopiesFrom, Judged};

use crate::looking::{
    apart, few_frames, has_zeros, no_frame, no_room, not_among, state, unshared, zero_due,
};
use crate::reasons::{or_reason, unless};
use flat_state::{beside, is_same, number_of};
use machine_state::Machine;
use paged_model::Reason;
use space_map::SpaceMap;
use vm_facts::{Page, PageState, Stop};

// `Z`.

// Why a page that was never filled isn't filled with zeros.
fn zero_unfilled(m: &Machine, page: Page) -> Option<Reason>
    requires running { IsRunning m.now }
    requires there { IsThere m.now.kernel.place page }
    requires unfilled { state_of m.now.kernel.place page ≡ Unfilled }
    ensures { result ≡ zero_by m.now.kernel.place page Unfilled }
{
    or_reason(
        unless(has_zeros(m, page), Reason::FromFile(page)),
        or_reason(zero_due(m, page), no_frame(m)),
    )
}

fn zero_reason(m: &Machine, page: Page) -> Option<Reason>
    requires { IsRunning m.now }
    ensures { result ≡ zero_reason m.now.kernel.place page }
{
    match m.state_of(page) {
        None => Some(Reason::NoPage(page)),
        Some(PageState::Unfilled) => zero_unfilled(m, page),
        Some(state) => Some(Reason::InState(page, state)),
    }
}

/// `Z`: a page of zeros, or a new stack page that is due first, takes a free frame.
pub fn judge_zero(m: &mut Machine, page: Page) -> Result<Option<Reason>, Stop>
    requires ready { CanGoOn m.old }
    ensures judged { IfOk result (λ reason. reason ≡ zero_reason m.old.kernel.place page) }
    ensures made { IfOk result (Judged (entries.Zero page) m.old m.new) }
    ensures stop { OnErr result (HasStopped m.old m.new) }
    ensures goes_on { OnOk result (CanGoOn m.new) }
{
    match zero_reason(m, page) {
        Some(reason) => Ok(Some(reason)),
        None => {
            m.fill_zero(page)?;
            Ok(None)
        }
    }
}

// `C`.

// Why a page isn't copied from its parent's.
fn parent_reason(m: &Machine, parent: Page) -> Option<Reason>
    requires running { IsRunning m.now }
    ensures { result ≡ parent_by m.now.kernel.place parent (state_of m.now.kernel.place parent) }
{
    match state(m, parent) {
        PageState::Valid(_) => no_frame(m),
        state => Some(Reason::InState(parent, state)),
    }
}

// Why a page that is there isn't copied, by what is due first.
fn copy_due(m: &Machine, page: Page) -> Option<Reason>
    requires { IsRunning m.now }
    ensures { result ≡ copy_due m.now.kernel.place page m.now.kernel.place.due }
{
    match m.due_at(0) {
        None => Some(Reason::NoCopyDue(page)),
        Some((due, None)) => Some(Reason::DueFirst(due)),
        Some((due, Some(parent))) => or_reason(
            unless(is_same(due, page), Reason::DueFirst(due)),
            parent_reason(m, parent),
        ),
    }
}

fn copy_reason(m: &Machine, page: Page) -> Option<Reason>
    requires { IsRunning m.now }
    ensures { result ≡ copy_reason m.now.kernel.place page }
{
    match m.state_of(page) {
        None => Some(Reason::NoPage(page)),
        Some(_) => copy_due(m, page),
    }
}

// The page from which the first page that is due is copied.
fn due_parent(m: &Machine, page: Page) -> Page
    requires { copy_reason m.now.kernel.place page ≡ None }
    ensures { CopiesFrom m.now.kernel.place.due page result }
{
    match m.due_at(0) {
        Some((_, Some(parent))) => parent,
        _ => unreachable!(),
    }
}

/// `C`: the child's page that is due first is copied from its parent's.
pub fn judge_copy(m: &mut Machine, page: Page) -> Result<Option<Reason>, Stop>
    requires ready { CanGoOn m.old }
    ensures judged { IfOk result (λ reason. reason ≡ copy_reason m.old.kernel.place page) }
    ensures made { IfOk result (Judged (entries.Copy page) m.old m.new) }
    ensures stop { OnErr result (HasStopped m.old m.new) }
    ensures goes_on { OnOk result (CanGoOn m.new) }
{
    match copy_reason(m, page) {
        Some(reason) => Ok(Some(reason)),
        None => {
            let parent = due_parent(m, page);
            m.copy(page, parent)?;
            Ok(None)
        }
    }
}

// `G`.

fn comes_along(m: &Machine, page: Page, other: Page) -> bool
    requires { IsRunning m.now }
    ensures { result ≡ comes_along m.now.kernel.place page other }
{
    match page {
        Page::Text { .. } => matches!(state(m, other), PageState::Unfilled),
        Page::Data { .. } | Page::Stack { .. } => is_same(page, other),
    }
}

fn is_on_swap(m: &Machine, page: Page) -> bool
    requires { IsRunning m.now }
    ensures { result ≡ is_on_swap (state_of m.now.kernel.place page) }
{
    matches!(state(m, page), PageState::OnSwap)
}

// Why a page isn't read with another, which is in this state.
fn reads_with(m: &Machine, page: Page, from: PageState, other: Page) -> Option<Reason>
    requires { IsRunning m.now }
    ensures { result ≡ reads_with m.now.kernel.place page from other }
{
    match from {
        PageState::OnSwap => or_reason(
            unless(is_on_swap(m, other), Reason::ReadElsewhere(other)),
            apart(page, other),
        ),
        _ => unless(comes_along(m, page, other), Reason::ReadElsewhere(other)),
    }
}

fn read_reason(m: &Machine, page: Page, from: PageState, other: Page) -> Option<Reason>
    requires { IsRunning m.now }
    ensures { result ≡ read_reason m.now.kernel.place page from other }
{
    match m.state_of(other) {
        None => Some(Reason::NoPage(other)),
        Some(_) => reads_with(m, page, from, other),
    }
}

// The first reason that one of so many pages gives, from this one on. There are few, one after another.
fn each_read(m: &Machine, page: Page, from: PageState, lo: u32, n: u32) -> Option<Reason>
    requires running { IsRunning m.now }
    requires fits { lo + n < 2 ^ 32 }
    ensures { result ≡ each_page (read_reason m.now.kernel.place page from) (pages_from page lo n) }
{
    if n == 0 {
        return None;
    }
    match read_reason(m, page, from, beside(page, lo)) {
        Some(reason) => Some(reason),
        None => each_read(m, page, from, lo + 1, n - 1),
    }
}

// Why a run isn't read with a page in this state that is among it.
fn run_reason(m: &Machine, page: Page, from: PageState, lo: u32, n: u32) -> Option<Reason>
    requires running { IsRunning m.now }
    requires fits { lo + n < 2 ^ 32 }
    ensures { result ≡ run_reason m.now.kernel.place page from lo n }
{
    or_reason(
        each_read(m, page, from, lo, n),
        or_reason(few_frames(m, n), no_room(m)),
    )
}

// The space that has a page of its own, or the lowest one that shares the page's text.
fn home_of(m: &Machine, page: Page) -> u32
    requires running { IsRunning m.now }
    requires there { IsThere m.now.kernel.place page }
    requires shared { IsShared m.now.kernel.place page }
    ensures space { HasSpace m.now.kernel.place result }
    ensures home { IsHome m.now.kernel.place page result }
{
    match page {
        Page::Data { sid, .. } | Page::Stack { sid, .. } => sid,
        Page::Text { image, .. } => match m.sharer(image) {
            Some(sid) => sid,
            None => unreachable!(),
        },
    }
}

/// The map of the space that has a page of its own, or of one that shares the page's text.
pub fn space_of(m: &Machine, page: Page) -> &SpaceMap
    requires running { IsRunning m.now }
    requires there { IsThere m.now.kernel.place page }
    requires shared { IsShared m.now.kernel.place page }
    ensures named { IsNamedBy result.now page }
    ensures shows { (core : Frames) → ShowsCore m.now.kernel.place core → ShowsSpace m.now.kernel.place core result.now }
{
    match m.space(home_of(m, page)) {
        Some(space) => space,
        None => unreachable!(),
    }
}

// Why the run of a page in this state, which is there and shared, isn't read.
fn read_from(m: &Machine, page: Page, from: PageState, lo: u32, n: u32) -> Option<Reason>
    requires running { IsRunning m.now }
    requires there { IsThere m.now.kernel.place page }
    requires shared { IsShared m.now.kernel.place page }
    requires few { number_of page ≤ 4096 }
    ensures { result ≡ or_reason (not_among page lo n) (run_reason m.now.kernel.place page from lo n) }
{
    match not_among(page, lo, n) {
        Some(reason) => Some(reason),
        None => run_reason(m, page, from, lo, n),
    }
}

// Why a page that is there and shared isn't read with a run.
fn get_shared(m: &Machine, page: Page, lo: u32, n: u32) -> Option<Reason>
    requires running { IsRunning m.now }
    requires there { IsThere m.now.kernel.place page }
    requires shared { IsShared m.now.kernel.place page }
    requires few { number_of page ≤ 4096 }
    ensures { result ≡ get_by m.now.kernel.place page (state_of m.now.kernel.place page) lo n }
{
    match state(m, page) {
        PageState::OnSwap => read_from(m, page, PageState::OnSwap, lo, n),
        PageState::Unfilled => or_reason(
            unless(!has_zeros(m, page), Reason::OfZeros(page)),
            read_from(m, page, PageState::Unfilled, lo, n),
        ),
        state => Some(Reason::InState(page, state)),
    }
}

fn get_reason(m: &Machine, page: Page, lo: u32, n: u32) -> Option<Reason>
    requires { IsRunning m.now }
    ensures reason { result ≡ get_reason m.now.kernel.place page lo n }
    ensures few { result ≡ None → number_of page ≤ 4096 }
{
    if m.state_of(page).is_none() {
        return Some(Reason::NoPage(page));
    }
    match unshared(m, page) {
        Some(reason) => Some(reason),
        None => get_shared(m, page, lo, n),
    }
}

/// `G`: a read begins of so many pages from `lo` on, since this one is wanted.
pub fn judge_get(m: &mut Machine, page: Page, lo: u32, n: u32) -> Result<Option<Reason>, Stop>
    requires ready { CanGoOn m.old }
    ensures judged { IfOk result (λ reason. reason ≡ get_reason m.old.kernel.place page lo n) }
    ensures made { IfOk result (Judged (entries.Get page lo n) m.old m.new) }
    ensures stop { OnErr result (HasStopped m.old m.new) }
    ensures goes_on { OnOk result (CanGoOn m.new) }
{
    match get_reason(m, page, lo, n) {
        Some(reason) => Ok(Some(reason)),
        None => {
            m.begin_get(page, lo, n)?;
            Ok(None)
        }
    }
}

// `R`.

fn reclaim_reason(m: &Machine, page: Page) -> Option<Reason>
    requires { IsRunning m.now }
    ensures { result ≡ reclaim_reason m.now.kernel.place page }
{
    match m.state_of(page) {
        None => Some(Reason::NoPage(page)),
        Some(PageState::Invalid(_)) => unshared(m, page),
        Some(state) => Some(Reason::InState(page, state)),
    }
}

/// `R`: a page is taken back from the frame in which it still lies.
pub fn judge_reclaim(m: &mut Machine, page: Page) -> Result<Option<Reason>, Stop>
    requires ready { CanGoOn m.old }
    ensures judged { IfOk result (λ reason. reason ≡ reclaim_reason m.old.kernel.place page) }
    ensures made { IfOk result (Judged (entries.Reclaim page) m.old m.new) }
    ensures stop { OnErr result (HasStopped m.old m.new) }
    ensures goes_on { OnOk result (CanGoOn m.new) }
{
    match reclaim_reason(m, page) {
        Some(reason) => Ok(Some(reason)),
        None => {
            m.reclaim(page)?;
            Ok(None)
        }
    }
}
