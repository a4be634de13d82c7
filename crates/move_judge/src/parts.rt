//! Judges the lines `E`, `W` and `F`: a part of a move alone. Neither the hands nor the journal may move by it.
ghost use Rattle.std.specs.Prelude.{◌≡◌, ◌≤◌, not, None, IfOk, OnErr};
ghost use Rattle.flat_state.specs.PageNames.{number_of, beside, pages_from};
ghost use Rattle.page_model.specs.Placement.{is_dirty};
ghost use Rattle.kernel_model.specs.HandParts.{PartComes};
ghost use Rattle.machine_state.specs.Going.{CanGoOn, IsRunning};
ghost use Rattle.paged_model.specs.Reasons.{unless, or_reason};
ghost use Rattle.paged_model.specs.declared.reason.Reason.TheVariants as reasons;
ghost use Rattle.paged_model.specs.Moves.{each_page, apart};
ghost use Rattle.paged_model.specs.Parts.{expire_reason, busy, write_along, write_reason, free_reason, part_reason};
ghost use Rattle.move_judge.specs.PartJudged.{JudgedPart};

use crate::idling::{busy, is_dirty};
use crate::looking::{apart, no_room, wrong_length};
use crate::reasons::{or_reason, unless};
use flat_state::{beside, number_of};
use kernel_model::HandPart;
use machine_state::Machine;
use paged_model::Reason;
use vm_facts::{NoMemory, Page, PageState};

// `E`.

fn expire_reason(m: &Machine, page: Page) -> Option<Reason>
    requires { IsRunning m.now }
    ensures { result ≡ expire_reason m.now.kernel.place page }
{
    match m.state_of(page) {
        None => Some(Reason::NoPage(page)),
        Some(PageState::Valid(_)) => None,
        Some(state) => Some(Reason::InState(page, state)),
    }
}

// `W`.

// Why a page that is there isn't written with another.
fn write_with(m: &Machine, page: Page, other: Page) -> Option<Reason>
    requires { IsRunning m.now }
    ensures { result ≡ or_reason (busy m.now.kernel.place other)
        (or_reason (unless (is_dirty m.now.kernel.place other) (reasons.IsClean other)) (apart page other)) }
{
    match busy(m, other) {
        Some(reason) => Some(reason),
        None => or_reason(
            unless(is_dirty(m, other), Reason::IsClean(other)),
            apart(page, other),
        ),
    }
}

fn write_along(m: &Machine, page: Page, other: Page) -> Option<Reason>
    requires { IsRunning m.now }
    ensures reason { result ≡ write_along m.now.kernel.place page other }
    ensures low { result ≡ None → number_of other ≤ 4096 }
{
    match m.state_of(other) {
        None => Some(Reason::NoPage(other)),
        Some(_) => write_with(m, page, other),
    }
}

// The first reason that one of so many pages gives, from this one on. There are few, one after another.
fn each_along(m: &Machine, page: Page, lo: u32, n: u32) -> Option<Reason>
    requires { IsRunning m.now }
    ensures { result ≡ each_page (write_along m.now.kernel.place page) (pages_from page lo n) }
{
    if n == 0 {
        return None;
    }
    let other = beside(page, lo);
    match write_along(m, page, other) {
        Some(reason) => Some(reason),
        None => {
            let next = lo + 1;
            each_along(m, page, next, n - 1)
        }
    }
}

fn write_reason(m: &Machine, page: Page, n: u32) -> Option<Reason>
    requires { IsRunning m.now }
    ensures { result ≡ write_reason m.now.kernel.place page n }
{
    match wrong_length(n) {
        Some(reason) => Some(reason),
        None => or_reason(each_along(m, page, number_of(page), n), no_room(m)),
    }
}

// `F`.

// Why the frame of a page that is there isn't freed.
fn free_there(m: &Machine, page: Page) -> Option<Reason>
    requires { IsRunning m.now }
    ensures { result ≡ or_reason (busy m.now.kernel.place page) (unless (not (is_dirty m.now.kernel.place page)) (reasons.IsDirty page)) }
{
    match busy(m, page) {
        Some(reason) => Some(reason),
        None => unless(!is_dirty(m, page), Reason::IsDirty(page)),
    }
}

fn free_reason(m: &Machine, page: Page) -> Option<Reason>
    requires { IsRunning m.now }
    ensures { result ≡ free_reason m.now.kernel.place page }
{
    match m.state_of(page) {
        None => Some(Reason::NoPage(page)),
        Some(_) => free_there(m, page),
    }
}

// Each of them.

fn part_reason(m: &Machine, part: HandPart) -> Option<Reason>
    requires { IsRunning m.now }
    ensures told { result ≡ part_reason m.now.kernel.place part }
    ensures can { result ≡ None → PartComes m.now.kernel.place part }
{
    match part {
        HandPart::Expires { page } => expire_reason(m, page),
        HandPart::Writes { lo, n } => write_reason(m, lo, n),
        HandPart::Frees { page } => free_reason(m, page),
    }
}

/// `E`, `W` or `F`: a valid page is made invalid, the write of so many pages from one on begins, or the frame of a clean page goes to the free
/// list. A line that can't come wants no memory.
pub fn judge_part(m: &mut Machine, part: HandPart) -> Result<Option<Reason>, NoMemory>
    requires ready { CanGoOn m.old }
    ensures judged { IfOk result (λ reason. reason ≡ part_reason m.old.kernel.place part) }
    ensures made { IfOk result (JudgedPart part m.old m.new) }
    ensures stop { OnErr result (m.new ≡ m.old) }
    ensures goes_on { CanGoOn m.new }
{
    match part_reason(m, part) {
        Some(reason) => Ok(Some(reason)),
        None => {
            m.part(part)?;
            Ok(None)
        }
    }
}
