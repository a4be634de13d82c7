// Questions about references, answered as texts.
ghost use Rattle.std.specs.Prelude.{◌≡◌, ◌≤◌, ◌++◌, length, vec_len, codes, IfOk};
ghost use Rattle.reference_answers.specs.Grammar.{most_references};
ghost use Rattle.command_edge.specs.Ending.{numbered_line};
ghost use Rattle.reference_answers.specs.Texts.{curve_text, references_text, policy_lines, frame_numbers};
ghost use Rattle.reference_answers.specs.Answers.{IsOptimumText, IsPoliciesText, IsSweepText};

use crate::lines::{put_numbered_line, put_references, put_sizes, put_victims};
use crate::numbering::{Numbered, number_pages};
use crate::sweeping::{Known, sweep};
use page_opt::{least_faults, next_uses};
use policy_faults::{clock_faults, fifo_faults, hands_faults};
use stack_dist::{curve, lru_faults};
use std::alloc::{AllocError, Global};
use vm_facts::{NoMemory, Page};

/// The text about the fewest page faults that any replacement has with so many frames, at least 1 of them, and about
/// the victims of a plan that has so few (Belady; the lines are this project's profile). At most 4,000,000 references.
/// Takes memory in proportion to the references; the one error is that there is none left.
pub fn optimum_text(alloc: Global, refs: &[Page], frames: u32) -> Result<Vec<u8>, NoMemory>
    requires frames { 1 ≤ frames }
    requires small { length refs.now ≤ most_references }
    ensures { IfOk result (λ text. IsOptimumText refs.now frames text.items) }
{
    let numbered = number_pages(alloc, refs)?;
    let plan = least_faults(alloc, numbered.numbers.as_slice(), frames)?;
    let mut text = count_lines(alloc, &numbered)?;
    put_numbered_line(&mut text, b"frames ", frames)?;
    put_numbered_line(&mut text, b"least faults ", plan.faults)?;
    put_victims(
        &mut text,
        numbered.pages.as_slice(),
        plan.victims.as_slice(),
    )?;
    Ok(text)
}

/// The text about the page faults of LRU at each size of memory, from 1 page to as many as there are (LRU as in Belady;
/// the lines are this project's profile). At most 4,000,000 references. Takes memory in proportion to the references;
/// the one error is that there is none left.
pub fn curve_text(alloc: Global, refs: &[Page]) -> Result<Vec<u8>, NoMemory>
    requires { length refs.now ≤ most_references }
    ensures { IfOk result (λ text. text.items ≡ curve_text refs.now) }
{
    let numbered = number_pages(alloc, refs)?;
    let faults = curve(alloc, numbered.numbers.as_slice())?;
    let mut text = count_lines(alloc, &numbered)?;
    put_sizes(&mut text, faults.as_slice())?;
    Ok(text)
}

/// The text about the page faults of FIFO, of the clock with one hand and with two, of LRU, and of the best plan, with so many
/// frames, at least 1 of them. Of the clock with two hands the front hand is `spread` frames ahead (the lines are this project's
/// profile). At most 4,000,000 references. Takes memory in proportion to the references; the one error is that there is none left.
pub fn policies_text(
    alloc: Global,
    refs: &[Page],
    frames: u32,
    spread: u32,
) -> Result<Vec<u8>, NoMemory>
    requires frames { 1 ≤ frames }
    requires small { length refs.now ≤ most_references }
    ensures { IfOk result (λ text. IsPoliciesText refs.now frames spread text.items) }
{
    let numbered = number_pages(alloc, refs)?;
    let numbers = numbered.numbers.as_slice();
    let fifo = fifo_faults(alloc, numbers, frames)?;
    let clock = clock_faults(alloc, numbers, frames)?;
    let hands = hands_faults(alloc, numbers, frames, spread)?;
    let lru = lru_faults(alloc, numbers, frames)?;
    let plan = least_faults(alloc, numbers, frames)?;
    let text = policy_lines(alloc, fifo, clock, hands, lru, plan.faults)?;
    Ok(text)
}

/// The same counts with each of several numbers of frames, which are `from`, `from + every` and so on up to `to`: a line each,
/// where the front hand is a quarter of the frames ahead (the lines are this project's profile). From 1 on, at least 1 apart, and at
/// most 4,000,000 references. What doesn't depend on the frames is made once: the numbers of pages, their next uses and the curve
/// of LRU. Takes memory in proportion to the references and the lines; the one error is that there is none left.
pub fn sweep_text(
    alloc: Global,
    refs: &[Page],
    from: u32,
    to: u32,
    every: u32,
) -> Result<Vec<u8>, NoMemory>
    requires some { 1 ≤ from }
    requires order { from ≤ to }
    requires every { 1 ≤ every }
    requires small { length refs.now ≤ most_references }
    ensures { IfOk result (λ text. IsSweepText refs.now (frame_numbers from to every) text.items) }
{
    let numbered = number_pages(alloc, refs)?;
    let numbers = numbered.numbers.as_slice();
    let next = next_uses(alloc, numbers)?;
    let curve = curve(alloc, numbers)?;
    let known = Known {
        numbers,
        next: next.as_slice(),
        curve: curve.as_slice(),
    };
    let text = sweep(alloc, known, from, to, every)?;
    Ok(text)
}

/// The references, one a line, as pages are written in other texts: `d 1 14` (this project's profile). The one error is that
/// there is no memory left.
pub fn references_text(alloc: Global, refs: &[Page]) -> Result<Vec<u8>, AllocError>
    ensures { IfOk result (λ text. text.items ≡ references_text refs.now) }
{
    let mut text = Vec::new(alloc);
    put_references(&mut text, refs)?;
    Ok(text)
}

/// The lines of the policies.
fn policy_lines(
    alloc: Global,
    fifo: u32,
    clock: u32,
    hands: u32,
    lru: u32,
    least: u32,
) -> Result<Vec<u8>, AllocError>
    ensures { IfOk result (λ text. text.items ≡ policy_lines fifo clock hands lru least) }
{
    let mut text = Vec::new(alloc);
    put_numbered_line(&mut text, b"fifo ", fifo)?;
    put_numbered_line(&mut text, b"clock ", clock)?;
    put_numbered_line(&mut text, b"hands ", hands)?;
    put_numbered_line(&mut text, b"lru ", lru)?;
    put_numbered_line(&mut text, b"least ", least)?;
    Ok(text)
}

/// The lines with the counts of references and of pages, before others.
fn count_lines(alloc: Global, numbered: &Numbered) -> Result<Vec<u8>, AllocError>
    requires references { vec_len numbered.now.numbers ≤ most_references }
    requires pages { vec_len numbered.now.pages ≤ most_references }
    ensures { IfOk result (λ text.
        text.items ≡ numbered_line (codes "references ") (vec_len numbered.now.numbers) ++ numbered_line (codes "pages ") (vec_len numbered.now.pages)) }
{
    let mut text = Vec::new(alloc);
    put_numbered_line(&mut text, b"references ", numbered.numbers.len() as u32)?;
    put_numbered_line(&mut text, b"pages ", numbered.pages.len() as u32)?;
    Ok(text)
}
