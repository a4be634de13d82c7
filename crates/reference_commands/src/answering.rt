//! Answers of `opt`, `curve` and `refs` on the references of a run in memory.
ghost use Rattle.std.specs.Prelude.{◌≡◌, ◌≤◌, map, length, All};
ghost use Rattle.command_edge.specs.ImageWords.{IsShortName};
ghost use Rattle.replay_check.specs.Images.{AreImageFiles};
ghost use Rattle.command_words.specs.declared.limits.TheConstants.{MOST_FRAMES, MOST_SHORT_LIMIT};
ghost use Rattle.command_edge.specs.Ending.{ending_of};
ghost use Rattle.reference_commands.specs.declared.question.Question.TheVariants as questions;
ghost use Rattle.reference_commands.specs.InMemory.{inputs_with, IsRunnable, EndsAnswer, AllDiffer};

use crate::running::run_references;
use command_edge::Fault;
use command_words::Numbers;
use reference_answers::{curve_text, optimum_text, references_text};
use replay_check::Flat;
use std::alloc::Global;
use vm_facts::Event;

/// The fewest faults of any replacement in so many frames on the references of the run over these images, with the victims of a plan
/// that has so few. At most 100,000 instructions may run.
pub fn optimum_over<'a>(
    alloc: Global,
    frames: u32,
    numbers: Numbers,
    images: &[Flat],
    names: &[&str],
    first: &[u32],
    lines: &[Event],
) -> Result<Vec<u8>, Fault<'a>>
    requires least { 1 ≤ frames }
    requires most { frames ≤ MOST_FRAMES }
    requires images { AreImageFiles images.now }
    requires few { length names.now ≤ 16 }
    requires named { map (λ image. image.name) images.now ≡ map (λ name. name.now) names.now }
    requires short { All (λ name. IsShortName name.now) names.now }
    requires differ { AllDiffer (map (λ name. name.now) names.now) }
    requires runnable { IsRunnable numbers (length images.now) first.now lines.now }
    requires limit { numbers.limit ≤ MOST_SHORT_LIMIT }
    ensures { EndsAnswer (questions.Optimum frames) (inputs_with numbers images.now first.now lines.now) (ending_of result) }
{
    let pages = run_references(alloc, numbers, images, names, first, lines)?;
    match optimum_text(alloc, pages.as_slice(), frames) {
        Ok(text) => Ok(text),
        Err(_) => Err(Fault::NoMemory),
    }
}

/// The faults of least-recently-used replacement on the references of the run over these images, at each size of memory. At most 100,000
/// instructions may run.
pub fn curve_over<'a>(
    alloc: Global,
    numbers: Numbers,
    images: &[Flat],
    names: &[&str],
    first: &[u32],
    lines: &[Event],
) -> Result<Vec<u8>, Fault<'a>>
    requires images { AreImageFiles images.now }
    requires few { length names.now ≤ 16 }
    requires named { map (λ image. image.name) images.now ≡ map (λ name. name.now) names.now }
    requires short { All (λ name. IsShortName name.now) names.now }
    requires differ { AllDiffer (map (λ name. name.now) names.now) }
    requires runnable { IsRunnable numbers (length images.now) first.now lines.now }
    requires limit { numbers.limit ≤ MOST_SHORT_LIMIT }
    ensures { EndsAnswer questions.Curve (inputs_with numbers images.now first.now lines.now) (ending_of result) }
{
    let pages = run_references(alloc, numbers, images, names, first, lines)?;
    match curve_text(alloc, pages.as_slice()) {
        Ok(text) => Ok(text),
        Err(_) => Err(Fault::NoMemory),
    }
}

/// The references of the run over these images, one a line, however many they are.
pub fn references_over<'a>(
    alloc: Global,
    numbers: Numbers,
    images: &[Flat],
    names: &[&str],
    first: &[u32],
    lines: &[Event],
) -> Result<Vec<u8>, Fault<'a>>
    requires images { AreImageFiles images.now }
    requires few { length names.now ≤ 16 }
    requires named { map (λ image. image.name) images.now ≡ map (λ name. name.now) names.now }
    requires short { All (λ name. IsShortName name.now) names.now }
    requires differ { AllDiffer (map (λ name. name.now) names.now) }
    requires runnable { IsRunnable numbers (length images.now) first.now lines.now }
    ensures { EndsAnswer questions.References (inputs_with numbers images.now first.now lines.now) (ending_of result) }
{
    let pages = run_references(alloc, numbers, images, names, first, lines)?;
    match references_text(alloc, pages.as_slice()) {
        Ok(text) => Ok(text),
        Err(_) => Err(Fault::NoMemory),
    }
}
