//! A measure of `page_opt` and `stack_dist` at size. Its words are what to ask, `opt`, `curve` or `both`, and three numbers: how many
//! references to make, over how many pages, and for how many frames. It makes the references by a linear congruential generator.
//! Of `opt` it finds the fewest faults, checks the plan, and prints the faults, the number of victims, a checksum of them, and the
//! faults that the check counted. Of `curve` it prints how many sizes there are, the faults at the smallest and at the largest, the
//! sum of all, and a polynomial in all. It prints no times: measure it from outside.
#![tactic(auto)]

ghost use Rattle.std.specs.Prelude.{◌≡◌, ◌<◌, ◌≤◌, IfOk, IfSome, Some, length, vec_len};

use page_opt::{NoMemory, Victim, check_plan, least_faults};
use stack_dist::curve;
use std::alloc::{AllocError, Global};
use std::env::{self, Args};
use std::io::ErrorKind;
use std::process::ExitCode;

/// The most references that `page_opt` and `stack_dist` take.
const MOST_REFERENCES: u32 = 4_000_000;

// The status of bad words, and of want of memory or of a place to print.
const BAD_WORDS: u8 = 1;

const NO_MEMORY: u8 = 9;

/// What is asked of the references.
#[derive(Clone, Copy)]
enum Question {
    /// The fewest faults, with a plan.
    Plan,
    /// The curve of LRU.
    Curve,
    /// One after the other.
    Both,
}

/// What there is to do.
#[derive(Clone, Copy)]
struct Asked {
    question: Question,
    references: u32,
    pages: u32,
    frames: u32,
}

/// What came of a plan.
#[derive(Clone, Copy)]
struct Planned {
    faults: u32,
    victims: usize,
    checksum: u64,
    checked: Option<u32>,
}

fn main(rt: HostRuntime) -> ExitCode {
    let words = match env::args(&rt) {
        Ok(words) => words,
        Err(error) if error.kind() == ErrorKind::OutOfMemory => return ExitCode::from(NO_MEMORY),
        Err(_) => return ExitCode::from(BAD_WORDS),
    };
    let Some(asked) = read_words(words) else {
        return ExitCode::from(BAD_WORDS);
    };
    let Ok(refs) = make_references(rt.alloc(), asked.references, asked.pages) else {
        return ExitCode::from(NO_MEMORY);
    };
    if !matches!(asked.question, Question::Curve) {
        let Ok(planned) = plan_of(rt.alloc(), &refs, asked.frames) else {
            return ExitCode::from(NO_MEMORY);
        };
        let Planned {
            faults,
            victims,
            checksum,
            checked,
        } = planned;
        let counted = checked.unwrap_or(0);
        match println!(rt;
            "{faults} faults\n{victims} victims\nchecksum {checksum}\n{counted} counted"
        ) {
            Ok(()) => {}
            Err(_) => return ExitCode::from(NO_MEMORY),
        }
    }
    if !matches!(asked.question, Question::Plan) {
        let Ok(faults) = curve(rt.alloc(), &refs) else {
            return ExitCode::from(NO_MEMORY);
        };
        let sizes = faults.len();
        let first = faults.first().copied().unwrap_or(0);
        let last = faults.last().copied().unwrap_or(0);
        let (sum, mixed) = checksums(&faults);
        match println!(rt; "sizes {sizes} first {first} last {last} sum {sum} mixed {mixed}") {
            Ok(()) => {}
            Err(_) => return ExitCode::from(NO_MEMORY),
        }
    }
    ExitCode::SUCCESS
}

/// Reads the words after the program's name: a question, at most 4,000,000 references, at least one page and one frame.
fn read_words(mut words: Args<Global>) -> Option<Asked>
    ensures { IfSome result (λ asked. (asked.references ≤ 4000000) × (0 < asked.pages) × (0 < asked.frames)) }
{
    let _program = words.next()?;
    let question = question_named(words.next()?.as_str())?;
    let references = read_number(&mut words)?;
    let pages = read_number(&mut words)?;
    let frames = read_number(&mut words)?;
    if references <= MOST_REFERENCES && pages > 0 && frames > 0 && words.next().is_none() {
        Some(Asked {
            question,
            references,
            pages,
            frames,
        })
    } else {
        None
    }
}

/// The question of this name.
fn question_named(word: &str) -> Option<Question> {
    match word {
        "opt" => Some(Question::Plan),
        "curve" => Some(Question::Curve),
        "both" => Some(Question::Both),
        _ => None,
    }
}

/// Reads the next word as a number.
fn read_number(words: &mut Args<Global>) -> Option<u32> {
    words.next()?.as_str().parse().ok()
}

/// References to pages by a linear congruential generator, with the factor and the summand of MMIX.
fn make_references(alloc: Global, references: u32, pages: u32) -> Result<Vec<u32>, AllocError>
    requires { 0 < pages }
    ensures { IfOk result (λ refs. vec_len refs ≡ references) }
{
    let mut refs = Vec::new(alloc);
    let mut state: u64 = 1;
    for _ in 0..references {
        state = state
            .wrapping_mul(6_364_136_223_846_793_005)
            .wrapping_add(1_442_695_040_888_963_407);
        let page = (state >> 33) % u64::from(pages);
        refs.push(page as u32)?;
    }
    Ok(refs)
}

/// Finds the fewest faults, and checks the plan, which counts as many.
fn plan_of(alloc: Global, refs: &[u32], frames: u32) -> Result<Planned, NoMemory>
    requires references { length refs.now ≤ 4000000 }
    requires frames { 0 < frames }
    ensures { IfOk result (λ planned. planned.checked ≡ Some planned.faults) }
{
    let plan = least_faults(alloc, refs, frames)?;
    let checked = check_plan(alloc, refs, frames, &plan.victims)?;
    Ok(Planned {
        faults: plan.faults,
        victims: plan.victims.len(),
        checksum: checksum(&plan.victims),
        checked,
    })
}

/// A checksum of victims in order.
fn checksum(victims: &[Victim]) -> u64 {
    let mut sum: u64 = 0;
    for victim in victims {
        sum = sum
            .wrapping_mul(31)
            .wrapping_add(u64::from(victim.at))
            .wrapping_mul(31)
            .wrapping_add(u64::from(victim.page));
    }
    sum
}

/// The sum of the numbers, and the polynomial in 31 with these coefficients, both modulo 2^64.
fn checksums(numbers: &[u32]) -> (u64, u64) {
    let mut sum = 0u64;
    let mut mixed = 0u64;
    for number in numbers {
        sum = sum.wrapping_add(u64::from(*number));
        mixed = mixed.wrapping_mul(31).wrapping_add(u64::from(*number));
    }
    (sum, mixed)
}
