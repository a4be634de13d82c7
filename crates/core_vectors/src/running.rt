//! Runs the core over a case, line by line, as `run` does by one call.
ghost use Rattle.std.specs.Prelude.{◌≡◌, ◌≤◌, true, length, OnOk, Ok, All};
ghost use Rattle.vm_core.specs.Steady.{HasFewMoves};
ghost use Rattle.core_vectors.specs.Ready.{AreFit, MayStart, MayGoOn};
ghost use Rattle.core_vectors.specs.declared.running.Unfit.TheVariants.{NoMemory};

use crate::outcome::Outcome;
use io_edge::{Files, MemSink, SwapDev};
use machine_state::Named;
use run_text::write_text;
use std::alloc::{AllocError, Global};
use vm_core::{Core, Started, Went};
use vm_facts::{Event, NoMemory, Params, Stop};

/// What a case asks for: its sizes, the numbers of the images of its first processes, and its schedule.
#[derive(Drop)]
pub struct Setup {
    pub params: Params,
    pub first: Vec<u32>,
    pub events: Vec<Event>,
}

/// The text of a journal, and how the run ended.
#[derive(Drop)]
pub struct Ran {
    pub journal: MemSink,
    pub outcome: Outcome,
}

// Whether a line asks for no more than a million moves of the hands, as each of a schedule that was read does.
fn has_few_moves(event: Event) -> bool
    ensures { result ≡ true → HasFewMoves event }
{
    match event {
        Event::Hands { count } => count <= 1_000_000,
        Event::Dispatch { .. } | Event::Interrupt | Event::Swapper | Event::Audit => true,
    }
}

// Takes a line of a schedule.
fn take_line<F: Files, D: SwapDev>(
    core: &mut Core,
    files: &mut F,
    swap: &mut D,
    line: u32,
    event: Event,
) -> Result<Went, Stop>
    requires { MayGoOn core.old (F.holds files.old) (D.blocks swap.old) }
    ensures { OnOk result (MayGoOn core.new (F.holds files.new) (D.blocks swap.new)) }
{
    if !has_few_moves(event) {
        return Ok(Went::LimitReached);
    }
    core.event(files, swap, line, event)
}

// Takes the lines of a schedule, until as many instructions are counted as may.
fn take_lines<F: Files, D: SwapDev>(
    core: &mut Core,
    files: &mut F,
    swap: &mut D,
    events: &[Event],
) -> Result<Went, Stop>
    requires { MayGoOn core.old (F.holds files.old) (D.blocks swap.old) }
    ensures { OnOk result (MayGoOn core.new (F.holds files.new) (D.blocks swap.new)) }
{
    let mut line: u32 = 0;
    for event in events {
        line = line.saturating_add(1);
        if take_line(core, files, swap, line, *event)? == Went::LimitReached {
            return Ok(Went::LimitReached);
        }
    }
    Ok(Went::Next)
}

// The run after its start.
fn go_on<F: Files, D: SwapDev>(
    core: &mut Core,
    files: &mut F,
    swap: &mut D,
    events: &[Event],
) -> Result<(), Stop>
    requires { MayGoOn core.old (F.holds files.old) (D.blocks swap.old) }
{
    if take_lines(core, files, swap, events)? == Went::LimitReached {
        return Ok(());
    }
    core.close_run(files, swap)
}

// Starts a run.
fn begin<F: Files, D: SwapDev>(
    core: &mut Core,
    files: &mut F,
    swap: &mut D,
    first: &[u32],
) -> Result<Started, Stop>
    requires { MayStart core.old first.now (F.holds files.old) (D.blocks swap.old) }
    ensures { result ≡ Ok Started.Ok → MayGoOn core.new (F.holds files.new) (D.blocks swap.new) }
{
    core.start(files, swap, first)
}

// A whole run.
fn run_through<F: Files, D: SwapDev>(
    core: &mut Core,
    files: &mut F,
    swap: &mut D,
    setup: &Setup,
) -> Result<Outcome, Stop>
    requires { MayStart core.old setup.now.first.items (F.holds files.old) (D.blocks swap.old) }
{
    match begin(core, files, swap, setup.first.as_slice())? {
        Started::NoSpace(pid) => Ok(Outcome::NoSpace(pid)),
        Started::Ok => {
            go_on(core, files, swap, setup.events.as_slice())?;
            Ok(Outcome::Ended)
        }
    }
}

// Whether each is the number of an image.
fn are_among(images: &[Named], first: &[u32]) -> bool
    ensures { result ≡ true → All (λ number. (1 ≤ number) × (number ≤ length images.now)) first.now }
{
    let count = images.len();
    first
        .iter()
        .all(|number| (1..=count).contains(&(*number as usize)))
}

// Whether a run of this setup may start, in these images and with so many blocks.
fn may_start(setup: &Setup, images: &[Named], blocks: u32) -> bool
    ensures few { result ≡ true → length images.now ≤ 16 }
    ensures few_first { result ≡ true → length setup.now.first.items ≤ 16 }
    ensures frames { result ≡ true → (64 ≤ setup.now.params.frames) × (setup.now.params.frames ≤ 4096) }
    ensures area { result ≡ true → setup.now.params.swap_blocks ≤ blocks }
    ensures numbers { result ≡ true → All (λ number. (1 ≤ number) × (number ≤ length images.now)) setup.now.first.items }
{
    let first = setup.first.as_slice();
    let params = setup.params;
    images.len() <= 16
        && first.len() <= 16
        && (64..=4096).contains(&params.frames)
        && params.swap_blocks <= blocks
        && are_among(images, first)
}

/// Why a case isn't run.
#[derive(Clone, Copy, Debug, PartialEq, Eq, Drop)]
pub enum Unfit {
    /// The allocator refused.
    NoMemory,
    /// The words are no sizes.
    Words,
    /// The sizes, or the numbers of images, are outside their ranges.
    Ranges,
    /// A word names no image.
    Image,
    /// The schedule is outside its grammar.
    Schedule,
}

impl From<AllocError> for Unfit {
    ghost from_gives = { λ _ e. e ≡ NoMemory };

    fn from(_e: AllocError) -> Unfit {
        Unfit::NoMemory
    }
}

impl From<NoMemory> for Unfit {
    ghost from_gives = { λ _ e. e ≡ NoMemory };

    fn from(_e: NoMemory) -> Unfit {
        Unfit::NoMemory
    }
}

/// Runs these images over the files and the swap. The journal's text has so much room.
pub fn run_over<F: Files, D: SwapDev>(
    alloc: Global,
    setup: &Setup,
    images: Vec<Named>,
    files: &mut F,
    swap: &mut D,
    room: usize,
) -> Result<Ran, Unfit>
    requires { AreFit images.items (F.holds files.old) }
{
    if !may_start(setup, images.as_slice(), swap.blocks()) {
        return Err(Unfit::Ranges);
    }
    let mut journal = MemSink::new(alloc, room, Vec::new(alloc))?;
    let mut core = Core::new(alloc, setup.params, images)?;
    let outcome = match run_through(&mut core, files, swap, setup) {
        Ok(outcome) => outcome,
        Err(stop) => Outcome::Stopped(stop),
    };
    let _moved = write_text(&mut journal, true, core.journal(), b"");
    core.end();
    Ok(Ran { journal, outcome })
}
