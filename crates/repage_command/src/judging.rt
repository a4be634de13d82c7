//! A trace is judged by a machine in memory, over a blank swap. What was found is kept until it is told.
ghost use Rattle.io_edge.specs.WithFiles.{stores};
ghost use Rattle.std.specs.Prelude.{◌≡◌, ◌+◌, ◌-◌, ◌<◌, ◌≤◌, ◌^◌, Bool, ℕ, List, length, map, option_map, slice_get, take, Some, Ok, IfOk, IfErr};
ghost use Rattle.vm_facts.specs.SwapImages.{SwapImage};
ghost use Rattle.flat_state.specs.Flat.{Inputs};
ghost use Rattle.flat_model.specs.Asked.{start_held};
ghost use Rattle.swap_book.specs.Holdings.{Holdings};
ghost use Rattle.io_edge.specs.Octets.{AreOctetFiles};
ghost use Rattle.machine_state.specs.Files.{AreFiles};
ghost use Rattle.machine_state.specs.Outside.{IsBacked};
ghost use Rattle.machine_state.specs.New.{AreSound};
ghost use Rattle.machine_state.specs.Sourced.{AreNames};
ghost use Rattle.machine_state.specs.Applying.{facts_named};
ghost use Rattle.repage_check.specs.VmCoreStarting.{IsNew, AreAmong};
ghost use Rattle.repage_check.specs.Leading.{IsTold};
ghost use Rattle.machine_state.specs.Going.{IsRunning};
ghost use Rattle.owner_lines.specs.Owners.{carrier, owners_lines};
ghost use Rattle.paged_model.specs.Traces.{first_trace_misstep};
ghost use Rattle.command_words.specs.declared.limits.TheConstants.{MOST_FRAMES};
ghost use Rattle.question_command.specs.Naming.{shown_as};
ghost use Rattle.question_command.specs.Machines.{machine_up_to};
ghost use Rattle.command_edge.specs.Ending.{ending_of};
ghost use Rattle.repage_check.specs.Moves.{HaveFewMoves};
ghost use Rattle.repage_check.specs.Verdicts.{IsAsked, HasMisstep};
ghost use Rattle.question_command.specs.InMemory.{file_of, AreOpened};
ghost use Rattle.repage_command.specs.Reading.{inputs_of, IsReady};
ghost use Rattle.repage_command.specs.Telling.{misstep_line};
ghost use Rattle.repage_command.specs.Judging.{TellsJudged, EndsJudging, frame_away, transfer_at, EndsRepaging, EndsOwning};

use crate::reading::Case;
use crate::telling::misstep_line;
use command_edge::Fault;
use command_words::Numbers;
use io_edge::{Files, SureFiles, SureSwap, SwapDev};
use machine_state::Machine;
use owner_lines::carrier;
use paged_model::{Line, Misstep, Reason};
use question_command::reference_commands::run_command::name_images;
use question_command::reference_commands::{OpenedInMemory, lines_of, open_in_memory};
use repage_check::{Verdict, repage};
use run_opening::OpenedImage;
use std::alloc::Global;
use vm_facts::{NoMemory, PageState, Params};

/// A trace that was judged.
#[derive(Debug, Drop)]
pub(crate) struct Judged {
    pub(crate) verdict: Verdict,
    /// The number of the transfer that has a frame behind the last line; 0 where none has it.
    pub(crate) transfer: u32,
    /// Who owns what there, where that is asked.
    pub(crate) owners: Vec<u8>,
}

/// What is told of a trace.
#[derive(Debug, Drop)]
pub(crate) struct Repaged {
    /// The first line that can't come.
    pub(crate) bad: Option<u32>,
    /// How many lines it has.
    pub(crate) lines: u32,
    /// The line that tells why that line can't come, and no byte where there is none.
    pub(crate) why: Vec<u8>,
}

// A machine of these images, with no process yet and room for no entry.
fn machine_of(
    alloc: Global,
    numbers: Numbers,
    images: &[OpenedImage<'_>],
) -> Result<Machine, NoMemory>
    requires some { 0 < numbers.frames }
    requires most { numbers.frames ≤ MOST_FRAMES }
    requires few { length images.now ≤ 16 }
    requires sound { AreSound (facts_named (map shown_as images.now)) }
    requires names { AreNames (map shown_as images.now) }
    ensures machine { IfOk result (λ m. m ≡ machine_up_to 0 numbers (map shown_as images.now)) }
    ensures new { IfOk result IsNew }
{
    let Ok(named) = name_images(alloc, images) else {
        return Err(NoMemory);
    };
    let params = Params {
        frames: numbers.frames,
        swap_blocks: numbers.swap,
        limit: numbers.limit,
        journal: 0,
    };
    let m = Machine::new(alloc, params, named)?;
    Ok(m)
}

// The number of the transfer that has a frame where a trace is a run; else 0.
fn transfer_behind(m: &Machine, verdict: &Verdict, frame: u32) -> u32
    ensures { verdict.now ≡ Verdict.Paged → result ≡ carrier m.now.kernel.place frame }
{
    match verdict {
        Verdict::Paged => carrier(m, frame),
        _ => 0,
    }
}

// Who owns what where a trace is a run, by whether the lines are to say that it is over; no byte where that isn't asked.
fn owners_behind(
    alloc: Global,
    m: &Machine,
    verdict: &Verdict,
    over: Option<bool>,
) -> Result<Vec<u8>, NoMemory>
    requires { verdict.now ≡ Verdict.Paged → IsRunning m.now }
    ensures { IfOk result (λ text. verdict.now ≡ Verdict.Paged → (o : Bool) → over ≡ Some o → text.items ≡ owners_lines m.now o) }
{
    match verdict {
        Verdict::Paged => match over {
            Some(over) => lines_of(alloc, m, over),
            None => Ok(Vec::new(alloc)),
        },
        _ => Ok(Vec::new(alloc)),
    }
}

// Judges lines by a machine that had no call yet, and tells the transfer that has this frame behind the last of them, and who owns what there
// where that is asked.
fn judge_machine<F: Files, D: SwapDev>(
    alloc: Global,
    m: &mut Machine,
    files: &mut F,
    swap: &mut D,
    first: &[u32],
    lines: &[Line],
    frame: u32,
    over: Option<bool>,
) -> Result<Judged, NoMemory>
    requires new { IsNew m.old }
    requires bound { m.old.params.journal ≡ 0 }
    requires frames { 64 ≤ m.old.params.frames }
    requires processes { length first.now ≤ 16 }
    requires numbers { AreAmong m.old.images first.now }
    requires few { length lines.now + 2 < 2 ^ 32 }
    requires moves { HaveFewMoves lines.now }
    requires backed { IsBacked m.old (F.holds files.old) (D.blocks swap.old) }
    requires told { IsAsked m.old first.now (F.holds files.old) (stores F.Files D.SwapDev files.old swap.old) }
    ensures { IfOk result (λ judged. (A : Inputs) (image : SwapImage) → IsTold A m.old first.now (F.holds files.old) image → stores F.Files D.SwapDev
        files.old swap.old ≡ Some image
        → A.limit ≡ 1000000 → TellsJudged A lines.now frame over judged) }
{
    let verdict = repage(alloc, m, files, swap, first, lines)?;
    let transfer = transfer_behind(m, &verdict, frame);
    let owners = owners_behind(alloc, m, &verdict, over)?;
    Ok(Judged {
        verdict,
        transfer,
        owners,
    })
}

// The same, with the command's fault.
fn judge_begun<'a, F: Files, D: SwapDev>(
    alloc: Global,
    m: &mut Machine,
    files: &mut F,
    swap: &mut D,
    first: &[u32],
    lines: &[Line],
    frame: u32,
    over: Option<bool>,
) -> Result<Judged, Fault<'a>>
    requires new { IsNew m.old }
    requires bound { m.old.params.journal ≡ 0 }
    requires frames { 64 ≤ m.old.params.frames }
    requires processes { length first.now ≤ 16 }
    requires numbers { AreAmong m.old.images first.now }
    requires few { length lines.now + 2 < 2 ^ 32 }
    requires moves { HaveFewMoves lines.now }
    requires area { m.old.params.swap_blocks ≤ D.blocks swap.old }
    requires files { AreFiles m.old.images (F.holds files.old) }
    requires told { IsAsked m.old first.now (F.holds files.old) (stores F.Files D.SwapDev files.old swap.old) }
    ensures { (A : Inputs) (image : SwapImage) → IsTold A m.old first.now (F.holds files.old) image → stores F.Files D.SwapDev files.old swap.old ≡ Some image
        → A.limit ≡ 1000000
        → EndsJudging A lines.now frame over result }
{
    match judge_machine(alloc, m, files, swap, first, lines, frame, over) {
        Ok(judged) => Ok(judged),
        Err(_) => Err(Fault::NoMemory),
    }
}

// The same by a machine of the case's images, which were opened from these files in memory, over a blank swap.
fn judge_opened<'a>(
    alloc: Global,
    files: &mut SureFiles,
    numbers: Numbers,
    case: &Case<'_>,
    opened: &[OpenedImage<'_>],
    lines: &[Line],
    frame: u32,
    over: Option<bool>,
) -> Result<Judged, Fault<'a>>
    requires held { ⟦<SureFiles as Files>⟧.holds files.old ≡ Some (map file_of case.now.images.items) }
    requires octets { AreOctetFiles (map file_of case.now.images.items) }
    requires opened { AreOpened case.now.images.items opened.now }
    requires ready { IsReady numbers case.now }
    requires few { length lines.now + 2 < 2 ^ 32 }
    requires moves { HaveFewMoves lines.now }
    ensures { EndsJudging (inputs_of numbers case.now) lines.now frame over result }
{
    let Ok(mut swap) = SureSwap::new(alloc, numbers.swap) else {
        return Err(Fault::NoMemory);
    };
    let Ok(mut m) = machine_of(alloc, numbers, opened) else {
        return Err(Fault::NoMemory);
    };
    let first = case.naming.first.as_slice();
    let judged = judge_begun(alloc, &mut m, files, &mut swap, first, lines, frame, over);
    m.end();
    judged
}

// Judges these lines over the images of a case, in memory. The faults are want of memory alone.
fn judge_lines<'a>(
    alloc: Global,
    numbers: Numbers,
    case: &Case<'_>,
    lines: &[Line],
    frame: u32,
    over: Option<bool>,
) -> Result<Judged, Fault<'a>>
    requires ready { IsReady numbers case.now }
    requires few { length lines.now + 2 < 2 ^ 32 }
    requires moves { HaveFewMoves lines.now }
    ensures { EndsJudging (inputs_of numbers case.now) lines.now frame over result }
{
    let images = case.images.as_slice();
    let Ok(opening) = open_in_memory(alloc, images, case.naming.names.as_slice()) else {
        return Err(Fault::NoMemory);
    };
    let OpenedInMemory {
        mut files,
        images: opened,
    } = opening;
    let opened = opened.as_slice();
    judge_opened(alloc, &mut files, numbers, case, opened, lines, frame, over)
}

// The frame of a page that isn't valid since it is in a transfer.
fn frame_away(reason: &Reason) -> Option<u32>
    ensures { result ≡ frame_away reason.now }
{
    match reason {
        Reason::InState(_, PageState::Coming(frame)) => Some(*frame),
        Reason::InState(_, PageState::Going(frame)) => Some(*frame),
        _ => None,
    }
}

// These lines, or so many first ones.
#[tactic(auto, using(std::proofs::lemmas::List::take_min))]
fn front_of(lines: &[Line], wanted: u32) -> &[Line]
    ensures { result.now ≡ take wanted lines.now }
{
    lines.split_at((wanted as usize).min(lines.len())).0
}

// The number of the transfer that has this frame before a line. The lines before it are judged again.
fn transfer_before<'a>(
    alloc: Global,
    numbers: Numbers,
    case: &Case<'_>,
    misstep: &Misstep,
    frame: u32,
) -> Result<u32, Fault<'a>>
    requires ready { IsReady numbers case.now }
    requires away { frame_away misstep.now.reason ≡ Some frame }
    ensures number { IfOk result (λ number. (hs : Holdings) → start_held (inputs_of numbers case.now) ≡ Ok hs
        → first_trace_misstep (inputs_of numbers case.now) hs case.now.lines.items ≡ Some misstep.now
        → number ≡ transfer_at (inputs_of numbers case.now) hs case.now.lines.items misstep.now.line misstep.now.reason) }
    ensures fault { IfErr result (λ fault. fault ≡ Fault.NoMemory) }
{
    let behind = front_of(case.lines.as_slice(), misstep.line.saturating_sub(1));
    let judged = judge_lines(alloc, numbers, case, behind, frame, None)?;
    Ok(judged.transfer)
}

// The number of the transfer that the first line that can't come speaks of; 0 where it speaks of none.
fn transfer_at<'a>(
    alloc: Global,
    numbers: Numbers,
    case: &Case<'_>,
    misstep: &Misstep,
) -> Result<u32, Fault<'a>>
    requires { IsReady numbers case.now }
    ensures number { IfOk result (λ number. (hs : Holdings) → start_held (inputs_of numbers case.now) ≡ Ok hs
        → first_trace_misstep (inputs_of numbers case.now) hs case.now.lines.items ≡ Some misstep.now
        → number ≡ transfer_at (inputs_of numbers case.now) hs case.now.lines.items misstep.now.line misstep.now.reason) }
    ensures fault { IfErr result (λ fault. fault ≡ Fault.NoMemory) }
{
    match frame_away(&misstep.reason) {
        None => Ok(0),
        Some(frame) => transfer_before(alloc, numbers, case, misstep, frame),
    }
}

// The line of this number, counted from 1.
fn line_at(lines: &[Line], number: u32) -> Option<&Line>
    ensures { option_map (λ line. line.now) result ≡ slice_get lines.now (number - 1) }
{
    lines.get((number as usize).saturating_sub(1))
}

// What is told of lines of which the first that can't come is this.
fn repaged_at<'a>(
    alloc: Global,
    lines: &[Line],
    misstep: &Misstep,
    transfer: u32,
) -> Result<Repaged, Fault<'a>>
    requires few { length lines.now < 2 ^ 32 }
    ensures told { IfOk result (λ repaged. (repaged.bad ≡ Some misstep.now.line) × (repaged.lines ≡ length lines.now)
        × (repaged.why.items ≡ misstep_line misstep.now.line (slice_get lines.now (misstep.now.line - 1)) transfer misstep.now.reason)) }
    ensures fault { IfErr result (λ fault. fault ≡ Fault.NoMemory) }
{
    let there = line_at(lines, misstep.line);
    match misstep_line(alloc, misstep.line, there, transfer, &misstep.reason) {
        Ok(why) => Ok(Repaged {
            bad: Some(misstep.line),
            lines: lines.len() as u32,
            why,
        }),
        Err(_) => Err(Fault::NoMemory),
    }
}

// What is told of a case whose first line that can't come is this.
fn repaged_not<'a>(
    alloc: Global,
    numbers: Numbers,
    case: &Case<'_>,
    misstep: &Misstep,
) -> Result<Repaged, Fault<'a>>
    requires { IsReady numbers case.now }
    ensures { HasMisstep (inputs_of numbers case.now) case.now.lines.items misstep.now → EndsRepaging (inputs_of numbers case.now) case.now.lines.items result }
{
    let transfer = transfer_at(alloc, numbers, case, misstep)?;
    repaged_at(alloc, case.lines.as_slice(), misstep, transfer)
}

/// Judges a case: whether its lines are a run of the paged machine over its images, in memory. The faults are want of memory, and no swap
/// for a first process.
pub(crate) fn repage_case<'a>(
    alloc: Global,
    numbers: Numbers,
    case: &Case<'_>,
) -> Result<Repaged, Fault<'a>>
    requires { IsReady numbers case.now }
    ensures { EndsRepaging (inputs_of numbers case.now) case.now.lines.items result }
{
    let lines = case.lines.as_slice();
    let judged = judge_lines(alloc, numbers, case, lines, 0, None)?;
    match &judged.verdict {
        Verdict::NoSpace(pid) => Err(Fault::NoSpace(*pid)),
        Verdict::Paged => Ok(Repaged {
            bad: None,
            lines: lines.len() as u32,
            why: Vec::new(alloc),
        }),
        Verdict::Not(misstep) => repaged_not(alloc, numbers, case, misstep),
    }
}

/// Who owns what after so many lines of a case, or after all of them, in the same way.
pub(crate) fn owners_of_case<'a>(
    alloc: Global,
    numbers: Numbers,
    case: &Case<'_>,
    wanted: u32,
) -> Result<Vec<u8>, Fault<'a>>
    requires { IsReady numbers case.now }
    ensures { EndsOwning (inputs_of numbers case.now) case.now.lines.items wanted (ending_of result) }
{
    let lines = case.lines.as_slice();
    let over = lines.len() <= wanted as usize;
    let front = front_of(lines, wanted);
    let judged = judge_lines(alloc, numbers, case, front, 0, Some(over))?;
    let Judged {
        verdict,
        transfer: _,
        owners,
    } = judged;
    match verdict {
        Verdict::NoSpace(pid) => Err(Fault::NoSpace(pid)),
        Verdict::Paged => Ok(owners),
        Verdict::Not(misstep) => Err(Fault::NotPaged(misstep.line)),
    }
}
