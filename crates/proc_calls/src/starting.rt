//! A process starts an image in a new space. Its pieces of swap are found before the old space is left.
ghost use Rattle.io_edge.specs.WithFiles.{stores};
ghost use Rattle.std.specs.Prelude.{◌≡◌, ◌<◌, ◌≤◌, [], true, false, length, IfOk, OnOk, IfErr, Ok};
ghost use Rattle.page_model.specs.Rank.{HasRoom};
ghost use Rattle.kernel_model.specs.Unit.{has_lender, lender_among};
ghost use Rattle.machine_state.specs.Going.{CanGoOn, IsRunning};
ghost use Rattle.machine_state.specs.Wants.{CanAsk};
ghost use Rattle.machine_state.specs.Outside.{IsBacked, stop_of, TransfersPages, GoesOn};
ghost use Rattle.vfork_pass.specs.Passed.{HasGivenBack};
ghost use Rattle.flat_state.specs.declared.change.Change.TheVariants.{Exec};
ghost use Rattle.flat_model.specs.declared.calls.Reply.TheVariants.{Does};
ghost use Rattle.proc_calls.specs.Callers.{IsCaller};
ghost use Rattle.proc_calls.specs.Starting.{image_found, wants_found, is_shared, AreNextWants, Finds, Starts, StopsFinding, StopsExec};

use crate::ending::leave_space;
use crate::filling::fill_start;
use crate::replying::{Called, fail, reply};
use flat_model::{ENOMEM, SystemCall};
use flat_state::Change;
use io_edge::{Files, SwapDev};
use machine_state::{Machine, Want, image_wants};
use vm_facts::{Bytes, Page, Regs, Stop};

// Pieces are found for the next image of a process. Where they find their places the process leaves its space first, since
// no transfer completes while found pieces wait for their entry.
fn find_pieces<F: Files, D: SwapDev>(
    m: &mut Machine,
    files: &mut F,
    swap: &mut D,
    pid: u32,
    wants: &[Want],
) -> Result<bool, Stop>
    requires calls { IsCaller m.old pid }
    requires backed { IsBacked m.old (F.holds files.old) (D.blocks swap.old) }
    requires can { CanAsk m.old.kernel.holdings wants.now }
    ensures finds { IfOk result (λ fits. Finds (wants_found wants.now) fits m.old m.new pid (F.holds files.old) (stores F.Files D.SwapDev files.old swap.old)
        (stores F.Files D.SwapDev files.new swap.new)) }
    ensures given { result ≡ Ok true → has_lender m.old.kernel.processes pid ≡ true
        → HasGivenBack m.old.kernel m.new.kernel pid (lender_among m.old.kernel.processes pid) }
    ensures has_room { result ≡ Ok true → length m.new.kernel.journal < m.new.params.journal }
    ensures stops { IfErr result (StopsFinding (wants_found wants.now) m.old m.new pid (F.holds files.old) (stores F.Files D.SwapDev files.old swap.old)
        (stores F.Files D.SwapDev files.new swap.new)) }
    ensures outside { TransfersPages F.Files D.SwapDev (stop_of result) files.old files.new swap.old swap.new }
    ensures running { result ≡ Ok true → IsRunning m.new }
    ensures goes_on { result ≡ Ok false → CanGoOn m.new }
{
    if !m.fits(wants)? {
        return m.ask(pid, wants);
    }
    leave_space(m, files, swap, pid)?;
    m.ask(pid, wants)
}

// Whether some space shares an image's text.
fn is_shared(m: &Machine, image: u32) -> bool
    requires { IsRunning m.now }
    ensures { result ≡ is_shared m.now.kernel.place image }
{
    m.sharer(image).is_some()
}

// What an image wants in the next space.
fn next_wants(m: &Machine, image: u32) -> [Want; 3]
    requires running { IsRunning m.now }
    requires above { 0 < image }
    requires within { image ≤ length m.now.images }
    ensures { AreNextWants m.now image result }
{
    let facts = m.images()[image as usize - 1].facts;
    image_wants(&facts, image, m.next_numbers().1)
}

// The pieces of the next space are found, in which an image starts.
fn find_space<F: Files, D: SwapDev>(
    m: &mut Machine,
    files: &mut F,
    swap: &mut D,
    pid: u32,
    image: u32,
) -> Result<bool, Stop>
    requires calls { IsCaller m.old pid }
    requires backed { IsBacked m.old (F.holds files.old) (D.blocks swap.old) }
    requires above { 0 < image }
    requires within { image ≤ length m.old.images }
    ensures finds { IfOk result (λ fits. Finds (image_found image) fits m.old m.new pid (F.holds files.old) (stores F.Files D.SwapDev files.old swap.old)
        (stores F.Files D.SwapDev files.new swap.new)) }
    ensures given { result ≡ Ok true → has_lender m.old.kernel.processes pid ≡ true
        → HasGivenBack m.old.kernel m.new.kernel pid (lender_among m.old.kernel.processes pid) }
    ensures has_room { result ≡ Ok true → length m.new.kernel.journal < m.new.params.journal }
    ensures stops { IfErr result (StopsFinding (image_found image) m.old m.new pid (F.holds files.old) (stores F.Files D.SwapDev files.old swap.old)
        (stores F.Files D.SwapDev files.new swap.new)) }
    ensures outside { TransfersPages F.Files D.SwapDev (stop_of result) files.old files.new swap.old swap.new }
    ensures running { result ≡ Ok true → IsRunning m.new }
    ensures goes_on { result ≡ Ok false → CanGoOn m.new }
{
    let [text, data, stack] = next_wants(m, image);
    if is_shared(m, image) {
        find_pieces(m, files, swap, pid, &[data, stack])
    } else {
        find_pieces(m, files, swap, pid, &[text, data, stack])
    }
}

/// A process starts an image, with these registers and this stack page 0, which is filled after the call's entry. Where the
/// pieces of swap find no place the call fails instead, with the registers that the process has.
pub fn start_image<F: Files, D: SwapDev>(
    m: &mut Machine,
    files: &mut F,
    swap: &mut D,
    pid: u32,
    regs: &Regs,
    after: &Regs,
    image: u32,
    top: Bytes,
) -> Result<Called, Stop>
    requires calls { IsCaller m.old pid }
    requires backed { IsBacked m.old (F.holds files.old) (D.blocks swap.old) }
    requires above { 0 < image }
    requires within { image ≤ length m.old.images }
    requires page { length top ≡ 1024 }
    requires room { HasRoom m.old.kernel.place [] }
    ensures ready { IfOk result (λ called. called ≡ Called.Ready) }
    ensures starts { OnOk result (Starts m.old m.new pid regs.now after.now image top (F.holds files.old) (stores F.Files D.SwapDev files.old swap.old)
        (stores F.Files D.SwapDev files.new swap.new)) }
    ensures stops { IfErr result (StopsExec m.old m.new pid (Does after.now (Exec image top)) (F.holds files.old)
        (stores F.Files D.SwapDev files.old swap.old) (stores F.Files D.SwapDev files.new swap.new)) }
    ensures goes_on { GoesOn F.Files D.SwapDev result m.new files.old files.new swap.old swap.new }
{
    let page = Page::Stack {
        sid: m.next_numbers().1,
        v: 0,
    };
    if !find_space(m, files, swap, pid, image)? {
        return fail(m, pid, SystemCall::Execve, regs, ENOMEM);
    }
    let called = reply(
        m,
        pid,
        SystemCall::Execve,
        after,
        Change::Exec { image, top },
    )?;
    fill_start(m, files, swap, page)?;
    Ok(called)
}
