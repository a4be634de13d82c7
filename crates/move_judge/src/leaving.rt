//! Judges the lines `O` and `I`: a process goes out or comes in. All reasons come before the device is called.
ghost use Rattle.std.specs.Prelude.{◌≡◌, ◌≤◌, None, Some, [], IfOk, OnOk, OnErr};
ghost use Rattle.flat_state.specs.Flat.{FlatState, process_of};
ghost use Rattle.kernel_model.specs.Kernel.{Proc as Process};
ghost use Rattle.kernel_model.specs.Asks.{HasSpace};
ghost use Rattle.kernel_model.specs.Coupled.{SameTables};
ghost use Rattle.kernel_model.specs.Stands.{OutHold};
ghost use Rattle.kernel_model.specs.Unit.{proc_of};
ghost use Rattle.kernel_model.specs.UPage.{AreRegs};
ghost use Rattle.machine_state.specs.Going.{CanGoOn, IsRunning};
ghost use Rattle.machine_state.specs.Calls.{CanGoOut, CanComeIn};
ghost use Rattle.machine_state.specs.Conditions.{HasStopped};
ghost use Rattle.machine_state.specs.Outside.{stop_of, MovesSwapPages};
ghost use Rattle.paged_model.specs.declared.reason.Reason.TheVariants as reasons;
ghost use Rattle.paged_model.specs.Reasons.{unless, or_reason};
ghost use Rattle.paged_model.specs.Leaving.{still_seated, out_if, out_reason, in_if, in_reason};
ghost use Rattle.move_judge.specs.Records.{IsRecord};
ghost use Rattle.move_judge.specs.Holders.{record_stays, HoldsRecord};
ghost use Rattle.move_judge.specs.Leaving.{space_left, JudgedOut, JudgedIn};

use crate::holding::{held_space, record_stays};
use crate::looking::{due_first, state};
use crate::reasons::{or_reason, unless};
use crate::record_of;
use io_edge::SwapDev;
use kernel_tables::are_regs;
use machine_state::Machine;
use paged_model::Reason;
use proc_table::Proc;
use swapper::seated_page;
use vm_facts::{Page, Stop};

// `O`.

fn still_seated(m: &Machine, page: Option<Page>) -> Option<Reason>
    requires { IsRunning m.now }
    ensures { result ≡ still_seated m.now.kernel.place page }
{
    match page {
        None => None,
        Some(page) => Some(Reason::InState(page, state(m, page))),
    }
}

// Why a space isn't left.
fn space_left(m: &Machine, sid: u32) -> Option<Reason>
    requires running { IsRunning m.now }
    requires there { HasSpace m.now.kernel.place sid }
    ensures { result ≡ space_left m.now.kernel.place sid }
{
    or_reason(
        unless(m.settled(sid), Reason::Unsettled),
        still_seated(m, seated_page(m, sid)),
    )
}

// Why the process of a record doesn't go out of the space that it holds.
fn out_held(m: &Machine, _pid: u32, process: &Proc, sid: u32) -> Option<Reason>
    requires running { IsRunning m.now }
    requires clear { m.now.kernel.place.due ≡ [] }
    requires holds { HoldsRecord m.now.kernel _pid sid process.now }
    ensures told { result ≡ or_reason (record_stays process.now) (space_left m.now.kernel.place sid) }
    ensures can { result ≡ None → CanGoOut m.now.kernel _pid }
{
    or_reason(record_stays(process), space_left(m, sid))
}

// Why the process of a record doesn't go out.
fn out_of(m: &Machine, pid: u32, process: &Proc) -> Option<Reason>
    requires running { IsRunning m.now }
    requires clear { m.now.kernel.place.due ≡ [] }
    requires known { IsRecord m.now.kernel pid (Some process.now) }
    ensures judged { (F : FlatState) → SameTables m.now.kernel F → result ≡ out_if F m.now.kernel.place pid (process_of F pid) }
    ensures can { result ≡ None → CanGoOut m.now.kernel pid }
{
    match held_space(process) {
        None => Some(Reason::HoldsNone(pid)),
        Some(sid) => out_held(m, pid, process, sid),
    }
}

// Why a process doesn't go out, where nothing is due.
fn out_clear(m: &Machine, pid: u32) -> Option<Reason>
    requires running { IsRunning m.now }
    requires clear { m.now.kernel.place.due ≡ [] }
    ensures judged { (F : FlatState) → SameTables m.now.kernel F → result ≡ out_if F m.now.kernel.place pid (process_of F pid) }
    ensures can { result ≡ None → CanGoOut m.now.kernel pid }
{
    match record_of(m, pid) {
        None => Some(Reason::NoProcess(pid)),
        Some(process) => out_of(m, pid, &process),
    }
}

fn out_reason(m: &Machine, pid: u32) -> Option<Reason>
    requires { IsRunning m.now }
    ensures judged { (F : FlatState) → SameTables m.now.kernel F → result ≡ out_reason F m.now.kernel.place pid }
    ensures can { result ≡ None → CanGoOut m.now.kernel pid }
{
    match due_first(m) {
        Some(reason) => Some(reason),
        None => out_clear(m, pid),
    }
}

// The registers of a process are sixteen longwords.
fn has_longwords(m: &Machine, pid: u32)
    requires { IsRunning m.now }
    ensures { (p : Process) → proc_of m.now.kernel pid ≡ Some p → AreRegs p.regs }
{
    match record_of(m, pid) {
        Some(process) => are_regs(&process.regs),
        None => {}
    }
}

/// `O`: a process is out.
pub fn judge_out<D: SwapDev>(
    m: &mut Machine,
    swap: &mut D,
    pid: u32,
) -> Result<Option<Reason>, Stop>
    requires ready { CanGoOn m.old }
    requires area { m.old.params.swap_blocks ≤ D.blocks swap.old }
    ensures judged { (F : FlatState) → SameTables m.old.kernel F → IfOk result (λ reason. reason ≡ out_reason F m.old.kernel.place pid) }
    ensures made { IfOk result (JudgedOut pid (D.image swap.old) (D.image swap.new) m.old m.new) }
    ensures regs { (p : Process) → proc_of m.old.kernel pid ≡ Some p → AreRegs p.regs }
    ensures stop { OnErr result (HasStopped m.old m.new) }
    ensures outside { MovesSwapPages D.SwapDev (stop_of result) swap.old swap.new }
    ensures goes_on { OnOk result (CanGoOn m.new) }
{
    has_longwords(m, pid);
    match out_reason(m, pid) {
        Some(reason) => Ok(Some(reason)),
        None => {
            m.u_out(swap, pid)?;
            Ok(None)
        }
    }
}

// `I`.

// Why the process of a record doesn't come in to the space that it holds.
fn in_held(_m: &Machine, pid: u32, process: &Proc, _sid: u32) -> Option<Reason>
    requires clear { _m.now.kernel.place.due ≡ [] }
    requires holds { HoldsRecord _m.now.kernel pid _sid process.now }
    ensures told { result ≡ unless process.now.out (reasons.IsIn pid) }
    ensures can { result ≡ None → CanComeIn _m.now.kernel pid }
{
    unless(process.out, Reason::IsIn(pid))
}

// Why the process of a record doesn't come in.
fn in_of(m: &Machine, pid: u32, process: &Proc) -> Option<Reason>
    requires running { IsRunning m.now }
    requires clear { m.now.kernel.place.due ≡ [] }
    requires known { IsRecord m.now.kernel pid (Some process.now) }
    ensures judged { (F : FlatState) → SameTables m.now.kernel F → OutHold m.now.kernel.place F → result ≡ in_if m.now.kernel.place pid (process_of F pid) }
    ensures can { result ≡ None → CanComeIn m.now.kernel pid }
{
    match held_space(process) {
        None => Some(Reason::IsIn(pid)),
        Some(sid) => in_held(m, pid, process, sid),
    }
}

// Why a process doesn't come in, where nothing is due.
fn in_clear(m: &Machine, pid: u32) -> Option<Reason>
    requires running { IsRunning m.now }
    requires clear { m.now.kernel.place.due ≡ [] }
    ensures judged { (F : FlatState) → SameTables m.now.kernel F → OutHold m.now.kernel.place F → result ≡ in_if m.now.kernel.place pid (process_of F pid) }
    ensures can { result ≡ None → CanComeIn m.now.kernel pid }
{
    match record_of(m, pid) {
        None => Some(Reason::NoProcess(pid)),
        Some(process) => in_of(m, pid, &process),
    }
}

fn in_reason(m: &Machine, pid: u32) -> Option<Reason>
    requires { IsRunning m.now }
    ensures judged { (F : FlatState) → SameTables m.now.kernel F → OutHold m.now.kernel.place F → result ≡ in_reason F m.now.kernel.place pid }
    ensures can { result ≡ None → CanComeIn m.now.kernel pid }
{
    match due_first(m) {
        Some(reason) => Some(reason),
        None => in_clear(m, pid),
    }
}

/// `I`: a process is in.
pub fn judge_in<D: SwapDev>(m: &mut Machine, swap: &mut D, pid: u32) -> Result<Option<Reason>, Stop>
    requires ready { CanGoOn m.old }
    requires area { m.old.params.swap_blocks ≤ D.blocks swap.old }
    ensures judged { (F : FlatState) → SameTables m.old.kernel F → OutHold m.old.kernel.place F
        → IfOk result (λ reason. reason ≡ in_reason F m.old.kernel.place pid) }
    ensures made { IfOk result (JudgedIn pid (D.image swap.old) (D.image swap.new) m.old m.new) }
    ensures stop { OnErr result (HasStopped m.old m.new) }
    ensures outside { MovesSwapPages D.SwapDev (stop_of result) swap.old swap.new }
    ensures goes_on { OnOk result (CanGoOn m.new) }
{
    match in_reason(m, pid) {
        Some(reason) => Ok(Some(reason)),
        None => {
            m.u_in(swap, pid)?;
            Ok(None)
        }
    }
}
