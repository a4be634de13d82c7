//! The calls `fork` and `vfork`. A fork's copies come right after its entry; a vfork's space passes there too, with
//! nothing between.
ghost use Rattle.io_edge.specs.WithFiles.{stores};
ghost use Rattle.std.specs.Prelude.{◌≡◌, ◌∷◌, [], IfOk, IfErr, OnOk};
ghost use Rattle.vm_facts.specs.declared.page.Page.{Page};
ghost use Rattle.swap_book.specs.declared.Owner.TheVariants.{U as UOf};
ghost use Rattle.page_model.specs.Rank.{HasRoom};
ghost use Rattle.flat_state.specs.declared.change.Change.TheVariants.{Fork as ForkOf, Lend as LendOf};
ghost use Rattle.kernel_model.specs.Asks.{HasSpace};
ghost use Rattle.machine_state.specs.Going.{CanGoOn, IsRunning};
ghost use Rattle.machine_state.specs.Outside.{IsBacked, GoesOn};
ghost use Rattle.fault_fill.specs.Growth.{space_of_pid};
ghost use Rattle.proc_calls.specs.Callers.{IsCaller};
ghost use Rattle.proc_calls.specs.Copying.{HasCopied};
ghost use Rattle.proc_calls.specs.Forking.{fork_wants, ForkAnswered, Forked, StopsForking};
ghost use Rattle.proc_calls.specs.Making.{is_below_limit, Vforked, StopsMaking};

use crate::copying::copy_due;
use crate::ending::space_of_pid;
use crate::replying::{Called, fail, replied_both, reply};
use flat_model::{EAGAIN, ENOMEM, PROCESS_LIMIT, SystemCall};
use flat_state::Change;
use io_edge::{Files, SwapDev};
use machine_state::{Machine, Want};
use swap_book::Owner;
use vfork_pass::lend;
use vm_facts::{Regs, Stop};

// Whether there are fewer processes than may be.
fn is_below_limit(m: &Machine) -> bool
    requires running { IsRunning m.now }
    ensures { result ≡ is_below_limit m.now.kernel }
{
    m.processes().len() < PROCESS_LIMIT
}

// What a child wants for its u page.
fn u_want(child: u32) -> Want
    ensures { result ≡ record { owner = UOf child; blocks = 2 } }
{
    Want {
        owner: Owner::U(child),
        blocks: 2,
    }
}

/// A child borrows the process's space.
pub fn vfork(m: &mut Machine, pid: u32, regs: &Regs) -> Result<Called, Stop>
    requires calls { IsCaller m.old pid }
    ensures ready { IfOk result (λ called. called ≡ Called.Ready) }
    ensures vforked { OnOk result (Vforked m.old m.new pid regs.now) }
    ensures stop { IfErr result (StopsMaking m.old m.new pid (LendOf m.old.kernel.next_pid)) }
    ensures goes_on { OnOk result (CanGoOn m.new) }
{
    if !is_below_limit(m) {
        return fail(m, pid, SystemCall::Vfork, regs, EAGAIN);
    }
    let child = m.next_numbers().0;
    if !m.ask(pid, &[u_want(child)])? {
        return fail(m, pid, SystemCall::Vfork, regs, ENOMEM);
    }
    let after = replied_both(regs, child, 0);
    reply(m, pid, SystemCall::Vfork, &after, Change::Lend { child })?;
    lend(m, pid, child);
    Ok(Called::Ready)
}

// What a child wants that copies a space.
fn fork_wants(m: &Machine, parent: u32) -> [Want; 3]
    requires running { IsRunning m.now }
    requires there { HasSpace m.now.kernel.place parent }
    ensures { result ≡ fork_wants m.now.kernel parent }
{
    let (child, sid) = m.next_numbers();
    let Some(space) = m.space(parent) else {
        unreachable!()
    };
    let data = Want {
        owner: Owner::Data(sid),
        blocks: 2 * space.data_pages(),
    };
    let stack = Want {
        owner: Owner::Stack(sid),
        blocks: 2 * space.stack_pages(),
    };
    [data, stack, u_want(child)]
}

// A fork before its copies.
fn enter_fork(m: &mut Machine, pid: u32, parent: u32, regs: &Regs) -> Result<Called, Stop>
    requires calls { IsCaller m.old pid }
    requires held { parent ≡ space_of_pid m.old.kernel pid }
    ensures ready { IfOk result (λ called. called ≡ Called.Ready) }
    ensures answer { OnOk result (ForkAnswered m.old m.new pid regs.now) }
    ensures stop { IfErr result (StopsMaking m.old m.new pid (ForkOf m.old.kernel.next_pid)) }
    ensures goes_on { OnOk result (CanGoOn m.new) }
{
    if !is_below_limit(m) {
        return fail(m, pid, SystemCall::Fork, regs, EAGAIN);
    }
    let child = m.next_numbers().0;
    let wants = fork_wants(m, parent);
    if !m.ask(pid, &wants)? {
        return fail(m, pid, SystemCall::Fork, regs, ENOMEM);
    }
    let after = replied_both(regs, child, 0);
    reply(m, pid, SystemCall::Fork, &after, Change::Fork { child })
}

/// A child gets a space of its own, with a copy of each page that the process has filled. A page that it hasn't filled is filled
/// in the child as it would have been in the process. The child's number is the call's reply, before the first page is copied.
/// EAGAIN comes where there are 64 processes, zombies counted, and ENOMEM where the child's pieces of swap find no place.
pub fn fork<F: Files, D: SwapDev>(
    m: &mut Machine,
    files: &mut F,
    swap: &mut D,
    pid: u32,
    regs: &Regs,
) -> Result<Called, Stop>
    requires calls { IsCaller m.old pid }
    requires backed { IsBacked m.old (F.holds files.old) (D.blocks swap.old) }
    requires room { (page : Page) → HasRoom m.old.kernel.place (page ∷ []) }
    ensures ready { IfOk result (λ called. called ≡ Called.Ready) }
    ensures forked { OnOk result (Forked m.old m.new pid regs.now (F.holds files.old) (stores F.Files D.SwapDev files.old swap.old)
        (stores F.Files D.SwapDev files.new swap.new)) }
    ensures on { OnOk result (HasCopied m.old m.new) }
    ensures stop { IfErr result (StopsForking m.old m.new pid regs.now (F.holds files.old) (stores F.Files D.SwapDev files.old swap.old)
        (stores F.Files D.SwapDev files.new swap.new)) }
    ensures goes_on { GoesOn F.Files D.SwapDev result m.new files.old files.new swap.old swap.new }
{
    let parent = space_of_pid(m, pid);
    let called = enter_fork(m, pid, parent, regs)?;
    copy_due(m, files, swap, parent)?;
    Ok(called)
}
