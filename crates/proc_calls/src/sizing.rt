//! The call `brk`: the end of the data moves. Swap for more pages is asked for before; pages that go must have
//! settled.
ghost use Rattle.io_edge.specs.WithFiles.{stores};
ghost use Rattle.std.specs.Prelude.{◌≡◌, ◌⊎◌, ◌<◌, ◌≤◌, false, length, IfOk, OnOk, IfErr, OnErr, Err};
ghost use Rattle.user_vax.specs.Program.{run};
ghost use Rattle.flat_state.specs.declared.change.Change.TheVariants.{Resize};
ghost use Rattle.flat_model.specs.Calls.{argument, data_limit, replied};
ghost use Rattle.flat_model.specs.declared.calls.Reply.TheVariants.{Does};
ghost use Rattle.flat_model.specs.declared.calls.SystemCall.TheVariants.{Break};
ghost use Rattle.flat_model.specs.Step.{call_entry};
ghost use Rattle.page_model.specs.Placement.{image_of};
ghost use Rattle.machine_state.specs.Going.{CanGoOn, IsRunning};
ghost use Rattle.machine_state.specs.Conditions.{HasStopped};
ghost use Rattle.machine_state.specs.Showing.{IsShown};
ghost use Rattle.machine_state.specs.Applying.{CanApply};
ghost use Rattle.machine_state.specs.UserMemory.{CanLend, kernel_answers};
ghost use Rattle.machine_state.specs.Outside.{IsBacked, GoesOn};
ghost use Rattle.fault_fill.specs.Growth.{space_of_pid};
ghost use Rattle.proc_calls.specs.Answered.{Replied, StopsReading};
ghost use Rattle.proc_calls.specs.Callers.{IsCaller};
ghost use Rattle.proc_calls.specs.Sizing.{process_data_pages, process_stack_pages, pages_to, Grows, CutData, MovesEnd, BreakComes, StopsPlain, StopsBreaking};

use crate::replying::{Called, fail, process, refuse, replied_one, reply};
use flat_model::{Asked, DATA_LIMIT, ENOMEM, SystemCall, argument};
use flat_state::{Change, PAGE};
use io_edge::{Files, SwapDev};
use machine_state::{Machine, Want};
use proc_table::Life;
use space_map::SpaceMap;
use swap_book::Owner;
use vm_facts::{Regs, Stop};

// The space of a process, with its sizes, and the pages that its data is to have.
#[derive(Clone, Copy, Drop)]
struct Sizes {
    sid: u32,
    data_pages: u32,
    stack_pages: u32,
    wanted: u32,
}

// The map of the space that a process holds.
fn space_of(m: &Machine, pid: u32) -> &SpaceMap
    requires running { IsRunning m.now }
    requires lends { CanLend m.now.kernel pid }
    ensures named { result.now.sid ≡ space_of_pid m.now.kernel pid }
    ensures of_image { result.now.image ≡ image_of m.now.kernel.place (space_of_pid m.now.kernel pid) }
    ensures shown { IsShown m.now.kernel.place result.now }
{
    let Life::Holds(sid) = process(m, pid).state else {
        unreachable!()
    };
    match m.space(sid) {
        Some(space) => space,
        None => unreachable!(),
    }
}

// The sizes of a process, whose data is to end at an address.
fn sizes_to(m: &Machine, pid: u32, address: u32) -> Sizes
    requires running { IsRunning m.now }
    requires lends { CanLend m.now.kernel pid }
    ensures named { result.sid ≡ space_of_pid m.now.kernel pid }
    ensures holds { result.data_pages ≡ process_data_pages m.now.kernel pid }
    ensures stack { result.stack_pages ≡ process_stack_pages m.now.kernel pid }
    ensures wanted { result.wanted ≡ pages_to m.now.kernel pid address }
    ensures few { result.stack_pages ≤ 512 }
{
    let space = space_of(m, pid);
    let start = PAGE * space.text_pages();
    Sizes {
        sid: space.sid(),
        data_pages: space.data_pages(),
        stack_pages: space.stack_pages(),
        wanted: address.saturating_sub(start).div_ceil(PAGE),
    }
}

// The data gets the pages that are wanted.
fn resize(m: &mut Machine, pid: u32, regs: &Regs, sizes: Sizes) -> Result<Called, Stop>
    requires running { IsRunning m.old }
    requires can { CanApply m.old pid (call_entry pid Break (replied regs.now false 0)) (Resize sizes.wanted sizes.stack_pages) }
    ensures replied { IfOk result (Replied m.old m.new pid Break regs.now (Does (replied regs.now false 0) (Resize sizes.wanted sizes.stack_pages))) }
    ensures stop { OnErr result (HasStopped m.old m.new) }
    ensures cause { OnErr result ((result ≡ Err Stop.JournalFull) ⊎ (result ≡ Err Stop.NoMemory)) }
    ensures full { result ≡ Err Stop.JournalFull → m.old.params.journal ≤ length m.old.kernel.journal }
    ensures goes_on { OnOk result (CanGoOn m.new) }
{
    let change = Change::Resize {
        data_pages: sizes.wanted,
        stack_pages: sizes.stack_pages,
    };
    reply(m, pid, SystemCall::Break, &replied_one(regs, 0), change)
}

// More pages of data, where their pieces find their places.
fn grow(m: &mut Machine, pid: u32, regs: &Regs, sizes: Sizes) -> Result<Called, Stop>
    requires calls { IsCaller m.old pid }
    requires named { sizes.sid ≡ space_of_pid m.old.kernel pid }
    requires stack { sizes.stack_pages ≡ process_stack_pages m.old.kernel pid }
    requires few { sizes.stack_pages ≤ 512 }
    requires most { sizes.wanted ≤ data_limit }
    requires more { process_data_pages m.old.kernel pid < sizes.wanted }
    ensures grows { IfOk result (Grows m.old m.new pid regs.now sizes.wanted) }
    ensures stops { IfErr result (StopsPlain m.old m.new pid sizes.wanted) }
    ensures goes_on { OnOk result (CanGoOn m.new) }
{
    let want = Want {
        owner: Owner::Data(sizes.sid),
        blocks: 2 * sizes.wanted,
    };
    if m.ask(pid, &[want])? {
        resize(m, pid, regs, sizes)
    } else {
        fail(m, pid, SystemCall::Break, regs, ENOMEM)
    }
}

// Fewer pages of data, once the space is settled.
fn cut<F: Files, D: SwapDev>(
    m: &mut Machine,
    files: &mut F,
    swap: &mut D,
    pid: u32,
    regs: &Regs,
    sizes: Sizes,
) -> Result<Called, Stop>
    requires calls { IsCaller m.old pid }
    requires backed { IsBacked m.old (F.holds files.old) (D.blocks swap.old) }
    requires named { sizes.sid ≡ space_of_pid m.old.kernel pid }
    requires stack { sizes.stack_pages ≡ process_stack_pages m.old.kernel pid }
    requires few { sizes.stack_pages ≤ 512 }
    requires most { sizes.wanted ≤ data_limit }
    requires fewer { sizes.wanted < process_data_pages m.old.kernel pid }
    ensures cut { IfOk result (CutData m.old m.new pid regs.now sizes.wanted (F.holds files.old) (stores F.Files D.SwapDev files.old swap.old)
        (stores F.Files D.SwapDev files.new swap.new)) }
    ensures stops { IfErr result (StopsBreaking m.old m.new pid sizes.wanted (F.holds files.old) (stores F.Files D.SwapDev files.old swap.old)
        (stores F.Files D.SwapDev files.new swap.new)) }
    ensures goes_on { GoesOn F.Files D.SwapDev result m.new files.old files.new swap.old swap.new }
{
    m.settle(files, swap, sizes.sid)?;
    resize(m, pid, regs, sizes)
}

// What the argument of a break reads as, by the memory of the process.
fn read_address(m: &mut Machine, pid: u32, regs: &Regs) -> Asked<u32>
    requires ready { CanGoOn m.old }
    requires lends { CanLend m.old.kernel pid }
    ensures value { result ≡ run (kernel_answers m.old.kernel (space_of_pid m.old.kernel pid)) (argument regs.now 1) }
    ensures same { m.new ≡ m.old }
{
    argument(&m.memory(pid), *regs, 1)
}

// The data ends at an address.
fn move_end<F: Files, D: SwapDev>(
    m: &mut Machine,
    files: &mut F,
    swap: &mut D,
    pid: u32,
    regs: &Regs,
    address: u32,
) -> Result<Called, Stop>
    requires calls { IsCaller m.old pid }
    requires backed { IsBacked m.old (F.holds files.old) (D.blocks swap.old) }
    ensures moves { IfOk result
        (MovesEnd m.old m.new pid regs.now (pages_to m.old.kernel pid address) (F.holds files.old) (stores F.Files D.SwapDev files.old swap.old)
        (stores F.Files D.SwapDev files.new swap.new)) }
    ensures stops { IfErr result (StopsBreaking m.old m.new pid (pages_to m.old.kernel pid address) (F.holds files.old)
        (stores F.Files D.SwapDev files.old swap.old) (stores F.Files D.SwapDev files.new swap.new)) }
    ensures goes_on { GoesOn F.Files D.SwapDev result m.new files.old files.new swap.old swap.new }
{
    let sizes = sizes_to(m, pid, address);
    if sizes.wanted > DATA_LIMIT {
        fail(m, pid, SystemCall::Break, regs, ENOMEM)
    } else if sizes.wanted > sizes.data_pages {
        grow(m, pid, regs, sizes)
    } else if sizes.wanted < sizes.data_pages {
        cut(m, files, swap, pid, regs, sizes)
    } else {
        resize(m, pid, regs, sizes)
    }
}

/// The data of the process ends at its argument. Where the pieces of more pages find no place, it is told so after an
/// entry of that; fewer pages wait for the transfers of the space.
pub fn brk<F: Files, D: SwapDev>(
    m: &mut Machine,
    files: &mut F,
    swap: &mut D,
    pid: u32,
    regs: &Regs,
) -> Result<Called, Stop>
    requires calls { IsCaller m.old pid }
    requires backed { IsBacked m.old (F.holds files.old) (D.blocks swap.old) }
    ensures comes { IfOk result (BreakComes m.old m.new pid regs.now (run (kernel_answers m.old.kernel (space_of_pid m.old.kernel pid)) (argument regs.now 1))
        (F.holds files.old) (stores F.Files D.SwapDev files.old swap.old) (stores F.Files D.SwapDev files.new swap.new)) }
    ensures stops { IfErr result (StopsReading (run (kernel_answers m.old.kernel (space_of_pid m.old.kernel pid)) (argument regs.now 1))
        (λ address. StopsBreaking m.old m.new pid (pages_to m.old.kernel pid address) (F.holds files.old)) m.old m.new
        (stores F.Files D.SwapDev files.old swap.old) (stores F.Files D.SwapDev files.new swap.new)) }
    ensures goes_on { GoesOn F.Files D.SwapDev result m.new files.old files.new swap.old swap.new }
{
    match read_address(m, pid, regs) {
        Err(refused) => refuse(m, pid, SystemCall::Break, regs, refused),
        Ok(address) => move_end(m, files, swap, pid, regs, address),
    }
}
