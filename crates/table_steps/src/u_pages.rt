//! The records of processes that go out and come in, and their u pages. Only bytes and records are made here:
//! `machine_state` calls the device.
ghost use Rattle.std.specs.Prelude.{◌≡◌, ℕ, Some, IsSome};
ghost use Rattle.flat_state.specs.Flat.{cleared};
ghost use Rattle.proc_table.specs.Records.{find};
ghost use Rattle.swap_book.specs.declared.Owner.TheVariants.{U as UOwner};
ghost use Rattle.swap_book.specs.Holdings.{block_in};
ghost use Rattle.page_model.specs.Pages.{numbered};
ghost use Rattle.kernel_tables.specs.Lives.{space_of_record};
ghost use Rattle.kernel_tables.specs.Swapping.{MovedRecord, IsUPage};

use kernel_tables::{Tables, record_of, u_page};
use proc_table::{Life, Proc, ProcTable};
use swap_book::Owner;
use vm_facts::Regs;

/// The registers in the record of a process that is out.
pub fn no_regs() -> Regs
    ensures { result ≡ cleared }
{
    Regs {
        r: [0; 16],
        n: false,
        z: false,
        v: false,
        c: false,
    }
}

/// A process has other registers, and is out or in since this place in the journal.
pub fn move_record(processes: &mut ProcTable, pid: u32, regs: Regs, out: bool, since: u32)
    requires { IsSome (find pid processes.old) }
    ensures { MovedRecord processes.old processes.new pid regs out since }
{
    let process = record_of(processes, pid);
    let _known = processes.set(Proc {
        regs,
        out,
        since,
        ..process
    });
}

/// The first of the two blocks of a process's u page.
pub fn u_block(tables: &Tables, pid: u32) -> u32
    requires { IsSome (block_in tables.now.book.holdings (UOwner pid) 0) }
    ensures { Some result ≡ block_in tables.now.book.holdings (UOwner pid) 0 }
{
    match tables.book.block_of(Owner::U(pid), 0) {
        Some(block) => block,
        None => unreachable!(),
    }
}

/// The u page of a process that holds a space.
pub fn u_page_of(tables: &Tables, pid: u32) -> [u8; 1024]
    requires holds { (sid : ℕ) × (space_of_record (find pid tables.now.processes) ≡ Some sid) × IsSome (numbered (λ s. s.sid) sid tables.now.spaces) }
    ensures { IsUPage tables.now pid result }
{
    let process = tables.process(pid);
    let Life::Holds(sid) = process.state else {
        unreachable!()
    };
    let Some(space) = tables.spaces.find(sid) else {
        unreachable!()
    };
    u_page(&process.regs, space.data_pages(), space.stack_pages())
}
