//! What an entry of a process does to it and to its space. No swap may be sought here: it was found before. A space
//! that loses pages must have settled.
ghost use Rattle.std.specs.Prelude.{◌≡◌, ℕ, OnOk};
ghost use Rattle.flat_state.specs.declared.change.Change.TheVariants.{Resize, Fork, Exec, End};
ghost use Rattle.kernel_tables.specs.View.{placement_of};
ghost use Rattle.kernel_tables.specs.Machine.{lists_of};
ghost use Rattle.kernel_tables.specs.Known.{Known};
ghost use Rattle.table_steps.specs.Applied.{MayLeave, LeftSpace, space_at, MayApply, AppliesAs};

use crate::{dropping, giving_up};
use flat_state::Change;
use kernel_tables::Tables;
use kernel_tables::proc_table::Life;
use std::alloc::Global;
use swap_book::Owner;
use vm_facts::{Bytes, NoMemory};

// The space of a process goes, if it has one.
fn give_up_space(tables: &mut Tables, pid: u32)
    requires known { Known (lists_of tables.old) }
    requires leaves { MayLeave tables.old (space_at tables.old pid) }
    ensures { LeftSpace tables.old tables.new (space_at tables.old pid) }
{
    if let Some(sid) = tables.space_of(pid) {
        giving_up::give_up(tables, sid);
    }
}

// Other sizes for the space of a process.
fn resize_of(
    tables: &mut Tables,
    pid: u32,
    data_pages: u32,
    stack_pages: u32,
) -> Result<(), NoMemory>
    requires { MayApply tables.old pid (Resize data_pages stack_pages) }
    ensures applied { OnOk result ((since : ℕ) → AppliesAs tables.old tables.new pid since (Resize data_pages stack_pages)) }
    ensures params { tables.new.params ≡ tables.old.params }
    ensures images { tables.new.images ≡ tables.old.images }
{
    match tables.space_of(pid) {
        Some(sid) => dropping::resize(tables, sid, data_pages, stack_pages),
        None => unreachable!(),
    }
}

// A child with a copy of its parent's space.
fn fork(tables: &mut Tables, alloc: Global, pid: u32, since: u32) -> Result<(), NoMemory>
    requires { MayApply tables.old pid (Fork tables.old.next_pid) }
    ensures applied { OnOk result (AppliesAs tables.old tables.new pid since (Fork tables.old.next_pid)) }
    ensures params { tables.new.params ≡ tables.old.params }
    ensures images { tables.new.images ≡ tables.old.images }
{
    let Some(parent) = tables.space_of(pid) else {
        unreachable!()
    };
    let sid = tables.fork_space(alloc, parent)?;
    tables.add_child(pid, Life::Holds(sid), since)
}

// A new space for a process, in which an image starts; the old one goes.
fn exec(
    tables: &mut Tables,
    alloc: Global,
    pid: u32,
    image: u32,
    top: Bytes,
) -> Result<(), NoMemory>
    requires { MayApply tables.old pid (Exec image top) }
    ensures applied { OnOk result ((since : ℕ) → AppliesAs tables.old tables.new pid since (Exec image top)) }
    ensures params { tables.new.params ≡ tables.old.params }
    ensures images { tables.new.images ≡ tables.old.images }
{
    let sid = tables.enter_image(alloc, image, top)?;
    give_up_space(tables, pid);
    tables.hold(pid, sid);
    Ok(())
}

// The end of a process: its space goes, and its u page.
fn end_process(tables: &mut Tables, pid: u32, status: u32)
    requires { MayApply tables.old pid (End status) }
    ensures { (since : ℕ) → AppliesAs tables.old tables.new pid since (End status) }
{
    give_up_space(tables, pid);
    tables.book.drop_owner(Owner::U(pid));
    tables.end_record(pid, status);
}

/// What an entry of a process does to it and to its space. `since` is the length of the journal with it.
pub fn apply(
    tables: &mut Tables,
    alloc: Global,
    pid: u32,
    change: Change,
    since: u32,
) -> Result<(), NoMemory>
    requires { MayApply tables.old pid change }
    ensures applied { OnOk result (AppliesAs tables.old tables.new pid since change) }
    ensures params { tables.new.params ≡ tables.old.params }
    ensures images { tables.new.images ≡ tables.old.images }
{
    match change {
        Change::Keep => Ok(()),
        Change::Resize {
            data_pages,
            stack_pages,
        } => resize_of(tables, pid, data_pages, stack_pages),
        Change::Fork { .. } => fork(tables, alloc, pid, since),
        Change::Lend { .. } => tables.add_child(pid, Life::New, since),
        Change::Exec { image, top } => exec(tables, alloc, pid, image, top),
        Change::Reap { child } => {
            tables.reap(child);
            Ok(())
        }
        Change::Sleep => {
            tables.sleep(pid);
            Ok(())
        }
        Change::End { status } => {
            end_process(tables, pid, status);
            Ok(())
        }
    }
}
