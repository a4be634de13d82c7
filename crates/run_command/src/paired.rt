//! Runs a schedule over two swap devices as one. A failed transfer is told with the device that failed.
ghost use Rattle.std.specs.Prelude.{◌≡◌, ◌<◌, ◌≤◌, ◌^◌, ℕ, List, [], length, Some, None, Err, All, IfErr, IsSome};
ghost use Rattle.vm_facts.specs.SwapImages.{SwapImage};
ghost use Rattle.io_edge.specs.WithFiles.{with_files};
ghost use Rattle.io_edge.specs.FailedDevice.{failed_read_of, failed_write_of};
ghost use Rattle.io_edge.specs.Striping.{most_blocks, pair_blocks, MeetsNeeds};
ghost use Rattle.flat_state.specs.Flat.{Inputs};
ghost use Rattle.flat_model.specs.Asked.{start_held};
ghost use Rattle.machine_state.specs.Files.{AreFiles};
ghost use Rattle.machine_state.specs.Outside.{stop_of, ReadsFilePages};
ghost use Rattle.vm_core.specs.FirstProcesses.{StartsFrom};
ghost use Rattle.vm_core.specs.Starting.{IsFresh};
ghost use Rattle.vm_core.specs.Schedules.{HaveFewMoves};
ghost use Rattle.vm_core.specs.RunEnds.{stopped_as, IsAskedOf, RunEnds};
ghost use Rattle.run_command.specs.Outside.{KeepsDevices};
ghost use Rattle.run_command.specs.Paired.{image_together, unfinished_of, IsFaultOf, IsRunFault, ReadsFail, WritesFail};

use command_edge::Fault;
use io_edge::{Files, SwapDev, SwapPair};
use vm_core::{Core, Unfinished, run_schedule};
use vm_facts::{Event, Stop};

// The fault of a stop, with the device of the last failed read and of the last failed write.
fn fault_of<'a>(stop: Stop, read: Option<u32>, write: Option<u32>) -> Fault<'a>
    requires read { stop ≡ Stop.SwapReadFault → IsSome read }
    requires write { stop ≡ Stop.SwapWriteFault → IsSome write }
    ensures unfinished { IsFaultOf stop result }
    ensures kind { IsRunFault result }
    ensures read_device { (device : ℕ) → result ≡ Fault.SwapReadFault device → read ≡ Some device }
    ensures write_device { (device : ℕ) → result ≡ Fault.SwapWriteFault device → write ≡ Some device }
{
    match stop {
        Stop::JournalFull => Fault::JournalFull,
        Stop::NoMemory => Fault::NoMemory,
        Stop::FileFault => Fault::FileFault,
        Stop::SwapReadFault => match read {
            Some(device) => Fault::SwapReadFault(device),
            None => unreachable!(),
        },
        Stop::SwapWriteFault => match write {
            Some(device) => Fault::SwapWriteFault(device),
            None => unreachable!(),
        },
    }
}

// Runs a schedule over a core and a pair of devices on which no call failed yet.
fn run_over<'a, 'd, F: Files, D: SwapDev, E: SwapDev>(
    core: &mut Core,
    files: &mut F,
    pair: &mut SwapPair<'d, D, E>,
    first: &[u32],
    lines: &[Event],
) -> Result<(), Fault<'a>>
    requires fresh { IsFresh core.old }
    requires some { 0 < core.old.machine.params.limit }
    requires frames { 64 ≤ core.old.machine.params.frames }
    requires few { length first.now ≤ 16 }
    requires numbers { All (λ n. (1 ≤ n) × (n ≤ length core.old.machine.images)) first.now }
    requires moves { HaveFewMoves lines.now }
    requires count { length lines.now < 2 ^ 32 }
    requires area { core.old.machine.params.swap_blocks ≤ pair_blocks (D.blocks pair.old.zero.now) (E.blocks pair.old.one.now) }
    requires files { AreFiles core.old.machine.images (F.holds files.old) }
    requires no_reads { ⟦<SwapPair<'d, D, E> as SwapDev>⟧.read_faults pair.old ≡ 0 }
    requires no_writes { ⟦<SwapPair<'d, D, E> as SwapDev>⟧.write_faults pair.old ≡ 0 }
    requires no_read { failed_read_of pair.old ≡ None }
    requires no_write { failed_write_of pair.old ≡ None }
    ensures ends { (A : Inputs) (image : SwapImage) → IsAskedOf A core.old.machine first.now lines.now (F.holds files.old) image
        → with_files (F.notes files.old) (image_together (D.blocks pair.old.zero.now) (E.blocks pair.old.one.now) (D.image pair.old.zero.now)
        (E.image pair.old.one.now)) ≡ Some image
        → RunEnds A core.new.machine.kernel.journal image (unfinished_of result)
        (with_files (F.notes files.new) (image_together (D.blocks pair.new.zero.now) (E.blocks pair.new.one.now) (D.image pair.new.zero.now)
        (E.image pair.new.one.now))) }
    ensures no_space { (A : Inputs) → StartsFrom A core.old.machine first.now → (pid : ℕ) → result ≡ Err (Fault.NoSpace pid) → start_held A ≡ Err pid }
    ensures none_made { (pid : ℕ) → result ≡ Err (Fault.NoSpace pid) → core.new.machine.kernel.journal ≡ [] }
    ensures untouched { (pid : ℕ) → result ≡ Err (Fault.NoSpace pid) → pair.new ≡ pair.old }
    ensures within { length core.new.machine.kernel.journal ≤ core.old.machine.params.journal }
    ensures full { result ≡ Err Fault.JournalFull → length core.new.machine.kernel.journal ≡ core.old.machine.params.journal }
    ensures kind { IfErr result IsRunFault }
    ensures devices { KeepsDevices D.SwapDev E.SwapDev pair.old.zero.now pair.new.zero.now pair.old.one.now pair.new.one.now }
    ensures zero_reference { pair.new.zero.ghost_name ≡ pair.old.zero.ghost_name }
    ensures one_reference { pair.new.one.ghost_name ≡ pair.old.one.ghost_name }
    ensures files_read { ReadsFilePages F.Files (stop_of (stopped_as (unfinished_of result))) files.old files.new }
    ensures reads { ReadsFail result (record {
      zero_before = D.read_faults pair.old.zero.now;
      zero_after = D.read_faults pair.new.zero.now;
      one_before = E.read_faults pair.old.one.now;
      one_after = E.read_faults pair.new.one.now;
    }) }
    ensures writes { WritesFail result (record {
      zero_before = D.write_faults pair.old.zero.now;
      zero_after = D.write_faults pair.new.zero.now;
      one_before = E.write_faults pair.old.one.now;
      one_after = E.write_faults pair.new.one.now;
    }) }
{
    match run_schedule(core, files, pair, first, lines) {
        Ok(()) => Ok(()),
        Err(Unfinished::NoSpace(pid)) => Err(Fault::NoSpace(pid)),
        Err(Unfinished::Stopped(stop)) => {
            Err(fault_of(stop, pair.failed_read(), pair.failed_write()))
        }
    }
}

/// Runs a schedule over a core that was made and had no call yet, with two swap devices as one, striped by units of 1,024
/// blocks. A fault of a device names the device: its own count of that kind rose.
pub fn run_paired<'a, F: Files, D: SwapDev, E: SwapDev>(
    core: &mut Core,
    files: &mut F,
    zero: &mut D,
    one: &mut E,
    first: &[u32],
    lines: &[Event],
) -> Result<(), Fault<'a>>
    requires fresh { IsFresh core.old }
    requires some { 0 < core.old.machine.params.limit }
    requires frames { 64 ≤ core.old.machine.params.frames }
    requires few { length first.now ≤ 16 }
    requires numbers { All (λ n. (1 ≤ n) × (n ≤ length core.old.machine.images)) first.now }
    requires moves { HaveFewMoves lines.now }
    requires count { length lines.now < 2 ^ 32 }
    requires most { core.old.machine.params.swap_blocks ≤ most_blocks }
    requires devices { MeetsNeeds (D.blocks zero.old) (E.blocks one.old) core.old.machine.params.swap_blocks }
    requires files { AreFiles core.old.machine.images (F.holds files.old) }
    ensures ends { (A : Inputs) (image : SwapImage) → IsAskedOf A core.old.machine first.now lines.now (F.holds files.old) image
        → with_files (F.notes files.old) (image_together (D.blocks zero.old) (E.blocks one.old) (D.image zero.old) (E.image one.old)) ≡ Some image
        → RunEnds A core.new.machine.kernel.journal image (unfinished_of result)
        (with_files (F.notes files.new) (image_together (D.blocks zero.new) (E.blocks one.new) (D.image zero.new) (E.image one.new))) }
    ensures no_space { (A : Inputs) → StartsFrom A core.old.machine first.now → (pid : ℕ) → result ≡ Err (Fault.NoSpace pid) → start_held A ≡ Err pid }
    ensures none_made { (pid : ℕ) → result ≡ Err (Fault.NoSpace pid) → core.new.machine.kernel.journal ≡ [] }
    ensures zero_left { (pid : ℕ) → result ≡ Err (Fault.NoSpace pid) → zero.new ≡ zero.old }
    ensures one_left { (pid : ℕ) → result ≡ Err (Fault.NoSpace pid) → one.new ≡ one.old }
    ensures within { length core.new.machine.kernel.journal ≤ core.old.machine.params.journal }
    ensures full { result ≡ Err Fault.JournalFull → length core.new.machine.kernel.journal ≡ core.old.machine.params.journal }
    ensures kind { IfErr result IsRunFault }
    ensures devices { KeepsDevices D.SwapDev E.SwapDev zero.old zero.new one.old one.new }
    ensures files_read { ReadsFilePages F.Files (stop_of (stopped_as (unfinished_of result))) files.old files.new }
    ensures reads { ReadsFail result (record {
      zero_before = D.read_faults zero.old;
      zero_after = D.read_faults zero.new;
      one_before = E.read_faults one.old;
      one_after = E.read_faults one.new;
    }) }
    ensures writes { WritesFail result (record {
      zero_before = D.write_faults zero.old;
      zero_after = D.write_faults zero.new;
      one_before = E.write_faults one.old;
      one_after = E.write_faults one.new;
    }) }
{
    let mut pair = SwapPair::new(zero, one);
    run_over(core, files, &mut pair, first, lines)
}
