//! The start of a film: first processes begin, with room for no entry. So even the first entry comes by going on.
ghost use Rattle.io_edge.specs.WithFiles.{stores};
ghost use Rattle.std.specs.Prelude.{◌≡◌, ◌↔◌, ◌<◌, ◌≤◌, ◌^◌, ℕ, true, List, [], length, Some, None, IfErr, Ok, Err};
ghost use Rattle.vm_facts.specs.SwapImages.{SwapImage};
ghost use Rattle.flat_state.specs.Flat.{Inputs};
ghost use Rattle.flat_model.specs.Asked.{start_held};
ghost use Rattle.machine_state.specs.Going.{IsRunning};
ghost use Rattle.machine_state.specs.Outside.{IsBacked, stop_of, TransfersPages};
ghost use Rattle.vm_core.specs.FirstProcesses.{AreAmong, StartsFrom};
ghost use Rattle.vm_core.specs.Leading.{IsTold};
ghost use Rattle.vm_core.specs.Choosing.{turn_after};
ghost use Rattle.vm_core.specs.Starting.{StopsStartingRun};
ghost use Rattle.film_core.specs.Films.{IsUnbegun, BeginsFilm};

use crate::film::Film;
use io_edge::{Files, SwapDev};
use machine_state::Machine;
use vm_core::proc_run::next_turned;
use vm_core::{Started, start};
use vm_facts::{Event, Stop};

// Whether no line of a schedule comes, and no turn of a process.
fn none_comes(m: &Machine, lines: &[Event]) -> bool
    requires running { IsRunning m.now }
    ensures { (result ≡ true) ↔ ((lines.now ≡ []) × (turn_after m.now.kernel 0 ≡ None)) }
{
    lines.is_empty() && next_turned(m, 0).is_none()
}

impl Film {
    /// Starts the first processes, in images of these numbers, as far as no entry comes. It is the first call.
    pub fn start<F: Files, D: SwapDev>(
        &mut self,
        files: &mut F,
        swap: &mut D,
        first: &[u32],
        lines: &[Event],
    ) -> Result<Started, Stop>
        requires unbegun { IsUnbegun self.old }
        requires some { 0 < self.old.machine.params.limit }
        requires frames { 64 ≤ self.old.machine.params.frames }
        requires few { length first.now ≤ 16 }
        requires numbers { AreAmong self.old.machine.images first.now }
        requires count { length lines.now < 2 ^ 32 }
        requires backed { IsBacked self.old.machine (F.holds files.old) (D.blocks swap.old) }
        ensures space { (A : Inputs) (pid : ℕ) → StartsFrom A self.old.machine first.now → result ≡ Ok (Started.NoSpace pid) → start_held A ≡ Err pid }
        ensures begins { result ≡ Ok Started.Ok → BeginsFilm self.old self.new first.now lines.now (F.holds files.old)
            (stores F.Files D.SwapDev files.old swap.old) (stores F.Files D.SwapDev files.new swap.new) }
        ensures stops { (A : Inputs) (image : SwapImage) → IsTold A self.old.machine first.now (F.holds files.old) image → stores F.Files D.SwapDev files.old
            swap.old ≡ Some image
            → IfErr result (λ stop. StopsStartingRun A self.new.machine image stop (stores F.Files D.SwapDev files.new swap.new)) }
        ensures params { result ≡ Ok Started.Ok → self.new.machine.params ≡ self.old.machine.params }
        ensures images { result ≡ Ok Started.Ok → self.new.machine.images ≡ self.old.machine.images }
        ensures outside { TransfersPages F.Files D.SwapDev (stop_of result) files.old files.new swap.old swap.new }
    {
        let started = start(&mut self.machine, files, swap, first);
        self.machine.always();
        match started {
            Ok(begun) => match begun {
                Started::Ok => {
                    self.over = none_comes(&self.machine, lines);
                    Ok(Started::Ok)
                }
                Started::NoSpace(pid) => Ok(Started::NoSpace(pid)),
            },
            Err(stop) => match stop {
                Stop::JournalFull => Ok(Started::Ok),
                stop => Err(stop),
            },
        }
    }
}
