//! Judges one move of `H`. Which pages it passes over is for the caller to say, and a write in it must find room.
ghost use Rattle.std.specs.Prelude.{◌≡◌, ◌<◌, ◌+◌, ◌^◌, ◌/◌, length, IfOk, OnOk, OnErr};
ghost use Rattle.vm_facts.specs.declared.entry.Entry.TheVariants as entries;
ghost use Rattle.page_model.specs.Hands.{wants_moves, hand_run};
ghost use Rattle.machine_state.specs.Going.{CanGoOn, IsRunning};
ghost use Rattle.machine_state.specs.Calls.{IsRunOf};
ghost use Rattle.machine_state.specs.Conditions.{HasStopped};
ghost use Rattle.swapper.specs.LastMoves.{last_moves};
ghost use Rattle.paged_model.specs.Moves.{write_room, hand_reason};
ghost use Rattle.move_judge.specs.Over.{JudgedOver};

use crate::looking::no_room;
use crate::reasons::{or_reason, unless};
use clock_hands::next_write;
use machine_state::Machine;
use paged_model::Reason;
use vm_facts::{Page, Stop};

// Whether fewer than a quarter of the frames are free.
fn wants_moves(m: &Machine) -> bool
    requires { IsRunning m.now }
    ensures { result ≡ wants_moves m.now.kernel.place }
{
    m.free_frames() < m.core().frames() / 4
}

// Why the write that the next move begins, of so many pages, finds no room; of no pages it needs none.
fn write_reason(m: &Machine, _locked: &[Page], _lo: u32, n: u32) -> Option<Reason>
    requires { IsRunOf (hand_run m.now.kernel.place _locked.now) _lo n }
    ensures { result ≡ write_room m.now.kernel.place (hand_run m.now.kernel.place _locked.now) }
{
    if n > 0 { no_room(m) } else { None }
}

// Why the hands don't move, whose next move begins the write of these pages.
fn hand_reason(m: &Machine, locked: &[Page], lo: u32, n: u32) -> Option<Reason>
    requires running { IsRunning m.now }
    requires run { IsRunOf (hand_run m.now.kernel.place locked.now) lo n }
    ensures { result ≡ hand_reason m.now.kernel.place locked.now }
{
    or_reason(
        unless(wants_moves(m), Reason::EnoughFree),
        write_reason(m, locked, lo, n),
    )
}

/// One move of `H`: both hands move once, and pass over these pages.
pub fn judge_hand(m: &mut Machine, locked: &[Page]) -> Result<Option<Reason>, Stop>
    requires ready { CanGoOn m.old }
    requires quarter { 0 < length m.old.kernel.place.holds / 4 }
    requires fits { last_moves m.old.kernel.journal + 1 < 2 ^ 32 }
    ensures judged { IfOk result (λ reason. reason ≡ hand_reason m.old.kernel.place locked.now) }
    ensures made { IfOk result (JudgedOver locked.now (entries.Hands 1) m.old m.new) }
    ensures stop { OnErr result (HasStopped m.old m.new) }
    ensures goes_on { OnOk result (CanGoOn m.new) }
{
    let (lo, n) = next_write(m, locked);
    match hand_reason(m, locked, lo, n) {
        Some(reason) => Ok(Some(reason)),
        None => {
            m.hand(locked, lo, n)?;
            Ok(None)
        }
    }
}
