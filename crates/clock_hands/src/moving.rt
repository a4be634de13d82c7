//! The hands move as a line of the schedule asks, until a quarter of the frames are free. Where a write has no room,
//! the oldest transfer ends first. A page fault may not move them so: it forces a frame.
ghost use Rattle.io_edge.specs.WithFiles.{stores};
ghost use Rattle.std.specs.Prelude.{◌≡◌, ◌<◌, ◌+◌, ◌^◌, true, [], IfOk, OnOk, IfErr};
ghost use Rattle.page_model.specs.Hands.{wants_moves};
ghost use Rattle.paging_units.specs.Going.{IsRunning};
ghost use Rattle.paging_units.specs.Done.{KeepsThrough};
ghost use Rattle.paging_units.specs.Outside.{Asks, GoesOn};
ghost use Rattle.run_model.specs.Next.{move_unit};
ghost use Rattle.paging_units.specs.Made.{ground, MakesUnit};
ghost use Rattle.paging_units.specs.LastMoves.{last_moves};
ghost use Rattle.paging_units.specs.Stops.{StopsAt, StopsWhile};
ghost use Rattle.clock_hands.specs.Moved.{Moved, moving_hands, IsMoveOf};

use crate::looking::next_write;
use io_edge::{Files, SwapDev};
use paging_units::machine_state::Machine;
use vm_facts::{MOST_IN_FLIGHT, Stop};

// Whether fewer than a quarter of the frames are free.
fn wants_moves(m: &Machine) -> bool
    requires { IsRunning m.now }
    ensures { result ≡ wants_moves m.now.kernel.place }
{
    m.free_frames() < m.core().frames() / 4
}

// One unit of moving: a move of the hands; or, where that would begin a write and 16 transfers are in flight, the end of the
// oldest transfer. Answers whether the hands moved.
fn move_once<F: Files, D: SwapDev>(
    m: &mut Machine,
    files: &mut F,
    swap: &mut D,
) -> Result<bool, Stop>
    requires asks { Asks m.old (F.holds files.old) (D.blocks swap.old) }
    requires wants { wants_moves m.old.kernel.place ≡ true }
    requires fits { last_moves m.old.kernel.journal + 1 < 2 ^ 32 }
    ensures made { OnOk result
        (MakesUnit (ground m.old (F.holds files.old) []) (move_unit m.old.kernel.place []) m.old m.new (stores F.Files D.SwapDev files.old swap.old)
        (stores F.Files D.SwapDev files.new swap.new)) }
    ensures moved { IfOk result (λ moved. IsMoveOf (move_unit m.old.kernel.place []) moved) }
    ensures keeps { OnOk result (KeepsThrough m.old m.new (F.holds files.old) (stores F.Files D.SwapDev files.old swap.old)
        (stores F.Files D.SwapDev files.new swap.new)) }
    ensures stopped { IfErr result (StopsAt (move_unit m.old.kernel.place []) m.old m.new (stores F.Files D.SwapDev files.old swap.old)
        (stores F.Files D.SwapDev files.new swap.new)) }
    ensures goes_on { GoesOn F.Files D.SwapDev result m.new files.old files.new swap.old swap.new }
{
    let (lo, n) = next_write(m, &[]);
    if n > 0 && m.in_flight() == MOST_IN_FLIGHT {
        m.done(files, swap)?;
        return Ok(false);
    }
    m.hand(&[], lo, n)?;
    Ok(true)
}

/// Moves the hands, at most `n` times, and answers the number of moves made. None is made while a quarter of the frames
/// are free, so fewer than `n` are made only where so many are free then.
pub fn move_hands<F: Files, D: SwapDev>(
    m: &mut Machine,
    files: &mut F,
    swap: &mut D,
    n: u32,
) -> Result<u32, Stop>
    requires asks { Asks m.old (F.holds files.old) (D.blocks swap.old) }
    requires fits { last_moves m.old.kernel.journal + n < 2 ^ 32 }
    ensures moved { IfOk result (λ made. Moved n m.old m.new made (F.holds files.old) (stores F.Files D.SwapDev files.old swap.old)
        (stores F.Files D.SwapDev files.new swap.new)) }
    ensures keeps { OnOk result (KeepsThrough m.old m.new (F.holds files.old) (stores F.Files D.SwapDev files.old swap.old)
        (stores F.Files D.SwapDev files.new swap.new)) }
    ensures stopped { IfErr result (StopsWhile (moving_hands n) m.old m.new (F.holds files.old) (stores F.Files D.SwapDev files.old swap.old)
        (stores F.Files D.SwapDev files.new swap.new)) }
    ensures goes_on { GoesOn F.Files D.SwapDev result m.new files.old files.new swap.old swap.new }
{
    let mut left = n;
    while left > 0 && wants_moves(m) {
        if move_once(m, files, swap)? {
            left -= 1;
        }
    }
    Ok(n - left)
}
