//! How many frames and blocks are free, in use or in transfers, for an entry that tells it. Nothing may be moved
//! here.
ghost use Rattle.std.specs.Prelude.{◌≡◌, ◌≤◌};
ghost use Rattle.machine_state.specs.Going.{CanGoOn};
ghost use Rattle.run_model.specs.Next.{blocks_held, owners_of};

use machine_state::Machine;
use swap_book::Held;
use vm_facts::Entry;

// How many blocks these pieces of an area of this size have.
fn blocks_held(holdings: &[Held], _size: u32) -> u32
    requires { blocks_held holdings.now ≤ _size }
    ensures { result ≡ blocks_held holdings.now }
{
    let mut held = 0;
    for piece in holdings {
        held += piece.length;
    }
    held
}

/// The numbers of frames that are free, in use off the free list, and in transfers, and of blocks that are held.
pub fn owners_of(m: &Machine) -> Entry
    requires ready { CanGoOn m.now }
    ensures { result ≡ owners_of m.now.kernel.place m.now.kernel.holdings }
{
    let (free, moving) = (m.free_frames(), m.moving_frames());
    let frames = m.core().frames();
    Entry::Owners {
        free,
        used: frames.saturating_sub(free).saturating_sub(moving),
        moving,
        held: blocks_held(m.holdings(), m.params().swap_blocks),
    }
}
