//! Whether two devices are long enough for a swap of so many blocks. Device 0 is judged first.
ghost use Rattle.std.specs.Prelude.{◌≡◌, ◌≤◌};
ghost use Rattle.io_edge.specs.Striping.{most_blocks, zero_needs, one_needs};
ghost use Rattle.run_opening.specs.Devices.{device_fault};

use command_edge::Fault;

// The blocks of device 0 that a swap of so many blocks needs.
#[tactic(auto, unfolding(io_edge::specs::Striping::zero_needs, io_edge::specs::Striping::device_of, io_edge::specs::Striping::of_device))]
fn zero_needs(swap: u32) -> u32
    requires { swap ≤ most_blocks }
    ensures { result ≡ zero_needs swap }
{
    let units = swap / 1024;
    let rest = if units % 2 == 0 { swap % 1024 } else { 0 };
    (units - units / 2) * 1024 + rest
}

// The blocks of device 1 that it needs.
#[tactic(auto, unfolding(io_edge::specs::Striping::one_needs, io_edge::specs::Striping::device_of, io_edge::specs::Striping::of_device))]
fn one_needs(swap: u32) -> u32
    requires { swap ≤ most_blocks }
    ensures { result ≡ one_needs swap }
{
    let units = swap / 1024;
    let rest = if units % 2 == 0 { 0 } else { swap % 1024 };
    units / 2 * 1024 + rest
}

/// The fault of the first of the devices, with these numbers of blocks, that is too short for a swap of
/// so many blocks.
pub fn device_fault<'a>(swap: u32, zero_blocks: u32, one_blocks: u32) -> Option<Fault<'a>>
    requires { swap ≤ most_blocks }
    ensures { result ≡ device_fault swap zero_blocks one_blocks }
{
    let zero_needed = zero_needs(swap);
    if zero_blocks < zero_needed {
        return Some(Fault::ShortDevice {
            device: 0,
            blocks: zero_blocks,
            needed: zero_needed,
        });
    }
    let one_needed = one_needs(swap);
    if one_blocks < one_needed {
        return Some(Fault::ShortDevice {
            device: 1,
            blocks: one_blocks,
            needed: one_needed,
        });
    }
    None
}
