//! What an address names: a byte of a segment, or nothing. The sizes of the segments are the caller's to give.
ghost use Rattle.std.specs.Prelude.{◌≡◌, ℕ, ◌+◌, ◌^◌, ◌<◌, ◌≤◌};
ghost use Rattle.flat_state.specs.Space.{spot_at, stack_top, stack_reach, stack_index};

/// What an address of a space names (this project's profile): a byte of a segment by its place there,
/// or none.
#[derive(Clone, Copy, Debug, PartialEq, Eq, Drop)]
pub enum Spot {
    /// A byte of the text, from address 0 on.
    Text(u32),
    /// A byte of the data, which follow the text's whole pages.
    Data(u32),
    /// A byte of the stack, whose bytes go page by page, the highest page first.
    Stack(u32),
    /// Below the stack's lowest page, near enough to grow the stack.
    Below,
    /// In no segment.
    Outside,
}

/// The address past the stack's highest byte.
pub const STACK_TOP: u32 = 0x7fff_ec00;

/// The bytes that a stack may have at most: 512 pages.
pub const STACK_REACH: u32 = 0x8_0000;

/// Bytes of a page.
pub const PAGE: u32 = 1024;

/// What an address names in a space whose segments have these lengths, in bytes.
#[tactic(auto, unfolding(crate::specs::Space::spot_at))]
pub fn locate(text_len: u32, data_len: u32, stack_len: u32, address: u32) -> Spot
    requires low { text_len + data_len < 2 ^ 24 }
    requires high { stack_len ≤ STACK_REACH }
    ensures { result ≡ spot_at text_len data_len stack_len address }
{
    if address < text_len {
        Spot::Text(address)
    } else if address < text_len + data_len {
        Spot::Data(address - text_len)
    } else if STACK_TOP - stack_len <= address && address < STACK_TOP {
        Spot::Stack((STACK_TOP - 1 - address) / PAGE * PAGE + address % PAGE)
    } else if STACK_TOP - STACK_REACH <= address && address < STACK_TOP {
        Spot::Below
    } else {
        Spot::Outside
    }
}
