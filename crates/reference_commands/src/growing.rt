//! An output in memory that grows, and fails for want of memory alone.
ghost use Rattle.std.specs.Prelude.{◌≡◌, ◌≤◌, Some, []};
ghost use Rattle.std.proofs.Common.{le_refl, le_trans};
ghost use Rattle.io_edge.specs.Told.{extends_itself, extends_through};
ghost use Rattle.io_edge.specs.Written.{Extends};

use io_edge::{Moved, Sink, raised};
use std::alloc::Global;

/// Output in memory, which fails only where memory is wanting. A failing call appends nothing.
#[derive(Drop)]
pub struct GrowingText {
    bytes: Vec<u8>,
    faults: u64,
}

impl GrowingText {
    /// An empty text.
    pub fn new(alloc: Global) -> GrowingText
        ensures { ⟦<GrowingText as Sink>⟧.written result ≡ Some [] }
    {
        GrowingText {
            bytes: Vec::new(alloc),
            faults: 0,
        }
    }

    /// All bytes that were written, in order.
    pub fn into_bytes(self) -> Vec<u8>
        ensures { ⟦<GrowingText as Sink>⟧.written self ≡ Some result.items }
    {
        self.bytes
    }
}

impl Sink for GrowingText {
    ghost written = { λ s. Some s.bytes.items };

    ghost faults = { λ s. s.faults };

    ghost leads = { λ a b. Extends (Some a.bytes.items) (Some b.bytes.items) × (a.faults ≤ b.faults) };

    fn put(&mut self, bytes: &[u8]) -> Moved {
        if self.bytes.extend_from_slice(bytes).is_err() {
            self.faults = raised(self.faults);
            return Moved::Failed;
        }
        Moved::Done
    }

    ghost leads_nowhere = { λ s. (extends_itself (Some s.bytes.items), le_refl s.faults) };

    ghost leads_through = { λ a b c first then. (
      extends_through (Some a.bytes.items) (Some b.bytes.items) (Some c.bytes.items) first.0 then.0,
      le_trans first.1 then.1,
    ) };

    ghost leads_more = { λ _ _ led. led.0 };

    ghost faults_grow = { λ _ _ led. led.1 };
}
