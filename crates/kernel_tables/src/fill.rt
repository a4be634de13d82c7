//! Pages that are due for a fill before anything else: a new stack page, or a copy. They must be filled in the order
//! in which they became due.
ghost use Rattle.std.specs.Prelude.{◌≡◌, length};
ghost use Rattle.page_model.specs.Placement.{due_page};
ghost use Rattle.kernel_tables.specs.Calls.{due_parent};
ghost use Rattle.kernel_tables.specs.View.{due_shown};
ghost use Rattle.kernel_tables.specs.Due.{first_bytes, AreWhole};

use frame_state::{Free, Resident};
use std::collections::VecDeque;
use vm_facts::{Bytes, Page};

/// A fill that is due: a new stack page 0 with its bytes, or a child's page, which is copied from its parent's.
#[derive(Drop)]
pub enum DueFill {
    Start { page: Page, bytes: Bytes },
    Copy { child: Page, parent: Page },
}

impl DueFill {
    /// The page that is to be filled.
    pub fn page(&self) -> Page
        ensures { result ≡ due_page (due_shown self.now) }
    {
        match self {
            DueFill::Start { page, .. } => *page,
            DueFill::Copy { child, .. } => *child,
        }
    }

    /// The parent's page, where the page is to be copied from it.
    pub fn parent(&self) -> Option<Page>
        ensures { result ≡ due_parent (due_shown self.now) }
    {
        match self {
            DueFill::Start { .. } => None,
            DueFill::Copy { parent, .. } => Some(*parent),
        }
    }
}

// A free frame gets the bytes of a page.
fn with_bytes(token: Free, bytes: &Bytes) -> Resident
    requires { length bytes.now ≡ 1024 }
    ensures { result ≡ record { number = token.number; bytes = bytes.now } }
{
    let mut filled = token.zeroed();
    filled.bytes_mut().copy_from_slice(bytes.as_slice());
    filled
}

/// A free frame has the bytes that the first fill that is due brings.
#[tactic(auto, unfolding(page_model::specs::PageBytes::zeros))]
pub fn fill_frame(token: Free, fills: &VecDeque<DueFill>) -> Resident
    requires { AreWhole fills.now.items }
    ensures { result ≡ record { number = token.number; bytes = first_bytes fills.now.items } }
{
    match fills.front() {
        Some(DueFill::Start { bytes, .. }) => with_bytes(token, bytes),
        Some(DueFill::Copy { .. }) => token.zeroed(),
        None => token.zeroed(),
    }
}
