//! Page frames as tokens, one type for each state of a frame (this project's profile).
//!
//! A token owns a frame's number and its 1,024 bytes. It can neither be copied nor dropped, so that a
//! frame has one owner at any time: each move takes the token of one state and gives that of the next,
//! and only a free frame can be retired. No move is ever refused.
//!
//! ```text
//! make -> Free -> begin_fill -> Filling -> filled -> Resident -> begin_clean -> Cleaning
//!         Free -> reclaim or zeroed -> Resident -> release -> Free -> retire
//!         Filling -> failed -> Free        Cleaning -> cleaned -> Free, or failed -> Resident
//! ```
#![tactic(auto)]

ghost use Rattle.std.specs.Prelude.{◌≡◌, IfOk, length};
ghost use Rattle.std.specs.Borrow.{sem};
ghost use Rattle.frame_state.specs.Frame.{zero_frame};
ghost use Rattle.frame_state.specs.Lending.{LendsFillingBytes, LendsResidentBytes};

use std::alloc::Global;
use std::marker::Model;
pub use vm_facts::NoMemory;

/// A frame that nothing uses. It may still have the bytes of a page that it held.
pub struct Free {
    number: u32,
    page: Box<[u8; 1024]>,
}

impl Model for Free {
    ghost use Rattle.frame_state.specs.Frame.{Frame};

    ghost Value = { Frame };

    ghost view = { λ token. record { number = token.number; bytes = token.page.value } };
}

/// A frame that a read is filling.
pub struct Filling {
    number: u32,
    page: Box<[u8; 1024]>,
}

impl Model for Filling {
    ghost use Rattle.frame_state.specs.Frame.{Frame};

    ghost Value = { Frame };

    ghost view = { λ token. record { number = token.number; bytes = token.page.value } };
}

/// A frame that holds a page in use.
pub struct Resident {
    number: u32,
    page: Box<[u8; 1024]>,
}

impl Model for Resident {
    ghost use Rattle.frame_state.specs.Frame.{Frame};

    ghost Value = { Frame };

    ghost view = { λ token. record { number = token.number; bytes = token.page.value } };
}

/// A frame whose page is being written out.
pub struct Cleaning {
    number: u32,
    page: Box<[u8; 1024]>,
}

impl Model for Cleaning {
    ghost use Rattle.frame_state.specs.Frame.{Frame};

    ghost Value = { Frame };

    ghost view = { λ token. record { number = token.number; bytes = token.page.value } };
}

// A page has all of its 1,024 bytes, as its type says.
fn is_whole(page: &[u8; 1024])
    ensures { length page.now ≡ 1024 }
{}

impl Free {
    /// Makes a frame of zeros.
    pub fn make(alloc: Global, number: u32) -> Result<Free, NoMemory>
        ensures { IfOk result (λ free. free ≡ zero_frame number) }
    {
        let page = Box::new(alloc, [0; 1024])?;
        Ok(Free { number, page })
    }

    /// The number of the frame.
    pub fn number(&self) -> u32
        ensures value { result ≡ self.now.number }
        ensures whole { length self.now.bytes ≡ 1024 }
    {
        is_whole(&self.page);
        self.number
    }

    /// A read into the frame begins.
    pub fn begin_fill(self) -> Filling
        ensures { result ≡ self }
    {
        let Free { number, page } = self;
        Filling { number, page }
    }

    /// The page that the frame still has is used again.
    pub fn reclaim(self) -> Resident
        ensures { result ≡ self }
    {
        let Free { number, page } = self;
        Resident { number, page }
    }

    /// The frame holds a new page, all zeros.
    pub fn zeroed(self) -> Resident
        ensures { result ≡ zero_frame self.number }
    {
        let Free { number, mut page } = self;
        *page = [0; 1024];
        Resident { number, page }
    }

    /// Ends the frame, and gives its memory back.
    pub fn retire(self) {
        let Free { number: _, page: _ } = self;
    }
}

impl Filling {
    /// The number of the frame.
    pub fn number(&self) -> u32
        ensures value { result ≡ self.now.number }
        ensures whole { length self.now.bytes ≡ 1024 }
    {
        is_whole(&self.page);
        self.number
    }

    /// Lends the bytes, to be filled.
    pub fn bytes_mut(&mut self) -> &mut [u8; 1024]
        ensures* writes_back { sem 𝓛 (LendsFillingBytes self.entry result) }
        ensures value { result.now ≡ self.old.bytes }
    {
        &mut *self.page
    }

    /// The read is done.
    pub fn filled(self) -> Resident
        ensures same { result ≡ self }
        ensures whole { length self.bytes ≡ 1024 }
    {
        let Filling { number, page } = self;
        is_whole(&page);
        Resident { number, page }
    }

    /// The read failed; the bytes may be those of no page.
    pub fn failed(self) -> Free
        ensures { result ≡ self }
    {
        let Filling { number, page } = self;
        Free { number, page }
    }
}

impl Resident {
    /// The number of the frame.
    pub fn number(&self) -> u32
        ensures value { result ≡ self.now.number }
        ensures whole { length self.now.bytes ≡ 1024 }
    {
        is_whole(&self.page);
        self.number
    }

    /// Lends the bytes of the page.
    pub fn bytes(&self) -> &[u8; 1024]
        ensures value { result.now ≡ self.now.bytes }
        ensures whole { length result.now ≡ 1024 }
    {
        is_whole(&self.page);
        &self.page
    }

    /// Lends the bytes, to be changed.
    pub fn bytes_mut(&mut self) -> &mut [u8; 1024]
        ensures* writes_back { sem 𝓛 (LendsResidentBytes self.entry result) }
        ensures value { result.now ≡ self.old.bytes }
    {
        &mut *self.page
    }

    /// A write of the page begins.
    pub fn begin_clean(self) -> Cleaning
        ensures { result ≡ self }
    {
        let Resident { number, page } = self;
        Cleaning { number, page }
    }

    /// The page is no longer in use.
    pub fn release(self) -> Free
        ensures { result ≡ self }
    {
        let Resident { number, page } = self;
        Free { number, page }
    }
}

impl Cleaning {
    /// The number of the frame.
    pub fn number(&self) -> u32
        ensures value { result ≡ self.now.number }
        ensures whole { length self.now.bytes ≡ 1024 }
    {
        is_whole(&self.page);
        self.number
    }

    /// Lends the bytes of the page.
    pub fn bytes(&self) -> &[u8; 1024]
        ensures value { result.now ≡ self.now.bytes }
        ensures whole { length result.now ≡ 1024 }
    {
        is_whole(&self.page);
        &self.page
    }

    /// The write is done.
    pub fn cleaned(self) -> Free
        ensures { result ≡ self }
    {
        let Cleaning { number, page } = self;
        Free { number, page }
    }

    /// The write failed; the page stays in its frame.
    pub fn failed(self) -> Resident
        ensures { result ≡ self }
    {
        let Cleaning { number, page } = self;
        Resident { number, page }
    }
}
