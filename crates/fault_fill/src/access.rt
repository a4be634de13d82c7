//! What an access of a byte asks for: a page, growth of the stack, or a signal. The space's sizes alone decide it; no
//! page is looked at.
ghost use Rattle.std.specs.Prelude.{◌≡◌};
ghost use Rattle.fault_fill.specs.Access.{access_of};

use flat_state::{PAGE, STACK_TOP, Spot, locate};
use space_map::SpaceMap;
use user_vax::{SIGBUS, SIGSEGV};
use vm_facts::Page;

/// What an access asks for.
#[derive(Clone, Copy, Debug, PartialEq, Eq, Drop)]
pub enum Access {
    /// This page.
    Page(Page),
    /// The stack of this space must grow to so many pages.
    Growth { sid: u32, pages: u32 },
    /// The access is refused, and ends the process with this signal.
    Refused(u8),
}

/// What an access of a space asks for, by its address and whether it writes.
pub fn access_in(space: &SpaceMap, address: u32, write: bool) -> Access
    ensures { result ≡ access_of space.now address write }
{
    let spot = locate(
        PAGE * space.text_pages(),
        PAGE * space.data_pages(),
        PAGE * space.stack_pages(),
        address,
    );
    match spot {
        Spot::Text(_) if write => Access::Refused(SIGBUS),
        Spot::Text(at) => Access::Page(Page::Text {
            image: space.image(),
            v: at / PAGE,
        }),
        Spot::Data(at) => Access::Page(Page::Data {
            sid: space.sid(),
            v: at / PAGE,
        }),
        Spot::Stack(at) => Access::Page(Page::Stack {
            sid: space.sid(),
            v: at / PAGE,
        }),
        Spot::Below => Access::Growth {
            sid: space.sid(),
            pages: (STACK_TOP - 1 - address) / PAGE + 1,
        },
        Spot::Outside => Access::Refused(SIGSEGV),
    }
}
