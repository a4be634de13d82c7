//! The memory of one process, as an instruction meets it: the bytes of its valid pages' frames. No page may be
//! brought in here; a byte without one is missing. A write must mark its page dirty.
ghost use Rattle.std.specs.Prelude.{◌≡◌, ℕ, ◌+◌, ◌*◌, ◌<◌, ◌≤◌, ◌/◌, true, false, drop, length, map, Some, IfSome, slice_get, slice_index};
ghost use Rattle.vm_facts.specs.declared.page.Page.{Page};
ghost use Rattle.vm_facts.specs.declared.page.PageState.{PageState};
ghost use Rattle.vm_facts.specs.declared.page.PageState.TheVariants.{Valid};
ghost use Rattle.vm_facts.specs.declared.page.Page.TheVariants.{Text as TextPage, Data as DataPage, Stack as StackPage};
ghost use Rattle.page_model.specs.Placement.{space_number, state_of, image_of};
ghost use Rattle.page_model.specs.PageBytes.{IsWritable};
ghost use Rattle.page_model.specs.Ownership.{OwnsFrames};
ghost use Rattle.kernel_model.specs.Kernel.{frame_bytes, write_step, HoldsSpace};
ghost use Rattle.table_steps.specs.Calls.{life_in};
ghost use Rattle.table_steps.specs.Machine.{image_shown};
ghost use Rattle.machine_state.specs.Going.{CanGoOn};
ghost use Rattle.machine_state.specs.Ahead.{MayFrom, LendsFrom, LieAhead};
ghost use Rattle.machine_state.specs.Down.{WroteDown};
ghost use Rattle.table_steps.specs.UserMemory.{spot_in, page_in, read_page, valid_frame, may_write_by, NamesFrames, IsOwnPage, IsLaidOut, HasLengths, CanLend, IsHeld, AreWhole, WrotePage, WroteRun};

use crate::machine::Machine;
use flat_state::{PAGE, Spot, locate};
use table_steps::kernel_tables::{Named, Spaces};
use table_steps::space_map::SpaceMap;
use vm_facts::{ByteRead, MayWrite, Memory, Page};

/// A page has so many longwords.
const LONGWORDS: usize = 256;

/// Where a space stands among all, and what its addresses name: the lengths of its segments are in bytes.
#[derive(Clone, Copy, Drop)]
struct Layout {
    index: usize,
    sid: u32,
    image: u32,
    text_len: u32,
    data_len: u32,
    stack_len: u32,
}

/// The space of a process that is in, over the frames of the machine.
#[derive(Drop)]
pub struct SpaceMemory<'a> {
    machine: &'a mut Machine,
    layout: Layout,
    ghost laid_out: { IsLaidOut machine.now.kernel layout.index layout.sid layout.image layout.text_len layout.data_len layout.stack_len },
}

// The layout of the space that stands at a place.
fn layout_at(spaces: &Spaces, index: usize, sid: u32) -> Layout
    requires { index < length spaces.now }
    ensures index { result.index ≡ index }
    ensures sid { result.sid ≡ sid }
    ensures lengths { HasLengths spaces.now index result.image result.text_len result.data_len result.stack_len }
{
    let space = spaces.at(index);
    Layout {
        index,
        sid,
        image: space.image(),
        text_len: PAGE * space.text_pages(),
        data_len: PAGE * space.data_pages(),
        stack_len: PAGE * space.stack_pages(),
    }
}

// Whether a byte may be written, by the frame of its page where that is valid.
fn may_write_in(frame: Option<u32>) -> MayWrite
    ensures { (state : PageState) → frame ≡ valid_frame state → result ≡ may_write_by state }
{
    match frame {
        Some(_) => MayWrite::May,
        None => MayWrite::Miss,
    }
}

// How many bytes of a page may be written from a place on, by the frame of the page where it is valid.
fn writable_in(frame: Option<u32>, at: u32) -> u32
    requires { at < 1024 }
    ensures { (state : PageState) → frame ≡ valid_frame state → MayFrom state at result }
{
    match frame {
        Some(_) => PAGE - at,
        None => 0,
    }
}

impl Machine {
    // The entries of the space that stands at `index`, and of its text.
    fn space_at(&self, index: usize) -> &SpaceMap
        requires running { self.now.kernel.stopped ≡ false }
        requires within { index < length self.now.kernel.place.spaces }
        ensures { (sid : ℕ) → slice_get (map space_number self.now.kernel.place.spaces) index ≡ Some sid → NamesFrames self.now.kernel.place sid result.now }
    {
        self.tables.core.stands();
        let space = self.tables.spaces.at(index);
        space.fits();
        space
    }

    // A byte of the frame of a valid page.
    fn frame_byte(&self, frame: u32, at: u32) -> u8
        requires running { self.now.kernel.stopped ≡ false }
        requires held { IsHeld self.now.kernel.place frame }
        requires within { at < 1024 }
        ensures { result ≡ slice_index (frame_bytes self.now.kernel frame) at }
    {
        self.tables.core.stands();
        self.tables.core.bytes(frame)[at as usize]
    }

    // The bytes of the frame of a valid page from a place on.
    fn frame_from(&self, frame: u32, at: u32) -> &[u8]
        requires running { self.now.kernel.stopped ≡ false }
        requires held { IsHeld self.now.kernel.place frame }
        requires within { at < 1024 }
        ensures bytes { result.now ≡ drop at (frame_bytes self.now.kernel frame) }
        ensures whole { length (frame_bytes self.now.kernel frame) ≡ 1024 }
    {
        self.tables.core.stands();
        &self.tables.core.bytes(frame)[at as usize..]
    }

    // A byte of a valid page of data or stack is written. The page's space stands at `index`.
    fn write_byte(&mut self, index: usize, page: Page, frame: u32, at: u32, byte: u8)
        requires running { self.old.kernel.stopped ≡ false }
        requires own { IsOwnPage self.old.kernel.place index page }
        requires writable { IsWritable page }
        requires valid { state_of self.old.kernel.place page ≡ Valid frame }
        requires within { at < 1024 }
        ensures step { self.new ≡ record self.old { kernel = write_step self.old.kernel page frame at byte } }
        ensures owner { OwnsFrames self.old.kernel.place }
        ensures whole { AreWhole self.old.kernel }
    {
        self.tables.core.stands();
        self.tables.write_byte(index, page, frame, at, byte);
    }

    // The bytes of a valid page of data or stack from a place on are written, at least one. The page's space stands at `index`.
    // A page that was dirty keeps its entry and its frame's mark, which say so.
    #[inline(always)]
    fn write_bytes(&mut self, index: usize, page: Page, frame: u32, at: u32, bytes: &[u8])
        requires running { self.old.kernel.stopped ≡ false }
        requires own { IsOwnPage self.old.kernel.place index page }
        requires writable { IsWritable page }
        requires valid { state_of self.old.kernel.place page ≡ Valid frame }
        requires some { 0 < length bytes.now }
        requires within { at + length bytes.now ≤ 1024 }
        ensures { WroteRun self.old self.new page at bytes.now }
    {
        self.tables.core.stands();
        if self.tables.core.is_dirty(frame) {
            return self.tables.core.put_bytes(frame, at, bytes);
        }
        self.tables.write_bytes(index, page, frame, at, bytes);
    }

    // Longwords are written downwards in a valid page of data or stack, at least one, the last of them at a place. The page's space
    // stands at `index`.
    fn write_down(&mut self, index: usize, page: Page, frame: u32, at: u32, longwords: &[u32])
        requires running { self.old.kernel.stopped ≡ false }
        requires own { IsOwnPage self.old.kernel.place index page }
        requires writable { IsWritable page }
        requires valid { state_of self.old.kernel.place page ≡ Valid frame }
        requires some { 0 < length longwords.now }
        requires within { at + 4 * length longwords.now ≤ 1024 }
        ensures { WroteDown self.old self.new page at longwords.now }
    {
        let [longword, rest @ ..] = longwords else {
            unreachable!()
        };
        let place = at + 4 * rest.len() as u32;
        self.write_bytes(index, page, frame, place, &longword.to_le_bytes());
        if rest.is_empty() {
            return;
        }
        self.write_down(index, page, frame, at, rest);
    }

    // How the space of a process is laid out.
    fn layout_of(&self, pid: u32) -> Layout
        requires running { self.now.kernel.stopped ≡ false }
        requires can { CanLend self.now.kernel pid }
        ensures laid_out { IsLaidOut self.now.kernel result.index result.sid result.image result.text_len result.data_len result.stack_len }
        ensures space { life_in self.now.kernel pid ≡ HoldsSpace result.sid }
    {
        self.tables.core.stands();
        let Some(sid) = self.tables.space_of(pid) else {
            unreachable!()
        };
        let Some(index) = self.tables.spaces.index_of(sid) else {
            unreachable!()
        };
        layout_at(&self.tables.spaces, index, sid)
    }

    /// The memory of a process that is in. When the loan ends, the machine is what the writes through it left.
    pub fn memory(&mut self, pid: u32) -> SpaceMemory<'_>
        requires ready { CanGoOn self.old }
        requires can { CanLend self.old.kernel pid }
        ensures same_reference { result.machine.ghost_name ≡ self.entry.ghost_name }
        ensures now { result.machine.now ≡ self.old }
        ensures space { life_in self.old.kernel pid ≡ HoldsSpace result.layout.sid }
    {
        let layout = self.layout_of(pid);
        SpaceMemory {
            machine: self,
            layout,
        }
    }
}

impl SpaceMemory<'_> {
    /// The images of its machine, that of number 1 first.
    pub fn images(&self) -> &[Named]
        ensures { map image_shown result.now ≡ self.now.machine.now.images }
    {
        self.machine.images()
    }

    /// The page of the byte that an address names; None exactly where the address is in no segment.
    pub fn page_of(&self, address: u32) -> Option<Page>
        ensures { result ≡ page_in self.now.machine.now.kernel.place self.now.layout.sid address }
    {
        match self.spot(address) {
            Spot::Text(at) => Some(self.text_page(at)),
            Spot::Data(at) => Some(self.data_page(at)),
            Spot::Stack(at) => Some(self.stack_page(at)),
            Spot::Below | Spot::Outside => None,
        }
    }

    // What an address names.
    fn spot(&self, address: u32) -> Spot
        ensures { result ≡ spot_in self.now.machine.now.kernel.place self.now.layout.sid address }
    {
        locate(
            self.layout.text_len,
            self.layout.data_len,
            self.layout.stack_len,
            address,
        )
    }

    fn text_page(&self, at: u32) -> Page
        ensures page { result ≡ TextPage (image_of self.now.machine.now.kernel.place self.now.layout.sid) (at / 1024) }
        ensures own { IsOwnPage self.now.machine.now.kernel.place self.now.layout.index result }
    {
        Page::Text {
            image: self.layout.image,
            v: at / PAGE,
        }
    }

    fn data_page(&self, at: u32) -> Page
        ensures page { result ≡ DataPage self.now.layout.sid (at / 1024) }
        ensures own { IsOwnPage self.now.machine.now.kernel.place self.now.layout.index result }
    {
        Page::Data {
            sid: self.layout.sid,
            v: at / PAGE,
        }
    }

    fn stack_page(&self, at: u32) -> Page
        ensures page { result ≡ StackPage self.now.layout.sid (at / 1024) }
        ensures own { IsOwnPage self.now.machine.now.kernel.place self.now.layout.index result }
    {
        Page::Stack {
            sid: self.layout.sid,
            v: at / PAGE,
        }
    }

    // The space itself, by its entries.
    fn space(&self) -> &SpaceMap
        ensures { NamesFrames self.now.machine.now.kernel.place self.now.layout.sid result.now }
    {
        self.machine.space_at(self.layout.index)
    }

    // The frame of the text page that a byte of the text is in, where the page is valid.
    fn text_frame(&self, at: u32) -> Option<u32>
        ensures { result
            ≡ valid_frame (state_of self.now.machine.now.kernel.place (TextPage (image_of self.now.machine.now.kernel.place self.now.layout.sid) (at / 1024))) }
    {
        self.space().text_frame(at / PAGE)
    }

    // The frame of the data page that a byte of the data is in, where the page is valid.
    fn data_frame(&self, at: u32) -> Option<u32>
        ensures { result ≡ valid_frame (state_of self.now.machine.now.kernel.place (DataPage self.now.layout.sid (at / 1024))) }
    {
        self.space().data_frame(at / PAGE)
    }

    // The frame of the stack page that a byte of the stack is in, where the page is valid.
    fn stack_frame(&self, at: u32) -> Option<u32>
        ensures { result ≡ valid_frame (state_of self.now.machine.now.kernel.place (StackPage self.now.layout.sid (at / 1024))) }
    {
        self.space().stack_frame(at / PAGE)
    }

    // A byte of a page, by its frame where the page is valid.
    fn read_frame(&self, frame: Option<u32>, at: u32) -> ByteRead
        requires held { IfSome frame (IsHeld self.now.machine.now.kernel.place) }
        requires within { at < 1024 }
        ensures { (page : Page) → frame ≡ valid_frame (state_of self.now.machine.now.kernel.place page)
            → result ≡ read_page self.now.machine.now.kernel page at }
    {
        match frame {
            Some(frame) => ByteRead::Is(self.machine.frame_byte(frame, at)),
            None => ByteRead::Miss,
        }
    }

    // The bytes of a page from a place on, by its frame where the page is valid; none where it isn't.
    fn page_from(&self, frame: Option<u32>, at: u32) -> &[u8]
        requires held { IfSome frame (IsHeld self.now.machine.now.kernel.place) }
        requires within { at < 1024 }
        ensures { (page : Page) → frame ≡ valid_frame (state_of self.now.machine.now.kernel.place page)
            → LendsFrom self.now.machine.now.kernel page at result.now }
    {
        match frame {
            Some(frame) => self.machine.frame_from(frame, at),
            None => &[],
        }
    }

    /// The bytes of an address's page from the address on, where that is valid; none where it isn't.
    #[inline(always)]
    pub fn bytes_from(&self, address: u32) -> &[u8]
        ensures { LieAhead self.now.machine.now.kernel self.now.layout.sid address result.now }
    {
        match self.spot(address) {
            Spot::Text(at) => self.page_from(self.text_frame(at), at % PAGE),
            Spot::Data(at) => self.page_from(self.data_frame(at), at % PAGE),
            Spot::Stack(at) => self.page_from(self.stack_frame(at), at % PAGE),
            Spot::Below | Spot::Outside => &[],
        }
    }

    // A byte of a page is written, by its frame.
    fn write_page(&mut self, page: Page, frame: Option<u32>, at: u32, byte: u8)
        requires own { IsOwnPage self.old.machine.now.kernel.place self.old.layout.index page }
        requires writable { IsWritable page }
        requires frame { frame ≡ valid_frame (state_of self.old.machine.now.kernel.place page) }
        requires may { may_write_by (state_of self.old.machine.now.kernel.place page) ≡ MayWrite.May }
        requires within { at < 1024 }
        ensures same_reference { self.new.machine.ghost_name ≡ self.old.machine.ghost_name }
        ensures layout { self.new.layout ≡ self.old.layout }
        ensures wrote { WrotePage self.old.machine.now self.new.machine.now page at byte }
    {
        match frame {
            Some(frame) => self
                .machine
                .write_byte(self.layout.index, page, frame, at, byte),
            None => unreachable!(),
        }
    }

    // The bytes of a page from a place on are written, by its frame, where they end within the page; the answer is whether
    // they were.
    fn put_page(&mut self, page: Page, frame: Option<u32>, at: u32, bytes: &[u8]) -> bool
        requires own { IsOwnPage self.old.machine.now.kernel.place self.old.layout.index page }
        requires writable { IsWritable page }
        requires frame { frame ≡ valid_frame (state_of self.old.machine.now.kernel.place page) }
        requires within { at < 1024 }
        ensures same_reference { self.new.machine.ghost_name ≡ self.old.machine.ghost_name }
        ensures layout { self.new.layout ≡ self.old.layout }
        ensures done { result ≡ true → WroteRun self.old.machine.now self.new.machine.now page at bytes.now }
        ensures left { result ≡ false → self.new ≡ self.old }
    {
        let Some(frame) = frame else {
            return false;
        };
        if bytes.is_empty() || bytes.len() > (PAGE - at) as usize {
            return false;
        }
        self.machine
            .write_bytes(self.layout.index, page, frame, at, bytes);
        true
    }

    // Longwords are written downwards in a page, by its frame, the last of them at a place, where they end within the page; the
    // answer is whether they were.
    fn put_page_down(&mut self, page: Page, frame: Option<u32>, at: u32, longwords: &[u32]) -> bool
        requires own { IsOwnPage self.old.machine.now.kernel.place self.old.layout.index page }
        requires writable { IsWritable page }
        requires frame { frame ≡ valid_frame (state_of self.old.machine.now.kernel.place page) }
        requires within { at < 1024 }
        ensures same_reference { self.new.machine.ghost_name ≡ self.old.machine.ghost_name }
        ensures layout { self.new.layout ≡ self.old.layout }
        ensures done { result ≡ true → WroteDown self.old.machine.now self.new.machine.now page at longwords.now }
        ensures left { result ≡ false → self.new ≡ self.old }
    {
        let Some(frame) = frame else {
            return false;
        };
        if longwords.is_empty() || longwords.len() > ((PAGE - at) / 4) as usize {
            return false;
        }
        self.machine
            .write_down(self.layout.index, page, frame, at, longwords);
        true
    }
}

impl Memory for SpaceMemory<'_> {
    ghost use Rattle.table_steps.specs.UserMemory.{kernel_answers};
    ghost use Rattle.machine_state.specs.Lent.{WroteThrough};

    ghost answers = { λ m. kernel_answers m.machine.now.kernel m.layout.sid };

    ghost wrote = { λ m ws n. WroteThrough m.machine m.layout ws n.machine n.layout };

    fn read(&self, address: u32) -> ByteRead {
        match self.spot(address) {
            Spot::Text(at) => self.read_frame(self.text_frame(at), at % PAGE),
            Spot::Data(at) => self.read_frame(self.data_frame(at), at % PAGE),
            Spot::Stack(at) => self.read_frame(self.stack_frame(at), at % PAGE),
            Spot::Below => ByteRead::Below,
            Spot::Outside => ByteRead::Outside,
        }
    }

    fn may_write(&self, address: u32) -> MayWrite {
        match self.spot(address) {
            Spot::Text(_) => MayWrite::Text,
            Spot::Data(at) => may_write_in(self.data_frame(at)),
            Spot::Stack(at) => may_write_in(self.stack_frame(at)),
            Spot::Below => MayWrite::Below,
            Spot::Outside => MayWrite::Outside,
        }
    }

    fn write(&mut self, address: u32, byte: u8) {
        match self.spot(address) {
            Spot::Data(at) => {
                let frame = self.data_frame(at);
                self.write_page(self.data_page(at), frame, at % PAGE, byte)
            }
            Spot::Stack(at) => {
                let frame = self.stack_frame(at);
                self.write_page(self.stack_page(at), frame, at % PAGE, byte)
            }
            Spot::Text(_) | Spot::Below | Spot::Outside => unreachable!(),
        }
    }

    #[inline(always)]
    fn ahead(&self, address: u32) -> &[u8] {
        self.bytes_from(address)
    }

    fn writable_ahead(&self, address: u32) -> u32 {
        match self.spot(address) {
            Spot::Data(at) => writable_in(self.data_frame(at), at % PAGE),
            Spot::Stack(at) => writable_in(self.stack_frame(at), at % PAGE),
            Spot::Text(_) | Spot::Below | Spot::Outside => 0,
        }
    }

    fn put(&mut self, address: u32, bytes: &[u8]) -> bool {
        match self.spot(address) {
            Spot::Data(at) => {
                let frame = self.data_frame(at);
                self.put_page(self.data_page(at), frame, at % PAGE, bytes)
            }
            Spot::Stack(at) => {
                let frame = self.stack_frame(at);
                self.put_page(self.stack_page(at), frame, at % PAGE, bytes)
            }
            Spot::Text(_) | Spot::Below | Spot::Outside => false,
        }
    }

    fn put_down(&mut self, address: u32, longwords: &[u32]) -> bool {
        if longwords.len() > LONGWORDS {
            return false;
        }
        let low = address.wrapping_sub(4 * longwords.len() as u32);
        match self.spot(low) {
            Spot::Data(at) => {
                let frame = self.data_frame(at);
                self.put_page_down(self.data_page(at), frame, at % PAGE, longwords)
            }
            Spot::Stack(at) => {
                let frame = self.stack_frame(at);
                self.put_page_down(self.stack_page(at), frame, at % PAGE, longwords)
            }
            Spot::Text(_) | Spot::Below | Spot::Outside => false,
        }
    }

    ghost use Rattle.machine_state.specs.UserMemoryLaws.{through_none, through_more, through_answers};

    ghost wrote_none = { λ m. through_none m.machine m.layout };

    ghost wrote_more = { λ l m n xs ys. through_more l.machine m.machine n.machine l.layout m.layout n.layout xs ys };

    ghost wrote_answers = { λ m n ws. through_answers m.machine n.machine m.layout n.layout ws };
}
