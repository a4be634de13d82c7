//! A space as plain bytes: its segments, which page an address is of, and how it grows.
ghost use Rattle.std.specs.Prelude.{◌≡◌, ℕ, ◌+◌, ◌*◌, ◌/◌, ◌%◌, ◌-◌, ◌^◌, ◌<◌, ◌≤◌, true, false, drop, length, take, refl, IfOk, OnOk, OnErr};
ghost use Rattle.vm_facts.specs.Lists.{overwritten};
ghost use Rattle.flat_state.specs.Space.{Space, address_in, answers_of};
ghost use Rattle.flat_state.specs.Change.{resized, resized_bytes};
ghost use Rattle.flat_state.specs.Writes.{IsWithin, Wrote};
ghost use Rattle.flat_state.proofs.SpaceLaws.{wrote_more, wrote_answers};
ghost use Rattle.flat_model.specs.Calls.{pages_up_to, stack_pages_of};
ghost use Rattle.flat_model.specs.Step.{data_pages_of};
ghost use Rattle.flat_model.specs.Touched.{page_read, page_tested};
ghost use Rattle.flat_process.specs.Sizes.{IsSized};

use flat_state::{PAGE, Spot, locate};
use std::alloc::Global;
use std::marker::Model;
use vm_facts::{ByteRead, MayWrite, Memory, NoMemory, Page, overwrite};

/// A space: its number, its image's number, and the bytes of its segments. Contracts see just these.
#[derive(Drop)]
pub struct FlatSpace {
    sid: u32,
    image: u32,
    text: Vec<u8>,
    data: Vec<u8>,
    stack: Vec<u8>,
}

impl Model for FlatSpace {
    ghost use Rattle.flat_state.specs.Space.{Space};
    ghost use Rattle.flat_process.specs.Sizes.{IsSized};

    ghost Value = { Space };

    ghost view = { λ s. record { sid = s.sid; image = s.image; text_bytes = s.text.items; data_bytes = s.data.items; stack_bytes = s.stack.items } };

    ghost invariant = { λ s.
        IsSized (record { sid = s.sid; image = s.image; text_bytes = s.text.items; data_bytes = s.data.items; stack_bytes = s.stack.items }) };
}

fn copy_of(alloc: Global, bytes: &[u8]) -> Result<Vec<u8>, NoMemory>
    ensures { IfOk result (λ v. v.items ≡ bytes.now) }
{
    match Vec::from_slice(alloc, bytes) {
        Ok(copy) => Ok(copy),
        Err(_) => Err(NoMemory),
    }
}

// So many pages of these bytes, and zeros where there are no more.
fn resize(bytes: &mut Vec<u8>, pages: u32) -> Result<(), NoMemory>
    requires { pages < 2 ^ 16 }
    ensures ok { OnOk result (bytes.new.items ≡ resized_bytes pages bytes.old.items) }
    ensures len { OnOk result (length bytes.new.items ≡ 1024 * pages) }
    ensures err { OnErr result (bytes.new.items ≡ bytes.old.items) }
{
    if bytes.resize(PAGE as usize * pages as usize, 0).is_err() {
        return Err(NoMemory);
    }
    Ok(())
}

// The bytes of a page of the stack from one of them on.
fn page_from(bytes: &[u8], index: u32) -> &[u8]
    requires whole { length bytes.now % 1024 ≡ 0 }
    requires within { index < length bytes.now }
    ensures { result.now ≡ take (1024 - index % 1024) (drop index bytes.now) }
{
    let from = index as usize;
    &bytes[from..from + 1024 - from % 1024]
}

// Bytes are written over those of a segment from a place on, where they are so few; the answer is whether they were.
#[tactic(auto, using(crate::proofs::Together::overwritten_length))]
fn put_in(segment: &mut Vec<u8>, index: u32, room: u32, bytes: &[u8]) -> bool
    requires { index + room ≤ length segment.old.items }
    ensures few { result ≡ true → length bytes.now ≤ room }
    ensures done { result ≡ true → segment.new.items ≡ overwritten segment.old.items index bytes.now }
    ensures left { result ≡ false → segment.new.items ≡ segment.old.items }
    ensures long { length segment.new.items ≡ length segment.old.items }
{
    if bytes.len() > room as usize {
        return false;
    }
    overwrite(segment.as_mut_slice(), index as usize, bytes);
    true
}

impl FlatSpace {
    /// A space with these segments, of which text and data are copied.
    pub fn new(
        alloc: Global,
        sid: u32,
        image: u32,
        text: &[u8],
        data: &[u8],
        stack: Vec<u8>,
    ) -> Result<FlatSpace, NoMemory>
        requires { IsSized (record { sid = sid; image = image; text_bytes = text.now; data_bytes = data.now; stack_bytes = stack.items }) }
        ensures { IfOk result (λ s. s ≡ record { sid = sid; image = image; text_bytes = text.now; data_bytes = data.now; stack_bytes = stack.items }) }
    {
        let text = copy_of(alloc, text)?;
        let data = copy_of(alloc, data)?;
        Ok(FlatSpace {
            sid,
            image,
            text,
            data,
            stack,
        })
    }

    /// A copy with a number of its own.
    pub fn copy(&self, alloc: Global, sid: u32) -> Result<FlatSpace, NoMemory>
        ensures { IfOk result (λ s. s ≡ record self.now { sid = sid }) }
    {
        let text = copy_of(alloc, self.text.as_slice())?;
        let data = copy_of(alloc, self.data.as_slice())?;
        let stack = copy_of(alloc, self.stack.as_slice())?;
        Ok(FlatSpace {
            sid,
            image: self.image,
            text,
            data,
            stack,
        })
    }

    /// Its number.
    pub fn sid(&self) -> u32
        ensures { result ≡ self.now.sid }
    {
        self.sid
    }

    /// Gives data and stack so many pages; those that are added have zeros.
    pub fn resize(&mut self, data_pages: u32, stack_pages: u32) -> Result<(), NoMemory>
        requires of_data { data_pages ≤ 4096 }
        requires of_stack { stack_pages ≤ 512 }
        ensures { OnOk result (self.new ≡ resized self.old data_pages stack_pages) }
    {
        resize(&mut self.data, data_pages)?;
        resize(&mut self.stack, stack_pages)
    }

    /// The pages of a data segment that ends at an address.
    pub fn pages_up_to(&self, address: u32) -> u32
        ensures { result ≡ pages_up_to self.now address }
    {
        let len = address.saturating_sub(self.text.len() as u32);
        len / PAGE + u32::from(len % PAGE != 0)
    }

    /// The pages that the data have, at most 4,096.
    pub fn data_pages(&self) -> u32
        ensures value { result ≡ data_pages_of self.now }
        ensures few { result ≤ 4096 }
    {
        self.data.len() as u32 / PAGE
    }

    /// The pages that the stack has, at most 512.
    pub fn stack_pages(&self) -> u32
        ensures value { result ≡ stack_pages_of self.now }
        ensures few { result ≤ 512 }
    {
        self.stack.len() as u32 / PAGE
    }

    /// The page of a byte that is read; none where that is refused.
    pub fn page_read(&self, address: u32) -> Option<Page>
        ensures { result ≡ page_read self.now (address_in self.now address) }
    {
        match self.spot(address) {
            Spot::Text(index) => Some(Page::Text {
                image: self.image,
                v: index / PAGE,
            }),
            Spot::Data(index) => Some(Page::Data {
                sid: self.sid,
                v: index / PAGE,
            }),
            Spot::Stack(index) => Some(Page::Stack {
                sid: self.sid,
                v: index / PAGE,
            }),
            Spot::Below | Spot::Outside => None,
        }
    }

    /// The page of a byte that is to be written; none where that is refused.
    pub fn page_tested(&self, address: u32) -> Option<Page>
        ensures { result ≡ page_tested self.now (address_in self.now address) }
    {
        match self.spot(address) {
            Spot::Data(index) => Some(Page::Data {
                sid: self.sid,
                v: index / PAGE,
            }),
            Spot::Stack(index) => Some(Page::Stack {
                sid: self.sid,
                v: index / PAGE,
            }),
            Spot::Text(_) | Spot::Below | Spot::Outside => None,
        }
    }

    /// What an address names.
    pub fn spot(&self, address: u32) -> Spot
        ensures spot { result ≡ address_in self.now address }
        ensures within { IsWithin self.now result }
    {
        locate(
            self.text.len() as u32,
            self.data.len() as u32,
            self.stack.len() as u32,
            address,
        )
    }
}

impl Memory for FlatSpace {
    ghost answers = { answers_of };

    ghost wrote = { Wrote };

    fn read(&self, address: u32) -> ByteRead {
        match self.spot(address) {
            Spot::Text(index) => ByteRead::Is(self.text[index as usize]),
            Spot::Data(index) => ByteRead::Is(self.data[index as usize]),
            Spot::Stack(index) => ByteRead::Is(self.stack[index as usize]),
            Spot::Below => ByteRead::Below,
            Spot::Outside => ByteRead::Outside,
        }
    }

    fn may_write(&self, address: u32) -> MayWrite {
        match self.spot(address) {
            Spot::Text(_) => MayWrite::Text,
            Spot::Data(_) | Spot::Stack(_) => MayWrite::May,
            Spot::Below => MayWrite::Below,
            Spot::Outside => MayWrite::Outside,
        }
    }

    fn write(&mut self, address: u32, byte: u8) {
        match self.spot(address) {
            Spot::Data(index) => self.data[index as usize] = byte,
            Spot::Stack(index) => self.stack[index as usize] = byte,
            Spot::Text(_) | Spot::Below | Spot::Outside => {}
        }
    }

    fn ahead(&self, address: u32) -> &[u8] {
        match self.spot(address) {
            Spot::Text(index) => &self.text[index as usize..],
            Spot::Data(index) => &self.data[index as usize..],
            Spot::Stack(index) => page_from(self.stack.as_slice(), index),
            Spot::Below | Spot::Outside => &[],
        }
    }

    fn writable_ahead(&self, address: u32) -> u32 {
        match self.spot(address) {
            Spot::Data(index) => self.data.len() as u32 - index,
            Spot::Stack(index) => PAGE - index % PAGE,
            Spot::Text(_) | Spot::Below | Spot::Outside => 0,
        }
    }

    fn put(&mut self, address: u32, bytes: &[u8]) -> bool {
        match self.spot(address) {
            Spot::Data(index) => {
                let room = self.data.len() as u32 - index;
                put_in(&mut self.data, index, room, bytes)
            }
            Spot::Stack(index) => put_in(&mut self.stack, index, PAGE - index % PAGE, bytes),
            Spot::Text(_) | Spot::Below | Spot::Outside => false,
        }
    }

    ghost wrote_none = { λ s. refl };

    ghost wrote_more = { wrote_more };

    ghost wrote_answers = { wrote_answers };
}
