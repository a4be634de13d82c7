//! A swap device that is a file: made at the first call, and growing as it is written. What was never written reads
//! as zeros.
ghost use Rattle.std.specs.Prelude.{◌≡◌, ◌*◌, ◌+◌, ◌%◌, ◌^◌, ◌≤◌, ◌<◌, ◌↔◌, IfOk, IsOk, IsTrue, OnOk, OnErr, length, max, replicate, refl, Some, true};
ghost use Rattle.std.specs.Option.{ForSome};
ghost use Rattle.std.proofs.Common.{◌∙◌, le_refl, le_trans};
ghost use Rattle.io_edge.specs.SwapImage.{bytes_told, HoldsPage, WritesPage, SpoilsPage};
ghost use Rattle.vm_facts.specs.SwapImages.{unnoted};
ghost use Rattle.system_calls.specs.Bytes.{HoldsBytes, WritesBytes, SpoilsBytes};
ghost use Rattle.system_edge.specs.SwapFiles.{IsWithin, OverImage, PartOverImage, file_image, image_of};
ghost use Rattle.system_edge.specs.SwapWhole.{image_whole, within_more};

use crate::Refusal;
use crate::own_file::open_own;
use io_edge::{Moved, SwapDev, raised};
use std::io;
use system_calls::{System, SystemFile};

/// A swap device that is a file of the current folder of a system. The first `read` or `write` makes
/// the file, or empties it where it is there, and fails where that fails. Its owner alone may read and write
/// it. A file that is a link, or has another name, or isn't a plain one of this user is refused, and so is one
/// that another run has, or that this one reads: it is left as it is. A new device holds zeros; the file has what
/// was written, and grows with it. Where the system tells what such files hold, the device tells it too; it notes nothing.
#[derive(Drop)]
pub struct FileSwap<'r, S: System> {
    system: &'r S,
    name: &'r str,
    blocks: u32,
    file: Option<SwapFile<S::File>>,
    fault: Option<io::Error>,
    read_faults: u64,
    write_faults: u64,
    ghost room: { ForSome file (λ f. f.len ≤ 512 * blocks) },
}

// An open swap file. It has no bytes behind its length, which is where the last write ended, or was to end.
#[derive(Drop)]
struct SwapFile<F: SystemFile + Drop> {
    file: F,
    len: u64,
    ghost within: { IsWithin len (F.bytes file) },
}

// Where a block begins.
fn offset_of(block: u32) -> u64
    ensures { result ≡ 512 * block }
{
    u64::from(block) * 512
}

// Whether nothing was written from this block on, in a file of this length: then there are zeros.
fn is_past(block: u32, len: u64) -> bool
    ensures { IsTrue result ↔ (len ≤ 512 * block) }
{
    len <= offset_of(block)
}

// The length of a file of this length once so many bytes from this block on were written.
fn length_after(len: u64, block: u32, count: usize) -> u64
    requires { count < 2 ^ 48 }
    ensures { result ≡ max len (512 * block + count) }
{
    len.max(offset_of(block) + count as u64)
}

fn clear(page: &mut [u8; 1024])
    ensures { page.new ≡ replicate 1024 0 }
{
    *page = [0; 1024];
}

impl<F: SystemFile + Drop> SwapFile<F> {
    // Reads a page; what lies past the end of what was written is zeros.
    fn read_page(&self, block: u32, page: &mut [u8; 1024]) -> io::Result<()>
        ensures past { self.now.len ≤ 512 * block → IsOk result × (page.new ≡ replicate 1024 0) }
        ensures written { 512 * block < self.now.len → OnOk result (HoldsBytes (F.bytes self.now.file) (512 * block) page.new) }
    {
        if is_past(block, self.len) {
            clear(page);
            return Ok(());
        }
        self.file.read_range(offset_of(block), page)
    }

    // Writes pages. Where that fails, the file may have become longer all the same, so it counts as long as it would be.
    fn write_pages(&mut self, block: u32, bytes: &[u8]) -> io::Result<()>
        requires { length bytes.now < 2 ^ 48 }
        ensures len { self.new.len ≡ max self.old.len (512 * block + length bytes.now) }
        ensures done { OnOk result (WritesBytes (F.bytes self.old.file) (512 * block) bytes.now (F.bytes self.new.file)) }
        ensures failed { OnErr result (SpoilsBytes (F.bytes self.old.file) (512 * block) bytes.now (F.bytes self.new.file)) }
    {
        self.len = length_after(self.len, block, bytes.len());
        self.file.write_range(offset_of(block), bytes)
    }
}

impl<'r, S: System> FileSwap<'r, S> {
    /// A device of this many blocks on the file of this name, which is left alone so far.
    pub fn new(system: &'r S, name: &'r str, blocks: u32) -> FileSwap<'r, S>
        ensures blocks { ⟦<FileSwap<'r, S> as SwapDev>⟧.blocks result ≡ blocks }
        ensures zeros { S.tells system.now ≡ true
            → ⟦<FileSwap<'r, S> as SwapDev>⟧.image result ≡ Some (unnoted (replicate (512 * blocks) 0)) }
        ensures read_faults { ⟦<FileSwap<'r, S> as SwapDev>⟧.read_faults result ≡ 0 }
        ensures write_faults { ⟦<FileSwap<'r, S> as SwapDev>⟧.write_faults result ≡ 0 }
    {
        FileSwap {
            system,
            name,
            blocks,
            file: None,
            fault: None,
            read_faults: 0,
            write_faults: 0,
        }
    }

    // The name of the file.
    pub(crate) fn name(&self) -> &'r str {
        self.name
    }

    /// Why the last call that failed did.
    pub fn last_refusal(&self) -> Option<Refusal<'r>> {
        let error = self.fault?;
        Some(Refusal {
            name: self.name,
            error,
        })
    }

    // Takes the file out, and opens it first where there was no call so far.
    #[tactic(auto, using(crate::proofs::SwapRanges::opened_image, crate::proofs::SwapRanges::opened_within))]
    fn take_file(&mut self) -> io::Result<SwapFile<S::File>>
        ensures system { self.new.system ≡ self.old.system }
        ensures blocks { self.new.blocks ≡ self.old.blocks }
        ensures read_faults { self.new.read_faults ≡ self.old.read_faults }
        ensures write_faults { self.new.write_faults ≡ self.old.write_faults }
        ensures room { IfOk result (λ f. f.len ≤ 512 * self.old.blocks) }
        ensures image { IfOk result (λ f. file_image (S.tells self.old.system.now) self.old.blocks (S.File.bytes f.file)
            ≡ image_of (λ f. S.File.bytes f.file) (S.tells self.old.system.now) self.old.blocks self.old.file) }
        ensures failed { OnErr result (self.new.file ≡ self.old.file) }
    {
        match self.file.take() {
            Some(file) => Ok(file),
            None => Ok(SwapFile {
                file: open_own(self.system, self.name)?,
                len: 0,
            }),
        }
    }

    fn try_read(&mut self, block: u32, buf: &mut [u8; 1024]) -> io::Result<()>
        requires { block + 2 ≤ self.old.blocks }
        ensures blocks { self.new.blocks ≡ self.old.blocks }
        ensures read_faults { self.new.read_faults ≡ self.old.read_faults }
        ensures write_faults { self.new.write_faults ≡ self.old.write_faults }
        ensures image { image_of (λ f. S.File.bytes f.file) (S.tells self.new.system.now) self.new.blocks self.new.file
            ≡ image_of (λ f. S.File.bytes f.file) (S.tells self.old.system.now) self.old.blocks self.old.file }
        ensures done { OnOk result (HoldsPage
            (bytes_told (image_of (λ f. S.File.bytes f.file) (S.tells self.old.system.now) self.old.blocks self.old.file)) block buf.new) }
    {
        let file = self.take_file()?;
        let moved = file.read_page(block, buf);
        self.file = Some(file);
        moved
    }

    fn try_write(&mut self, block: u32, bytes: &[u8]) -> io::Result<()>
        requires few { length bytes.now < 2 ^ 48 }
        requires inside { 512 * block + length bytes.now ≤ 512 * self.old.blocks }
        ensures blocks { self.new.blocks ≡ self.old.blocks }
        ensures read_faults { self.new.read_faults ≡ self.old.read_faults }
        ensures write_faults { self.new.write_faults ≡ self.old.write_faults }
        ensures done { OnOk result (OverImage
            (image_of (λ f. S.File.bytes f.file) (S.tells self.old.system.now) self.old.blocks self.old.file) block bytes.now
            (image_of (λ f. S.File.bytes f.file) (S.tells self.new.system.now) self.new.blocks self.new.file)) }
        ensures failed { OnErr result (PartOverImage
            (image_of (λ f. S.File.bytes f.file) (S.tells self.old.system.now) self.old.blocks self.old.file) block bytes.now
            (image_of (λ f. S.File.bytes f.file) (S.tells self.new.system.now) self.new.blocks self.new.file)) }
    {
        let mut file = self.take_file()?;
        let moved = file.write_pages(block, bytes);
        self.file = Some(file);
        moved
    }
}

impl<S: System> SwapDev for FileSwap<'_, S> {
    ghost image = { λ d. image_of (λ f. S.File.bytes f.file) (S.tells d.system.now) d.blocks d.file };

    ghost blocks = { λ d. d.blocks };

    ghost read_faults = { λ d. d.read_faults };

    ghost write_faults = { λ d. d.write_faults };

    ghost leads = { λ a b. (b.blocks ≡ a.blocks) × (a.read_faults ≤ b.read_faults) × (a.write_faults ≤ b.write_faults) };

    fn blocks(&self) -> u32 {
        self.blocks
    }

    fn read(&mut self, block: u32, buf: &mut [u8; 1024]) -> Moved {
        match self.try_read(block, buf) {
            Ok(()) => Moved::Done,
            Err(error) => {
                self.fault = Some(error);
                self.read_faults = raised(self.read_faults);
                Moved::Failed
            }
        }
    }

    fn write(&mut self, block: u32, bytes: &[u8; 1024]) -> Moved {
        match self.try_write(block, bytes) {
            Ok(()) => Moved::Done,
            Err(error) => {
                self.fault = Some(error);
                self.write_faults = raised(self.write_faults);
                Moved::Failed
            }
        }
    }

    fn write_some(&mut self, block: u32, pages: &[[u8; 1024]]) -> Option<u32> {
        let _blocks = self.blocks;
        match self.try_write(block, pages.as_flattened()) {
            Ok(()) => Some(pages.len() as u32),
            Err(error) => {
                self.fault = Some(error);
                self.write_faults = raised(self.write_faults);
                None
            }
        }
    }

    ghost whole = { λ d image told. image_whole (λ f. S.File.bytes f.file) (S.tells d.system.now) d.blocks d.file image
        (λ f is. within_more f.len (512 * d.blocks) (S.File.bytes f.file) (d.room f is) f.within) told };

    ghost leads_nowhere = { λ d. (refl, le_refl d.read_faults, le_refl d.write_faults) };

    ghost leads_through = { λ _ _ _ first then. (then.0 ∙ first.0, le_trans first.1 then.1, le_trans first.2 then.2) };

    ghost blocks_stay = { λ _ _ led. led.0 };

    ghost reads_grow = { λ _ _ led. led.1 };

    ghost writes_grow = { λ _ _ led. led.2 };
}
