//! Why a command doesn't make what it is for, with the exit status of each fault. FORMATS lists the same statuses.
ghost use Rattle.std.specs.Prelude.{◌≡◌, IfOk, IfErr};
ghost use Rattle.command_edge.specs.declared.fault.Fault.TheVariants.{NoMemory};
ghost use Rattle.command_edge.specs.Ending.{fault_of, fault_status, fault_line, bytes_of, NeedsMemory};

use crate::Unread;
use crate::lines::{
    Line, NO_MEMORY, absent_line, not_image_line, numbered_line, short_device_line, so_far_line,
    swap_read_line, swap_write_line,
};
use std::alloc::{AllocError, Global};

/// Why a command doesn't make what it is for (this project's profile).
#[derive(Clone, Copy, Debug, Drop)]
pub enum Fault<'a> {
    /// The words are none of the rule.
    BadWords,
    /// There is no file of this name.
    Absent(&'a str),
    /// The file of this name is no image, for this reason.
    NotImage(&'a str, u8),
    /// The schedule is outside its grammar, first at this line.
    BadSchedule(u32),
    /// A file could not be read.
    FileFault,
    /// A swap device, 0 or 1, could not be read.
    SwapReadFault(u32),
    /// A swap device, 0 or 1, could not be written.
    SwapWriteFault(u32),
    /// The allocator refused.
    NoMemory,
    /// The journal has no room for one more entry.
    JournalFull,
    /// The process of this number finds no room in the swap.
    NoSpace(u32),
    /// A swap device, 0 or 1, has fewer blocks of 512 bytes than the swap of a run needs of it.
    ShortDevice {
        device: u32,
        blocks: u32,
        needed: u32,
    },
    /// The entries of a transcript are no run of the flat machine, first at this line.
    NotFlatRun(u32),
    /// The transcript is outside its grammar, first at this line.
    BadTranscript(u32),
    /// The transcript has more bytes than it may.
    TooLong,
    /// The source is outside its grammar or a limit, first at this line.
    BadSource(u32),
    /// A file of references is outside its grammar or a limit, first at this line.
    BadReferences(u32),
    /// A file of references has more bytes than it may.
    ReferencesTooLong,
    /// The entries of a trace are none that the written policy writes, first at this line.
    NotAsWritten(u32),
    /// The entries of a trace are the first ones that the written policy writes, so many, and it writes more.
    WrittenSoFar(u32),
    /// The entries of a trace are no run of the paged machine, first at this line.
    NotPaged(u32),
}

impl<'a> From<AllocError> for Fault<'a> {
    ghost from_gives = { λ _ e. e ≡ NoMemory };

    fn from(_e: AllocError) -> Fault<'a> {
        Fault::NoMemory
    }
}

impl<'a> Fault<'a> {
    /// The fault of a file of this name that wasn't read.
    pub fn of_unread(name: &'a str, unread: Unread) -> Fault<'a>
        ensures { result ≡ fault_of name.entry unread }
    {
        match unread {
            Unread::Absent => Fault::Absent(name),
            Unread::NotImage(reason) => Fault::NotImage(name, reason),
            Unread::FileFault => Fault::FileFault,
            Unread::NoMemory => Fault::NoMemory,
        }
    }

    /// The exit status.
    pub fn status(self) -> u8
        ensures { result ≡ fault_status self.entry }
    {
        match self {
            Fault::BadWords => 1,
            Fault::Absent(_) => 2,
            Fault::NotImage(..) => 3,
            Fault::BadSchedule(_) => 4,
            Fault::FileFault => 5,
            Fault::SwapReadFault(_) => 6,
            Fault::SwapWriteFault(_) => 7,
            Fault::NoMemory => 9,
            Fault::JournalFull => 10,
            Fault::NoSpace(_) => 11,
            Fault::ShortDevice { .. } => 12,
            Fault::NotFlatRun(_) => 14,
            Fault::BadTranscript(_) => 15,
            Fault::TooLong => 16,
            Fault::BadSource(_) => 17,
            Fault::BadReferences(_) => 18,
            Fault::ReferencesTooLong => 16,
            Fault::NotAsWritten(_) => 19,
            Fault::WrittenSoFar(_) => 20,
            Fault::NotPaged(_) => 14,
        }
    }

    /// The line that is written in place of what the command is for. Only one with a name or a number in
    /// it needs memory, and of these not that of a fault of swap device 0 or 1.
    pub fn line(self, alloc: Global) -> Result<Line, AllocError>
        ensures line { IfOk result (λ line. bytes_of line ≡ fault_line self.entry) }
        ensures lost { IfErr result (λ _. NeedsMemory self.entry) }
    {
        let made = match self {
            Fault::BadWords => return Ok(Line::Fixed(b"vmrun: bad words\n")),
            Fault::Absent(name) => absent_line(alloc, name),
            Fault::NotImage(name, reason) => not_image_line(alloc, name, reason),
            Fault::BadSchedule(line) => numbered_line(alloc, b"vmrun: bad schedule line ", line),
            Fault::FileFault => return Ok(Line::Fixed(b"vmrun: file fault\n")),
            Fault::SwapReadFault(device) => return swap_read_line(alloc, device),
            Fault::SwapWriteFault(device) => return swap_write_line(alloc, device),
            Fault::NoMemory => return Ok(Line::Fixed(NO_MEMORY)),
            Fault::JournalFull => return Ok(Line::Fixed(b"vmrun: journal full\n")),
            Fault::NoSpace(pid) => numbered_line(alloc, b"vmrun: no swap for process ", pid),
            Fault::ShortDevice {
                device,
                blocks,
                needed,
            } => short_device_line(alloc, device, blocks, needed),
            Fault::NotFlatRun(line) => numbered_line(alloc, b"not a flat run: line ", line),
            Fault::BadTranscript(line) => {
                numbered_line(alloc, b"vmrun: bad transcript line ", line)
            }
            Fault::TooLong => return Ok(Line::Fixed(b"vmrun: transcript too long\n")),
            Fault::BadSource(line) => numbered_line(alloc, b"vmrun: bad source line ", line),
            Fault::BadReferences(line) => {
                numbered_line(alloc, b"vmrun: bad references line ", line)
            }
            Fault::ReferencesTooLong => {
                return Ok(Line::Fixed(b"vmrun: references too long\n"));
            }
            Fault::NotAsWritten(line) => numbered_line(alloc, b"not as written: line ", line),
            Fault::WrittenSoFar(entries) => so_far_line(alloc, entries),
            Fault::NotPaged(line) => numbered_line(alloc, b"not a paged run: line ", line),
        }?;
        Ok(Line::Made(made))
    }
}
