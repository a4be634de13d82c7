//! What is known of a file by its name, and where its bytes are: in place, or held where it can be read only once. Whether the file is
//! still the same is asked here.
ghost use Rattle.std.specs.Prelude.{◌≡◌, ◌+◌, ◌≤◌, ◌<◌, ◌↔◌, IfOk, IsOk, IsTrue, OnOk, length, min};
ghost use Rattle.io_edge.specs.FileHolding.{file_range};
ghost use Rattle.system_calls.specs.Bytes.{HoldsBytes};
ghost use Rattle.system_edge.specs.Named.{most_seen};
ghost use Rattle.system_edge.specs.Places.{FitsName, HoldsPlace, TakesFile, known_at};

use io_edge::Found;
use std::alloc::Global;
use std::io;
use std::io::ErrorKind;
use system_calls::{FileFacts, System, SystemFile};

// The most bytes that are seen of a file: one more than the longest transcript has. Whoever reads a file takes fewer, so what has more is
// told as too long by its reader.
#[tactic(auto, unfolding(crate::specs::Named::most_seen))]
fn most_seen() -> u64
    ensures { result ≡ most_seen }
{
    67_108_865
}

// What is known of a file by its name.
#[derive(Drop)]
pub(crate) enum Place<F: Drop> {
    // It wasn't sought so far.
    Unsought,
    // There is none of this name.
    Missing,
    // A plain file, which stays open, and what the system said of it when it was found.
    Plain(F, FileFacts),
    // Its bytes, in memory.
    Held(Vec<u8>),
}

// That a file is the same as when it was found.
fn check_unchanged(is_same: bool) -> io::Result<()>
    ensures { IsOk result ↔ IsTrue is_same }
{
    if is_same {
        Ok(())
    } else {
        Err(io::Error::new(ErrorKind::InvalidData, "was changed while it was read"))
    }
}

// Whether a file can be read where it stands. What isn't a plain file gives its bytes but once; and of some, as
// those of /proc, the system says the length 0 although they have bytes.
fn is_read_in_place(is_file: bool, len: u64) -> bool
    ensures { IsTrue result ↔ (IsTrue is_file × (0 < len)) }
{
    is_file && len > 0
}

// Fills the buffer from this offset of these bytes on.
fn copy_range(bytes: &[u8], offset: u64, buf: &mut [u8]) -> io::Result<()>
    ensures there { IsOk result ↔ (offset + length buf.old ≤ length bytes.now) }
    ensures copied { OnOk result (buf.new ≡ file_range bytes.now offset (length buf.new)) }
{
    let start = offset as usize;
    if start > bytes.len() || buf.len() > bytes.len() - start {
        return Err(io::Error::from(ErrorKind::UnexpectedEof));
    }
    let end = start + buf.len();
    buf.copy_from_slice(&bytes[start..end]);
    Ok(())
}

// Whether the system says of a file what it said when it was found, but for when it was last read.
fn is_same(found: &FileFacts, now: &FileFacts) -> bool {
    found.len == now.len && found.modified == now.modified && found.changed == now.changed
}

// Fills the buffer from this offset of a file on, which has to be as it was when it was found.
fn read_unchanged<F: SystemFile>(
    file: &F,
    found: &FileFacts,
    offset: u64,
    buf: &mut [u8],
) -> io::Result<()>
    ensures { OnOk result (HoldsBytes (F.bytes file.now) offset buf.new) }
{
    file.read_range(offset, buf)?;
    let now = file.facts()?;
    check_unchanged(is_same(found, &now))
}

// What there is of an open file. A plain file stays open, and nobody may have it alone meanwhile; anything else is read into memory, to
// its end.
fn take<F: SystemFile + Drop>(alloc: Global, file: F) -> io::Result<Place<F>>
    ensures { IfOk result (λ place. TakesFile F.SystemFile (F.bytes file) place) }
{
    if file.facts()?.is_plain {
        share(&file)?;
    }
    let found = file.facts()?;
    if is_read_in_place(found.is_plain, found.len) {
        return Ok(Place::Plain(file, found));
    }
    hold(alloc, file)
}

// The same, read into memory.
fn hold<F: SystemFile + Drop>(alloc: Global, file: F) -> io::Result<Place<F>>
    ensures { IfOk result (λ place. TakesFile F.SystemFile (F.bytes file) place) }
{
    let mut file = file;
    Ok(Place::Held(file.read_start(alloc, most_seen())?))
}

// The file of this name, if there is one.
pub(crate) fn seek<S: System>(alloc: Global, system: &S, name: &str) -> io::Result<Place<S::File>>
    ensures { IfOk result (λ place. FitsName S.File.SystemFile (S.folder system.now) name.now place) }
{
    match system.open(name)? {
        Some(file) => take(alloc, file),
        None => Ok(Place::Missing),
    }
}

// Locks a file against whoever wants it alone.
fn share<F: SystemFile>(file: &F) -> io::Result<()> {
    match file.lock_shared() {
        Err(error) if error.kind() == ErrorKind::ResourceBusy => Err(io::Error::new(
            ErrorKind::ResourceBusy,
            "in use as the swap file of a run",
        )),
        locked => locked,
    }
}

impl<F: SystemFile + Drop> Place<F> {
    // What is known of it under this number.
    pub(crate) fn known(&self, number: u32) -> Option<Found>
        ensures { result ≡ known_at number self.now }
    {
        match self {
            Place::Unsought => None,
            Place::Missing => Some(Found::Absent),
            Place::Plain(_, found) => Some(Found::Is {
                id: number,
                len: found.len.min(most_seen()),
            }),
            Place::Held(bytes) => Some(Found::Is {
                id: number,
                len: bytes.len() as u64,
            }),
        }
    }

    // Fills the buffer from this offset of its file on.
    pub(crate) fn read(&self, offset: u64, buf: &mut [u8]) -> io::Result<()>
        ensures { OnOk result (HoldsPlace F.SystemFile self.now offset buf.new) }
    {
        match self {
            Place::Unsought | Place::Missing => Err(io::Error::from(ErrorKind::NotFound)),
            Place::Plain(file, found) => read_unchanged(file, found, offset, buf),
            Place::Held(bytes) => copy_range(bytes.as_slice(), offset, buf),
        }
    }
}
