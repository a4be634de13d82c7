//! The traits of the system: its files by name, and one file that is open.
ghost use Rattle.std.specs.Prelude.{Bool, ℕ, List, Option, IfOk, OnOk, OnErr, length, option_map};
ghost use Rattle.io_edge.specs.FileHolding.{NamedFile};
ghost use Rattle.system_calls.specs.Bytes.{HoldsBytes, HoldsStart, HasLength, WritesBytes, SpoilsBytes, Empties, IsTold};
ghost use Rattle.system_calls.specs.Folder.{Opens};
ghost use Rattle.system_calls.specs.declared.facts.FileFacts.{FileFacts};

use crate::FileFacts;
use std::alloc::Allocator;
use std::io;

/// An open file of the system.
pub trait SystemFile {
    /// Its bytes, where they are told.
    ghost bytes: { Self → Option (List ℕ) };

    /// This was said of it since it was opened. A call that asks gives the fact, and nothing else does.
    ghost is_said: { Self → FileFacts → Type 0 } = { λ _ _. Unit {0} };

    /// It was made when it was opened.
    ghost is_new: { Self → Type 0 } = { λ _. Unit {0} };

    /// It is locked for this open of it alone.
    ghost is_alone: { Self → Type 0 } = { λ _. Unit {0} };

    /// Its owner alone was allowed to read and write it.
    ghost is_private: { Self → Type 0 } = { λ _. Unit {0} };

    /// What the system says of it.
    fn facts(&self) -> io::Result<FileFacts>
        ensures said { IfOk result (λ facts. is_said self.now facts) }
        ensures length { IfOk result (λ facts. HasLength (bytes self.now) facts) };

    /// Fills the whole buffer from this offset on. Where the file ends before that, it fails, and leaves any bytes in the buffer.
    fn read_range(&self, offset: u64, buf: &mut [u8]) -> io::Result<()>
        ensures { OnOk result (HoldsBytes (bytes self.now) offset buf.new) };

    /// Writes all of the bytes from this offset on, behind the end too, where zeros fill what lies between. Where that fails, a first
    /// part of them may have been written, and no other byte is changed.
    fn write_range(&mut self, offset: u64, piece: &[u8]) -> io::Result<()>
        ensures done { OnOk result (WritesBytes (bytes self.old) offset piece.now (bytes self.new)) }
        ensures failed { OnErr result (SpoilsBytes (bytes self.old) offset piece.now (bytes self.new)) };

    /// Takes all bytes away.
    fn empty(&mut self) -> io::Result<()>
        ensures { OnOk result (Empties (bytes self.old) (bytes self.new)) };

    /// Reads the file from its begin to its end, but no more than so many bytes.
    fn read_start<A: Allocator>(&mut self, alloc: A, most: u64) -> io::Result<Vec<u8, A>>
        ensures { IfOk result (λ start. HoldsStart (bytes self.old) most start.items) };

    /// Locks the file for this open of it alone, until it is closed. `ResourceBusy` is the error where another open of it has a lock.
    fn lock_alone(&self) -> io::Result<()>
        ensures { OnOk result (is_alone self.now) };

    /// Locks the file against every open that wants it alone, until it is closed. `ResourceBusy` is the error where one has it. A
    /// system that has no such locks leaves it unlocked, and that is no error.
    fn lock_shared(&self) -> io::Result<()>;

    /// Lets its owner alone read and write it.
    fn keep_private(&self) -> io::Result<()>
        ensures { OnOk result (is_private self.now) };
}

/// The system: the files of the current folder, by name.
pub trait System {
    type File: SystemFile + Drop;

    /// The names and bytes of the files that there are, where they are told. Then none of them changes.
    ghost folder: { Self → Option (List NamedFile) };

    /// Whether files tell what they hold that are opened to be written.
    ghost tells: { Self → Bool };

    /// This was said of what has a name. A call that asks gives the fact, and nothing else does.
    ghost is_said: { Self → List ℕ → FileFacts → Type 0 } = { λ _ _ _. Unit {0} };

    /// This user runs it, or none was told.
    ghost is_user: { Self → Option ℕ → Type 0 } = { λ _ _. Unit {0} };

    /// Opens the file of this name to be read. None is the answer where there is none.
    fn open(&self, name: &str) -> io::Result<Option<Self::File>>
        ensures { IfOk result (λ found. Opens (folder self.now) name.now (option_map Self.File.bytes found)) };

    /// Opens the file of this name to be read and written.
    fn open_to_write(&self, name: &str) -> io::Result<Self::File>
        ensures { IfOk result (λ file. IsTold (tells self.now) (Self.File.bytes file)) };

    /// Makes a file of this name to be read and written by its owner alone. `AlreadyExists` is the error where there is something
    /// of this name.
    fn make(&self, name: &str) -> io::Result<Self::File>
        ensures told { IfOk result (λ file. IsTold (tells self.now) (Self.File.bytes file)) }
        ensures new { IfOk result (λ file. Self.File.is_new file) };

    /// What the system says of what has this name. Of a link it is told of the link itself.
    fn facts_of(&self, name: &str) -> io::Result<FileFacts>
        ensures { IfOk result (λ facts. is_said self.now name.now facts) };

    /// The user who runs this, where it can be told.
    fn user(&self) -> Option<u32>
        ensures { is_user self.now result };
}
