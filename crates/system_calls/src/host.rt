//! The system itself. Each call is passed on, and nothing is told: no contract can say what a disk gives, or what an output takes.
ghost use Rattle.std.specs.Prelude.{None, false};

use crate::{FileFacts, System, SystemFile, SystemOutput};
use std::alloc::Allocator;
use std::fs::{File, Metadata, OpenFile, OpenOptions, Permissions, TryLockError};
use std::io::{ErrorKind, Read};
use std::os::unix::fs::{FileExt, MetadataExt, OpenOptionsExt, PermissionsExt};
use std::{fs, io, rt};

/// The system of a runtime.
#[derive(Drop)]
pub struct Host<'r, R>(pub &'r R);

// Who may read and write a file that is made: its owner alone.
const OWNER_ALONE: u32 = 0o600;

fn facts_of(file: &Metadata) -> FileFacts {
    FileFacts {
        is_plain: file.is_file(),
        is_link: file.is_symlink(),
        len: file.len(),
        device: file.dev(),
        number: file.ino(),
        names: file.nlink(),
        owner: file.uid(),
        modified: (file.mtime(), file.mtime_nsec()),
        changed: (file.ctime(), file.ctime_nsec()),
    }
}

impl SystemFile for File {
    ghost bytes = { λ _. None };

    fn facts(&self) -> io::Result<FileFacts> {
        Ok(facts_of(&self.metadata()?))
    }

    fn read_range(&self, offset: u64, buf: &mut [u8]) -> io::Result<()> {
        self.read_exact_at(buf, offset)
    }

    fn write_range(&mut self, offset: u64, piece: &[u8]) -> io::Result<()> {
        self.write_all_at(piece, offset)
    }

    fn empty(&mut self) -> io::Result<()> {
        self.set_len(0)
    }

    fn read_start<A: Allocator>(&mut self, alloc: A, most: u64) -> io::Result<Vec<u8, A>> {
        let mut start = Vec::new(alloc);
        self.take(most).read_to_end(&mut start)?;
        Ok(start)
    }

    fn lock_alone(&self) -> io::Result<()> {
        match self.try_lock() {
            Ok(()) => Ok(()),
            Err(TryLockError::WouldBlock) => Err(io::Error::from(ErrorKind::ResourceBusy)),
            Err(TryLockError::Error(error)) => Err(error),
        }
    }

    fn lock_shared(&self) -> io::Result<()> {
        match self.try_lock_shared() {
            Err(TryLockError::WouldBlock) => Err(io::Error::from(ErrorKind::ResourceBusy)),
            _ => Ok(()),
        }
    }

    fn keep_private(&self) -> io::Result<()> {
        self.set_permissions(Permissions::from_mode(OWNER_ALONE))
    }
}

impl<R: rt::Files<File = File>> System for Host<'_, R> {
    type File = File;

    ghost folder = { λ _. None };

    ghost tells = { λ _. false };

    fn open(&self, name: &str) -> io::Result<Option<File>> {
        match fs::open(self.0, name) {
            Ok(file) => Ok(Some(file)),
            Err(error) if error.kind() == ErrorKind::NotFound => Ok(None),
            Err(error) => Err(error),
        }
    }

    fn open_to_write(&self, name: &str) -> io::Result<File> {
        OpenOptions::new().read(true).write(true).open(self.0, name)
    }

    fn make(&self, name: &str) -> io::Result<File> {
        let mut how = OpenOptions::new();
        how.read(true)
            .write(true)
            .create_new(true)
            .mode(OWNER_ALONE)
            .open(self.0, name)
    }

    fn facts_of(&self, name: &str) -> io::Result<FileFacts> {
        Ok(facts_of(&fs::symlink_metadata(self.0, name)?))
    }

    fn user(&self) -> Option<u32> {
        // The owner of the process's folder in /proc, where there is one.
        Some(fs::metadata(self.0, "/proc/self").ok()?.uid())
    }
}

impl<R: Print> SystemOutput for Host<'_, R> {
    ghost taken = { λ _. None };

    fn write_some(&mut self, bytes: &[u8]) -> io::Result<usize> {
        self.0.write_some(bytes)
    }
}
