//! The files of a folder in memory.
ghost use Rattle.std.specs.Prelude.{◌≡◌, Some, map, true, position, bytes_eq, string_bytes};
ghost use Rattle.io_edge.specs.FileHolding.{named_file};

use crate::mem_file::copied;
use crate::{Faults, MemFile};
use std::alloc::Global;
use std::io;
use std::io::ErrorKind;
use system_calls::{FileFacts, System};

/// A folder in memory. Its files are there to be read; beside them there may be one under each name that is opened to be written.
#[derive(Drop)]
pub struct MemSystem<'m> {
    /// What is said of a file of whatever name.
    pub named: FileFacts,
    /// What is said of a file that is open.
    pub opened: FileFacts,
    /// Whether there is a file under each name that is opened to be written.
    pub is_there: bool,
    /// Whether somebody else has locked each file.
    pub is_locked: bool,
    /// The user.
    pub user: Option<u32>,
    alloc: Global,
    files: Vec<(String, Vec<u8>)>,
    faults: &'m Faults,
}

// What is said of a plain file that belongs to nobody else.
fn plain_facts() -> FileFacts {
    FileFacts {
        is_plain: true,
        is_link: false,
        len: 0,
        device: 1,
        number: 1,
        names: 1,
        owner: 1,
        modified: (0, 0),
        changed: (0, 0),
    }
}

// The first file of this name.
fn position_of(files: &[(String, Vec<u8>)], name: &str) -> Option<usize>
    ensures { result ≡ position (λ file. bytes_eq (string_bytes file.0) name.now) files.now }
{
    files.iter().position(|file| file.0.as_str() == name)
}

impl<'m> MemSystem<'m> {
    /// A folder of these files, each a name and its bytes. Of several with one name the first is found.
    pub fn new(alloc: Global, files: Vec<(String, Vec<u8>)>, faults: &'m Faults) -> MemSystem<'m>
        ensures folder { ⟦<MemSystem<'m> as System>⟧.folder result ≡ Some (map named_file files.items) }
        ensures tells { ⟦<MemSystem<'m> as System>⟧.tells result ≡ true }
    {
        MemSystem {
            named: plain_facts(),
            opened: plain_facts(),
            is_there: false,
            is_locked: false,
            user: Some(1),
            alloc,
            files,
            faults,
        }
    }
}

impl<'m> System for MemSystem<'m> {
    type File = MemFile<'m>;

    ghost folder = { λ s. Some (map named_file s.files.items) };

    ghost tells = { λ _. true };

    fn open(&self, name: &str) -> io::Result<Option<MemFile<'m>>> {
        self.faults.next()?;
        match position_of(self.files.as_slice(), name) {
            Some(at) => {
                let bytes = copied(self.alloc, self.files[at].1.as_slice())?;
                Ok(Some(MemFile::new(bytes, self.opened, self.is_locked, self.faults)))
            }
            None => Ok(None),
        }
    }

    fn open_to_write(&self, _name: &str) -> io::Result<MemFile<'m>> {
        self.faults.next()?;
        let bytes = copied(self.alloc, b"kept")?;
        Ok(MemFile::new(bytes, self.opened, self.is_locked, self.faults))
    }

    fn make(&self, _name: &str) -> io::Result<MemFile<'m>> {
        self.faults.next()?;
        if self.is_there {
            return Err(io::Error::from(ErrorKind::AlreadyExists));
        }
        Ok(MemFile::new(
            Vec::new(self.alloc),
            self.opened,
            self.is_locked,
            self.faults,
        ))
    }

    fn facts_of(&self, _name: &str) -> io::Result<FileFacts> {
        self.faults.next()?;
        Ok(self.named)
    }

    fn user(&self) -> Option<u32> {
        self.user
    }
}
