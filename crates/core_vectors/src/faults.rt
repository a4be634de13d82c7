//! Which calls of files and devices a case makes fail, by their numbers.
use std::alloc::{AllocError, Global};

/// The numbers of the calls of a device that fail, from 1.
#[derive(Drop)]
pub struct DeviceFaults {
    pub reads: Vec<u64>,
    pub writes: Vec<u64>,
}

/// The numbers of the calls that fail, of the files and of both devices.
#[derive(Drop)]
pub struct Faults {
    pub files: Vec<u64>,
    pub zero: DeviceFaults,
    pub one: DeviceFaults,
}

impl DeviceFaults {
    fn none(alloc: Global) -> DeviceFaults {
        DeviceFaults {
            reads: Vec::new(alloc),
            writes: Vec::new(alloc),
        }
    }
}

impl Faults {
    fn none(alloc: Global) -> Faults {
        Faults {
            files: Vec::new(alloc),
            zero: DeviceFaults::none(alloc),
            one: DeviceFaults::none(alloc),
        }
    }

    // A call of this kind fails.
    fn add(&mut self, kind: &str, number: u64) -> Result<(), AllocError> {
        match kind {
            "file" => self.files.push(number)?,
            "read 0" => self.zero.reads.push(number)?,
            "write 0" => self.zero.writes.push(number)?,
            "read 1" => self.one.reads.push(number)?,
            "write 1" => self.one.writes.push(number)?,
            _ => {}
        }
        Ok(())
    }
}

/// The faults of these lines, each a kind and a number.
pub fn read_faults(alloc: Global, text: &str) -> Result<Faults, AllocError> {
    let mut faults = Faults::none(alloc);
    for line in text.lines() {
        if let Some((kind, number)) = line.rsplit_once(' ')
            && let Ok(number) = number.parse::<u64>()
        {
            faults.add(kind, number)?;
        }
    }
    Ok(faults)
}
