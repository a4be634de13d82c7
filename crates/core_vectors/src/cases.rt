//! Reads the file of cases: images, which stay for later cases, and the lines of each case.
use std::alloc::{AllocError, Global};

// An image of the file: its name and its bytes.
#[derive(Drop)]
pub struct ImageFile {
    pub name: String,
    pub bytes: Vec<u8>,
}

/// A case as far as its lines were read, and the images before it.
#[derive(Drop)]
pub struct Reader {
    alloc: Global,
    pub images: Vec<ImageFile>,
    pub name: String,

    // The sizes and the words of the images.
    pub words: String,
    pub schedule: String,

    // The calls that fail.
    pub faults: String,
    pub wanted: String,

    // Whether the lines that are wanted come.
    gives: bool,
}

// The words of a line after its first word.
fn behind<'a>(line: &'a str, first: &str) -> Option<&'a str> {
    line.strip_prefix(first)?.strip_prefix(' ')
}

fn push_line(text: &mut String, line: &str) -> Result<(), AllocError> {
    text.push_str(line)?;
    text.push('\n')
}

// The bytes of an image of which only the length is known yet.
fn new_image(alloc: Global, words: &str) -> Result<Option<ImageFile>, AllocError> {
    let Some((name, len)) = words.split_once(' ') else {
        return Ok(None);
    };
    let Ok(len) = len.parse::<u16>() else {
        return Ok(None);
    };
    let bytes = vec![in alloc; 0u8; len as usize]?;
    let name = name.to_string(alloc)?;
    Ok(Some(ImageFile { name, bytes }))
}

// Sets bytes from an offset on, as many as fit.
fn set_bytes(bytes: &mut [u8], offset: usize, hex: &str) {
    let count = hex.len() / 2;
    if offset > bytes.len() || count > bytes.len() - offset {
        return;
    }
    let _set = hex::decode_to_slice(hex, &mut bytes[offset..offset + count]);
}

impl Reader {
    pub fn new(alloc: Global) -> Reader {
        Reader {
            alloc,
            images: Vec::new(alloc),
            name: String::new(alloc),
            words: String::new(alloc),
            schedule: String::new(alloc),
            faults: String::new(alloc),
            wanted: String::new(alloc),
            gives: false,
        }
    }

    /// Forgets the case, and keeps the images.
    pub fn clear(&mut self) {
        self.name.clear();
        self.words.clear();
        self.schedule.clear();
        self.faults.clear();
        self.wanted.clear();
        self.gives = false;
    }

    fn begin_image(&mut self, words: &str) -> Result<(), AllocError> {
        if let Some(image) = new_image(self.alloc, words)? {
            self.images.push(image)?;
        }
        Ok(())
    }

    fn add_bytes(&mut self, words: &str) {
        let Some((offset, hex)) = words.split_once(' ') else {
            return;
        };
        let Ok(offset) = usize::from_str_radix(offset, 16) else {
            return;
        };
        if let Some(image) = self.images.as_mut_slice().last_mut() {
            set_bytes(image.bytes.as_mut_slice(), offset, hex);
        }
    }

    fn take_head(&mut self, line: &str) -> Result<(), AllocError> {
        if let Some(words) = behind(line, "image") {
            return self.begin_image(words);
        }
        if let Some(words) = behind(line, "at") {
            self.add_bytes(words);
        } else if let Some(name) = behind(line, "case") {
            self.name.push_str(name)?;
        } else if let Some(words) = behind(line, "run") {
            self.words.push_str(words)?;
        } else if let Some(words) = behind(line, "fail") {
            push_line(&mut self.faults, words)?;
        } else if let Some(words) = behind(line, "line") {
            push_line(&mut self.schedule, words)?;
        } else if line == "gives" {
            self.gives = true;
        }
        Ok(())
    }

    /// Takes a line, and tells whether it is the last of a case.
    pub fn take(&mut self, line: &str) -> Result<bool, AllocError> {
        if line == "end" {
            return Ok(true);
        }
        if self.gives {
            push_line(&mut self.wanted, line)?;
        } else {
            self.take_head(line)?;
        }
        Ok(false)
    }
}
