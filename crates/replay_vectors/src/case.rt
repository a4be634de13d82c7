//! One recorded transcript and the verdict on it, or the pages that its instructions touch.
ghost use Rattle.std.specs.Prelude.{length};
ghost use Rattle.replay_check.specs.Images.{AreImageFiles, AreNumbers};

use replay_check::{Flat, Verdict, are_images, are_numbers, references, replay};
use run_text::{Transcript, read_transcript};
use std::rt::Files;
use std::{fs, io};
use vm_facts::{Entry, NoMemory, Page};

// The number of the image of this name.
fn number_of(images: &[Flat], name: &str) -> Option<u32> {
    for place in 0..images.len() {
        let image = &images[place];
        if image.name.as_str() == name {
            return u32::try_from(place).ok()?.checked_add(1);
        }
    }
    None
}

// The images of a run by number, and the numbers of those that its first processes start with.
#[derive(Drop)]
struct Images {
    known: Vec<Flat>,
    first: Vec<u32>,
}

impl Images {
    // One more word of a command line: a name, or one after a `=`, which starts no process.
    fn add<R: Files + AllocGlobal>(&mut self, rt: &R, word: &str) -> io::Result<()> {
        let (starts, file) = match word.strip_prefix('=') {
            Some(known) => (false, known),
            None => (true, word),
        };
        if number_of(self.known.as_slice(), file).is_none() {
            let bytes = fs::read(rt, file)?;
            let name = file.to_string(rt.alloc())?;
            self.known.push(Flat { name, bytes })?;
        }
        if starts && let Some(number) = number_of(self.known.as_slice(), file) {
            self.first.push(number)?;
        }
        Ok(())
    }
}

// How many pages these are, each counted once.
fn distinct<R: AllocGlobal>(rt: &R, pages: &[Page]) -> io::Result<usize> {
    let mut seen: Vec<Page> = Vec::new(rt.alloc());
    for page in pages {
        if !seen.as_slice().contains(page) {
            seen.push(*page)?;
        }
    }
    Ok(seen.len())
}

// How many references the instructions of a run make, and to how many pages.
fn touched<R: AllocGlobal>(
    rt: &R,
    images: &[Flat],
    first: &[u32],
    entries: &[Entry],
) -> io::Result<String>
    requires images { AreImageFiles images.now }
    requires first { AreNumbers (length images.now) first.now }
{
    let Ok(pages) = references(rt.alloc(), images, first, entries) else {
        return Err(io::Error::from(io::ErrorKind::OutOfMemory));
    };
    let count = pages.len();
    let seen = distinct(rt, pages.as_slice())?;
    Ok(format!(in rt.alloc(); "{count} references, pages {seen}")?)
}

// The verdict on the entries of a transcript, or what their instructions touch.
fn judged<R: AllocGlobal>(
    rt: &R,
    images: &Images,
    entries: &[Entry],
    touches: bool,
) -> io::Result<String> {
    let known = images.known.as_slice();
    let first = images.first.as_slice();
    if known.len() > 16 || entries.len() > 100_000 {
        return Ok(format!(in rt.alloc(); "too large to be replayed")?);
    }
    if !are_images(known) || !are_numbers(known.len(), first) {
        return Ok(format!(in rt.alloc(); "not to be replayed")?);
    }
    if touches {
        return touched(rt, known, first, entries);
    }
    match replay(rt.alloc(), known, first, entries) {
        Ok(Verdict::Run) => Ok(format!(in rt.alloc(); "a run of {} entries", entries.len())?),
        Ok(Verdict::BadEntry(entry)) => Ok(format!(in rt.alloc(); "no run at entry {entry}")?),
        Err(NoMemory) => Err(io::Error::from(io::ErrorKind::OutOfMemory)),
    }
}

// What is said of a transcript: the verdict, or what its instructions touch.
fn read<R: AllocGlobal>(
    rt: &R,
    images: &Images,
    transcript: &[u8],
    touches: bool,
) -> io::Result<String> {
    if transcript.len() > 1_000_000 {
        return Ok(format!(in rt.alloc(); "too large to be read")?);
    }
    match read_transcript(rt.alloc(), transcript) {
        Ok(Transcript::Is(entries)) => judged(rt, images, entries.as_slice(), touches),
        Ok(Transcript::BadLine(line)) => {
            Ok(format!(in rt.alloc(); "no transcript at line {line}")?)
        }
        Err(NoMemory) => Err(io::Error::from(io::ErrorKind::OutOfMemory)),
    }
}

/// The verdict on a transcript, or, where its head begins with `touches`, what its instructions touch. The words after
/// that of the head are its name and the images of its run.
pub fn verdict<R: Files + AllocGlobal>(rt: &R, head: &str, body: &str) -> io::Result<String> {
    let alloc = rt.alloc();
    let mut images = Images {
        known: Vec::new(alloc),
        first: Vec::new(alloc),
    };
    let mut words = head.split(' ');
    let touches = words.next().unwrap_or("") == "touches";
    let name = words.next().unwrap_or("");
    for word in words {
        images.add(rt, word)?;
    }
    let text = read(rt, &images, body.as_bytes(), touches)?;
    Ok(format!(in alloc; "{name}: {text}")?)
}
