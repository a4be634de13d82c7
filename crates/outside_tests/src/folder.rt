//! What tests of a real folder share: they make, read and remove files there.
ghost use Rattle.io_edge.specs.FileHolding.{HasRange};

use io_edge::{Files, Moved};
use std::alloc::Global;
use std::process::Abort;
use std::{fs, rt};
use system_edge::Refusal;

/// So many bytes of a file that was found, from an offset on; `None` where the read fails.
pub fn bytes_at<F: Files, const N: usize>(files: &mut F, id: u32, offset: u64) -> Option<[u8; N]>
    requires { HasRange (F.holds files.old) id offset N }
{
    let mut bytes = [0; N];
    match files.read_at(id, offset, &mut bytes) {
        Moved::Done => Some(bytes),
        Moved::Failed => None,
    }
}

/// How long a file is, where it is there.
pub fn length_of<R: rt::Files>(rt: &R, name: &str) -> Option<u64> {
    match fs::metadata(rt, name) {
        Ok(metadata) => Some(metadata.len()),
        Err(_) => None,
    }
}

/// What is told of a refusal; no byte where there is none.
pub fn told(alloc: Global, refusal: Option<Refusal<'_>>) -> String {
    let Some(refusal) = refusal else {
        return String::new(alloc);
    };
    match format!(in alloc; "{refusal}") {
        Ok(text) => text,
        Err(_) => String::new(alloc),
    }
}

/// Makes a file of this text.
pub fn make<R: Abort + rt::Files>(rt: &R, name: &str, text: &str) {
    fs::write(rt, name, text).expect(rt, "a file that is made");
}

/// Removes a file.
pub fn remove<R: Abort + rt::Files>(rt: &R, name: &str) {
    fs::remove_file(rt, name).expect(rt, "a file that is removed");
}

/// Makes a folder.
pub fn make_folder<R: Abort + rt::Files>(rt: &R, name: &str) {
    fs::create_dir(rt, name).expect(rt, "a folder that is made");
}

/// Removes an empty folder.
pub fn remove_folder<R: Abort + rt::Files>(rt: &R, name: &str) {
    fs::remove_dir(rt, name).expect(rt, "a folder that is removed");
}
