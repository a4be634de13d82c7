//! What tests of commands share: files in memory, and checks of the line that is told.
use io_edge::MemFiles;
use std::alloc::Global;
use std::process::Abort;

/// These files, each a name and its bytes; the calls of these numbers fail.
pub fn mem_files(rt: &impl Abort, alloc: Global, held: &[(&str, &[u8])], fail: &[u64]) -> MemFiles {
    let fail = Vec::from_slice(alloc, fail).expect(rt, "memory for numbers");
    let mut files = Vec::new(alloc);
    for (name, bytes) in held {
        let name = name.to_string(alloc).expect(rt, "memory for a name");
        let bytes = Vec::from_slice(alloc, bytes).expect(rt, "memory for bytes");
        files.push((name, bytes)).expect(rt, "memory for a file");
    }
    assert!(rt; files.len() <= 16);
    MemFiles::new(files, fail)
}

// What the line that was told says after these words; `None` where none was, where it has others, and where it doesn't end.
fn said_after<'a>(told: Option<&'a [u8]>, words: &[u8]) -> Option<&'a [u8]> {
    told?.strip_prefix(words)?.strip_suffix(b"\n".as_slice())
}

/// Checks that a line was told, which has these words and this reason.
pub fn says(rt: &impl Abort, told: Option<Vec<u8>>, words: &[u8], reason: &[u8]) {
    assert_eq!(rt;
        said_after(told.as_deref(), words),
        Some(reason),
        "{told:?}"
    );
}

/// Checks that no line was told.
pub fn says_nothing(rt: &impl Abort, told: Option<Vec<u8>>) {
    assert_eq!(rt; told.as_deref(), None);
}
