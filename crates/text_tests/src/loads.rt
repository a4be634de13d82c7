//! The workload of a load: the bytes, the lines and the text that were written down before there was a crate that
//! makes it.
use crate::checks::{are, is};
use crate::examples::{LINES, Part, V, W};
use load_maker::{Counts, Load, counts_of, load_text, make_load};
use std::alloc::{AllocError, Global};
use std::process::Abort;
use vm_facts::{Bytes, Entry, Event};

// A file of one page of text, with these parts at their addresses, and so many zeros after it.
fn file_of_parts(alloc: Global, parts: &[Part], bss: u32) -> Result<Vec<u8>, AllocError> {
    let mut file = Vec::new(alloc);
    for word in [0x10B, 1024, 0, bss, 0, 0, 0, 0_u32] {
        file.extend_from_slice(&word.to_le_bytes())?;
    }
    for part in parts {
        file.resize(1024 + usize::from(part.at), 0)?;
        file.extend_from_slice(part.bytes)?;
    }
    file.resize(2048, 0)?;
    Ok(file)
}

// The line that a letter stands for.
fn line_of_letter(letter: u8) -> Event {
    match letter {
        b'i' => Event::Interrupt,
        b'h' => Event::Hands { count: 16 },
        b'w' => Event::Swapper,
        b'1'..=b'8' => Event::Dispatch {
            pid: u32::from(letter - b'0'),
            count: 50,
        },
        _ => Event::Audit,
    }
}

// Checks a file of a load by its parts.
fn is_of_parts(
    rt: &impl Abort,
    alloc: Global,
    file: &(String, Vec<u8>),
    name: &str,
    parts: &[Part],
    bss: u32,
) {
    let wanted = file_of_parts(alloc, parts, bss).expect(rt, "memory for a file");
    assert_eq!(rt;
        (file.0.as_str(), file.1.as_slice()),
        (name, wanted.as_slice())
    );
}

// The load of a number.
fn load(rt: &impl Abort, alloc: Global, number: u32) -> Load {
    make_load(alloc, number).expect(rt, "memory for a load")
}

#[test]
fn the_two_images_are_as_written_down(rt: HostRuntime) {
    let load = load(&rt, rt.alloc(), 7);
    let [w, v] = load.files.as_slice() else {
        panic!(&rt; "not two files");
    };
    is_of_parts(&rt, rt.alloc(), w, "w", &W, 8192);
    is_of_parts(&rt, rt.alloc(), v, "v", &V, 48_128);
}

// Checks the longword at a place.
fn holds(rt: &impl Abort, bytes: &[u8], at: u16, long: u32) {
    let at = usize::from(at);
    assert_eq!(rt; bytes.get(at..at + 4), Some(long.to_le_bytes().as_slice()));
}

// Checks how many pages the programs of a number change.
fn changes(rt: &impl Abort, alloc: Global, number: u32, pages: u16) {
    let load = load(rt, alloc, number);
    let [w, v] = load.files.as_slice() else {
        panic!(rt; "not two files");
    };
    let pages = u32::from(pages);
    holds(rt, w.1.as_slice(), 1024 + 0x1c, pages);
    holds(rt, w.1.as_slice(), 1024 + 0xa4, 1024 + 1024 * pages);
    holds(rt, v.1.as_slice(), 1024 + 0x0e, pages);
    holds(rt, v.1.as_slice(), 12, 1024 * pages);
}

#[test]
fn from_40_to_64_pages_are_changed(rt: HostRuntime) {
    changes(&rt, rt.alloc(), 0, 40);
    changes(&rt, rt.alloc(), 24, 64);
    changes(&rt, rt.alloc(), 25, 40);
    changes(&rt, rt.alloc(), 9999, 64);
}

// Checks the lines of a load by the letters that they stand for.
fn are_of_letters(rt: &impl Abort, lines: &[Event], letters: &[u8]) {
    assert_eq!(rt; lines.len(), letters.len());
    for (line, letter) in lines.iter().zip(letters) {
        assert_eq!(rt; *line, line_of_letter(*letter));
    }
}

#[test]
fn the_schedule_is_as_written_down(rt: HostRuntime) {
    let load = load(&rt, rt.alloc(), 7);
    are_of_letters(&rt, load.lines.as_slice(), LINES);
}

// A reply of a system call.
fn reply(number: u32, carry: bool) -> Entry {
    Entry::Call {
        pid: 1,
        number,
        carry,
        r0: 0,
        r1: 0,
    }
}

// A journal of each kind of entry that counts, and of some that don't.
fn journal(alloc: Global) -> Result<Vec<Entry>, AllocError> {
    let bytes = Bytes::from_vec(Vec::from_slice(alloc, b"hi\n")?);
    Ok(vec![in alloc;
        Entry::Event { line: 1 },
        Entry::Ran { pid: 1, count: 70 },
        reply(2, false),
        Entry::Refused { pid: 1 },
        reply(2, true),
        reply(66, false),
        reply(66, true),
        reply(20, false),
        Entry::Out { pid: 2, bytes },
        reply(4, false),
        Entry::Sleeps { pid: 1 },
        Entry::Ended { pid: 2, status: 0 },
        Entry::Ended { pid: 3, status: 11 },
        Entry::Hands { count: 5 },
    ]?)
}

#[test]
fn what_a_run_did_is_counted(rt: HostRuntime) {
    let journal = journal(rt.alloc()).expect(&rt, "memory for a journal");
    let expected = Counts {
        instructions: 78,
        processes: 6,
        ended: 2,
        refused: 1,
        bytes_out: 3,
    };
    is(&rt, &counts_of(4, &journal), &expected);
}

#[test]
fn what_a_run_did_is_told(rt: HostRuntime) {
    let counts = Counts {
        instructions: 34_632,
        processes: 8,
        ended: 8,
        refused: 0,
        bytes_out: 16,
    };
    let told = load_text(rt.alloc(), 7, counts).expect(&rt, "memory for a text");
    let text = b"load 7\ninstructions 34632\nprocesses 8\nended 8\nrefused 0\nbytes out 16\n";
    are(&rt, told.as_slice(), text);
}
