//! The files that the words name: that they are read where memory is found, and by which calls; and a run that is
//! opened.
use crate::fixtures::mem_files;
use command_edge::{Unread, load_image, read_file};
use io_edge::MemFiles;
use run_opening::{Opening, open_run};
use std::alloc::Global;
use std::process::Abort;
use vm_facts::Event;

// An image of 4 bytes of text after its header, and 3 bytes that are no part of it.
const SHARED: [u8; 39] = [
    0x08, 0x01, 0, 0, 4, 0, 0, 0, 0, 0, 0, 0, 0, 0, 0, 0, 0, 0, 0, 0, 0, 0, 0, 0, 0, 0, 0, 0, 0, 0,
    0, 0, 5, 6, 7, 8, 9, 9, 9,
];

// Two images, another file, an empty one and a schedule.
static HELD: [(&str, &[u8]); 5] = [
    ("image", &SHARED),
    ("letters", b"abc"),
    ("nothing", b""),
    ("lines", b"d 1 20\nh 3\n"),
    ("second", &SHARED),
];

// Checks what is read of a file, or why nothing is.
fn reads(
    rt: &impl Abort,
    alloc: Global,
    files: &mut MemFiles,
    name: &str,
    most: u64,
    wanted: Result<&[u8], Unread>,
) {
    match read_file(alloc, files, name, most) {
        Ok(bytes) => assert_eq!(rt; Ok(bytes.as_slice()), wanted, "{name}"),
        Err(unread) => assert_eq!(rt; Err(unread), wanted, "{name}"),
    }
}

// Checks the bytes of an image that is loaded, or why none is.
fn loads(
    rt: &impl Abort,
    alloc: Global,
    files: &mut MemFiles,
    name: &str,
    wanted: Result<&[u8], Unread>,
) {
    match load_image(alloc, files, name) {
        Ok(loaded) => assert_eq!(rt; Ok(loaded.bytes.as_slice()), wanted, "{name}"),
        Err(unread) => assert_eq!(rt; Err(unread), wanted, "{name}"),
    }
}

#[test]
fn a_file_is_read_by_one_call(rt: HostRuntime) {
    let alloc = rt.alloc();
    let mut kept = mem_files(&rt, alloc, &HELD, &[3]);
    reads(&rt, alloc, &mut kept, "letters", 2, Ok(b"ab"));
    reads(&rt, alloc, &mut kept, "letters", 2, Err(Unread::FileFault));
}

#[test]
fn no_byte_of_an_empty_file_is_read(rt: HostRuntime) {
    let alloc = rt.alloc();
    let mut kept = mem_files(&rt, alloc, &HELD, &[2]);
    reads(&rt, alloc, &mut kept, "nothing", 10, Ok(b""));
    loads(&rt, alloc, &mut kept, "nothing", Err(Unread::FileFault));
    loads(&rt, alloc, &mut kept, "nothing", Err(Unread::NotImage(1)));
}

#[test]
fn an_image_is_loaded_by_two_calls(rt: HostRuntime) {
    let alloc = rt.alloc();
    let mut kept = mem_files(&rt, alloc, &HELD, &[4, 6, 9]);
    loads(&rt, alloc, &mut kept, "image", Ok(&SHARED[..36]));
    for _ in 0..3 {
        loads(&rt, alloc, &mut kept, "image", Err(Unread::FileFault));
    }
}

// Checks an opening of two images and two lines.
fn has_two_images_and_two_lines(rt: &impl Abort, opening: &Opening<'_>) {
    let [second, image] = opening.images.as_slice() else {
        panic!(rt; "not two images");
    };
    assert_eq!(rt; (second.name, second.file), ("second", 4));
    assert_eq!(rt; (image.name, image.facts.text_len), ("image", 4));
    assert_eq!(rt; opening.first.as_slice(), [1, 1].as_slice());
    let lines = [
        Event::Dispatch { pid: 1, count: 20 },
        Event::Hands { count: 3 },
    ];
    assert_eq!(rt; opening.lines.as_slice(), lines.as_slice());
}

// Two calls for the schedule, and two for each image: the seventh would fail.
#[test]
fn a_run_is_opened_with_its_lines_and_its_images(rt: HostRuntime) {
    let alloc = rt.alloc();
    let mut kept = mem_files(&rt, alloc, &HELD, &[7]);
    let words = ["second", "=image", "second"];
    let Ok(opening) = open_run(alloc, &mut kept, "lines", &words, 1_030, 1_024, 6) else {
        panic!(&rt; "not opened");
    };
    has_two_images_and_two_lines(&rt, &opening);
}

// Checks the status of a run that isn't opened, over files whose call of this number fails.
fn is_not_opened(rt: &impl Abort, alloc: Global, schedule: &str, fail: u64, status: u8) {
    let mut kept = mem_files(rt, alloc, &HELD, &[fail]);
    let Err(fault) = open_run(alloc, &mut kept, schedule, &["image"], 256, 1_024, 1_024) else {
        panic!(rt; "opened");
    };
    assert_eq!(rt; fault.status(), status, "{schedule}");
}

// Where a file fails no clause says which one. The schedule takes one call where it is absent, and two where it isn't empty: the
// call after them would be the first for an image, and would fail.
#[test]
fn a_schedule_is_judged_before_an_image_is_looked_for(rt: HostRuntime) {
    is_not_opened(&rt, rt.alloc(), "no schedule", 2, 2);
    is_not_opened(&rt, rt.alloc(), "letters", 3, 4);
    is_not_opened(&rt, rt.alloc(), "lines", 3, 5);
}
