//! Tests of the line that is told of a bad schedule.
use crate::fixtures::{mem_files, says, says_nothing};
use line_reasons::explain_schedule;
use std::alloc::Global;
use std::process::Abort;

// A schedule's bytes, and what is told of it.
static ROWS: [(&[u8], &[u8]); 19] = [
    (b"\n", b"1: the line is empty"),
    (
        b"i\r\nw\r\n",
        b"1: a carriage return stands before the line's end",
    ),
    (b"d 1\t5\n", b"1: a tab: parts have one blank between them"),
    (b" i\n", b"1: a blank too many: parts have one between them"),
    (b"i \n", b"1: a blank too many: parts have one between them"),
    (
        b"w\nd 1  5\n",
        b"2: a blank too many: parts have one between them",
    ),
    (b"D 1 5\n", b"1: a capital letter is no event: write d"),
    (b"# a run\n", b"1: # is no event: d, i, h, w or m"),
    (b"d1 5\n", b"1: d1 is no event: d, i, h, w or m"),
    (b"\x01\n", b"1: ... is no event: d, i, h, w or m"),
    (b"d 1\n", b"1: N of d is missing: 1 to 1000000"),
    (b"i\nh\n", b"2: N of h is missing: 1 to 8192"),
    (b"d 1-3 5\n", b"1: P of d is 1-3: 1 to 8 digits"),
    (b"h 000000001\n", b"1: N of h is 000000001: 1 to 8 digits"),
    (b"d 0 5\n", b"1: P of d is 0: 1 to 99999999"),
    (b"d 1 1000001\n", b"1: N of d is 1000001: 1 to 1000000"),
    (b"h 8193", b"1: N of h is 8193: 1 to 8192"),
    (b"w 5\n", b"1: 5 is a part too many"),
    (b"m\nh 8192", b"2: the last line has no line feed"),
];

// The line that is told of a schedule `s` of these bytes, where one is.
fn told_of(rt: &impl Abort, alloc: Global, bytes: &[u8]) -> Option<Vec<u8>> {
    let mut files = mem_files(rt, alloc, &[("s", bytes)], &[]);
    explain_schedule(alloc, &mut files, "s").expect(rt, "a file that is read")
}

#[test]
fn a_bad_line_has_its_first_reason(rt: HostRuntime) {
    for (bytes, reason) in ROWS.iter() {
        let told = told_of(&rt, rt.alloc(), bytes);
        says(&rt, told, b"vmrun: s line ", reason);
    }
}

// A schedule of so many interrupts.
fn interrupts(rt: &impl Abort, alloc: Global, count: usize) -> Vec<u8> {
    b"i\n".repeat(alloc, count).expect(rt, "memory for lines")
}

#[test]
fn a_line_after_the_last_that_may_be_is_one_too_many(rt: HostRuntime) {
    let lines = interrupts(&rt, rt.alloc(), 65_537);
    let told = told_of(&rt, rt.alloc(), lines.as_slice());
    says(
        &rt,
        told,
        b"vmrun: s line ",
        b"65537: more than 65536 lines",
    );
}

#[test]
fn of_a_good_schedule_nothing_is_told(rt: HostRuntime) {
    let told = told_of(&rt, rt.alloc(), b"d 1 1000000\ni\nh 8192\nw\nm\n");
    says_nothing(&rt, told);
}
