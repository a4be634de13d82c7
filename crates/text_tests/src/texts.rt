//! Schedules and transcripts that are read, and journals that are written: that the lines are those of the table of
//! entries.
use crate::checks::{are, is};
use io_edge::{MemSink, Moved};
use run_text::{Schedule, Transcript, read_schedule, read_transcript, write_entry, write_text};
use std::alloc::{AllocError, Global};
use std::process::Abort;
use vm_facts::{Bytes, Entry, Event, Page};

// The bytes that a process wrote.
fn out(alloc: Global, bytes: &[u8]) -> Result<Entry, AllocError> {
    Ok(Entry::Out {
        pid: 1,
        bytes: Bytes::from_vec(bytes.to_vec(alloc)?),
    })
}

// An entry of each kind, with `Ran` entries that stand beside one another without the paging entries.
fn journal(alloc: Global) -> Result<Vec<Entry>, AllocError> {
    let data = Page::Data { sid: 1, v: 2 };
    let stack = Page::Stack { sid: 3, v: 0 };
    let text = Page::Text { image: 0, v: 9 };
    let hi = out(alloc, b"hi\n\xaf")?;
    Ok(vec![in alloc;
        Entry::Event { line: 65536 },
        Entry::Turn { pid: 10 },
        Entry::Zero { page: stack },
        Entry::Ran {
            pid: 1,
            count: 4_294_967_295,
        },
        Entry::Hands { count: 7 },
        Entry::Ran { pid: 1, count: 1 },
        Entry::Ran { pid: 2, count: 5 },
        hi,
        Entry::Grew { pid: 1, pages: 3 },
        Entry::Get {
            page: text,
            lo: 8,
            n: 2,
        },
        Entry::Call {
            pid: 1,
            number: 4,
            carry: true,
            r0: 14,
            r1: 0,
        },
        Entry::Copy { page: data },
        Entry::Refused { pid: 1 },
        Entry::Reclaim { page: data },
        Entry::Sleeps { pid: 2 },
        Entry::Put { lo: data, n: 2 },
        Entry::Done,
        Entry::SwapOut { pid: 2 },
        Entry::SwapIn { pid: 2 },
        Entry::Owners {
            free: 60,
            used: 3,
            moving: 0,
            held: 28,
        },
        Entry::Ended {
            pid: 1,
            status: 256,
        },
    ]?)
}

// Checks what is written of a journal to an output with room for it.
fn is_written(
    rt: &impl Abort,
    alloc: Global,
    traced: bool,
    entries: &[Entry],
    last: &[u8],
    text: &[u8],
) {
    let mut sink = MemSink::new(alloc, 400, Vec::new(alloc)).expect(rt, "memory for an output");
    let moved = write_text(&mut sink, traced, entries, last);
    assert_eq!(rt; (moved, sink.written()), (Moved::Done, text));
}

// With the paging entries each has its line. Without them the `Ran` entries of one process that stand beside one another are
// joined.
#[test]
fn each_entry_has_its_line(rt: HostRuntime) {
    let entries = journal(rt.alloc()).expect(&rt, "memory for a journal");
    let entries = entries.as_slice();
    let traced = b"\
        e 65536\nt 10\nZ s 3 0\nr 1 4294967295\nH 7\nr 1 1\nr 2 5\no 1 68690aaf\ng 1 3\nG x 0 9 8 2\nc 1 4 1 14 0\n\
        C d 1 2\nf 1\nR d 1 2\ns 2\nP d 1 2 2\nD\nO 2\nI 2\nM 60 3 0 28\nx 1 256\nvmrun: file fault\n";
    is_written(
        &rt,
        rt.alloc(),
        true,
        entries,
        b"vmrun: file fault\n",
        traced,
    );
    let joined =
        b"e 65536\nt 10\nr 1 4294967296\nr 2 5\no 1 68690aaf\ng 1 3\nc 1 4 1 14 0\nf 1\ns 2\nx 1 256\n";
    is_written(&rt, rt.alloc(), false, entries, b"", joined);
}

// Checks that the second call of an output fails, and that no call follows it.
fn ends_at_its_second_call(rt: &impl Abort, sink: &mut MemSink, entries: &[Entry]) {
    let moved = [
        write_text(sink, true, &[], b""),
        write_entry(sink, &Entry::Done),
        write_text(sink, false, entries, b""),
    ];
    are(rt, sink.written(), b"D\n");
    let then = write_text(sink, false, entries, b"");
    is(
        rt,
        &(moved, then, sink.written().len()),
        &(
            [Moved::Done, Moved::Done, Moved::Failed],
            Moved::Done,
            2 + 2 * 2053,
        ),
    );
}

#[test]
fn a_failed_put_ends_the_writing(rt: HostRuntime) {
    let alloc = rt.alloc();
    let fail = [2].to_vec(alloc).expect(&rt, "memory for a number");
    let mut sink = MemSink::new(alloc, 10_000, fail).expect(&rt, "memory for an output");
    let first = out(alloc, &[0x5a; 1024]).expect(&rt, "memory for an entry");
    let second = out(alloc, &[0x5a; 1024]).expect(&rt, "memory for an entry");
    ends_at_its_second_call(&rt, &mut sink, &[first, second]);
}

static EVENTS: [Event; 5] = [
    Event::Dispatch {
        pid: 1,
        count: 1_000_000,
    },
    Event::Interrupt,
    Event::Hands { count: 8192 },
    Event::Swapper,
    Event::Audit,
];

#[test]
fn a_schedule_is_read(rt: HostRuntime) {
    let lines = b"d 00000001 1000000\ni\nh 8192\nw\nm\n";
    let Ok(Schedule::Is(events)) = read_schedule(rt.alloc(), lines) else {
        panic!(&rt; "not read");
    };
    are(&rt, events.as_slice(), &EVENTS);
}

// The first bad line of a schedule.
fn bad_event(rt: &impl Abort, alloc: Global, bytes: &[u8]) -> Option<u32> {
    match read_schedule(alloc, bytes).expect(rt, "memory for a schedule") {
        Schedule::Is(_) => None,
        Schedule::BadLine(line) => Some(line),
    }
}

#[test]
fn the_first_bad_line_of_a_schedule_is_told(rt: HostRuntime) {
    let alloc = rt.alloc();
    let bad = [
        bad_event(&rt, alloc, b""),
        bad_event(&rt, alloc, b"i\nd 1\n"),
        bad_event(&rt, alloc, b"i\nw"),
        bad_event(&rt, alloc, b"h 000000001\n"),
        bad_event(&rt, alloc, b"d 0 1\n"),
        bad_event(&rt, alloc, b"i\n\n"),
    ];
    is(
        &rt,
        &bad,
        &[None, Some(2), Some(2), Some(1), Some(1), Some(2)],
    );
}

// A schedule of so many interrupts.
fn interrupts(rt: &impl Abort, alloc: Global, count: usize) -> Vec<u8> {
    b"i\n".repeat(alloc, count).expect(rt, "memory for lines")
}

// Of as many lines as a schedule may have, and of one more.
#[test]
fn a_schedule_has_at_most_65536_lines(rt: HostRuntime) {
    let mut lines = interrupts(&rt, rt.alloc(), 65_536);
    let most = bad_event(&rt, rt.alloc(), lines.as_slice());
    lines.push(b'm').expect(&rt, "memory for a byte");
    let long = bad_event(&rt, rt.alloc(), lines.as_slice());
    is(&rt, &[most, long], &[None, Some(65_537)]);
}

// A transcript with a line for each entry, neighbours that could be joined among them.
const LINES: &[u8] = b"\
    e 65536\nt 1\nr 1 4294967295\nr 1 1\no 1 68690aaf\ng 1 3\nc 1 4 1 14 0\nc 0 2 0 0 1\nf 1\ns 2\nx 1 256\nZ s 3 0\n\
    G x 0 9 8 2\nC d 1 2\nR d 1 2\nH 7\nP d 1 2 2\nD\nO 2\nI 2\nM 60 3 0 28\n";

#[test]
fn a_transcript_is_read(rt: HostRuntime) {
    let Ok(Transcript::Is(entries)) = read_transcript(rt.alloc(), LINES) else {
        panic!(&rt; "not read");
    };
    is(&rt, &entries.len(), &21);
    is_written(&rt, rt.alloc(), true, entries.as_slice(), b"", LINES);
}

// The first bad line of a transcript.
fn bad_entry(rt: &impl Abort, alloc: Global, bytes: &[u8]) -> Option<u32> {
    assert!(rt; bytes.len() < 100);
    match read_transcript(alloc, bytes).expect(rt, "memory for a transcript") {
        Transcript::Is(_) => None,
        Transcript::BadLine(line) => Some(line),
    }
}

#[test]
fn the_first_bad_line_of_a_transcript_is_told(rt: HostRuntime) {
    let alloc = rt.alloc();
    let good = b"t 1\nr 1 1\no 1 6869\nc 1 4 0 2 0\nr 1 1\nx 1 0\n";
    let bad = [
        bad_entry(&rt, alloc, b""),
        bad_entry(&rt, alloc, good),
        bad_entry(&rt, alloc, b"t 1\nq\no 1 6869\n"),
        bad_entry(&rt, alloc, b"t 1\nr 1 1"),
        bad_entry(&rt, alloc, b"t 01\n"),
        bad_entry(&rt, alloc, b"t 4294967296\n"),
        bad_entry(&rt, alloc, b"o 1 6A\n"),
        bad_entry(&rt, alloc, b"o 1 \n"),
        bad_entry(&rt, alloc, b"r 1 0\n"),
        bad_entry(&rt, alloc, b"c 1 4 2 0 0\n"),
        bad_entry(&rt, alloc, b"D\nZ s 1\n"),
    ];
    let wanted = [
        None,
        None,
        Some(2),
        Some(2),
        Some(1),
        Some(1),
        Some(1),
        Some(1),
        Some(1),
        Some(1),
        Some(2),
    ];
    is(&rt, &bad, &wanted);
}
