//! Files, devices and outputs in memory: that the calls that take memory succeed, and what code that knows a device
//! by its contract alone does over two of them.
ghost use Rattle.std.specs.Prelude.{◌≡◌, ◌+◌, ◌%◌, ◌≤◌, Some};
ghost use Rattle.io_edge.specs.Count.{Rose};

use crate::calls::{Answer, Call, answers, puts};
use crate::checks::{are, is};
use io_edge::{
    Files, Found, MemSink, MemSwap, Moved, Sink, SureFiles, SureSink, SureSwap, SwapDev, SwapPair,
};
use std::alloc::Global;
use std::process::Abort;

// Two files, of two bytes and of none.
fn two_files(rt: &impl Abort, alloc: Global) -> SureFiles {
    let hi = "hi".to_string(alloc).expect(rt, "memory for a name");
    let empty = "empty".to_string(alloc).expect(rt, "memory for a name");
    let bytes = [7, 8].to_vec(alloc).expect(rt, "memory for bytes");
    let mut files = Vec::with_capacity(alloc, 2).expect(rt, "memory for files");
    files.push_reserved((hi, bytes));
    files.push_reserved((empty, Vec::new(alloc)));
    SureFiles::new(files)
}

// Checks what is found and read of those files.
fn are_found_and_read(rt: &impl Abort, files: &mut SureFiles) {
    let empty = files.find("empty");
    let absent = files.find("h");
    let Found::Is { id, len } = files.find("hi") else {
        panic!(rt; "not found");
    };
    assert_eq!(rt; len, 2);
    let mut buf = [0];
    let moved = files.read_at(id, 1, &mut buf);
    is(
        rt,
        &[empty, absent],
        &[Found::Is { id: 1, len: 0 }, Found::Absent],
    );
    is(rt, &(moved, buf), &(Moved::Done, [8]));
}

#[test]
fn files_are_found_and_read(rt: HostRuntime) {
    let mut files = two_files(&rt, rt.alloc());
    are_found_and_read(&rt, &mut files);
}

static OF_A_DEVICE: [(Call, Answer); 6] = [
    (Call::Write(2, 5), Answer::Written),
    (Call::Read(4), Answer::Filled(0)),
    (Call::Read(2), Answer::Filled(5)),
    // A device in memory writes one page by a call.
    (Call::WriteThree(0, [6, 7, 8]), Answer::Pages(1)),
    (Call::Read(0), Answer::Filled(6)),
    (Call::Read(2), Answer::Filled(5)),
];

#[test]
fn a_device_holds_zeros_and_what_was_written(rt: HostRuntime) {
    let mut swap = SureSwap::new(rt.alloc(), 6).expect(&rt, "memory for a device");
    is(&rt, &swap.blocks(), &6);
    answers(&rt, &mut swap, &OF_A_DEVICE);
}

// The calls of these numbers.
fn numbers(rt: &impl Abort, alloc: Global, calls: &[u64]) -> Vec<u64> {
    Vec::from_slice(alloc, calls).expect(rt, "memory for numbers")
}

static OF_ONE_THAT_FAILS: [(Call, Answer); 4] = [
    (Call::Read(0), Answer::Failed),
    (Call::Write(2, 5), Answer::Written),
    (Call::Write(2, 6), Answer::Failed),
    (Call::Read(2), Answer::Filled(5)),
];

#[test]
fn a_device_fails_the_numbered_calls(rt: HostRuntime) {
    let alloc = rt.alloc();
    let fail_reads = numbers(&rt, alloc, &[1]);
    let fail_writes = numbers(&rt, alloc, &[2]);
    let swap = MemSwap::new(alloc, 4, fail_reads, fail_writes);
    let mut swap = swap.expect(&rt, "memory for a device");
    answers(&rt, &mut swap, &OF_ONE_THAT_FAILS);
}

static PIECES: [(&[u8], Moved); 4] = [
    (&[1, 2], Moved::Done),
    (&[3], Moved::Failed),
    (&[3, 4, 5, 6], Moved::Failed),
    (&[3, 4, 5], Moved::Done),
];

#[test]
fn an_output_takes_what_fits_and_fails_the_numbered_calls(rt: HostRuntime) {
    let fail = numbers(&rt, rt.alloc(), &[2]);
    let mut sink = MemSink::new(rt.alloc(), 5, fail).expect(&rt, "memory for an output");
    puts(&rt, &mut sink, &PIECES);
    are(&rt, sink.written(), &[1, 2, 3, 4, 5]);
    is(&rt, &SureSink::new().put(&[1]), &Moved::Done);
}

static OF_PAIR: [(Call, Answer); 4] = [
    (Call::Write(1024, 1), Answer::Written),
    (Call::Write(2048, 2), Answer::Written),
    (Call::Write(3072, 3), Answer::Written),
    (Call::Read(2048), Answer::Filled(2)),
];

static OF_ONE: [(Call, Answer); 2] = [
    (Call::Read(0), Answer::Filled(1)),
    (Call::Read(1024), Answer::Filled(3)),
];

static OF_ZERO: [(Call, Answer); 1] = [(Call::Read(1024), Answer::Filled(2))];

#[test]
fn units_of_1024_blocks_are_striped_over_two_devices(rt: HostRuntime) {
    let mut zero = SureSwap::new(rt.alloc(), 2048).expect(&rt, "memory for device 0");
    let mut one = SureSwap::new(rt.alloc(), 2048).expect(&rt, "memory for device 1");
    let mut pair = SwapPair::new(&mut zero, &mut one);
    let blocks = pair.blocks();
    answers(&rt, &mut pair, &OF_PAIR);
    is(
        &rt,
        &[blocks, zero.blocks(), one.blocks()],
        &[4096, 2048, 2048],
    );
    answers(&rt, &mut one, &OF_ONE);
    answers(&rt, &mut zero, &OF_ZERO);
}

// Copies one page of a device that is known by its contract alone. No more than one of its reads fails.
fn copy_page<D: SwapDev>(device: &mut D, from: u32, to: u32) -> Moved
    requires from { from + 2 ≤ D.blocks device.old }
    requires to { to + 2 ≤ D.blocks device.old }
    requires from_even { from % 2 ≡ 0 }
    requires to_even { to % 2 ≡ 0 }
    ensures leads { D.leads device.old device.new }
    ensures reads { D.read_faults device.new ≤ D.read_faults device.old + 1 }
{
    let mut page = [0; 1024];
    match device.read(from, &mut page) {
        Moved::Done => device.write(to, &page),
        Moved::Failed => Moved::Failed,
    }
}

// Copies a page from one device to another. What became of each is known although the code in between
// knew one device alone.
#[tactic(auto, unfolding(io_edge::specs::Striping::pair_blocks))]
fn copy_across<D: SwapDev, E: SwapDev>(zero: &mut D, one: &mut E) -> Option<u32>
    requires zero_blocks { 1024 ≤ D.blocks zero.old }
    requires one_blocks { 2 ≤ E.blocks one.old }
    ensures zero { D.leads zero.old zero.new }
    ensures one { E.leads one.old one.new }
    ensures zero_failed { result ≡ Some 0 → Rose (D.read_faults zero.old) (D.read_faults zero.new) }
    ensures one_stays { result ≡ Some 0 → E.read_faults one.new ≡ E.read_faults one.old }
    ensures one_failed { result ≡ Some 1 → Rose (E.read_faults one.old) (E.read_faults one.new) }
    ensures zero_stays { result ≡ Some 1 → D.read_faults zero.new ≡ D.read_faults zero.old }
{
    let mut pair = SwapPair::new(zero, one);
    let _ = copy_page(&mut pair, 0, 1024);
    pair.failed_read()
}

// Checks that a device has so many blocks.
fn has_blocks<D: SwapDev>(rt: &impl Abort, device: &D, blocks: u32)
    ensures { D.blocks device.now ≡ blocks }
{
    assert_eq!(rt; device.blocks(), blocks);
}

#[test]
fn a_pair_names_the_device_of_a_failed_read(rt: HostRuntime) {
    let alloc = rt.alloc();
    let fail_reads = numbers(&rt, alloc, &[2]);
    let zero = MemSwap::new(alloc, 1024, fail_reads, Vec::new(alloc));
    let mut zero = zero.expect(&rt, "memory for device 0");
    let mut one = SureSwap::new(alloc, 2).expect(&rt, "memory for device 1");
    let written = zero.write(0, &[4; 1024]);
    let none = copy_across(&mut zero, &mut one);
    has_blocks(&rt, &zero, 1024);
    has_blocks(&rt, &one, 2);
    let mut page = [0; 1024];
    let read = one.read(0, &mut page);
    let named = copy_across(&mut zero, &mut one);
    is(&rt, &[written, read], &[Moved::Done, Moved::Done]);
    is(&rt, &[none, named], &[None, Some(0)]);
    is(&rt, &page, &[4; 1024]);
}
