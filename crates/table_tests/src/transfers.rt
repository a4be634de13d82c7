//! Transfers in flight: that the calls that take memory succeed, what a caller does with the transfers, and that a
//! device is called once for each page, in rising order, up to the first call that fails.
ghost use Rattle.std.specs.Prelude.{◌≡◌, ℕ, ◌<◌, ◌∷◌, ◌++◌, [], length, drop};
ghost use Rattle.transfer_ring.specs.Sound.{AreReachable, IsBlock, IsReachable, IsRead, IsSource, IsSourceThere, IsWrite};

use crate::checks::is;
use frame_state::Free;
use io_edge::{Files, Found, MemFiles, MemSwap, SwapDev};
use std::alloc::Global;
use std::process::Abort;
use transfer_ring::{Begun, Finished, Inbound, Outbound, Source, Transfer, TransferRing};
use vm_facts::Page;

// A read of one page of space 1 from this source.
fn read_from(rt: &impl Abort, alloc: Global, v: u32, source: Source) -> Transfer
    requires { IsSource source }
    ensures read { IsRead result }
    ensures reachable { (holds : _) (blocks : ℕ) → IsSourceThere holds blocks source → IsReachable holds blocks result }
{
    let page = Page::Data { sid: 1, v };
    let token = Free::make(alloc, 7)
        .expect(rt, "memory for a frame")
        .begin_fill();
    let mut parts = Vec::with_capacity(alloc, 1).expect(rt, "memory for a part");
    parts.push_reserved(Inbound {
        page,
        token,
        source,
    });
    Transfer::Read {
        demanded: page,
        parts,
    }
}

// A read of one page of space 1 from swap.
fn read_of(rt: &impl Abort, alloc: Global, v: u32, block: u32) -> Transfer
    requires { IsBlock 8 block }
    ensures read { IsRead result }
    ensures reachable { (holds : _) → IsReachable holds 8 result }
{
    read_from(rt, alloc, v, Source::Swap(block))
}

// A write of one text page of image 2 that begins with this byte.
fn write_of(rt: &impl Abort, alloc: Global, byte: u8, block: u32) -> Transfer
    requires { IsBlock 8 block }
    ensures write { IsWrite result }
    ensures reachable { (holds : _) → IsReachable holds 8 result }
{
    let mut token = Free::make(alloc, 8)
        .expect(rt, "memory for a frame")
        .zeroed();
    token.bytes_mut()[0] = byte;
    let mut parts = Vec::with_capacity(alloc, 1).expect(rt, "memory for a part");
    parts.push_reserved(Outbound {
        page: Page::Text { image: 2, v: 0 },
        token: token.begin_clean(),
        block,
    });
    Transfer::Write { parts }
}

// A page of space 1 to be read from swap.
fn inbound(rt: &impl Abort, alloc: Global, v: u32, block: u32) -> Inbound
    ensures page { result.page ≡ Page.Data 1 v }
    ensures source { result.source ≡ Source.Swap block }
{
    Inbound {
        page: Page::Data { sid: 1, v },
        token: Free::make(alloc, 7)
            .expect(rt, "memory for a frame")
            .begin_fill(),
        source: Source::Swap(block),
    }
}

// A page of space 1 to be written, which begins with this byte.
fn outbound(rt: &impl Abort, alloc: Global, v: u32, byte: u8, block: u32) -> Outbound
    ensures page { result.page ≡ Page.Data 1 v }
    ensures block { result.block ≡ block }
{
    let mut token = Free::make(alloc, 8)
        .expect(rt, "memory for a frame")
        .zeroed();
    token.bytes_mut()[0] = byte;
    Outbound {
        page: Page::Data { sid: 1, v },
        token: token.begin_clean(),
        block,
    }
}

// A read of pages 0, 1 and 2 of space 1 from blocks 0, 2 and 4.
fn read_of_three(rt: &impl Abort, alloc: Global) -> Transfer
    ensures read { IsRead result }
    ensures reachable { (holds : _) → IsReachable holds 8 result }
{
    let mut parts = Vec::with_capacity(alloc, 3).expect(rt, "memory for parts");
    parts.push_reserved(inbound(rt, alloc, 0, 0));
    parts.push_reserved(inbound(rt, alloc, 1, 2));
    parts.push_reserved(inbound(rt, alloc, 2, 4));
    Transfer::Read {
        demanded: Page::Data { sid: 1, v: 1 },
        parts,
    }
}

// A write of pages 0, 1 and 2 of space 1, which begin with 1, 2 and 3, to blocks 0, 2 and 4.
fn write_of_three(rt: &impl Abort, alloc: Global) -> Transfer
    ensures write { IsWrite result }
    ensures reachable { (holds : _) → IsReachable holds 8 result }
{
    let mut parts = Vec::with_capacity(alloc, 3).expect(rt, "memory for parts");
    parts.push_reserved(outbound(rt, alloc, 0, 1, 0));
    parts.push_reserved(outbound(rt, alloc, 1, 2, 2));
    parts.push_reserved(outbound(rt, alloc, 2, 3, 4));
    Transfer::Write { parts }
}

// The first byte of each of the first three pages of a transfer, and the last byte of the first; its tokens end.
fn end(transfer: Transfer) -> [u8; 4] {
    let mut bytes = [0; 4];
    match transfer {
        Transfer::Read {
            demanded: _,
            mut parts,
        } => {
            while let Some(
                Inbound {
                    page: _,
                    token,
                    source: _,
                },
            ) = parts.pop()
            {
                let token = token.filled();
                bytes[3] = token.bytes()[1023];
                if parts.len() < 3 {
                    bytes[parts.len()] = token.bytes()[0];
                }
                token.release().retire();
            }
            parts.destroy_empty();
        }
        Transfer::Write { mut parts } => {
            while let Some(
                Outbound {
                    page: _,
                    token,
                    block: _,
                },
            ) = parts.pop()
            {
                bytes[3] = token.bytes()[1023];
                if parts.len() < 3 {
                    bytes[parts.len()] = token.bytes()[0];
                }
                token.cleaned().retire();
            }
            parts.destroy_empty();
        }
    }
    bytes
}

// How a transfer ended, and its bytes.
fn ended(finished: Finished) -> (&'static str, [u8; 4]) {
    match finished {
        Finished::Done(transfer) => ("done", end(transfer)),
        Finished::FileFault(transfer) => ("file fault", end(transfer)),
        Finished::SwapReadFault(transfer) => ("read fault", end(transfer)),
        Finished::SwapWriteFault(transfer) => ("write fault", end(transfer)),
        Finished::Idle => ("idle", [0; 4]),
    }
}

// A device of 8 blocks whose calls of these numbers fail.
fn device(rt: &impl Abort, alloc: Global, fail_reads: Vec<u64>, fail_writes: Vec<u64>) -> MemSwap
    ensures { ⟦<MemSwap as SwapDev>⟧.blocks result ≡ 8 }
{
    MemSwap::new(alloc, 8, fail_reads, fail_writes).expect(rt, "memory for a device")
}

// Begins a read in a ring that has room.
fn begin_read(ring: &mut TransferRing, t: Transfer)
    requires room { length ring.old < 16 }
    requires read { IsRead t }
    requires were { (holds : _) → AreReachable holds 8 ring.old }
    requires is { (holds : _) → IsReachable holds 8 t }
    ensures behind { ring.new ≡ ring.old ++ t ∷ [] }
    ensures are { (holds : _) → AreReachable holds 8 ring.new }
{
    match ring.begin_read(t) {
        Begun::Ok => {}
        _other => unreachable!(),
    }
}

// Begins a write in a ring that has room.
fn begin_write(ring: &mut TransferRing, t: Transfer)
    requires room { length ring.old < 16 }
    requires write { IsWrite t }
    requires were { (holds : _) → AreReachable holds 8 ring.old }
    requires is { (holds : _) → IsReachable holds 8 t }
    ensures behind { ring.new ≡ ring.old ++ t ∷ [] }
    ensures are { (holds : _) → AreReachable holds 8 ring.new }
{
    match ring.begin_write(t) {
        Begun::Ok => {}
        _other => unreachable!(),
    }
}

// Completes the oldest transfer, with no files.
fn complete(alloc: Global, ring: &mut TransferRing, swap: &mut MemSwap) -> Finished
    requires eight { ⟦<MemSwap as SwapDev>⟧.blocks swap.old ≡ 8 }
    requires were { (holds : _) → AreReachable holds 8 ring.old }
    ensures eight { ⟦<MemSwap as SwapDev>⟧.blocks swap.new ≡ 8 }
    ensures rest { ring.new ≡ drop 1 ring.old }
    ensures are { (holds : _) → AreReachable holds 8 ring.new }
{
    let mut files = MemFiles::new(Vec::new(alloc), Vec::new(alloc));
    ring.complete_oldest(&mut files, swap)
}

// Begins a read in a ring that is empty, and completes it.
fn read_alone(
    alloc: Global,
    ring: &mut TransferRing,
    swap: &mut MemSwap,
    t: Transfer,
) -> (&'static str, [u8; 4])
    requires empty { ring.old ≡ [] }
    requires eight { ⟦<MemSwap as SwapDev>⟧.blocks swap.old ≡ 8 }
    requires read { IsRead t }
    requires is { (holds : _) → IsReachable holds 8 t }
    ensures empty { ring.new ≡ [] }
    ensures eight { ⟦<MemSwap as SwapDev>⟧.blocks swap.new ≡ 8 }
{
    begin_read(ring, t);
    ended(complete(alloc, ring, swap))
}

// Begins a write in a ring that is empty, and completes it.
fn write_alone(
    alloc: Global,
    ring: &mut TransferRing,
    swap: &mut MemSwap,
    t: Transfer,
) -> (&'static str, [u8; 4])
    requires empty { ring.old ≡ [] }
    requires eight { ⟦<MemSwap as SwapDev>⟧.blocks swap.old ≡ 8 }
    requires write { IsWrite t }
    requires is { (holds : _) → IsReachable holds 8 t }
    ensures empty { ring.new ≡ [] }
    ensures eight { ⟦<MemSwap as SwapDev>⟧.blocks swap.new ≡ 8 }
{
    begin_write(ring, t);
    ended(complete(alloc, ring, swap))
}

// The transfers, begun one after another, end in their order.
#[test]
fn a_page_that_was_written_is_read_back(rt: HostRuntime) {
    let alloc = rt.alloc();
    let mut ring = TransferRing::new(alloc).expect(&rt, "memory for a ring");
    let mut swap = device(&rt, alloc, Vec::new(alloc), Vec::new(alloc));
    begin_write(&mut ring, write_of(&rt, alloc, 9, 4));
    begin_read(&mut ring, read_of(&rt, alloc, 3, 4));
    let both = (ring.len(), ring.names(1), ring.names_text(2));
    let written = ended(complete(alloc, &mut ring, &mut swap));
    let one = (ring.len(), ring.names(1), ring.names_text(2));
    let read = ended(complete(alloc, &mut ring, &mut swap));
    ring.close();
    is(
        &rt,
        &([both, one], [written, read]),
        &(
            [(2, true, true), (1, true, false)],
            [("done", [9, 0, 0, 0]); 2],
        ),
    );
}

// The calls of these numbers.
fn calls(rt: &impl Abort, alloc: Global, numbers: &[u64]) -> Vec<u64> {
    Vec::from_slice(alloc, numbers).expect(rt, "memory for numbers")
}

#[test]
fn a_failed_call_hands_the_transfer_back(rt: HostRuntime) {
    let alloc = rt.alloc();
    let mut ring = TransferRing::new(alloc).expect(&rt, "memory for a ring");
    let fail_reads = calls(&rt, alloc, &[1]);
    let fail_writes = calls(&rt, alloc, &[2]);
    let mut swap = device(&rt, alloc, fail_reads, fail_writes);
    begin_write(&mut ring, write_of(&rt, alloc, 9, 4));
    begin_write(&mut ring, write_of(&rt, alloc, 8, 2));
    begin_read(&mut ring, read_of(&rt, alloc, 3, 4));
    let written = ended(complete(alloc, &mut ring, &mut swap));
    let not_written = ended(complete(alloc, &mut ring, &mut swap));
    let not_read = ended(complete(alloc, &mut ring, &mut swap));
    let left = (swap.blocks(), ring.len());
    ring.close();
    let wanted = [
        ("done", [9, 0, 0, 0]),
        ("write fault", [8, 0, 0, 0]),
        ("read fault", [0, 0, 0, 0]),
    ];
    is(
        &rt,
        &([written, not_written, not_read], left),
        &(wanted, (8, 0)),
    );
}

#[test]
fn a_read_of_three_pages_calls_the_device_for_each(rt: HostRuntime) {
    let alloc = rt.alloc();
    let mut ring = TransferRing::new(alloc).expect(&rt, "memory for a ring");
    let fail_reads = calls(&rt, alloc, &[5, 7]);
    let mut swap = device(&rt, alloc, fail_reads, Vec::new(alloc));
    let written = write_alone(alloc, &mut ring, &mut swap, write_of_three(&rt, alloc));

    // Reads 1 to 3 succeed, and so does 4. Read 5 fails, and the last page isn't asked for.
    let whole = read_alone(alloc, &mut ring, &mut swap, read_of_three(&rt, alloc));
    let cut = read_alone(alloc, &mut ring, &mut swap, read_of_three(&rt, alloc));

    // So the next read is the 6th, and the one after it fails.
    let sixth = read_alone(alloc, &mut ring, &mut swap, read_of(&rt, alloc, 3, 4));
    let seventh = read_alone(alloc, &mut ring, &mut swap, read_of(&rt, alloc, 3, 4));
    ring.close();
    let wanted = [
        ("done", [1, 2, 3, 0]),
        ("done", [1, 2, 3, 0]),
        ("read fault", [1, 0, 0, 0]),
        ("done", [3, 0, 0, 0]),
        ("read fault", [0, 0, 0, 0]),
    ];
    is(&rt, &[written, whole, cut, sixth, seventh], &wanted);
}

#[test]
fn a_write_of_three_pages_calls_the_device_for_each(rt: HostRuntime) {
    let alloc = rt.alloc();
    let mut ring = TransferRing::new(alloc).expect(&rt, "memory for a ring");
    let fail_writes = calls(&rt, alloc, &[2, 4]);
    let mut swap = device(&rt, alloc, Vec::new(alloc), fail_writes);

    // Write 2 fails: the first page was written, and the last one isn't tried.
    let cut = write_alone(alloc, &mut ring, &mut swap, write_of_three(&rt, alloc));
    let kept = read_alone(alloc, &mut ring, &mut swap, read_of_three(&rt, alloc));

    // So the next write is the 3rd, and the one after it fails.
    let third = write_alone(alloc, &mut ring, &mut swap, write_of(&rt, alloc, 9, 4));
    let fourth = write_alone(alloc, &mut ring, &mut swap, write_of(&rt, alloc, 8, 4));
    ring.close();
    let wanted = [
        ("write fault", [1, 2, 3, 0]),
        ("done", [1, 0, 0, 0]),
        ("done", [9, 0, 0, 0]),
        ("write fault", [8, 0, 0, 0]),
    ];
    is(&rt, &[cut, kept, third, fourth], &wanted);
}

// A file `hi` of these three bytes.
fn three_bytes(rt: &impl Abort, alloc: Global) -> MemFiles {
    let name = "hi".to_string(alloc).expect(rt, "memory for a name");
    let bytes = [7, 8, 9].to_vec(alloc).expect(rt, "memory for bytes");
    let mut list = Vec::with_capacity(alloc, 1).expect(rt, "memory for a file");
    list.push_reserved((name, bytes));
    MemFiles::new(list, Vec::new(alloc))
}

#[test]
fn the_rest_of_a_page_from_a_file_is_zeros(rt: HostRuntime) {
    let alloc = rt.alloc();
    let mut files = three_bytes(&rt, alloc);
    let Found::Is { id, len } = files.find("hi") else {
        panic!(&rt; "not found");
    };
    assert_eq!(rt; len, 3);
    let mut ring = TransferRing::new(alloc).expect(&rt, "memory for a ring");
    let mut swap = device(&rt, alloc, Vec::new(alloc), Vec::new(alloc));
    let source = Source::File {
        id,
        offset: 1,
        count: 2,
    };
    match ring.begin_read(read_from(&rt, alloc, 3, source)) {
        Begun::Ok => {}
        _other => unreachable!(),
    }
    let read = ended(ring.complete_oldest(&mut files, &mut swap));
    ring.close();
    is(&rt, &read, &("done", [8, 0, 0, 0]));
}

#[test]
fn the_seventeenth_transfer_is_handed_back(rt: HostRuntime) {
    let mut ring = TransferRing::new(rt.alloc()).expect(&rt, "memory for a ring");
    for v in 0..16 {
        begin_read(&mut ring, read_of(&rt, rt.alloc(), v, 4));
    }
    let full = ring.len();
    let refused = match ring.begin_read(read_of(&rt, rt.alloc(), 16, 4)) {
        Begun::RingFull(transfer) => {
            end(transfer);
            true
        }
        Begun::Ok => false,
    };
    let still_full = ring.len();
    while let Some(transfer) = ring.abandon() {
        end(transfer);
    }
    ring.close();
    is(&rt, &(full, refused, still_full), &(16, true, 16));
}
