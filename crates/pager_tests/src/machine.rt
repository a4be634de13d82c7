//! That the calls that take memory succeed, what a machine with no process answers, and what devices that fail leave.
ghost use Rattle.std.specs.Prelude.{◌≡◌, ◌<◌, ◌≤◌, ◌∷◌, [], List, map, length, IfOk};
ghost use Rattle.io_edge.specs.FileHolding.{NamedFile, bytes_at};
ghost use Rattle.page_model.specs.Place.{filled};
ghost use Rattle.machine_state.specs.Calls.{CanPush};
ghost use Rattle.machine_state.specs.Conditions.{CanZero, CanBringIn};
ghost use Rattle.machine_state.specs.Files.{AreFiles, HaveFiles};
ghost use Rattle.machine_state.specs.Going.{CanGoOn};
ghost use Rattle.machine_state.specs.New.{AreSound};
ghost use Rattle.machine_state.specs.Sourced.{ImageNamed, AreNames};
ghost use Rattle.machine_state.specs.Machine.{image_shown};

use crate::checks::is;
use aout_image::{Image, Kind};
use io_edge::{Files, MemFiles, MemSwap, SwapDev};
use machine_state::{Machine, Named, Want};
use std::alloc::{AllocError, Global};
use std::process::Abort;
use swap_book::Owner;
use vm_facts::{Entry, Page, Params, Stop};

// One image, of a page of text and a page of data.
fn one_image(alloc: Global) -> Result<Vec<Named>, AllocError>
    ensures one { IfOk result (λ images. length images.items ≡ 1) }
    ensures sound { IfOk result (λ images. AreSound (map (λ image. image.facts) images.items)) }
    ensures names { IfOk result (λ images. AreNames (map image_shown images.items)) }
{
    let mut images = Vec::new(alloc);
    images.push(Named {
        name: String::from_str(alloc, "first")?,
        file: 0,
        facts: Image {
            kind: Kind::Shared,
            text_len: 1000,
            data_len: 100,
            bss_len: 0,
            entry: 0,
        },
    })?;
    Ok(images)
}

// One image, of two pages of text and a page of data.
fn two_text_pages(alloc: Global) -> Result<Vec<Named>, AllocError>
    ensures facts { IfOk result (λ images. map (λ image. image.facts) images.items
        ≡ record { kind = Kind.Shared; text_len = 2048; data_len = 100; bss_len = 0; entry = 0 } ∷ []) }
    ensures files { IfOk result (λ images. map (λ image. image.file) images.items ≡ 0 ∷ []) }
    ensures sound { IfOk result (λ images. AreSound (map (λ image. image.facts) images.items)) }
    ensures names { IfOk result (λ images. AreNames (map image_shown images.items)) }
{
    let mut images = Vec::new(alloc);
    images.push(Named {
        name: String::from_str(alloc, "first")?,
        file: 0,
        facts: Image {
            kind: Kind::Shared,
            text_len: 2048,
            data_len: 100,
            bss_len: 0,
            entry: 0,
        },
    })?;
    Ok(images)
}

// A machine of 8 frames and that image, in which the first process began.
fn begun(rt: &impl Abort, alloc: Global) -> Machine
    ensures ready { CanGoOn result }
    ensures blocks { result.params.swap_blocks ≡ 128 }
    ensures files { (files : List NamedFile) → 0 < length files → 4096 ≤ length (bytes_at files 0) → HaveFiles result.images files }
    ensures zero { CanZero result.kernel.place (Page.Stack 1 0) }
    ensures put { CanPush (filled result.kernel.place (Page.Stack 1 0)) (Page.Stack 1 0) 1 }
    ensures get { CanBringIn result.kernel.place (Page.Text 1 0) 0 2 }
{
    let params = Params {
        frames: 8,
        swap_blocks: 128,
        limit: 1,
        journal: 64,
    };
    let images = two_text_pages(alloc).expect(rt, "memory for an image");
    let mut machine = Machine::new(alloc, params, images).expect(rt, "memory for the tables");
    let began = machine.begin(1, 1).expect(rt, "memory for a process");
    assert!(rt; began);
    machine
}

// Such a machine, in which the first stack page took a frame, and the write of it began.
fn writing(rt: &impl Abort, alloc: Global) -> Machine
    ensures ready { CanGoOn result }
    ensures blocks { result.params.swap_blocks ≡ 128 }
    ensures files { (files : List NamedFile) → 0 < length files → 4096 ≤ length (bytes_at files 0) → HaveFiles result.images files }
{
    let page = Page::Stack { sid: 1, v: 0 };
    let mut machine = begun(rt, alloc);
    let filled = machine.fill_zero(page);
    filled.expect(rt, "room for an entry");
    assert_eq!(rt; (machine.free_frames(), machine.due()), (7, None));
    let pushed = machine.push(page, 1);
    pushed.expect(rt, "room for one more");
    machine
}

// Such a machine, in which the read of two pages of text began.
fn reading(rt: &impl Abort, alloc: Global) -> Machine
    ensures ready { CanGoOn result }
    ensures blocks { result.params.swap_blocks ≡ 128 }
    ensures files { (files : List NamedFile) → 0 < length files → 4096 ≤ length (bytes_at files 0) → HaveFiles result.images files }
{
    let mut machine = begun(rt, alloc);
    let got = machine.begin_get(Page::Text { image: 1, v: 0 }, 0, 2);
    got.expect(rt, "room for an entry");
    machine
}

// The file of that image, all zeros, of whose reads these fail.
fn one_file(rt: &impl Abort, alloc: Global, fail: Vec<u64>) -> MemFiles
    ensures { (images : List ImageNamed) → ((files : List NamedFile) → 0 < length files → 4096 ≤ length (bytes_at files 0) → HaveFiles images files)
        → AreFiles images (⟦<MemFiles as Files>⟧.holds result) }
{
    let name = String::from_str(alloc, "first").expect(rt, "memory for a name");
    let bytes = vec![in alloc; 0u8; 4096].expect(rt, "memory for a file");
    let mut files = Vec::with_capacity(alloc, 1).expect(rt, "memory for files");
    files.push_reserved((name, bytes));
    MemFiles::new(files, fail)
}

// A swap device as large as that machine's area, of whose writes these fail.
fn area(rt: &impl Abort, alloc: Global, fail_writes: Vec<u64>) -> MemSwap
    ensures { ⟦<MemSwap as SwapDev>⟧.blocks result ≡ 128 }
{
    MemSwap::new(alloc, 128, Vec::new(alloc), fail_writes).expect(rt, "memory for a device")
}

// How many pages of that area aren't all zeros.
fn written_pages(swap: &mut MemSwap) -> u32
    requires { ⟦<MemSwap as SwapDev>⟧.blocks swap.old ≡ 128 }
{
    let mut count = 0;
    for page in 0..64 {
        let mut bytes = [0; 1024];
        let _moved = swap.read(2 * page, &mut bytes);
        if bytes.iter().any(|byte| *byte != 0) {
            count += 1;
        }
    }
    count
}

// How many transfers are in flight, how many frames are in them, how many are free, and how long the journal is.
fn counts(machine: &Machine) -> (u32, u32, u32, usize) {
    (
        machine.in_flight(),
        machine.moving_frames(),
        machine.free_frames(),
        machine.journal().len(),
    )
}

// The calls of these numbers.
fn numbers(rt: &impl Abort, alloc: Global, calls: &[u64]) -> Vec<u64> {
    Vec::from_slice(alloc, calls).expect(rt, "memory for numbers")
}

// How the oldest transfer ends where these reads of the file and these writes of the device fail, and how many pages of the device
// aren't all zeros then.
fn lands(
    rt: &impl Abort,
    alloc: Global,
    machine: &mut Machine,
    fail: &[u64],
    fail_writes: &[u64],
) -> (Result<bool, Stop>, u32)
    requires ready { CanGoOn machine.old }
    requires blocks { machine.old.params.swap_blocks ≡ 128 }
    requires files { (files : List NamedFile) → 0 < length files → 4096 ≤ length (bytes_at files 0) → HaveFiles machine.old.images files }
{
    let mut files = one_file(rt, alloc, numbers(rt, alloc, fail));
    let mut swap = area(rt, alloc, numbers(rt, alloc, fail_writes));
    let landed = machine.done(&mut files, &mut swap);
    (landed, written_pages(&mut swap))
}

#[test]
fn a_page_that_is_due_takes_a_frame_and_is_written(rt: HostRuntime) {
    let mut machine = writing(&rt, rt.alloc());
    let before = counts(&machine);
    let landed = lands(&rt, rt.alloc(), &mut machine, &[], &[]);
    let after = counts(&machine);
    machine.end();
    is(
        &rt,
        &(before, landed, after),
        &((1, 1, 7, 2), (Ok(true), 1), (0, 0, 8, 3)),
    );
}

#[test]
fn a_write_that_fails_stops_the_machine_which_ends_with_its_frames(rt: HostRuntime) {
    let mut machine = writing(&rt, rt.alloc());
    let landed = lands(&rt, rt.alloc(), &mut machine, &[], &[1]);
    let entries = machine.journal().len();
    machine.end();
    is(
        &rt,
        &(landed, entries),
        &((Err(Stop::SwapWriteFault), 0), 2),
    );
}

// The page that wasn't asked for is in a frame that is free then.
#[test]
fn two_pages_of_text_are_read_in_one_transfer(rt: HostRuntime) {
    let mut machine = reading(&rt, rt.alloc());
    let before = counts(&machine);
    let landed = lands(&rt, rt.alloc(), &mut machine, &[], &[]);
    let after = counts(&machine);
    machine.end();
    is(
        &rt,
        &(before, landed, after),
        &((1, 2, 6, 1), (Ok(true), 0), (0, 0, 7, 2)),
    );
}

#[test]
fn a_read_whose_second_page_fails_stops_the_machine(rt: HostRuntime) {
    let mut machine = reading(&rt, rt.alloc());
    let landed = lands(&rt, rt.alloc(), &mut machine, &[2], &[]);
    let entries = machine.journal().len();
    machine.end();
    is(&rt, &(landed, entries), &((Err(Stop::FileFault), 0), 1));
}

#[test]
fn a_machine_begins_takes_a_note_and_ends(rt: HostRuntime) {
    let params = Params {
        frames: 64,
        swap_blocks: 256,
        limit: 1,
        journal: 2,
    };
    let mut machine = Machine::new(rt.alloc(), params, Vec::new(rt.alloc())).expect(
        &rt,
        "memory for the tables",
    );
    machine
        .note(Entry::Turn { pid: 1 })
        .expect(&rt, "room for an entry");
    machine.room(1).expect(&rt, "room for an instruction");
    let seen = (machine.journal().len(), machine.free_frames());
    let hands = machine.hands();
    machine.end();
    is(&rt, &(seen, hands), &((1, 64), (17, 1)));
}

#[test]
fn pieces_are_found_where_all_fit(rt: HostRuntime) {
    let params = Params {
        frames: 64,
        swap_blocks: 64,
        limit: 1,
        journal: 1,
    };
    let mut machine = Machine::new(rt.alloc(), params, Vec::new(rt.alloc())).expect(
        &rt,
        "memory for the tables",
    );
    let data = Want {
        owner: Owner::Data(1),
        blocks: 2,
    };
    let stack = Want {
        owner: Owner::Stack(1),
        blocks: 34,
    };
    let fits = machine.fits(&[data, stack]).expect(&rt, "memory to look");
    let found = machine.ask(1, &[data]).expect(&rt, "memory for a piece");
    let held = machine.holdings().len();
    machine.end();
    is(&rt, &(fits, found, held), &(false, true, 1));
}

#[test]
fn a_first_process_begins_with_its_pieces_and_a_page_that_is_due(rt: HostRuntime) {
    let params = Params {
        frames: 64,
        swap_blocks: 68,
        limit: 1,
        journal: 1,
    };
    let images = one_image(rt.alloc()).expect(&rt, "memory for an image");
    let mut machine = Machine::new(rt.alloc(), params, images).expect(&rt, "memory for the tables");
    let began = machine.begin(1, 1).expect(&rt, "memory for a process");
    let held = machine.holdings().len();
    let numbers = machine.next_numbers();
    let due = machine.due();
    machine.end();
    let stack = Some(Page::Stack { sid: 1, v: 0 });
    is(&rt, &(began, held, numbers, due), &(true, 4, (2, 2), stack));
}
