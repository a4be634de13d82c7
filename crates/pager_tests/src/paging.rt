//! Pages that come in and leave their frames: whole journals of calls one after another, by devices in memory.
//! Machines that the tests of calls share are made here too.
ghost use Rattle.std.specs.Prelude.{◌≡◌, ◌<◌, ◌≤◌, ◌∷◌, [], ℕ, List, Option, map, length, IfOk, OnOk};
ghost use Rattle.aout_image.specs.Image.{IsSound, file_length_of};
ghost use Rattle.io_edge.specs.FileHolding.{NamedFile, bytes_at};
ghost use Rattle.page_model.specs.Placement.{Start};
ghost use Rattle.page_model.specs.Conditions.{IsShared};
ghost use Rattle.page_model.specs.Rank.{HasRoom};
ghost use Rattle.machine_state.specs.Going.{CanGoOn, IsRunning};
ghost use Rattle.machine_state.specs.Files.{AreFiles, HaveFiles};
ghost use Rattle.machine_state.specs.New.{AreSound};
ghost use Rattle.machine_state.specs.Sourced.{ImageNamed, AreNames};
ghost use Rattle.machine_state.specs.Machine.{image_shown};
ghost use Rattle.paging_units.specs.LastMoves.{last_moves};
ghost use Rattle.paging_units.specs.Spans.{moves};
ghost use Rattle.proc_calls.specs.Serving.{CanServe};
ghost use Rattle.pager_tests.specs.Ready.{MachineIsReady, HasStarted};

use crate::checks::is;
use aout_image::{Image, Kind};
use io_edge::{Files, MemFiles, MemSink, MemSwap, Moved, SwapDev};
use machine_state::{Machine, Named};
use proc_calls::clock_hands::{make_room, move_hands};
use proc_calls::fault_fill::{Served, serve_page, serve_page_now};
use run_text::write_text;
use std::alloc::{AllocError, Global};
use std::process::Abort;
use vm_facts::{Entry, Page, PageState, Params, Stop};

pub(crate) fn data(v: u32) -> Page {
    Page::Data { sid: 1, v }
}

fn text(v: u32) -> Page {
    Page::Text { image: 1, v }
}

// A page of text, and 112 pages of data, all zeros.
pub(crate) fn of_zeros() -> Image
    ensures sound { IsSound result }
    ensures short { file_length_of result ≤ 32768 }
{
    Image {
        kind: Kind::Paged,
        text_len: 1024,
        data_len: 0,
        bss_len: 112 * 1024,
        entry: 0,
    }
}

// A page of text, 16 pages of data that the file has, and 48 of zeros after them.
fn of_file() -> Image
    ensures sound { IsSound result }
    ensures short { file_length_of result ≤ 32768 }
{
    Image {
        kind: Kind::Paged,
        text_len: 1024,
        data_len: 16 * 1024,
        bss_len: 48 * 1024,
        entry: 0,
    }
}

// Two pages of text, and one of data.
pub(crate) fn of_two_text_pages() -> Image
    ensures sound { IsSound result }
    ensures short { file_length_of result ≤ 32768 }
{
    Image {
        kind: Kind::Paged,
        text_len: 2048,
        data_len: 0,
        bss_len: 1024,
        entry: 0,
    }
}

// That image alone, of the first file.
fn only(alloc: Global, facts: Image) -> Result<Vec<Named>, AllocError>
    requires { IsSound facts }
    ensures facts { IfOk result (λ images. map (λ image. image.facts) images.items ≡ facts ∷ []) }
    ensures files { IfOk result (λ images. map (λ image. image.file) images.items ≡ 0 ∷ []) }
    ensures sound { IfOk result (λ images. AreSound (map (λ image. image.facts) images.items)) }
    ensures names { IfOk result (λ images. AreNames (map image_shown images.items)) }
{
    let mut images = Vec::new(alloc);
    images.push(Named {
        name: String::from_str(alloc, "first")?,
        file: 0,
        facts,
    })?;
    Ok(images)
}

// A machine of 64 frames, in which the first process began.
fn begun(rt: &impl Abort, alloc: Global, facts: Image) -> Machine
    requires sound { IsSound facts }
    ensures { HasStarted result facts }
{
    let params = Params {
        frames: 64,
        swap_blocks: 260,
        limit: 1,
        journal: 256,
    };
    let images = only(alloc, facts).expect(rt, "memory for an image");
    let mut machine = Machine::new(alloc, params, images).expect(rt, "memory for the tables");
    let began = machine.begin(1, 1).expect(rt, "memory for a process");
    assert!(rt; began);
    machine
}

// The first stack page takes a frame.
fn fill_stack(rt: &impl Abort, m: &mut Machine)
    requires ready { CanGoOn m.old }
    requires due { m.old.kernel.place.due ≡ Start (Page.Stack 1 0) ∷ [] }
    ensures { (holds : Option (List NamedFile)) (blocks : ℕ) → MachineIsReady m.old holds blocks → MachineIsReady m.new holds blocks }
{
    let page = Page::Stack { sid: 1, v: 0 };
    assert!(rt; m.state_of(page).is_some());
    assert!(rt; m.is_blank(page));
    assert!(rt; m.free_frames() > 0);
    m.fill_zero(page).expect(rt, "room for an entry");
}

// The file of that image, all zeros.
pub(crate) fn file(rt: &impl Abort, alloc: Global) -> MemFiles
    ensures { (images : List ImageNamed) → ((files : List NamedFile) → 0 < length files → 32768 ≤ length (bytes_at files 0) → HaveFiles images files)
        → AreFiles images (⟦<MemFiles as Files>⟧.holds result) }
{
    let name = String::from_str(alloc, "first").expect(rt, "memory for a name");
    let bytes = vec![in alloc; 0u8; 32768].expect(rt, "memory for a file");
    let mut files = Vec::with_capacity(alloc, 1).expect(rt, "memory for files");
    files.push_reserved((name, bytes));
    MemFiles::new(files, Vec::new(alloc))
}

// A swap device as large as that machine's area, of whose writes these fail.
pub(crate) fn area(rt: &impl Abort, alloc: Global, fail_writes: Vec<u64>) -> MemSwap
    ensures { ⟦<MemSwap as SwapDev>⟧.blocks result ≡ 260 }
{
    MemSwap::new(alloc, 260, Vec::new(alloc), fail_writes).expect(rt, "memory for a device")
}

// That a space shares the page, where it is of text.
fn see_shared(rt: &impl Abort, m: &Machine, page: Page)
    ensures { IsShared m.now.kernel.place page }
{
    match page {
        Page::Text { image, .. } => assert!(rt; m.sharer(image).is_some()),
        Page::Data { .. } | Page::Stack { .. } => {}
    }
}

// That the page may be served.
fn see_served(rt: &impl Abort, m: &Machine, page: Page)
    requires { IsRunning m.now }
    ensures { CanServe m.now.kernel.place page }
{
    see_shared(rt, m, page);
    assert!(rt; m.state_of(page).is_some());
    assert!(rt; m.due().is_none());
}

// That there are 64 frames.
pub(crate) fn see_frames(rt: &impl Abort, m: &Machine)
    requires { IsRunning m.now }
    ensures { HasRoom m.now.kernel.place [] }
{
    assert!(rt; m.core().frames() == 64);
}

// The moves of the hands that an entry counts.
fn moves_counted(e: &Entry) -> u32
    ensures { result ≡ moves e.now }
{
    match e {
        Entry::Hands { count } => *count,
        _ => 0,
    }
}

// Those that the last entry counts.
fn last_moves(m: &Machine) -> u32
    ensures { result ≡ last_moves m.now.kernel.journal }
{
    match m.journal().last() {
        Some(e) => moves_counted(e),
        None => 0,
    }
}

// Serves a page until it is valid.
fn serve(
    rt: &impl Abort,
    m: &mut Machine,
    files: &mut MemFiles,
    swap: &mut MemSwap,
    page: Page,
) -> Result<(), Stop>
    requires { MachineIsReady m.old (⟦<MemFiles as Files>⟧.holds files.old) (⟦<MemSwap as SwapDev>⟧.blocks swap.old) }
    ensures { OnOk result (MachineIsReady m.new (⟦<MemFiles as Files>⟧.holds files.new) (⟦<MemSwap as SwapDev>⟧.blocks swap.new)) }
{
    see_served(rt, m, page);
    see_frames(rt, m);
    assert!(rt; last_moves(m) <= 1000);
    serve_page_now(m, files, swap, page, &[])
}

// The same, where it comes to that.
pub(crate) fn bring(
    rt: &impl Abort,
    m: &mut Machine,
    files: &mut MemFiles,
    swap: &mut MemSwap,
    page: Page,
)
    requires { MachineIsReady m.old (⟦<MemFiles as Files>⟧.holds files.old) (⟦<MemSwap as SwapDev>⟧.blocks swap.old) }
    ensures { MachineIsReady m.new (⟦<MemFiles as Files>⟧.holds files.new) (⟦<MemSwap as SwapDev>⟧.blocks swap.new) }
{
    serve(rt, m, files, swap, page).expect(rt, "a page that comes in");
}

// Moves the hands, and answers how often.
pub(crate) fn moved(
    rt: &impl Abort,
    m: &mut Machine,
    files: &mut MemFiles,
    swap: &mut MemSwap,
    n: u32,
) -> u32
    requires ready { MachineIsReady m.old (⟦<MemFiles as Files>⟧.holds files.old) (⟦<MemSwap as SwapDev>⟧.blocks swap.old) }
    requires few { n ≤ 1000 }
    ensures { MachineIsReady m.new (⟦<MemFiles as Files>⟧.holds files.new) (⟦<MemSwap as SwapDev>⟧.blocks swap.new) }
{
    assert!(rt; last_moves(m) <= 1000);
    move_hands(m, files, swap, n).expect(rt, "hands that move")
}

// The oldest transfer ends.
fn landed(rt: &impl Abort, m: &mut Machine, files: &mut MemFiles, swap: &mut MemSwap)
    requires { MachineIsReady m.old (⟦<MemFiles as Files>⟧.holds files.old) (⟦<MemSwap as SwapDev>⟧.blocks swap.old) }
    ensures { MachineIsReady m.new (⟦<MemFiles as Files>⟧.holds files.new) (⟦<MemSwap as SwapDev>⟧.blocks swap.new) }
{
    let some = m.done(files, swap).expect(rt, "a transfer that ends");
    assert!(rt; some);
}

// A machine in which the first process began, whose page of the stack took a frame.
pub(crate) fn with_stack(
    rt: &impl Abort,
    alloc: Global,
    _files: &MemFiles,
    _swap: &MemSwap,
    facts: Image,
) -> Machine
    requires sound { IsSound facts }
    requires short { file_length_of facts ≤ 32768 }
    requires blocks { ⟦<MemSwap as SwapDev>⟧.blocks _swap.now ≡ 260 }
    requires files { (images : List ImageNamed) → ((files : List NamedFile) → 0 < length files → 32768 ≤ length (bytes_at files 0) → HaveFiles images files)
        → AreFiles images (⟦<MemFiles as Files>⟧.holds _files.now) }
    ensures { MachineIsReady result (⟦<MemFiles as Files>⟧.holds _files.now) (⟦<MemSwap as SwapDev>⟧.blocks _swap.now) }
{
    let mut m = begun(rt, alloc, facts);
    fill_stack(rt, &mut m);
    m
}

// The pages of data from one to before another are brought in.
fn bring_data(
    rt: &impl Abort,
    m: &mut Machine,
    files: &mut MemFiles,
    swap: &mut MemSwap,
    from: u32,
    to: u32,
)
    requires { MachineIsReady m.old (⟦<MemFiles as Files>⟧.holds files.old) (⟦<MemSwap as SwapDev>⟧.blocks swap.old) }
    ensures { MachineIsReady m.new (⟦<MemFiles as Files>⟧.holds files.new) (⟦<MemSwap as SwapDev>⟧.blocks swap.new) }
{
    for v in from..to {
        bring(rt, m, files, swap, data(v));
    }
}

// A machine in which the stack, the text and so many pages of data, all zeros, came in.
pub(crate) fn filled(
    rt: &impl Abort,
    alloc: Global,
    files: &mut MemFiles,
    swap: &mut MemSwap,
    count: u32,
) -> Machine
    requires blocks { ⟦<MemSwap as SwapDev>⟧.blocks swap.old ≡ 260 }
    requires files { (images : List ImageNamed) → ((files : List NamedFile) → 0 < length files → 32768 ≤ length (bytes_at files 0) → HaveFiles images files)
        → AreFiles images (⟦<MemFiles as Files>⟧.holds files.old) }
    ensures { MachineIsReady result (⟦<MemFiles as Files>⟧.holds files.new) (⟦<MemSwap as SwapDev>⟧.blocks swap.new) }
{
    let mut m = with_stack(rt, alloc, files, swap, of_zeros());
    bring(rt, &mut m, files, swap, text(0));
    bring_data(rt, &mut m, files, swap, 0, count);
    m
}

// Begins the read of a page.
fn begin_read(
    rt: &impl Abort,
    m: &mut Machine,
    files: &mut MemFiles,
    swap: &mut MemSwap,
    page: Page,
)
    requires { MachineIsReady m.old (⟦<MemFiles as Files>⟧.holds files.old) (⟦<MemSwap as SwapDev>⟧.blocks swap.old) }
    ensures { MachineIsReady m.new (⟦<MemFiles as Files>⟧.holds files.new) (⟦<MemSwap as SwapDev>⟧.blocks swap.new) }
{
    see_served(rt, m, page);
    let came = serve_page(m, files, swap, page).expect(rt, "a read that begins");
    assert!(rt; matches!(came, Served::Asleep(_)));
}

// Begins the reads of the first pages of data, so many.
fn begin_reads(
    rt: &impl Abort,
    m: &mut Machine,
    files: &mut MemFiles,
    swap: &mut MemSwap,
    count: u32,
)
    requires { MachineIsReady m.old (⟦<MemFiles as Files>⟧.holds files.old) (⟦<MemSwap as SwapDev>⟧.blocks swap.old) }
    ensures { MachineIsReady m.new (⟦<MemFiles as Files>⟧.holds files.new) (⟦<MemSwap as SwapDev>⟧.blocks swap.new) }
{
    for v in 0..count {
        begin_read(rt, m, files, swap, data(v));
    }
}

// A frame is forced.
fn forced(rt: &impl Abort, m: &mut Machine, files: &mut MemFiles, swap: &mut MemSwap)
    requires { MachineIsReady m.old (⟦<MemFiles as Files>⟧.holds files.old) (⟦<MemSwap as SwapDev>⟧.blocks swap.old) }
    ensures { MachineIsReady m.new (⟦<MemFiles as Files>⟧.holds files.new) (⟦<MemSwap as SwapDev>⟧.blocks swap.new) }
{
    see_frames(rt, m);
    assert!(rt; last_moves(m) <= 1000);
    make_room(m, files, swap, &[]).expect(rt, "a frame");
}

// The lines of a machine in which the stack, the text and so many pages of data, all zeros, came in.
pub(crate) fn lines_of_filled(alloc: Global, count: u32) -> Result<String, AllocError> {
    let mut lines = String::from_str(alloc, "Z s 1 0\nG x 1 0 0 1\nD\n")?;
    for v in 0..count {
        lines.push_str(format!(in alloc; "Z d 1 {v}\n")?.as_str())?;
    }
    Ok(lines)
}

// Those of a machine in which the stack came in, 16 reads of data began, and 32 pages of zeros came in.
fn lines_of_reads(alloc: Global) -> Result<String, AllocError> {
    let mut lines = String::from_str(alloc, "Z s 1 0\n")?;
    for v in 0..16u32 {
        lines.push_str(format!(in alloc; "G d 1 {v} {v} 1\n")?.as_str())?;
    }
    for v in 16..48u32 {
        lines.push_str(format!(in alloc; "Z d 1 {v}\n")?.as_str())?;
    }
    Ok(lines)
}

// That the journal has these lines, and after them those.
pub(crate) fn see_lines(
    rt: &impl Abort,
    alloc: Global,
    m: &Machine,
    lines: Result<String, AllocError>,
    behind: &str,
) {
    let mut lines = lines.expect(rt, "memory for lines");
    lines.push_str(behind).expect(rt, "memory for lines");
    let mut sink = MemSink::new(alloc, 8192, Vec::new(alloc)).expect(rt, "memory for a text");
    let wrote = write_text(&mut sink, true, m.journal(), b"");
    assert!(rt; matches!(wrote, Moved::Done));
    assert_eq!(rt; sink.written(), lines.as_str().as_bytes());
}

// What is done with a machine, or seen of it.
#[derive(Clone, Copy)]
enum Step {
    // A page is brought in.
    Bring(Page),
    // So are the pages of data from one to before another.
    BringData(u32, u32),
    // The reads of the first pages of data begin, so many.
    BeginReads(u32),
    // The hands move so often.
    Move(u32),
    // The oldest transfer ends.
    Land,
    // A frame is forced.
    Force,
    // So many transfers are in flight.
    SeeInFlight(u32),
    // So many frames are free.
    SeeFree(u32),
    // The page is in this state.
    See(Page, PageState),
}

// Does that, or checks it.
fn take(rt: &impl Abort, m: &mut Machine, files: &mut MemFiles, swap: &mut MemSwap, step: Step)
    requires { MachineIsReady m.old (⟦<MemFiles as Files>⟧.holds files.old) (⟦<MemSwap as SwapDev>⟧.blocks swap.old) }
    ensures { MachineIsReady m.new (⟦<MemFiles as Files>⟧.holds files.new) (⟦<MemSwap as SwapDev>⟧.blocks swap.new) }
{
    match step {
        Step::Bring(page) => bring(rt, m, files, swap, page),
        Step::BringData(from, to) => bring_data(rt, m, files, swap, from, to),
        Step::BeginReads(count) => begin_reads(rt, m, files, swap, count),
        Step::Move(n) => {
            assert!(rt; n <= 1000);
            let moves = moved(rt, m, files, swap, n);
            assert_eq!(rt; moves, n);
        }
        Step::Land => landed(rt, m, files, swap),
        Step::Force => forced(rt, m, files, swap),
        Step::SeeInFlight(count) => assert_eq!(rt; m.in_flight(), count),
        Step::SeeFree(count) => assert_eq!(rt; m.free_frames(), count),
        Step::See(page, state) => assert_eq!(rt; m.state_of(page), Some(state)),
    }
}

// Does these one after another.
fn take_all(
    rt: &impl Abort,
    m: &mut Machine,
    files: &mut MemFiles,
    swap: &mut MemSwap,
    steps: &[Step],
)
    requires { MachineIsReady m.old (⟦<MemFiles as Files>⟧.holds files.old) (⟦<MemSwap as SwapDev>⟧.blocks swap.old) }
{
    for step in steps {
        take(rt, m, files, swap, *step);
    }
}

// Checks the whole journal of a machine whose first process, of this image, has its stack page, after these steps: the lines, and after
// them those.
fn comes_to(
    rt: &impl Abort,
    alloc: Global,
    facts: Image,
    steps: &[Step],
    lines: Result<String, AllocError>,
    behind: &str,
)
    requires sound { IsSound facts }
    requires short { file_length_of facts ≤ 32768 }
{
    let mut files = file(rt, alloc);
    let mut swap = area(rt, alloc, Vec::new(alloc));
    let mut m = with_stack(rt, alloc, &files, &swap, facts);
    take_all(rt, &mut m, &mut files, &mut swap, steps);
    see_lines(rt, alloc, &m, lines, behind);
    m.end();
}

const TEXT_0: Page = Page::Text { image: 1, v: 0 };

const TEXT_1: Page = Page::Text { image: 1, v: 1 };

const DATA_14: Page = Page::Data { sid: 1, v: 14 };

static NEIGHBOURS: [Step; 2] = [Step::Bring(TEXT_0), Step::Bring(TEXT_1)];

#[test]
fn two_neighbouring_pages_of_text_come_in_by_one_read(rt: HostRuntime) {
    let lines = Ok(String::new(rt.alloc()));
    let behind = "Z s 1 0\nG x 1 0 0 2\nD\nR x 1 1\n";
    comes_to(
        &rt,
        rt.alloc(),
        of_two_text_pages(),
        &NEIGHBOURS,
        lines,
        behind,
    );
}

static FREED: [Step; 5] = [
    Step::Bring(TEXT_0),
    Step::BringData(0, 48),
    Step::Move(17),
    Step::Land,
    Step::Bring(DATA_14),
];

#[test]
fn a_page_that_the_back_hand_freed_is_reclaimed_with_no_read(rt: HostRuntime) {
    let lines = lines_of_filled(rt.alloc(), 48);
    comes_to(
        &rt,
        rt.alloc(),
        of_zeros(),
        &FREED,
        lines,
        "H 17\nD\nR d 1 14\n",
    );
}

static TOUCHED: [Step; 7] = [
    Step::Bring(TEXT_0),
    Step::BringData(0, 48),
    Step::Move(16),
    Step::Bring(DATA_14),
    Step::Move(1),
    Step::See(DATA_14, PageState::Valid(17)),
    Step::SeeInFlight(0),
];

#[test]
fn a_page_that_is_touched_between_the_hands_stays(rt: HostRuntime) {
    let lines = lines_of_filled(rt.alloc(), 48);
    comes_to(
        &rt,
        rt.alloc(),
        of_zeros(),
        &TOUCHED,
        lines,
        "H 16\nR d 1 14\nH 1\n",
    );
}

static FORCED: [Step; 5] = [
    Step::Bring(TEXT_0),
    Step::BringData(0, 62),
    Step::SeeFree(0),
    Step::Force,
    Step::SeeFree(2),
];

#[test]
fn a_frame_is_forced_where_none_of_64_is_free(rt: HostRuntime) {
    let lines = lines_of_filled(rt.alloc(), 62);
    comes_to(&rt, rt.alloc(), of_zeros(), &FORCED, lines, "H 17\nD\n");
}

#[test]
fn the_third_write_fails_and_the_machine_stops(rt: HostRuntime) {
    let alloc = rt.alloc();
    let mut files = file(&rt, alloc);
    let fail_writes = [3].to_vec(alloc).expect(&rt, "memory for a number");
    let mut swap = area(&rt, alloc, fail_writes);
    let mut m = filled(&rt, alloc, &mut files, &mut swap, 64);
    let answer = serve(&rt, &mut m, &mut files, &mut swap, data(64));
    let lines = lines_of_filled(alloc, 62);
    see_lines(&rt, alloc, &m, lines, "H 17\nD\nZ d 1 62\nZ d 1 63\nH 2\n");
    m.end();
    is(&rt, &answer, &Err(Stop::SwapWriteFault));
}

static SIXTEEN: [Step; 5] = [
    Step::BeginReads(16),
    Step::BringData(16, 48),
    Step::SeeInFlight(16),
    Step::Move(18),
    Step::SeeInFlight(16),
];

#[test]
fn the_oldest_of_sixteen_ends_before_a_move_that_begins_a_write(rt: HostRuntime) {
    let lines = lines_of_reads(rt.alloc());
    comes_to(
        &rt,
        rt.alloc(),
        of_file(),
        &SIXTEEN,
        lines,
        "H 17\nD\nH 1\n",
    );
}

static FIVE_WRITES: [Step; 6] = [
    Step::Bring(TEXT_0),
    Step::BringData(0, 48),
    Step::Move(66),
    Step::SeeInFlight(5),
    Step::Bring(TEXT_0),
    Step::Bring(DATA_14),
];

#[test]
fn five_writes_are_in_flight_and_then_the_page_is_reclaimed(rt: HostRuntime) {
    let lines = lines_of_filled(rt.alloc(), 48);
    let behind = "H 66\nD\nD\nD\nD\nD\nR x 1 0\nR d 1 14\n";
    comes_to(&rt, rt.alloc(), of_zeros(), &FIVE_WRITES, lines, behind);
}
