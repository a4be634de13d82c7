//! Page table entries, where each page of a space is, and which neighbours move with it.
ghost use Rattle.aout_image.specs.Image.{IsSound};
ghost use Rattle.vax_pte.specs.Words.{IsInRange};

use crate::checks::is;
use aout_image::{Image, Kind};
use core_map::CoreMap;
use kluster_io::{pick_in, pick_out, pick_put};
use space_map::SpaceMap;
use std::alloc::Global;
use std::process::Abort;
use vax_pte::{Place, Pte, pack, unpack, valid_frame};
use vm_facts::Page;

// A page in frame 5.
fn in_frame_5(valid: bool, changed: bool) -> Place
    ensures { IsInRange result }
{
    Place::Frame {
        f: 5,
        valid,
        changed,
    }
}

const CHANGED: Pte = Pte {
    user_write: true,
    place: Place::Frame {
        f: 5,
        valid: true,
        changed: true,
    },
};

const CHANGED_INVALID: Pte = Pte {
    user_write: true,
    place: Place::Frame {
        f: 5,
        valid: false,
        changed: true,
    },
};

const OF_ZEROS: Pte = Pte {
    user_write: true,
    place: Place::Zero,
};

const ON_SWAP: Pte = Pte {
    user_write: true,
    place: Place::Swap,
};

const OF_IMAGE_3: Pte = Pte {
    user_write: false,
    place: Place::Image(3),
};

// A word, its entry, and the frame that it shows.
static WORDS: [(u32, Option<Pte>, Option<u32>); 8] = [
    (0xa400_0005, Some(CHANGED), Some(5)),
    (0x2400_0005, Some(CHANGED_INVALID), None),
    (0x2200_0000, Some(OF_ZEROS), None),
    (0x2000_0000, Some(ON_SWAP), None),
    (0x7b00_0003, Some(OF_IMAGE_3), None),
    (0x2200_0001, None, None),
    (0x2600_0000, None, None),
    (0x8000_0005, None, None),
];

// Each place has its word. No entry has a stray bit or protection 0, and only a valid page shows its frame.
#[test]
fn a_word_is_that_of_one_entry_or_of_none(rt: HostRuntime) {
    for row in WORDS.iter() {
        let (word, wanted, frame) = *row;
        let entry = unpack(word);
        is(&rt, &(word, entry), &(word, wanted));
        if let Some(entry) = entry {
            is(&rt, &(pack(entry), valid_frame(word)), &(word, frame));
        }
    }
}

// A page of text, one of data and one of bss.
fn three_pages() -> Image
    ensures { IsSound result }
{
    Image {
        kind: Kind::Paged,
        text_len: 1024,
        data_len: 1024,
        bss_len: 1024,
        entry: 0,
    }
}

// A space 7 of these pages: one of data, one of bss and one of stack.
fn small(rt: &impl Abort, alloc: Global) -> SpaceMap {
    SpaceMap::new(alloc, 7, 1, three_pages(), 2, 1).expect(rt, "memory for a map")
}

// Puts a page at a place, where the map has the page.
fn put(map: &mut SpaceMap, page: Page, place: Place) -> bool
    requires { IsInRange place }
{
    if !map.has(page) {
        return false;
    }
    map.set_place(page, place);
    true
}

// Checks that data page 1 of the small space has zeros again once it was dropped, and that data page 0 stays on swap.
fn comes_back_as_zeros(rt: &impl Abort, map: &mut SpaceMap) {
    let first = Page::Data { sid: 7, v: 0 };
    let second = Page::Data { sid: 7, v: 1 };
    let at_first = [
        map.place(first),
        map.place(second),
        map.place(Page::Text { image: 1, v: 0 }),
        map.place(Page::Stack { sid: 7, v: 1 }),
        map.place(Page::Data { sid: 8, v: 0 }),
    ];
    let put = [put(map, first, Place::Swap), put(map, second, Place::Swap)];
    let shrunk = (map.resize(1, 1), map.place(second));
    let grown = map.resize(2, 1);
    let places = [map.place(first), map.place(second)];
    let wanted_first = [
        Some(Place::Image(0)),
        Some(Place::Zero),
        Some(Place::Image(0)),
        None,
        None,
    ];
    let wanted_places = [Some(Place::Swap), Some(Place::Zero)];
    is(rt, &(at_first, put), &(wanted_first, [true, true]));
    is(
        rt,
        &(shrunk, grown, places),
        &((Ok(()), None), Ok(()), wanted_places),
    );
}

#[test]
fn a_page_that_was_dropped_comes_back_as_zeros(rt: HostRuntime) {
    let mut map = small(&rt, rt.alloc());
    comes_back_as_zeros(&rt, &mut map);
}

// Checks the frames that the small space shows of data page 1.
fn shows_its_frame(rt: &impl Abort, map: &mut SpaceMap) {
    let at_first = [map.text_frame(0), map.data_frame(1), map.stack_frame(0)];
    let page = Page::Data { sid: 7, v: 1 };
    let is_put = put(map, page, in_frame_5(true, false));
    let valid = (is_put, map.data_frame(1));
    let is_put = put(map, page, in_frame_5(false, false));
    let invalid = (is_put, [map.data_frame(1), map.data_frame(2)]);
    let has_third = map.has(Page::Data { sid: 7, v: 2 });
    is(
        rt,
        &(at_first, valid, invalid, has_third),
        &(
            [None, None, None],
            (true, Some(5)),
            (true, [None, None]),
            false,
        ),
    );
}

#[test]
fn a_frame_is_shown_while_its_page_is_valid(rt: HostRuntime) {
    let mut map = small(&rt, rt.alloc());
    shows_its_frame(&rt, &mut map);
}

// Of text 520 pages, two of data, and bss.
fn large() -> Image
    ensures { IsSound result }
{
    Image {
        kind: Kind::Paged,
        text_len: 520 * 1024,
        data_len: 2048,
        bss_len: 16 * 1024,
        entry: 0,
    }
}

// Page `v` of the data of space 1.
macro_rules! data_page {
    ($v:expr) => {
        Page::Data { sid: 1, v: $v }
    };
}

// Page `v` of the text of image 1.
macro_rules! text_page {
    ($v:expr) => {
        Page::Text { image: 1, v: $v }
    };
}

// A space whose data pages 0 to 16 are on swap; page 17 has zeros.
fn swapped(rt: &impl Abort, alloc: Global) -> SpaceMap {
    let mut space = SpaceMap::new(alloc, 1, 1, large(), 18, 1).expect(rt, "memory for a space");
    for v in 0..17u32 {
        is(rt, &put(&mut space, data_page!(v), Place::Swap), &true);
    }
    space
}

// What is read with a page, where the space has it: the lowest page, and how many.
fn read_with(space: &SpaceMap, core: &CoreMap, page: Page, spare: u32) -> Option<(u32, u32)> {
    if !space.has(page) {
        return None;
    }
    if spare == 0 {
        return None;
    }
    Some(pick_in(space, core, page, spare))
}

// A page that is read, the spare frames, and what is read with it.
static READS: [(Page, u32, (u32, u32)); 8] = [
    (data_page!(5), 56, (5, 4)),
    (data_page!(15), 56, (12, 4)),
    (data_page!(5), 2, (5, 2)),
    (data_page!(16), 56, (16, 1)),
    (data_page!(17), 56, (17, 1)),
    (text_page!(0), 56, (0, 2)),
    (text_page!(0), 1, (0, 1)),
    (text_page!(519), 56, (519, 1)),
];

// Checks what is read with each of those pages.
fn reads_neighbours(rt: &impl Abort, space: &SpaceMap, core: &CoreMap) {
    for row in READS.iter() {
        let (page, spare, run) = *row;
        let found = read_with(space, core, page, spare);
        is(rt, &(page, spare, found), &(page, spare, Some(run)));
    }
}

#[test]
fn a_read_takes_neighbours_above_first(rt: HostRuntime) {
    let core = CoreMap::new(rt.alloc(), 64).expect(&rt, "memory for frames");
    let space = swapped(&rt, rt.alloc());
    reads_neighbours(&rt, &space, &core);
    core.close();
}

// The next free frame holds a page of text, which is invalid there and isn't saved.
fn seat_idle(rt: &impl Abort, core: &mut CoreMap, space: &mut SpaceMap, v: u32) {
    let (token, _page) = core.take_free().expect(rt, "a free frame");
    let f = token.number();
    assert!(rt; f < 64);
    assert_eq!(rt; core.find_text(1, v), None);
    core.seat(token.zeroed(), text_page!(v));
    core.set_dirty(f, true);
    let place = Place::Frame {
        f,
        valid: false,
        changed: true,
    };
    is(rt, &put(space, text_page!(v), place), &true);
}

// Seats pages 508 to 513 of text so.
fn seat_six(rt: &impl Abort, core: &mut CoreMap, space: &mut SpaceMap) {
    for v in 508..514u32 {
        seat_idle(rt, core, space, v);
    }
}

// What is written with a page, where the space has it: the lowest page, and how many.
fn written_with(
    space: &SpaceMap,
    core: &CoreMap,
    page: Page,
    locked: &[Page],
) -> Option<(u32, u32)> {
    if !space.has(page) {
        return None;
    }
    Some(pick_out(space, core, page, locked, None))
}

// How many are put out from a page on, where the space has it.
fn put_from(space: &SpaceMap, core: &CoreMap, page: Page) -> Option<u32> {
    if !space.has(page) {
        return None;
    }
    Some(pick_put(space, core, page))
}

// Checks which of the six are written with one of them.
fn writes_neighbours(rt: &impl Abort, space: &SpaceMap, core: &CoreMap) {
    let written = [
        written_with(space, core, text_page!(510), &[]),
        written_with(space, core, text_page!(513), &[]),
        written_with(space, core, text_page!(510), &[text_page!(509)]),
    ];
    let put = put_from(space, core, text_page!(509));
    is(
        rt,
        &(written, put),
        &([Some((508, 4)), Some((512, 2)), Some((510, 2))], Some(3)),
    );
}

#[test]
fn a_write_takes_idle_neighbours_of_one_piece(rt: HostRuntime) {
    let mut core = CoreMap::new(rt.alloc(), 64).expect(&rt, "memory for frames");
    let mut space = swapped(&rt, rt.alloc());
    seat_six(&rt, &mut core, &mut space);
    writes_neighbours(&rt, &space, &core);
    core.close();
}
