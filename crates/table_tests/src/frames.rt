//! Page frames, and the map of them: that the calls that take memory succeed, and what becomes of a page's bytes.
ghost use Rattle.std.specs.Prelude.{◌≡◌, Some, IsTrue};
ghost use Rattle.core_map.specs.Frames.{HoldsNot};
ghost use Rattle.core_map.specs.Slots.{is_free, is_resident, slot_at, slot_page};

use crate::checks::{are, equals, is};
use core_map::{CoreMap, Whose};
use frame_state::Free;
use std::process::Abort;
use vm_facts::{Bytes, Page};

#[test]
fn the_bytes_of_a_vector_are_lent(rt: HostRuntime) {
    let held = [104, 105].to_vec(rt.alloc()).expect(&rt, "memory");
    let bytes = Bytes::from_vec(held);
    are(&rt, bytes.as_slice(), "hi".as_bytes());
}

#[test]
fn a_page_is_read_changed_written_and_found_again(rt: HostRuntime) {
    let free = Free::make(rt.alloc(), 7).expect(&rt, "memory for a frame");
    let mut filling = free.begin_fill();
    filling.bytes_mut()[5] = 1;
    let mut resident = filling.filled();
    resident.bytes_mut()[6] = 2;
    let cleaning = resident.begin_clean();
    let written = (cleaning.number(), cleaning.bytes()[5], cleaning.bytes()[6]);
    let again = cleaning.failed().release().reclaim();
    let found = (again.number(), again.bytes()[5], again.bytes()[6]);
    let clean = again.begin_clean().cleaned().zeroed();
    let zeroed = (clean.number(), clean.bytes()[5], clean.bytes()[1023]);
    clean.release().begin_fill().failed().retire();
    is(
        &rt,
        &[written, found, zeroed],
        &[(7, 1, 2), (7, 1, 2), (7, 0, 0)],
    );
}

const TEXT: Page = Page::Text { image: 1, v: 7 };

#[test]
fn a_new_map_has_all_frames_free(rt: HostRuntime) {
    let map = CoreMap::new(rt.alloc(), 2).expect(&rt, "memory for two frames");
    let counts = (map.frames(), map.free_frames());
    let owners = [map.owner(2), map.owner(3)];
    map.close();
    is(
        &rt,
        &(counts, owners),
        &((2, 2), [Whose::Free(None), Whose::Away]),
    );
}

// Checks that no frame of the map holds the page of text.
fn has_no_text(rt: &impl Abort, core: &CoreMap)
    ensures { HoldsNot core.now (Page.Text 1 7) }
{
    assert_eq!(rt; core.find_text(1, 7), None);
}

// The page of a frame that is in use.
fn page_in_use(rt: &impl Abort, core: &CoreMap, frame: u32) -> Page
    ensures resident { IsTrue (is_resident (slot_at core.now.slots frame)) }
    ensures page { slot_page (slot_at core.now.slots frame) ≡ Some result }
{
    let Whose::Resident(page) = core.owner(frame) else {
        panic!(rt; "not resident");
    };
    page
}

// The page that a free frame still holds.
fn page_kept(rt: &impl Abort, core: &CoreMap, frame: u32) -> Page
    ensures free { IsTrue (is_free (slot_at core.now.slots frame)) }
    ensures page { slot_page (slot_at core.now.slots frame) ≡ Some result }
{
    let Whose::Free(Some(page)) = core.owner(frame) else {
        panic!(rt; "not free, or with no page");
    };
    page
}

#[test]
fn a_freed_text_page_is_found_and_reclaimed(rt: HostRuntime) {
    let mut map = CoreMap::new(rt.alloc(), 3).expect(&rt, "memory for three frames");
    let (token, _page) = map.take_free().expect(&rt, "a free frame");
    equals(&rt, token.number(), 1);
    has_no_text(&rt, &map);
    map.seat(token.zeroed(), TEXT);

    // It is changed, and freed.
    let page = page_in_use(&rt, &map, 1);
    map.put_byte(1, 3, 9);
    map.set_dirty(1, true);
    let changed = (page, map.bytes(1)[3], map.is_dirty(1));
    let token = map.lift(1);
    map.give_tail(token.release(), page);
    let found = [map.find_text(1, 7), map.find_text(2, 7)];

    // It comes back with its bytes, and is unchanged from there on.
    let page = page_kept(&rt, &map, 1);
    let token = map.reclaim(1);
    map.seat(token, page);
    let page = page_in_use(&rt, &map, 1);
    let unchanged = (page, map.bytes(1)[3], map.is_dirty(1));
    let free = map.free_frames();
    map.close();
    is(
        &rt,
        &([changed, unchanged], found, free),
        &([(TEXT, 9, true), (TEXT, 9, false)], [Some(1), None], 2),
    );
}

#[test]
fn a_forgotten_frame_is_taken_first(rt: HostRuntime) {
    let mut map = CoreMap::new(rt.alloc(), 3).expect(&rt, "memory for three frames");
    let (token, _page) = map.take_free().expect(&rt, "a free frame");
    equals(&rt, token.number(), 1);
    has_no_text(&rt, &map);
    map.give_tail(token, TEXT);
    let listed = map.find_text(1, 7);
    let page = page_kept(&rt, &map, 1);
    map.forget(1);
    let forgotten = map.find_text(1, 7);
    let (token, whose) = map.take_free().expect(&rt, "a free frame");
    let number = token.number();
    map.give_head(token);
    let free = map.free_frames();
    map.close();
    is(
        &rt,
        &(listed, page, forgotten, number, whose, free),
        &(Some(1), TEXT, None, 1, None, 3),
    );
}
