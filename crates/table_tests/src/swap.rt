//! Swap space: the free blocks, where the pages of a segment lie, and the book of the holders.
ghost use Rattle.std.specs.Prelude.{◌≡◌, ◌<◌, Some, None};
ghost use Rattle.resource_map.specs.Blocks.{taken};

use crate::checks::{are, is};
use resource_map::{Extent, ResourceMap};
use std::alloc::Global;
use std::process::Abort;
use swap_book::{Grown, Held, Owner, SwapBook};
use swap_dmap::{chunk, chunks_for, place_of, text_place_of};

// Checks that so many blocks are found from this one on.
fn takes(rt: &impl Abort, blocks: &mut ResourceMap, n: u32, start: u32)
    requires { 0 < n }
    ensures { blocks.new ≡ taken blocks.old n (Some start) }
{
    let found = blocks.alloc(n).expect(rt, "memory");
    assert_eq!(rt; found, Some(start));
}

// Checks that so many blocks are found nowhere.
fn refuses(rt: &impl Abort, blocks: &mut ResourceMap, n: u32)
    requires { 0 < n }
    ensures { blocks.new ≡ taken blocks.old n None }
{
    let found = blocks.alloc(n).expect(rt, "memory");
    assert_eq!(rt; found, None);
}

#[test]
fn the_lowest_fit_is_taken_and_what_touches_merges(rt: HostRuntime) {
    let mut map = ResourceMap::new(rt.alloc(), 10).expect(&rt, "memory for a map");
    takes(&rt, &mut map, 4, 0);
    takes(&rt, &mut map, 4, 4);
    refuses(&rt, &mut map, 3);
    map.free(0, 4);
    takes(&rt, &mut map, 2, 0);
    refuses(&rt, &mut map, 3);
    map.free(4, 4);
    takes(&rt, &mut map, 8, 2);
}

fn extent(start: u32, length: u32) -> Extent {
    Extent { start, length }
}

#[test]
fn no_extent_crosses_a_unit(rt: HostRuntime) {
    let mut map = ResourceMap::new(rt.alloc(), 2500).expect(&rt, "memory for a map");
    are(
        &rt,
        map.extents(),
        &[extent(0, 1024), extent(1024, 1024), extent(2048, 452)],
    );
    let starts = [
        map.alloc(1000),
        map.alloc(100),
        map.alloc(24),
        map.alloc(1000),
    ];
    is(
        &rt,
        &starts,
        &[Ok(Some(0)), Ok(Some(1024)), Ok(Some(1000)), Ok(None)],
    );
}

// Data lies from a chunk's start on, and stack from its end. Chunks double up to 1,024 blocks, and as few are held as will
// do. Text lies in pieces of 1,024 blocks.
#[test]
fn pages_lie_in_chunks_and_pieces(rt: HostRuntime) {
    let places = [
        place_of(0, false),
        place_of(0, true),
        place_of(16, false),
        place_of(16, true),
    ];
    let chunks = [chunk(4), chunk(5), chunk(12)];
    let counts = [chunks_for(0), chunks_for(96), chunks_for(98)];
    let text_places = [text_place_of(511), text_place_of(512)];
    is(&rt, &places, &[(0, 0), (0, 30), (1, 0), (1, 62)]);
    is(&rt, &(chunks, counts), &([512, 1024, 1024], [0, 2, 3]));
    is(&rt, &text_places, &[(0, 1022), (1, 0)]);
}

fn held(owner: Owner, start: u32, length: u32) -> Held {
    Held {
        owner,
        start,
        length,
    }
}

// A book in which one process has its text, data and stack of a page each, and its u page.
fn one_process(rt: &impl Abort, alloc: Global) -> SwapBook {
    let mut book = SwapBook::new(alloc, 256).expect(rt, "memory for a book");
    let grown = [
        book.grow(Owner::Text(1), 2),
        book.grow(Owner::Data(1), 2),
        book.grow(Owner::Stack(1), 2),
        book.grow(Owner::U(1), 2),
    ];
    is(
        rt,
        &grown,
        &[Ok(Grown::Ok), Ok(Grown::Ok), Ok(Grown::Ok), Ok(Grown::Ok)],
    );
    book
}

#[test]
fn pieces_are_found_in_turn_and_all_or_none(rt: HostRuntime) {
    let mut book = one_process(&rt, rt.alloc());
    let blocks = [
        book.block_of(Owner::Data(1), 15),
        book.block_of(Owner::Stack(1), 0),
        book.block_of(Owner::U(1), 0),
        book.block_of(Owner::Text(1), 1),
    ];
    let grown = [book.grow(Owner::Data(1), 34), book.grow(Owner::Data(1), 98)];
    let all = [
        held(Owner::Text(1), 0, 2),
        held(Owner::Data(1), 2, 32),
        held(Owner::Stack(1), 34, 32),
        held(Owner::U(1), 66, 2),
        held(Owner::Data(1), 68, 64),
    ];
    is(&rt, &blocks, &[Some(32), Some(64), Some(66), None]);
    is(&rt, &grown, &[Ok(Grown::Ok), Ok(Grown::NoFit(128))]);
    are(&rt, book.holdings(), &all);
}

#[test]
fn the_last_chunks_are_given_back(rt: HostRuntime) {
    let mut book = one_process(&rt, rt.alloc());
    let grown = book.grow(Owner::Stack(1), 34);
    book.shrink(Owner::Stack(1), 32);
    book.drop_owner(Owner::Data(1));
    let left = [
        held(Owner::Text(1), 0, 2),
        held(Owner::Stack(1), 34, 32),
        held(Owner::U(1), 66, 2),
    ];
    is(&rt, &grown, &Ok(Grown::Ok));
    are(&rt, book.holdings(), &left);
}
