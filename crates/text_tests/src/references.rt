//! The fewest faults of any replacement, the faults of the least recently used, and the texts that tell both.
use crate::checks::{are, is};
use page_opt::{Plan, Victim, check_plan, least_faults};
use reference_answers::{curve_text, optimum_text};
use stack_dist::curve;
use std::alloc::Global;
use std::process::Abort;
use vm_facts::Page;

static REFERENCES: [u32; 12] = [1, 2, 3, 4, 1, 2, 5, 1, 2, 3, 4, 5];

// The page that leaves at a reference.
macro_rules! victim {
    ($at:expr, $page:expr) => {
        Victim {
            at: $at,
            page: $page,
        }
    };
}

// The victims of a plan of these references with three frames that has the fewest faults.
static LEAST: [Victim; 4] = [victim!(4, 3), victim!(7, 4), victim!(10, 1), victim!(11, 2)];

// A plan with so many frames that has the fewest faults.
fn plan_of(rt: &impl Abort, alloc: Global, refs: &[u32], frames: u32) -> Plan {
    assert!(rt; frames > 0);
    assert!(rt; refs.len() <= 4_000_000);
    least_faults(alloc, refs, frames).expect(rt, "memory for a plan")
}

#[test]
fn the_page_used_again_last_leaves(rt: HostRuntime) {
    let plan = plan_of(&rt, rt.alloc(), &REFERENCES, 3);
    is(&rt, &plan.faults, &7);
    are(&rt, plan.victims.as_slice(), &LEAST);
}

// The fewest faults with so many frames.
fn fewest(rt: &impl Abort, alloc: Global, refs: &[u32], frames: u32) -> u32 {
    plan_of(rt, alloc, refs, frames).faults
}

#[test]
fn the_fewest_faults_of_known_references_are_found(rt: HostRuntime) {
    let alloc = rt.alloc();
    let faults = [
        fewest(&rt, alloc, &REFERENCES, 3),
        fewest(&rt, alloc, &REFERENCES, 4),
        fewest(&rt, alloc, &REFERENCES, 1),
        fewest(&rt, alloc, &REFERENCES, 5),
        fewest(&rt, alloc, &[], 1),
        fewest(&rt, alloc, &[7, 7, 7, 7], 1),
        fewest(&rt, alloc, &[5, 4, 3, 2, 1], 2),
    ];
    is(&rt, &faults, &[7, 6, 12, 5, 0, 1, 5]);
}

// A victim after the last reference.
static ONE_MORE: [Victim; 5] = [
    victim!(4, 3),
    victim!(7, 4),
    victim!(10, 1),
    victim!(11, 2),
    victim!(12, 5),
];

// A page that left before.
static TWICE: [Victim; 2] = [victim!(4, 3), victim!(7, 3)];

// Another plan, with more faults.
static NINE_FAULTS: [Victim; 6] = [
    victim!(2, 1),
    victim!(5, 2),
    victim!(6, 3),
    victim!(7, 4),
    victim!(10, 1),
    victim!(11, 2),
];

// A page that isn't there yet.
static TOO_EARLY: [Victim; 1] = [victim!(0, 3)];

// The faults of a plan of those references with three frames, where it is one.
fn faults_of(rt: &impl Abort, alloc: Global, victims: &[Victim]) -> Option<u32> {
    check_plan(alloc, &REFERENCES, 3, victims).expect(rt, "memory to check a plan")
}

#[test]
fn the_faults_of_a_plan_are_counted_where_it_is_one(rt: HostRuntime) {
    let alloc = rt.alloc();
    let faults = [
        faults_of(&rt, alloc, &LEAST),
        faults_of(&rt, alloc, &LEAST[..3]),
        faults_of(&rt, alloc, &ONE_MORE),
        faults_of(&rt, alloc, &TWICE),
        faults_of(&rt, alloc, &NINE_FAULTS),
        faults_of(&rt, alloc, &TOO_EARLY),
        faults_of(&rt, alloc, &[]),
    ];
    is(
        &rt,
        &faults,
        &[Some(7), None, None, None, Some(9), None, None],
    );
}

// Checks the faults of the least recently used at each size.
fn are_lru(rt: &impl Abort, alloc: Global, refs: &[u32], wanted: &[u32]) {
    assert!(rt; refs.len() <= 4_000_000);
    let faults = curve(alloc, refs).expect(rt, "memory for a curve");
    are(rt, faults.as_slice(), wanted);
}

#[test]
fn least_recently_used_faults_at_each_size(rt: HostRuntime) {
    let alloc = rt.alloc();
    are_lru(&rt, alloc, &REFERENCES, &[12, 12, 10, 8, 5]);
    are_lru(&rt, alloc, &[], &[]);
    are_lru(&rt, alloc, &[7, 7, 7, 7], &[1]);
    are_lru(&rt, alloc, &[9, 4, 0, 4_294_967_295], &[4, 4, 4, 4]);
}

// What a program touches that stores a longword over the edge of two pages of data, and goes on with the lower one.
static EDGE_STORE: [Page; 9] = [
    Page::Text { image: 1, v: 0 },
    Page::Text { image: 1, v: 0 },
    Page::Data { sid: 1, v: 0 },
    Page::Data { sid: 1, v: 1 },
    Page::Text { image: 1, v: 0 },
    Page::Data { sid: 1, v: 0 },
    Page::Text { image: 1, v: 0 },
    Page::Text { image: 1, v: 0 },
    Page::Data { sid: 1, v: 0 },
];

// Pages of three segments with the same two numbers.
static SEGMENTS: [Page; 4] = [
    Page::Stack { sid: 2, v: 0 },
    Page::Data { sid: 2, v: 0 },
    Page::Text { image: 2, v: 0 },
    Page::Stack { sid: 2, v: 0 },
];

// Checks the text about the fewest faults.
fn is_optimum(rt: &impl Abort, alloc: Global, refs: &[Page], frames: u32, wanted: &str) {
    assert!(rt; frames > 0);
    assert!(rt; refs.len() <= 1_000);
    let text = optimum_text(alloc, refs, frames).expect(rt, "memory for a text");
    are(rt, text.as_slice(), wanted.as_bytes());
}

#[test]
fn the_optimum_names_its_victims(rt: HostRuntime) {
    let edge = "references 9\npages 3\nframes 2\nleast faults 4\nv 4 d 1 0\nv 6 d 1 1\n";
    is_optimum(&rt, rt.alloc(), &EDGE_STORE, 2, edge);
    let segments =
        "references 4\npages 3\nframes 1\nleast faults 4\nv 2 s 2 0\nv 3 d 2 0\nv 4 x 2 0\n";
    is_optimum(&rt, rt.alloc(), &SEGMENTS, 1, segments);
}

// Checks the text about the faults of the least recently used.
fn is_curve(rt: &impl Abort, alloc: Global, refs: &[Page], wanted: &str) {
    assert!(rt; refs.len() <= 1_000);
    let text = curve_text(alloc, refs).expect(rt, "memory for a text");
    are(rt, text.as_slice(), wanted.as_bytes());
}

#[test]
fn a_curve_has_a_line_for_each_size(rt: HostRuntime) {
    let edge = "references 9\npages 3\n1 7\n2 5\n3 3\n";
    is_curve(&rt, rt.alloc(), &EDGE_STORE, edge);
    is_curve(&rt, rt.alloc(), &[], "references 0\npages 0\n");
}
