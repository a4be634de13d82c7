//! The flat machine: the stack page of an execve, what it gives in place of a bad entry, and the pages of a loop.
ghost use Rattle.replay_check.specs.Images.{AreImageFiles};

use crate::checks::{are, is};
use crate::fixtures::{mem_files, says};
use flat_model::{Arguments, start_page, start_regs};
use replay_check::{Expected, Flat, Misfit, are_images, are_numbers, explain, references};
use replay_command::explain_transcript;
use std::alloc::Global;
use std::process::Abort;
use vm_facts::{Bytes, Entry, Page};

// Adds a string to the arguments.
fn push(rt: &impl Abort, alloc: Global, arguments: &mut Arguments, text: &[u8]) {
    assert!(rt; arguments.as_slice().len() < 8);
    let bytes = Vec::from_slice(alloc, text).expect(rt, "memory for a string");
    assert!(rt; bytes.len() < 64);
    arguments
        .push(Bytes::from_vec(bytes))
        .expect(rt, "memory for an argument");
}

#[test]
fn arguments_stand_at_the_end_of_the_stack_page(rt: HostRuntime) {
    let mut arguments = Arguments::new(rt.alloc());
    push(&rt, rt.alloc(), &mut arguments, b"hi");
    push(&rt, rt.alloc(), &mut arguments, b"ab");
    let regs = start_regs(0, &arguments);
    let page = start_page(rt.alloc(), &arguments).expect(&rt, "memory for a page");
    let end = [
        2u8, 0, 0, 0, 0xf4, 0xeb, 0xff, 0x7f, 0xf7, 0xeb, 0xff, 0x7f, 0, 0, 0, 0, 0, 0, 0, 0, 0x68,
        0x69, 0, 0x61, 0x62, 0, 0, 0, 0, 0, 0, 0,
    ];
    let ends = page.as_slice().ends_with(&end);
    is(
        &rt,
        &(regs.r[14], regs.r[15], ends),
        &(0x7fff_ebe0, 2, true),
    );
}

// An image that goes round three instructions.
fn loop_image() -> [u8; 2048] {
    let mut file = [0u8; 2048];
    file[0] = 0x0b;
    file[1] = 0x01;
    file[5] = 0x04;
    // MOVL (SP),R0; MOVL R0,(SP); BRB to the first.
    let code = [0xd0u8, 0x6e, 0x50, 0xd0, 0x50, 0x6e, 0x11, 0xf8];
    for index in 0..8usize {
        file[1026 + index] = code[index];
    }
    file
}

// The loop as the one image, which has the number 1.
fn looping(rt: &impl Abort, alloc: Global) -> Vec<Flat>
    ensures { AreImageFiles result.items }
{
    let name = "loop".to_string(alloc).expect(rt, "memory for a name");
    let bytes = loop_image().to_vec(alloc).expect(rt, "memory for an image");
    let mut images: Vec<Flat> = Vec::with_capacity(alloc, 1).expect(rt, "memory for a list");
    images.push_reserved(Flat { name, bytes });
    assert!(rt; are_images(images.as_slice()));
    images
}

// Checks the pages that the entries of processes that start with image 1 touch.
fn touches(rt: &impl Abort, alloc: Global, images: &[Flat], entries: &[Entry], wanted: &[Page])
    requires { AreImageFiles images.now }
{
    assert!(rt; are_numbers(images.len(), &[1]));
    let pages = references(alloc, images, &[1], entries).expect(rt, "memory for pages");
    are(rt, pages.as_slice(), wanted);
}

// What comes in place of the first bad one of these entries.
fn misfit_of(rt: &impl Abort, alloc: Global, images: &[Flat], entries: &[Entry]) -> Option<Misfit>
    requires { AreImageFiles images.now }
{
    assert!(rt; are_numbers(images.len(), &[1]));
    assert!(rt; entries.len() <= 1_000);
    explain(alloc, images, &[1], entries).expect(rt, "memory for what comes")
}

const TEXT: Page = Page::Text { image: 1, v: 0 };

const STACK: Page = Page::Stack { sid: 1, v: 0 };

static TOUCHED: [Page; 7] = [TEXT, STACK, TEXT, STACK, TEXT, TEXT, STACK];

// The loop touches its text and its stack.
#[test]
fn a_loop_has_its_pages(rt: HostRuntime) {
    let images = looping(&rt, rt.alloc());
    let entries = [Entry::Ran { pid: 1, count: 4 }];
    touches(&rt, rt.alloc(), images.as_slice(), &entries, &TOUCHED);
}

// Checks that entry 2 was to be an instruction of process 1.
fn is_an_instruction(rt: &impl Abort, misfit: &Misfit) {
    assert_eq!(rt; misfit.number, 2);
    assert!(rt;
        matches!(
            misfit.expected,
            Expected::Comes(Entry::Ran { pid: 1, count: 1 })
        )
    );
}

// The fourth instruction of the loop isn't followed by a sleep.
#[test]
fn what_comes_in_place_of_a_bad_entry_is_told(rt: HostRuntime) {
    let images = looping(&rt, rt.alloc());
    let entries = [Entry::Ran { pid: 1, count: 4 }, Entry::Sleeps { pid: 1 }];
    let misfit = misfit_of(&rt, rt.alloc(), images.as_slice(), &entries);
    is_an_instruction(&rt, &misfit.expect(&rt, "a bad entry"));
}

// By words of which none starts a process; the words of a command line have one that does.
#[test]
fn there_is_no_process_where_no_image_starts(rt: HostRuntime) {
    let alloc = rt.alloc();
    let image = loop_image();
    let held: [(&str, &[u8]); 2] = [("run", b"t 1\nr 1 2\n"), ("loop", &image)];
    let mut files = mem_files(&rt, alloc, &held, &[]);
    let Ok(told) = explain_transcript(alloc, &mut files, "run", &["=loop"]) else {
        panic!(&rt; "not read");
    };
    says(&rt, told, b"vmrun: ", b"line 2: there is no process 1");
}
