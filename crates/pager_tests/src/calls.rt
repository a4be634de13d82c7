//! System calls over the pager: whole journals, each after one call, by devices in memory.
ghost use Rattle.std.specs.Prelude.{◌∷◌, [], ◌≤◌};
ghost use Rattle.aout_image.specs.Image.{IsSound, file_length_of};
ghost use Rattle.vm_facts.specs.declared.page.Page.{Page};
ghost use Rattle.page_model.specs.Rank.{HasRoom};
ghost use Rattle.machine_state.specs.Going.{CanGoOn, IsRunning};
ghost use Rattle.proc_calls.specs.Callers.{IsCaller};
ghost use Rattle.pager_tests.specs.Ready.{MachineIsReady};

use crate::checks::is;
use crate::paging::{
    area, bring, data, file, filled, lines_of_filled, moved, of_two_text_pages, of_zeros,
    see_frames, see_lines, with_stack,
};
use aout_image::Image;
use io_edge::{Files, MemFiles, MemSwap, SwapDev};
use machine_state::Machine;
use proc_calls::{Called, brk, execve, exit, fork, getpid, kill, vfork, wait, write};
use proc_table::Life;
use std::alloc::Global;
use std::process::Abort;
use vm_facts::Regs;

// Registers of which the argument list stands at this address.
fn with_arguments(address: u32) -> Regs {
    let mut r = [0u32; 16];
    r[12] = address;
    Regs {
        r,
        n: false,
        z: false,
        v: false,
        c: false,
    }
}

// Where the number of the arguments lies at the start of a process in the image `first`, with its name as the only one: below a 0,
// the name in 8 bytes, two more 0s and the pointer to the name.
const ARGUMENTS: u32 = 0x7fff_ec00 - 28;

// That the first process may make a call.
fn see_caller(rt: &impl Abort, m: &Machine)
    requires ready { CanGoOn m.now }
    ensures { IsCaller m.now 1 }
{
    assert!(rt; m.due().is_none());
    assert!(rt; m.space(1).is_some());
    let process = m.processes().get(1).expect(rt, "the first process");
    assert!(rt; matches!(process.state, Life::Holds(1)));
    assert!(rt; !process.out);
}

// That there are 64 frames.
fn see_more_frames(rt: &impl Abort, m: &Machine)
    requires { IsRunning m.now }
    ensures { (page : Page) → HasRoom m.now.kernel.place (page ∷ []) }
{
    assert!(rt; m.core().frames() == 64);
}

// What is asked of the first process.
#[derive(Clone, Copy)]
enum Asked {
    Wait,
    Getpid,
    Vfork,
    Fork,
    Execve,
    Write,
    Exit,
    Break,
    Signal(u8),
}

// It makes this call with this argument list, or the signal ends it.
fn ask(
    rt: &impl Abort,
    alloc: Global,
    m: &mut Machine,
    files: &mut MemFiles,
    swap: &mut MemSwap,
    asked: Asked,
    arguments: u32,
)
    requires { MachineIsReady m.old (⟦<MemFiles as Files>⟧.holds files.old) (⟦<MemSwap as SwapDev>⟧.blocks swap.old) }
{
    see_caller(rt, m);
    let regs = with_arguments(arguments);
    match asked {
        Asked::Wait => {
            wait(m, 1, &regs).expect(rt, "a reply");
        }
        Asked::Getpid => {
            getpid(m, 1, &regs).expect(rt, "a reply");
        }
        Asked::Vfork => {
            vfork(m, 1, &regs).expect(rt, "a reply");
        }
        Asked::Fork => {
            see_more_frames(rt, m);
            fork(m, files, swap, 1, &regs).expect(rt, "a reply");
        }
        Asked::Execve => {
            see_frames(rt, m);
            execve(alloc, m, files, swap, 1, &regs).expect(rt, "a reply");
        }
        Asked::Write => {
            write(alloc, m, 1, &regs).expect(rt, "a reply");
        }
        Asked::Exit => {
            exit(m, files, swap, 1, &regs).expect(rt, "an end");
        }
        Asked::Break => {
            brk(m, files, swap, 1, &regs).expect(rt, "a reply");
        }
        Asked::Signal(signal) => {
            kill(m, files, swap, 1, signal).expect(rt, "an end");
        }
    }
}

// The first page of data is brought in, where it is to be.
fn bring_first(
    rt: &impl Abort,
    m: &mut Machine,
    files: &mut MemFiles,
    swap: &mut MemSwap,
    is_filled: bool,
)
    requires { MachineIsReady m.old (⟦<MemFiles as Files>⟧.holds files.old) (⟦<MemSwap as SwapDev>⟧.blocks swap.old) }
    ensures { MachineIsReady m.new (⟦<MemFiles as Files>⟧.holds files.new) (⟦<MemSwap as SwapDev>⟧.blocks swap.new) }
{
    if is_filled {
        bring(rt, m, files, swap, data(0));
    }
}

// Checks the whole journal of a machine whose first process, of this image, has its stack page and maybe a page of data, and then
// this is asked of it.
fn comes_to(
    rt: &impl Abort,
    alloc: Global,
    facts: Image,
    is_filled: bool,
    asked: Asked,
    arguments: u32,
    wanted: &str,
)
    requires sound { IsSound facts }
    requires short { file_length_of facts ≤ 32768 }
{
    let mut files = file(rt, alloc);
    let mut swap = area(rt, alloc, Vec::new(alloc));
    let mut m = with_stack(rt, alloc, &files, &swap, facts);
    bring_first(rt, &mut m, &mut files, &mut swap, is_filled);
    ask(rt, alloc, &mut m, &mut files, &mut swap, asked, arguments);
    let lines = Ok(String::new(alloc));
    see_lines(rt, alloc, &m, lines, wanted);
    m.end();
}

// Checks the lines behind those of a machine with 48 pages of data, after 17 moves of the hands, which begin a write; then this is asked
// of the first process. The frames that are free at the end.
fn comes_beside_a_write(
    rt: &impl Abort,
    alloc: Global,
    asked: Asked,
    arguments: u32,
    wanted: &str,
) -> u32 {
    let mut files = file(rt, alloc);
    let mut swap = area(rt, alloc, Vec::new(alloc));
    let mut m = filled(rt, alloc, &mut files, &mut swap, 48);
    moved(rt, &mut m, &mut files, &mut swap, 17);
    ask(rt, alloc, &mut m, &mut files, &mut swap, asked, arguments);
    let free = m.free_frames();
    see_lines(rt, alloc, &m, lines_of_filled(alloc, 48), wanted);
    m.end();
    free
}

#[test]
fn wait_with_no_child_fails(rt: HostRuntime) {
    comes_to(
        &rt,
        rt.alloc(),
        of_two_text_pages(),
        false,
        Asked::Wait,
        0,
        "Z s 1 0\nc 1 84 1 10 0\n",
    );
}

#[test]
fn getpid_tells_the_process_and_no_parent(rt: HostRuntime) {
    comes_to(
        &rt,
        rt.alloc(),
        of_two_text_pages(),
        false,
        Asked::Getpid,
        0,
        "Z s 1 0\nc 1 20 0 1 0\n",
    );
}

#[test]
fn a_vfork_copies_nothing(rt: HostRuntime) {
    comes_to(
        &rt,
        rt.alloc(),
        of_two_text_pages(),
        true,
        Asked::Vfork,
        0,
        "Z s 1 0\nZ d 1 0\nc 1 66 0 2 0\n",
    );
}

#[test]
fn a_vfork_whose_child_finds_no_place_fails(rt: HostRuntime) {
    comes_to(
        &rt,
        rt.alloc(),
        of_zeros(),
        false,
        Asked::Vfork,
        0,
        "Z s 1 0\nf 1\nc 1 66 1 12 0\n",
    );
}

#[test]
fn a_fork_copies_the_pages_that_are_filled(rt: HostRuntime) {
    comes_to(
        &rt,
        rt.alloc(),
        of_two_text_pages(),
        true,
        Asked::Fork,
        0,
        "Z s 1 0\nZ d 1 0\nc 1 2 0 2 0\nC d 2 0\nC s 2 0\n",
    );
}

#[test]
fn a_fork_whose_pieces_find_no_place_fails(rt: HostRuntime) {
    comes_to(
        &rt,
        rt.alloc(),
        of_zeros(),
        false,
        Asked::Fork,
        0,
        "Z s 1 0\nf 1\nc 1 2 1 12 0\n",
    );
}

#[test]
fn an_execve_fills_its_new_stack_page(rt: HostRuntime) {
    comes_to(
        &rt,
        rt.alloc(),
        of_two_text_pages(),
        false,
        Asked::Execve,
        ARGUMENTS,
        "Z s 1 0\nc 1 59 0 0 0\nZ s 2 0\n",
    );
}

#[test]
fn an_execve_whose_pieces_find_no_place_fails(rt: HostRuntime) {
    comes_to(
        &rt,
        rt.alloc(),
        of_zeros(),
        false,
        Asked::Execve,
        ARGUMENTS,
        "Z s 1 0\nf 1\nc 1 59 1 12 0\n",
    );
}

#[test]
fn a_write_of_no_bytes_only_replies(rt: HostRuntime) {
    comes_to(
        &rt,
        rt.alloc(),
        of_two_text_pages(),
        false,
        Asked::Write,
        ARGUMENTS - 4,
        "Z s 1 0\nc 1 4 0 0 0\n",
    );
}

// The argument list of an exit or a break stands in page 40 of the data.
const OF_PAGE_40: u32 = 1024 + 40 * 1024;

#[test]
fn a_write_ends_before_an_exit(rt: HostRuntime) {
    comes_beside_a_write(&rt, rt.alloc(), Asked::Exit, OF_PAGE_40, "H 17\nD\nx 1 0\n");
}

#[test]
fn a_write_ends_before_a_signal_ends_the_process(rt: HostRuntime) {
    comes_beside_a_write(&rt, rt.alloc(), Asked::Signal(11), 0, "H 17\nD\nx 1 11\n");
}

#[test]
fn a_write_ends_before_a_break_gives_pages_up(rt: HostRuntime) {
    let lines = "H 17\nD\nc 1 17 0 0 0\n";
    let free = comes_beside_a_write(&rt, rt.alloc(), Asked::Break, OF_PAGE_40, lines);
    is(&rt, &free, &62);
}

#[test]
fn a_call_whose_argument_is_in_no_frame_does_nothing(rt: HostRuntime) {
    let alloc = rt.alloc();
    let mut files = file(&rt, alloc);
    let mut swap = area(&rt, alloc, Vec::new(alloc));
    let mut m = with_stack(&rt, alloc, &files, &swap, of_zeros());
    see_caller(&rt, &m);
    let regs = with_arguments(1024);
    let called = brk(&mut m, &mut files, &mut swap, 1, &regs).expect(&rt, "an answer");
    let lines = Ok(String::new(alloc));
    see_lines(&rt, alloc, &m, lines, "Z s 1 0\n");
    m.end();
    assert!(&rt; matches!(called, Called::Miss { address: 1028 }));
}
