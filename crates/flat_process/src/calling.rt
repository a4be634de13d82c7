//! What a process's call comes to among the other processes. Nothing is changed: `flat_machine` does what the reply
//! says.
ghost use Rattle.std.specs.Prelude.{◌≡◌, ℕ, ◌+◌, ◌^◌, ◌<◌, ◌≤◌, ◌==◌, nat_lt, find, length, Option, Some, None, Bool, true, false, IfOk, IsSome, List, option_copied};
ghost use Rattle.user_vax.specs.Program.{run};
ghost use Rattle.flat_state.specs.Flat.{NamedImage, image_numbered, Process as Record, FlatState};
ghost use Rattle.flat_state.specs.Change.{is_zombie_child};
ghost use Rattle.flat_state.specs.Space.{answers_of, Space};
ghost use Rattle.flat_model.specs.Calls.{process_limit, replied, replied_both, child_by, break_reply, arguments_at, starts, path_image, string_from, string_limit, execve_of, execve_reply, wait_by, or_fault, wants_space, refused_reply, reply_of, refusal_of};
ghost use Rattle.flat_process.specs.Images.{IsPathImage, with_number, CanChange, CanReply, CanAnswer};

use crate::process::{Process, with_results};
use crate::program::{Program, numbered, program_at};
use crate::space::FlatSpace;
use flat_model::{
    Asked, DATA_LIMIT, E2BIG, EAGAIN, ECHILD, EFAULT, ENOENT, ENOMEM, PROCESS_LIMIT, Reply,
    SystemCall, argument, arguments_at, exit_reply, start_page, start_regs, string_from,
    three_arguments, write_reply,
};
use flat_state::Change;
use std::alloc::Global;
use vm_facts::{Memory, NoMemory, Regs};

/// R0 and the carry.
#[tactic(auto, unfolding(user_vax::specs::Operands::with_register))]
pub fn replied(regs: Regs, carry: bool, r0: u32) -> Regs
    ensures { result ≡ replied regs carry r0 }
{
    let mut after = regs;
    after.r[0] = r0;
    after.c = carry;
    after
}

// R0 and R1, with the carry clear.
fn replied_both(regs: Regs, r0: u32, r1: u32) -> Regs
    ensures { result ≡ replied_both regs r0 r1 }
{
    let mut after = with_results(regs, r0, r1);
    after.c = false;
    after
}

// A further process, where there are fewer than may be.
fn child_reply(processes: usize, regs: Regs, child: u32, change: Change) -> Reply
    ensures value { result ≡ child_by (nat_lt processes process_limit) regs child change }
    ensures sound { (images : List NamedImage) → CanChange images change → CanReply images result }
{
    if processes < PROCESS_LIMIT {
        Reply::Does(replied_both(regs, child, 0), change)
    } else {
        Reply::Fails(EAGAIN)
    }
}

#[tactic(auto, using(user_vax::proofs::Runs::run_bind), unfolding(flat_model::specs::Calls::break_reply))]
fn break_reply(space: &FlatSpace, regs: Regs) -> Asked<Reply>
    ensures value { result ≡ run (answers_of space.now) (break_reply space.now regs) }
    ensures sound { (images : List NamedImage) → CanAnswer images result }
{
    let address = argument(space, regs, 1)?;
    let data_pages = space.pages_up_to(address);
    if data_pages <= DATA_LIMIT {
        let stack_pages = space.stack_pages();
        Ok(Reply::Does(
            replied(regs, false, 0),
            Change::Resize {
                data_pages,
                stack_pages,
            },
        ))
    } else {
        Ok(Reply::Fails(ENOMEM))
    }
}

// The first child of a process.
fn first_child(list: &[Process], pid: u32) -> Option<&Process>
    ensures { option_copied result ≡ find (λ q. q.parent == pid) list.now }
{
    list.iter().find(|child| child.parent() == pid)
}

// The lowest zombie child of a process.
fn zombie_child(list: &[Process], pid: u32) -> Option<&Process>
    ensures { option_copied result ≡ find (is_zombie_child pid) list.now }
{
    list.iter().find(|child| child.is_zombie_child(pid))
}

fn wait_reply(list: &[Process], pid: u32, regs: Regs) -> Reply
    ensures value { result ≡ wait_by (find (λ q. q.parent == pid) list.now) (find (is_zombie_child pid) list.now) regs }
    ensures sound { (images : List NamedImage) → CanReply images result }
{
    match first_child(list, pid) {
        None => Reply::Fails(ECHILD),
        Some(_) => match zombie_child(list, pid) {
            None => Reply::Waits,
            Some(zombie) => {
                let child = zombie.pid();
                Reply::Does(
                    replied_both(regs, child, zombie.status()),
                    Change::Reap { child },
                )
            }
        },
    }
}

fn or_fault(asked: Asked<Reply>) -> Reply
    ensures value { result ≡ or_fault asked }
    ensures sound { (images : List NamedImage) → CanAnswer images asked → CanReply images result }
{
    match asked {
        Ok(reply) => reply,
        Err(_) => Reply::Fails(EFAULT),
    }
}

fn wants_space(change: &Change) -> bool
    ensures { result ≡ wants_space change.now }
{
    match change {
        Change::Resize { .. } | Change::Fork { .. } | Change::Lend { .. } | Change::Exec { .. } => {
            true
        }
        Change::Keep | Change::Reap { .. } | Change::Sleep | Change::End { .. } => false,
    }
}

/// The reply where the pieces of swap space that it wants found no place, or where they did.
pub fn refused_reply(refused: bool, reply: Reply) -> Reply
    ensures value { result ≡ refused_reply refused reply }
    ensures sound { (images : List NamedImage) → CanReply images reply → CanReply images result }
{
    if !refused {
        return reply;
    }
    match reply {
        Reply::Does(regs, change) => {
            if wants_space(&change) {
                Reply::Fails(ENOMEM)
            } else {
                Reply::Does(regs, change)
            }
        }
        Reply::Fails(error) => Reply::Fails(error),
        Reply::Writes(bytes) => Reply::Writes(bytes),
        Reply::Waits => Reply::Waits,
        Reply::Exits(status) => Reply::Exits(status),
    }
}

// The image of this number, with the arguments at an address.
#[tactic(auto, using(user_vax::proofs::Runs::run_bind))]
fn start_image<M: Memory>(
    alloc: Global,
    programs: &[Program],
    memory: &M,
    image: u32,
    argv: u32,
) -> Result<Asked<Reply>, NoMemory>
    requires { IsSome (image_numbered programs.now image) }
    ensures value { IfOk result (λ asked. asked ≡ run (M.answers memory.now) (execve_of argv (with_number image (image_numbered programs.now image)))) }
    ensures sound { IfOk result (CanAnswer programs.now) }
{
    match arguments_at(alloc, memory, argv)? {
        Err(refused) => Ok(Err(refused)),
        Ok(None) => Ok(Ok(Reply::Fails(E2BIG))),
        Ok(Some(arguments)) => {
            let program = program_at(programs, image);
            let top = start_page(alloc, &arguments)?;
            Ok(Ok(Reply::Does(
                start_regs(program.entry(), &arguments),
                Change::Exec { image, top },
            )))
        }
    }
}

// The number of the image of the path at an address.
#[tactic(auto, using(user_vax::proofs::Runs::run_bind))]
fn path_image<M: Memory>(
    alloc: Global,
    programs: &[Program],
    memory: &M,
    path: u32,
) -> Result<Asked<Option<u32>>, NoMemory>
    requires { length programs.now < 2 ^ 31 }
    ensures { IfOk result (λ asked. IsPathImage programs.now (run (M.answers memory.now) (string_from string_limit path)) asked) }
{
    match string_from(alloc, memory, path)? {
        Err(refused) => Ok(Err(refused)),
        Ok(None) => Ok(Ok(None)),
        Ok(Some(name)) => Ok(Ok(numbered(programs, name.as_slice()))),
    }
}

#[tactic(auto, using(user_vax::proofs::Runs::run_bind), unfolding(flat_model::specs::Calls::execve_reply))]
fn execve_reply<M: Memory>(
    alloc: Global,
    programs: &[Program],
    memory: &M,
    regs: Regs,
) -> Result<Asked<Reply>, NoMemory>
    requires { length programs.now < 2 ^ 31 }
    ensures value { IfOk result (λ asked. asked ≡ run (M.answers memory.now) (execve_reply programs.now regs)) }
    ensures sound { IfOk result (CanAnswer programs.now) }
{
    match three_arguments(memory, regs) {
        Err(refused) => Ok(Err(refused)),
        Ok((path, argv, _)) => match path_image(alloc, programs, memory, path)? {
            Err(refused) => Ok(Err(refused)),
            Ok(None) => Ok(Ok(Reply::Fails(ENOENT))),
            Ok(Some(image)) => start_image(alloc, programs, memory, image, argv),
        },
    }
}

// How what is read of a value is refused, if it is.
fn refusal_of<T: Drop>(asked: Asked<T>) -> Asked<()>
    ensures { result ≡ refusal_of asked }
{
    match asked {
        Ok(_) => Ok(()),
        Err(refused) => Err(refused),
    }
}

/// Reads what a call reads, and says how the first refused byte is refused.
#[tactic(auto, using(crate::proofs::Paging::exit_reads, crate::proofs::Paging::break_reads), unfolding(flat_model::specs::Calls::reply_of))]
pub fn read_by_call<M: Memory>(
    alloc: Global,
    programs: &[Program],
    memory: &M,
    call: SystemCall,
    regs: Regs,
) -> Result<Asked<()>, NoMemory>
    requires { length programs.now < 2 ^ 31 }
    ensures { (F : FlatState) (p : Record) (s : Space)
        → IfOk result (λ asked. asked ≡ refusal_of (run (M.answers memory.now) (reply_of programs.now F p s call regs))) }
{
    match call {
        SystemCall::Exit | SystemCall::Break => Ok(refusal_of(argument(memory, regs, 1))),
        SystemCall::Write => Ok(refusal_of(write_reply(alloc, memory, regs)?)),
        SystemCall::Execve => Ok(refusal_of(execve_reply(alloc, programs, memory, regs)?)),
        SystemCall::Fork | SystemCall::Getpid | SystemCall::Vfork | SystemCall::Wait => Ok(Ok(())),
    }
}

/// What the call of a process comes to, which has this space, among these processes.
#[tactic(auto, unfolding(flat_model::specs::Calls::reply_of))]
pub fn reply(
    alloc: Global,
    programs: &[Program],
    list: &[Process],
    next_pid: u32,
    process: &Process,
    space: &FlatSpace,
    call: SystemCall,
    regs: Regs,
) -> Result<Reply, NoMemory>
    requires { length programs.now < 2 ^ 31 }
    ensures value { (sid : ℕ) → IfOk result (λ r. r ≡ or_fault (run (answers_of space.now) (reply_of programs.now (record {
      processes = list.now;
      next_pid = next_pid;
      next_sid = sid;
    }) process.now space.now call regs))) }
    ensures sound { IfOk result (CanReply programs.now) }
{
    match call {
        SystemCall::Exit => Ok(or_fault(exit_reply(space, regs))),
        SystemCall::Write => Ok(or_fault(write_reply(alloc, space, regs)?)),
        SystemCall::Break => Ok(or_fault(break_reply(space, regs))),
        SystemCall::Execve => Ok(or_fault(execve_reply(alloc, programs, space, regs)?)),
        SystemCall::Getpid => Ok(Reply::Does(
            replied_both(regs, process.pid(), process.parent()),
            Change::Keep,
        )),
        SystemCall::Fork => Ok(child_reply(
            list.len(),
            regs,
            next_pid,
            Change::Fork { child: next_pid },
        )),
        SystemCall::Vfork => Ok(child_reply(
            list.len(),
            regs,
            next_pid,
            Change::Lend { child: next_pid },
        )),
        SystemCall::Wait => Ok(wait_reply(list, process.pid(), regs)),
    }
}
