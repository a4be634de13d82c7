//! Reads what a call asks of its process's memory, up to the first refused byte. It may change nothing, since
//! `proc_run` asks it of calls that aren't made yet.
ghost use Rattle.std.specs.Prelude.{◌≡◌, ◌+◌, ◌^◌, ◌<◌, ◌≤◌, List, length, Some, IfSome, IfOk, string_bytes, bytes_eq};
ghost use Rattle.user_vax.specs.Program.{run};
ghost use Rattle.flat_state.specs.Flat.{NamedImage, FlatState, Process};
ghost use Rattle.flat_state.specs.Space.{Space};
ghost use Rattle.flat_model.specs.Calls.{string_limit, string_from, execve_of, execve_reply, reply_of, refusal_of};
ghost use Rattle.call_reads.specs.Reading.{AreShown, number_from, IsPathImage, IsAmong, EntriesFit, StartsAs, execve_from};

use flat_model::{
    Asked, E2BIG, ENOENT, Reply, SystemCall, argument, arguments_at, start_page, start_regs,
    string_from, three_arguments, write_reply,
};
use flat_state::Change;
use machine_state::Named;
use std::alloc::Global;
use vm_facts::{Bytes, Memory, NoMemory, Regs};

// Whether an image has this name.
fn is_named(named: &Named, name: &[u8]) -> bool
    ensures { result ≡ bytes_eq (string_bytes named.now.name) name.now }
{
    named.name.as_bytes() == name
}

// The number of the image with this name.
fn numbered(images: &[Named], name: &[u8]) -> Option<u32>
    requires { length images.now ≤ 16 }
    ensures number { result ≡ number_from 1 images.now name.now }
    ensures within { IfSome result (IsAmong images.now) }
{
    for place in 0..images.len() {
        if is_named(&images[place], name) {
            return Some(place as u32 + 1);
        }
    }
    None
}

// The number of the image of a path that was read.
#[tactic(auto, using(crate::proofs::Names::image_is))]
fn image_at(images: &[Named], path: Asked<Option<Bytes>>) -> Asked<Option<u32>>
    requires { length images.now ≤ 16 }
    ensures image { (known : List NamedImage) → AreShown known images.now → IsPathImage known images.now path result }
    ensures within { IfOk result (λ number. IfSome number (IsAmong images.now)) }
{
    match path {
        Err(refused) => Err(refused),
        Ok(None) => Ok(None),
        Ok(Some(name)) => Ok(numbered(images, name.as_slice())),
    }
}

// The number of the image of the path at an address.
#[tactic(auto, using(user_vax::proofs::Runs::run_bind, crate::proofs::Names::image_is))]
fn path_image<M: Memory>(
    alloc: Global,
    images: &[Named],
    memory: &M,
    path: u32,
) -> Result<Asked<Option<u32>>, NoMemory>
    requires { length images.now ≤ 16 }
    ensures image { (known : List NamedImage) → AreShown known images.now
        → IfOk result (λ asked. IsPathImage known images.now (run (M.answers memory.now) (string_from string_limit path)) asked) }
    ensures within { IfOk result (λ asked. IfOk asked (λ number. IfSome number (IsAmong images.now))) }
{
    Ok(image_at(images, string_from(alloc, memory, path)?))
}

// The image of this number with this first instruction, with the arguments at an address.
#[tactic(auto, using(user_vax::proofs::Runs::run_bind))]
fn start_of<M: Memory>(
    alloc: Global,
    memory: &M,
    image: u32,
    entry: u32,
    argv: u32,
) -> Result<Asked<Reply>, NoMemory>
    requires { entry + 2 < 2 ^ 32 }
    ensures value { (known : NamedImage) → known.image.facts.entry ≡ entry
        → IfOk result (λ asked. asked ≡ run (M.answers memory.now) (execve_of argv (Some (image, known)))) }
    ensures starts { IfOk result (λ asked. IfOk asked (StartsAs (λ number. number ≡ image))) }
{
    match arguments_at(alloc, memory, argv)? {
        Err(refused) => Ok(Err(refused)),
        Ok(None) => Ok(Ok(Reply::Fails(E2BIG))),
        Ok(Some(arguments)) => {
            let top = start_page(alloc, &arguments)?;
            Ok(Ok(Reply::Does(start_regs(entry, &arguments), Change::Exec { image, top })))
        }
    }
}

// The image of the path at an address, with the arguments at another.
fn execve_at<M: Memory>(
    alloc: Global,
    images: &[Named],
    memory: &M,
    path: u32,
    argv: u32,
) -> Result<Asked<Reply>, NoMemory>
    requires few { length images.now ≤ 16 }
    requires entries { EntriesFit images.now }
    ensures value { (known : List NamedImage) → AreShown known images.now
        → IfOk result (λ asked. asked ≡ run (M.answers memory.now) (execve_from known path argv)) }
    ensures starts { IfOk result (λ asked. IfOk asked (StartsAs (IsAmong images.now))) }
{
    match path_image(alloc, images, memory, path)? {
        Err(refused) => Ok(Err(refused)),
        Ok(None) => Ok(Ok(Reply::Fails(ENOENT))),
        Ok(Some(image)) => {
            let entry = images[image as usize - 1].facts.entry;
            start_of(alloc, memory, image, entry, argv)
        }
    }
}

/// What execve comes to, where its pieces of swap find their places.
#[tactic(auto, using(user_vax::proofs::Runs::run_bind), unfolding(flat_model::specs::Calls::execve_reply))]
pub fn execve_reply<M: Memory>(
    alloc: Global,
    images: &[Named],
    memory: &M,
    regs: &Regs,
) -> Result<Asked<Reply>, NoMemory>
    requires few { length images.now ≤ 16 }
    requires entries { EntriesFit images.now }
    ensures value { (known : List NamedImage) → AreShown known images.now
        → IfOk result (λ asked. asked ≡ run (M.answers memory.now) (execve_reply known regs.now)) }
    ensures starts { IfOk result (λ asked. IfOk asked (StartsAs (IsAmong images.now))) }
{
    match three_arguments(memory, *regs) {
        Err(refused) => Ok(Err(refused)),
        Ok((path, argv, _)) => execve_at(alloc, images, memory, path, argv),
    }
}

// How what is read of a value is refused, if it is.
fn refusal_of<T: Drop>(asked: Asked<T>) -> Asked<()>
    ensures { result ≡ refusal_of asked }
{
    match asked {
        Ok(_) => Ok(()),
        Err(refused) => Err(refused),
    }
}

/// Reads what a call reads, and says how the first refused byte is refused.
#[tactic(auto, using(crate::proofs::Names::exit_reads, crate::proofs::Names::break_reads), unfolding(flat_model::specs::Calls::reply_of))]
pub fn read_by_call<M: Memory>(
    alloc: Global,
    images: &[Named],
    memory: &M,
    call: SystemCall,
    regs: &Regs,
) -> Result<Asked<()>, NoMemory>
    requires few { length images.now ≤ 16 }
    requires entries { EntriesFit images.now }
    ensures { (known : List NamedImage) (F : FlatState) (p : Process) (s : Space) → AreShown known images.now
        → IfOk result (λ asked. asked ≡ refusal_of (run (M.answers memory.now) (reply_of known F p s call regs.now))) }
{
    match call {
        SystemCall::Exit | SystemCall::Break => Ok(refusal_of(argument(memory, *regs, 1))),
        SystemCall::Write => Ok(refusal_of(write_reply(alloc, memory, *regs)?)),
        SystemCall::Execve => Ok(refusal_of(execve_reply(alloc, images, memory, regs)?)),
        SystemCall::Fork | SystemCall::Getpid | SystemCall::Vfork | SystemCall::Wait => Ok(Ok(())),
    }
}
