//! What calls read of a memory: arguments, paths, bytes to write. It works over any memory, so the pager and the flat
//! machine read alike.
ghost use Rattle.std.specs.Prelude.{◌≡◌, ℕ, ◌+◌, ◌*◌, ◌^◌, ◌<◌, ◌≤◌, ◌==◌, ◌||◌, Bool, true, IfOk, Ok, min, length, All};
ghost use Rattle.user_vax.specs.Program.{run};
ghost use Rattle.flat_model.specs.Arguments.{IsShort};
ghost use Rattle.flat_model.specs.Calls.{string_limit, argument_limit, argument, three_arguments, bytes_from, string_from, arguments_from, arguments_at, exit_reply, write_reply, written_to, ChangesNothing};

use crate::arguments::Arguments;
use crate::calls::{ARGUMENT_LIMIT, EBADF, Reply, STRING_LIMIT, WRITE_LIMIT};
use std::alloc::Global;
use user_vax::{Refused, read_byte, read_long};
use vm_facts::{Bytes, Memory, NoMemory, Regs};

/// What is read, or how the first refused byte is refused.
pub type Asked<T> = Result<T, Refused>;

/// The call's argument of this number, counted from 1.
#[tactic(auto, unfolding(crate::specs::Calls::argument))]
pub fn argument<M: Memory>(memory: &M, regs: Regs, number: u32) -> Asked<u32>
    requires { number < 16 }
    ensures { result ≡ run (M.answers memory.now) (argument regs number) }
{
    read_long(memory, regs.r[12].wrapping_add(4 * number))
}

/// The first three arguments.
#[tactic(auto, using(user_vax::proofs::Runs::run_bind), unfolding(crate::specs::Calls::three_arguments))]
pub fn three_arguments<M: Memory>(memory: &M, regs: Regs) -> Asked<(u32, u32, u32)>
    ensures { result ≡ run (M.answers memory.now) (three_arguments regs) }
{
    let first = argument(memory, regs, 1)?;
    let second = argument(memory, regs, 2)?;
    let third = argument(memory, regs, 3)?;
    Ok((first, second, third))
}

/// The reply of exit.
#[tactic(auto, using(user_vax::proofs::Runs::run_bind), unfolding(crate::specs::Calls::exit_reply))]
pub fn exit_reply<M: Memory>(memory: &M, regs: Regs) -> Asked<Reply>
    ensures value { result ≡ run (M.answers memory.now) (exit_reply regs) }
    ensures plain { ChangesNothing result }
{
    let code = argument(memory, regs, 1)?;
    Ok(Reply::Exits(code % 256 * 256))
}

/// The reply of write.
#[tactic(auto, using(user_vax::proofs::Runs::run_bind), unfolding(crate::specs::Calls::write_reply))]
pub fn write_reply<M: Memory>(
    alloc: Global,
    memory: &M,
    regs: Regs,
) -> Result<Asked<Reply>, NoMemory>
    ensures value { IfOk result (λ asked. asked ≡ run (M.answers memory.now) (write_reply regs)) }
    ensures plain { IfOk result ChangesNothing }
{
    match three_arguments(memory, regs) {
        Err(refused) => Ok(Err(refused)),
        Ok((file, buffer, count)) => write_to(alloc, memory, file == 1 || file == 2, buffer, count),
    }
}

#[tactic(auto, using(user_vax::proofs::Runs::run_bind), unfolding(crate::specs::Calls::written_to))]
fn write_to<M: Memory>(
    alloc: Global,
    memory: &M,
    is_output: bool,
    buffer: u32,
    count: u32,
) -> Result<Asked<Reply>, NoMemory>
    ensures value { IfOk result (λ asked. asked ≡ run (M.answers memory.now) (written_to is_output buffer count)) }
    ensures plain { IfOk result ChangesNothing }
{
    if !is_output {
        return Ok(Ok(Reply::Fails(EBADF)));
    }
    match bytes_from(alloc, memory, count.min(WRITE_LIMIT), buffer)? {
        Err(refused) => Ok(Err(refused)),
        Ok(bytes) => Ok(Ok(Reply::Writes(bytes))),
    }
}

// So many bytes from an address on.
fn bytes_from<M: Memory>(
    alloc: Global,
    memory: &M,
    count: u32,
    address: u32,
) -> Result<Asked<Bytes>, NoMemory>
    ensures { IfOk result (λ asked. asked ≡ run (M.answers memory.now) (bytes_from count address)) }
{
    let mut bytes = Vec::new(alloc);
    for index in 0..count {
        match read_byte(memory, address.wrapping_add(index)) {
            Err(refused) => return Ok(Err(refused)),
            Ok(byte) => {
                if bytes.push(byte).is_err() {
                    return Err(NoMemory);
                }
            }
        }
    }
    Ok(Ok(Bytes::from_vec(bytes)))
}

/// The bytes from an address on up to a 0; None where the first 64 have no 0.
pub fn string_from<M: Memory>(
    alloc: Global,
    memory: &M,
    address: u32,
) -> Result<Asked<Option<Bytes>>, NoMemory>
    ensures value { IfOk result (λ asked. asked ≡ run (M.answers memory.now) (string_from string_limit address)) }
    ensures short { IfOk result IsShort }
{
    let mut bytes = Vec::new(alloc);
    for index in 0..STRING_LIMIT {
        match read_byte(memory, address.wrapping_add(index)) {
            Err(refused) => return Ok(Err(refused)),
            Ok(0) => return Ok(Ok(Some(Bytes::from_vec(bytes)))),
            Ok(byte) => {
                if bytes.push(byte).is_err() {
                    return Err(NoMemory);
                }
            }
        }
    }
    Ok(Ok(None))
}

/// The arguments of an execve whose pointers stand from an address on up to a 0, none at all where the
/// address is 0. None where there are more than 8, or one has no 0 in its first 64 bytes.
pub fn arguments_at<M: Memory>(
    alloc: Global,
    memory: &M,
    address: u32,
) -> Result<Asked<Option<Arguments>>, NoMemory>
    ensures { IfOk result (λ asked. asked ≡ run (M.answers memory.now) (arguments_at address)) }
{
    if address == 0 {
        return Ok(Ok(Some(Arguments::new(alloc))));
    }
    arguments_from(alloc, memory, address)
}

fn arguments_from<M: Memory>(
    alloc: Global,
    memory: &M,
    address: u32,
) -> Result<Asked<Option<Arguments>>, NoMemory>
    ensures { IfOk result (λ asked. asked ≡ run (M.answers memory.now) (arguments_from argument_limit address)) }
{
    let mut arguments = Arguments::new(alloc);
    for index in 0..ARGUMENT_LIMIT {
        match read_long(memory, address.wrapping_add(4 * index)) {
            Err(refused) => return Ok(Err(refused)),
            Ok(0) => return Ok(Ok(Some(arguments))),
            Ok(pointer) => {
                match string_from(alloc, memory, pointer)? {
                    Err(refused) => return Ok(Err(refused)),
                    Ok(None) => return Ok(Ok(None)),
                    Ok(Some(argument)) => arguments.push(argument)?,
                }
            }
        }
    }
    match read_long(memory, address.wrapping_add(4 * ARGUMENT_LIMIT)) {
        Err(refused) => Ok(Err(refused)),
        Ok(0) => Ok(Ok(Some(arguments))),
        Ok(_) => Ok(Ok(None)),
    }
}
