//! One instruction: fetched, evaluated, computed, and written, in this order. One that is refused leaves memory and
//! registers as they were.
ghost use Rattle.std.specs.Prelude.{◌≡◌, [], true, false, IfOk, OnOk, Some, Result, Ok, Err};
ghost use Rattle.vax_code.specs.Table.{row_for};
ghost use Rattle.vax_code.specs.Valid.{HasOperands};
ghost use Rattle.user_vax.specs.Program.{run};
ghost use Rattle.user_step.specs.Code.{reads_from};
ghost use Rattle.user_step.specs.FixedCode.{AreFixed, IsSameElsewhere};
ghost use Rattle.user_vax.specs.Instruction.{fetch, instruction, answer_of, registers_after, writes_of};
ghost use Rattle.user_vax.specs.Effects.{Effect, registers_only};
ghost use Rattle.user_vax.specs.Operands.{register};
ghost use Rattle.user_vax.specs.declared.refused.Refused.{Refused};
ghost use Rattle.vax_execute.specs.Outcomes.{HasPlaces, calls_procedure};
ghost use Rattle.vax_execute.specs.Plain.{is_plain};
ghost use Rattle.user_step.specs.Tried.{LeavesInstr, Prepares, CarriesOut, completion, registers_tried};

use crate::code::{Code, decode_first};
use crate::commit::{write_one, write_pushes};
use crate::decode_cache::DecodeCache;
use crate::decoding::Decoding;
use crate::fixed_code::FixedCode;
use user_vax::{Refused, SIGILL, Stepped, read_byte};
use vax_code::{Fault, Instr, Row, decode_into, row_of};
use vax_execute::{
    Outcome, Pushes, Ready, call, compute, compute_plain, evaluate_all, execute_in_registers,
    is_plain,
};
use vm_facts::{Memory, Regs};

/// Reads bytes from an address on, one more than an instruction has.
#[tactic(auto, using(crate::proofs::Fetching::reads_more, crate::proofs::Fetching::reads_all), unfolding(crate::specs::Code::reads_from))]
fn read_on<M: Memory>(memory: &M, pc: u32) -> Result<(), Refused>
    ensures { result ≡ run (M.answers memory.now) (reads_from pc 20) }
{
    for count in 0..20u32 {
        read_byte(memory, pc.wrapping_add(count))?;
    }
    Ok(())
}

/// Reads the instruction at an address byte by byte, each of its bytes once. Where they end within it, the first byte that
/// isn't there decides.
#[tactic(auto, using(crate::proofs::Fetching::fetched))]
fn fetch_by_bytes<M: Memory>(memory: &M, pc: u32, into: &mut Instr) -> Result<(), Refused>
    ensures value { LeavesInstr result into.new (run (M.answers memory.now) (fetch 20 pc [])) }
    ensures valid { OnOk result (HasOperands into.new) }
{
    match decode_into(&mut Code::from(memory, pc), into) {
        Ok(()) => Ok(()),
        Err(Fault::Bad) => Err(Refused::Signal(SIGILL)),
        Err(Fault::Short) => {
            read_on(memory, pc)?;
            Err(Refused::Signal(SIGILL))
        }
    }
}

/// Reads the instruction at an address: of the bytes that lie together, where they hold it whole.
#[tactic(auto, using(crate::proofs::Ahead::fetched_first, crate::proofs::Ahead::refused_first))]
fn fetch<M: Memory>(memory: &M, pc: u32, into: &mut Instr) -> Result<(), Refused>
    ensures value { LeavesInstr result into.new (run (M.answers memory.now) (fetch 20 pc [])) }
    ensures valid { OnOk result (HasOperands into.new) }
{
    match decode_first(memory.ahead(pc), into) {
        Ok(()) => Ok(()),
        Err(Fault::Bad) => Err(Refused::Signal(SIGILL)),
        Err(Fault::Short) => fetch_by_bytes(memory, pc, into),
    }
}

/// An instruction that was fetched at PC, as far as its operands; the registers become those after them.
#[inline(always)]
#[tactic(auto, using(user_vax::proofs::Runs::run_bind), unfolding(user_vax::specs::Instruction::instruction, user_vax::specs::Instruction::execution_by, user_vax::specs::Instruction::execution, crate::specs::Tried::completion))]
fn prepare_fetched<M: Memory>(
    memory: &M,
    regs: &mut Regs,
    row: &Row,
    instr: &Instr,
) -> Result<Ready, Refused>
    requires fetched { run (M.answers memory.now) (fetch 20 (register regs.old 15) []) ≡ Ok instr.now }
    requires listed { row_for instr.now.op ≡ Some row.now }
    requires operands { HasOperands instr.now }
    ensures value { Prepares (M.answers memory.now) result regs.new (run (M.answers memory.now) (instruction regs.old)) }
    ensures places { IfOk result HasPlaces }
{
    regs.r[15] = regs.r[15].wrapping_add(u32::from(instr.length));
    evaluate_all(memory, row, regs, instr)
}

/// The instruction that PC names, as far as its operands.
#[tactic(auto, using(user_vax::proofs::Runs::run_bind), unfolding(user_vax::specs::Instruction::instruction, user_vax::specs::Instruction::execution_by))]
fn prepare<M: Memory>(memory: &M, regs: &mut Regs) -> Result<Ready, Refused>
    ensures value { Prepares (M.answers memory.now) result regs.new (run (M.answers memory.now) (instruction regs.old)) }
    ensures places { IfOk result HasPlaces }
{
    let mut instr = Instr::blank();
    fetch(memory, regs.r[15], &mut instr)?;
    let Some(row) = row_of(instr.op) else {
        return Err(Refused::Signal(SIGILL));
    };
    prepare_fetched(memory, regs, &row, &instr)
}

/// Carries an instruction out from its operands on, where it may write all that it does. The registers are those after the
/// operands; those that it leaves take their place, which are worth nothing where it is refused.
#[tactic(auto, using(user_vax::proofs::Runs::run_bind), unfolding(crate::specs::Tried::completion, user_vax::specs::Instruction::tested_effect))]
fn complete<M: Memory>(
    memory: &mut M,
    regs: &mut Regs,
    ready: &Ready,
) -> Result<Option<i32>, Refused>
    requires places { HasPlaces ready.now }
    requires no_frame { calls_procedure ready.now.name ≡ false }
    ensures carried { CarriesOut result regs.new (run (M.answers memory.old) (completion ready.now regs.old)) }
    ensures wrote { M.wrote memory.old (writes_of (run (M.answers memory.old) (completion ready.now regs.old))) memory.new }
{
    let mut outcome = Outcome::none();
    compute(memory, regs, &mut outcome, ready)?;
    write_one(memory, outcome.write)?;
    Ok(outcome.call)
}

/// The same of an instruction that calls a procedure.
#[tactic(auto, using(user_vax::proofs::Runs::run_bind), unfolding(crate::specs::Tried::completion, user_vax::specs::Instruction::tested_effect))]
fn complete_call<M: Memory>(
    memory: &mut M,
    regs: &mut Regs,
    ready: &Ready,
) -> Result<Option<i32>, Refused>
    requires calls { calls_procedure ready.now.name ≡ true }
    ensures carried { CarriesOut result regs.new (run (M.answers memory.old) (completion ready.now regs.old)) }
    ensures wrote { M.wrote memory.old (writes_of (run (M.answers memory.old) (completion ready.now regs.old))) memory.new }
{
    let mut pushes = Pushes::none();
    call(memory, &mut pushes, regs, ready)?;
    write_pushes(memory, regs.r[14], &pushes)?;
    Ok(None)
}

/// The same of a plain instruction.
#[inline(always)]
#[tactic(auto, using(user_vax::proofs::Runs::run_bind), unfolding(crate::specs::Tried::completion, user_vax::specs::Instruction::tested_effect))]
fn complete_plain<M: Memory>(
    memory: &mut M,
    regs: &mut Regs,
    ready: &Ready,
) -> Result<Option<i32>, Refused>
    requires places { HasPlaces ready.now }
    requires plain { is_plain ready.now.name ≡ true }
    ensures carried { CarriesOut result regs.new (run (M.answers memory.old) (completion ready.now regs.old)) }
    ensures wrote { M.wrote memory.old (writes_of (run (M.answers memory.old) (completion ready.now regs.old))) memory.new }
{
    let mut outcome = Outcome::none();
    compute_plain(regs, &mut outcome, ready);
    write_one(memory, outcome.write)?;
    Ok(outcome.call)
}

/// The same of an instruction that isn't plain.
#[inline(never)]
fn complete_special<M: Memory>(
    memory: &mut M,
    regs: &mut Regs,
    ready: Ready,
) -> Result<Option<i32>, Refused>
    requires { HasPlaces ready }
    ensures carried { CarriesOut result regs.new (run (M.answers memory.old) (completion ready regs.old)) }
    ensures wrote { M.wrote memory.old (writes_of (run (M.answers memory.old) (completion ready regs.old))) memory.new }
{
    if ready.calls_procedure() {
        complete_call(memory, regs, &ready)
    } else {
        complete(memory, regs, &ready)
    }
}

/// The same of any instruction.
#[inline(always)]
fn finish<M: Memory>(memory: &mut M, regs: &mut Regs, ready: &Ready) -> Result<Option<i32>, Refused>
    requires { HasPlaces ready.now }
    ensures carried { CarriesOut result regs.new (run (M.answers memory.old) (completion ready.now regs.old)) }
    ensures wrote { M.wrote memory.old (writes_of (run (M.answers memory.old) (completion ready.now regs.old))) memory.new }
{
    if is_plain(ready.name) {
        complete_plain(memory, regs, ready)
    } else {
        complete_special(memory, regs, *ready)
    }
}

/// Carries the instruction that PC names out, or changes nothing but the registers and says why.
fn try_step<M: Memory>(regs: &mut Regs, memory: &mut M) -> Result<Option<i32>, Refused>
    ensures carried { CarriesOut result regs.new (run (M.answers memory.old) (instruction regs.old)) }
    ensures wrote { M.wrote memory.old (writes_of (run (M.answers memory.old) (instruction regs.old))) memory.new }
{
    let ready = prepare(memory, regs)?;
    finish(memory, regs, &ready)
}

/// The same of an instruction that is decoded.
#[inline(always)]
fn try_decoded<M: Memory>(
    decoding: &Decoding,
    regs: &mut Regs,
    memory: &mut M,
) -> Result<Option<i32>, Refused>
    requires { run (M.answers memory.old) (fetch 20 (register regs.old 15) []) ≡ Ok decoding.now.instr }
    ensures carried { CarriesOut result regs.new (run (M.answers memory.old) (instruction regs.old)) }
    ensures wrote { M.wrote memory.old (writes_of (run (M.answers memory.old) (instruction regs.old))) memory.new }
{
    let ready = prepare_fetched(memory, regs, &decoding.row, &decoding.instr)?;
    finish(memory, regs, &ready)
}

/// What is told of an instruction that was refused.
fn refusal(refused: Refused) -> Stepped
    ensures { result ≡ answer_of (Err refused) }
{
    match refused {
        Refused::Miss { address, write } => Stepped::Miss { address, write },
        Refused::Below { address } => Stepped::Below { address },
        Refused::Signal(number) => Stepped::Signal(number),
    }
}

/// What is told of an instruction that was tried. The registers become those before where it was refused.
fn settle(tried: Result<Option<i32>, Refused>, before: &Regs, regs: &mut Regs) -> Stepped
    ensures answer { (wanted : Result Effect Refused) → CarriesOut tried regs.old wanted → result ≡ answer_of wanted }
    ensures registers { (wanted : Result Effect Refused) → CarriesOut tried regs.old wanted → regs.new ≡ registers_after before.now wanted }
{
    match tried {
        Ok(None) => Stepped::Done,
        Ok(Some(number)) => Stepped::Call(number),
        Err(refused) => {
            *regs = *before;
            refusal(refused)
        }
    }
}

/// The same, but that the registers become those before after a call too.
fn settle_unless_call(
    tried: Result<Option<i32>, Refused>,
    before: &Regs,
    regs: &mut Regs,
) -> Stepped
    ensures answer { (wanted : Result Effect Refused) → CarriesOut tried regs.old wanted → result ≡ answer_of wanted }
    ensures registers { (wanted : Result Effect Refused) → CarriesOut tried regs.old wanted → regs.new ≡ registers_tried result before.now wanted }
{
    match tried {
        Ok(None) => Stepped::Done,
        Ok(Some(number)) => {
            *regs = *before;
            Stepped::Call(number)
        }
        Err(Refused::Miss { address, write }) => {
            *regs = *before;
            Stepped::Miss { address, write }
        }
        Err(Refused::Below { address }) => {
            *regs = *before;
            Stepped::Below { address }
        }
        Err(Refused::Signal(number)) => {
            *regs = *before;
            Stepped::Signal(number)
        }
    }
}

/// Runs one instruction: the one that PC names, by this project's profile of the VAX. `Done` and `Call`
/// come where every byte that it reads or writes is there. `Miss` and `Below` name the first byte, in the
/// order of its accesses, for which the memory answered so. After `Miss`, `Below` and `Signal` the
/// registers and the memory are as before.
pub fn step<M: Memory>(regs: &mut Regs, memory: &mut M) -> Stepped
    ensures answer { result ≡ answer_of (run (M.answers memory.old) (instruction regs.old)) }
    ensures registers { regs.new ≡ registers_after regs.old (run (M.answers memory.old) (instruction regs.old)) }
    ensures wrote { M.wrote memory.old (writes_of (run (M.answers memory.old) (instruction regs.old))) memory.new }
{
    let before = *regs;
    let tried = try_step(regs, memory);
    settle(tried, &before, regs)
}

/// Carries out an instruction that is decoded and stays in registers.
#[inline(always)]
#[tactic(auto, using(user_vax::proofs::Runs::run_bind), unfolding(user_vax::specs::Instruction::instruction))]
fn step_in_registers<M: Memory>(decoding: &Decoding, regs: &mut Regs, memory: &M)
    requires fetched { run (M.answers memory.now) (fetch 20 (register regs.old 15) []) ≡ Ok decoding.now.instr }
    requires stays { decoding.now.stays ≡ true }
    ensures { run (M.answers memory.now) (instruction regs.old) ≡ Ok (registers_only regs.new) }
{
    execute_in_registers(regs, &decoding.row, &decoding.instr);
}

/// Runs one instruction, which is decoded.
#[inline(never)]
fn step_decoded<M: Memory>(decoding: &Decoding, regs: &mut Regs, memory: &mut M) -> Stepped
    requires { run (M.answers memory.old) (fetch 20 (register regs.old 15) []) ≡ Ok decoding.now.instr }
    ensures answer { result ≡ answer_of (run (M.answers memory.old) (instruction regs.old)) }
    ensures registers { regs.new ≡ registers_after regs.old (run (M.answers memory.old) (instruction regs.old)) }
    ensures wrote { M.wrote memory.old (writes_of (run (M.answers memory.old) (instruction regs.old))) memory.new }
{
    let before = *regs;
    let tried = try_decoded(decoding, regs, memory);
    settle(tried, &before, regs)
}

/// Runs one instruction that isn't in the cache, but will be.
#[inline(never)]
fn step_anew<M: Memory>(cache: &mut DecodeCache, regs: &mut Regs, memory: &mut M) -> Stepped
    ensures answer { result ≡ answer_of (run (M.answers memory.old) (instruction regs.old)) }
    ensures registers { regs.new ≡ registers_after regs.old (run (M.answers memory.old) (instruction regs.old)) }
    ensures wrote { M.wrote memory.old (writes_of (run (M.answers memory.old) (instruction regs.old))) memory.new }
{
    cache.enter(memory, regs.r[15]);
    step(regs, memory)
}

/// Runs one instruction, as `step` does. One that is in the cache isn't decoded anew, and another one is entered.
pub fn step_cached<M: Memory>(cache: &mut DecodeCache, regs: &mut Regs, memory: &mut M) -> Stepped
    ensures answer { result ≡ answer_of (run (M.answers memory.old) (instruction regs.old)) }
    ensures registers { regs.new ≡ registers_after regs.old (run (M.answers memory.old) (instruction regs.old)) }
    ensures wrote { M.wrote memory.old (writes_of (run (M.answers memory.old) (instruction regs.old))) memory.new }
{
    let Some(decoding) = cache.find(memory, regs.r[15]) else {
        return step_anew(cache, regs, memory);
    };
    if decoding.stays {
        step_in_registers(decoding, regs, memory);
        return Stepped::Done;
    }
    step_decoded(decoding, regs, memory)
}

/// Runs one instruction, which is decoded, but for one that makes a call.
#[inline(never)]
fn step_decoded_unless_call<M: Memory>(
    decoding: &Decoding,
    regs: &mut Regs,
    memory: &mut M,
) -> Stepped
    requires { run (M.answers memory.old) (fetch 20 (register regs.old 15) []) ≡ Ok decoding.now.instr }
    ensures answer { result ≡ answer_of (run (M.answers memory.old) (instruction regs.old)) }
    ensures registers { regs.new ≡ registers_tried result regs.old (run (M.answers memory.old) (instruction regs.old)) }
    ensures wrote { M.wrote memory.old (writes_of (run (M.answers memory.old) (instruction regs.old))) memory.new }
{
    let before = *regs;
    let tried = try_decoded(decoding, regs, memory);
    settle_unless_call(tried, &before, regs)
}

/// Runs one instruction that isn't in the cache, but will be; but for one that makes a call.
#[inline(never)]
fn step_anew_unless_call<M: Memory>(
    cache: &mut DecodeCache,
    regs: &mut Regs,
    memory: &mut M,
) -> Stepped
    ensures answer { result ≡ answer_of (run (M.answers memory.old) (instruction regs.old)) }
    ensures registers { regs.new ≡ registers_tried result regs.old (run (M.answers memory.old) (instruction regs.old)) }
    ensures wrote { M.wrote memory.old (writes_of (run (M.answers memory.old) (instruction regs.old))) memory.new }
    ensures elsewhere { IsSameElsewhere (register regs.old 15) cache.old cache.new }
{
    cache.enter(memory, regs.r[15]);
    let before = *regs;
    let tried = try_step(regs, memory);
    settle_unless_call(tried, &before, regs)
}

/// Runs one instruction, as `step_cached` does, but for one that makes a call: after it the registers are as before too.
pub fn step_unless_call<M: Memory>(
    cache: &mut DecodeCache,
    regs: &mut Regs,
    memory: &mut M,
) -> Stepped
    ensures answer { result ≡ answer_of (run (M.answers memory.old) (instruction regs.old)) }
    ensures registers { regs.new ≡ registers_tried result regs.old (run (M.answers memory.old) (instruction regs.old)) }
    ensures wrote { M.wrote memory.old (writes_of (run (M.answers memory.old) (instruction regs.old))) memory.new }
    ensures elsewhere { IsSameElsewhere (register regs.old 15) cache.old cache.new }
{
    let Some(decoding) = cache.find(memory, regs.r[15]) else {
        return step_anew_unless_call(cache, regs, memory);
    };
    if decoding.stays {
        step_in_registers(decoding, regs, memory);
        return Stepped::Done;
    }
    step_decoded_unless_call(decoding, regs, memory)
}

/// Runs one instruction that isn't known to stand in bytes that stay; but for one that makes a call.
#[inline(never)]
fn step_unfixed<M: Memory>(
    fixed: &mut FixedCode,
    cache: &mut DecodeCache,
    regs: &mut Regs,
    memory: &mut M,
) -> Stepped
    requires { AreFixed (M.answers memory.old) fixed.old cache.old }
    ensures answer { result ≡ answer_of (run (M.answers memory.old) (instruction regs.old)) }
    ensures registers { regs.new ≡ registers_tried result regs.old (run (M.answers memory.old) (instruction regs.old)) }
    ensures wrote { M.wrote memory.old (writes_of (run (M.answers memory.old) (instruction regs.old))) memory.new }
    ensures fixed { AreFixed (M.answers memory.new) fixed.new cache.new }
{
    let pc = regs.r[15];
    fixed.forget(pc);
    let stepped = step_unless_call(cache, regs, memory);
    fixed.remember(cache, memory, pc);
    stepped
}

/// Runs one instruction, as `step_unless_call` does. Where it stands in bytes that stay, these aren't read again, for as long as nothing
/// else writes to the memory or changes the cache.
pub fn step_fixed<M: Memory>(
    fixed: &mut FixedCode,
    cache: &mut DecodeCache,
    regs: &mut Regs,
    memory: &mut M,
) -> Stepped
    requires { AreFixed (M.answers memory.old) fixed.old cache.old }
    ensures answer { result ≡ answer_of (run (M.answers memory.old) (instruction regs.old)) }
    ensures registers { regs.new ≡ registers_tried result regs.old (run (M.answers memory.old) (instruction regs.old)) }
    ensures wrote { M.wrote memory.old (writes_of (run (M.answers memory.old) (instruction regs.old))) memory.new }
    ensures fixed { AreFixed (M.answers memory.new) fixed.new cache.new }
{
    let Some(decoding) = cache.fixed_at(fixed, regs.r[15]) else {
        return step_unfixed(fixed, cache, regs, memory);
    };
    if decoding.stays {
        step_in_registers(decoding, regs, memory);
        return Stepped::Done;
    }
    step_decoded_unless_call(decoding, regs, memory)
}
