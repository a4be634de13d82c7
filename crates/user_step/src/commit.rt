//! Writes what an instruction computed, once all of it may be written. Where a byte may not be, none is written.
ghost use Rattle.std.specs.Prelude.{OnOk, OnErr, Ok, ◌≡◌, ◌<◌, ◌≤◌, ℕ, ◌∷◌, [], ◌%◌, length, true, false};
ghost use Rattle.vm_facts.specs.Ahead.{MayAhead};
ghost use Rattle.vm_facts.specs.Answers.{Answers, ByteWrite, longword_below, writes_down};
ghost use Rattle.user_vax.specs.Program.{run, Gives, Tests};
ghost use Rattle.user_vax.specs.Instruction.{MayAll, write_tests};
ghost use Rattle.vax_execute.specs.Outcomes.{ArePushes, IsSize, HasSize, bytes_of, bytes_in, pushed_bytes};
ghost use Rattle.user_step.specs.Tried.{IsReady, IsOneReady, writes_below};

use byteorder::{ByteOrder, LittleEndian};
use user_vax::{Refused, SIGBUS, SIGSEGV};
use vax_execute::{Pushes, Write};
use vm_facts::{MayWrite, Memory};

/// The byte may be written.
fn test_byte<M: Memory>(memory: &M, address: u32) -> Result<(), Refused>
    ensures { result ≡ run (M.answers memory.now) (Tests address (Gives tt)) }
{
    match memory.may_write(address) {
        MayWrite::May => Ok(()),
        MayWrite::Miss => Err(Refused::Miss {
            address,
            write: true,
        }),
        MayWrite::Below => Err(Refused::Below { address }),
        MayWrite::Text => Err(Refused::Signal(SIGBUS)),
        MayWrite::Outside => Err(Refused::Signal(SIGSEGV)),
    }
}

/// The bytes of a number may be written, one byte after another.
#[tactic(auto, using(user_vax::proofs::Runs::run_bind, user_vax::proofs::Tested::tested_may), unfolding(user_vax::specs::Instruction::write_tests, user_vax::specs::Effects::bytes_at))]
fn test_bytes<M: Memory>(memory: &M, write: Write) -> Result<(), Refused>
    requires { IsSize write.size }
    ensures value { result ≡ run (M.answers memory.now) (write_tests (bytes_of write)) }
    ensures ready { OnOk result (IsReady (M.answers memory.now) write) }
{
    let address = write.address;
    match write.size {
        1 => test_byte(memory, address),
        2 => {
            test_byte(memory, address)?;
            test_byte(memory, address.wrapping_add(1))
        }
        _ => {
            test_byte(memory, address)?;
            test_byte(memory, address.wrapping_add(1))?;
            test_byte(memory, address.wrapping_add(2))?;
            test_byte(memory, address.wrapping_add(3))
        }
    }
}

/// The bytes of a number may be written. So many bytes from an address on may be, among which they may be.
#[inline(always)]
#[tactic(auto, using(crate::proofs::Ahead::tests_within, user_vax::proofs::Tested::tested_may))]
fn test_within<M: Memory>(memory: &M, from: u32, many: u32, write: Write) -> Result<(), Refused>
    requires size { IsSize write.size }
    requires may { MayAhead (M.answers memory.now) from many }
    ensures value { result ≡ run (M.answers memory.now) (write_tests (bytes_of write)) }
    ensures ready { OnOk result (IsReady (M.answers memory.now) write) }
{
    let at = write.address.wrapping_sub(from);
    if u64::from(at) + u64::from(write.size) <= u64::from(many) {
        return Ok(());
    }
    test_bytes(memory, write)
}

/// The number, if there is one, may be written.
#[inline(always)]
#[tactic(auto, unfolding(user_vax::specs::Instruction::write_tests))]
fn test_one<M: Memory>(memory: &M, write: Option<Write>) -> Result<(), Refused>
    requires { HasSize write }
    ensures value { result ≡ run (M.answers memory.now) (write_tests (bytes_in write)) }
    ensures ready { OnOk result (IsOneReady (M.answers memory.now) write) }
{
    match write {
        None => Ok(()),
        Some(write) => {
            let many = memory.writable_ahead(write.address);
            test_within(memory, write.address, many, write)
        }
    }
}

/// The longword just below an address.
#[inline(always)]
fn longword_below(address: u32, value: u32) -> Write
    ensures { result ≡ record { address = longword_below address; value = value; size = 4 } }
{
    Write {
        address: address.wrapping_sub(4),
        value,
        size: 4,
    }
}

/// These longwords may be written downwards from an address. Those that lie together from a low one on are tested at once.
#[tactic(auto, using(crate::proofs::Downwards::tests_more), unfolding(user_vax::specs::Instruction::write_tests))]
fn test_down<M: Memory>(
    memory: &M,
    low: u32,
    address: u32,
    longwords: &[u32],
) -> Result<(), Refused>
    ensures { result ≡ run (M.answers memory.now) (write_tests (writes_down address longwords.now)) }
{
    let many = memory.writable_ahead(low);
    let mut place = address;
    for longword in longwords {
        let write = longword_below(place, *longword);
        test_within(memory, low, many, write)?;
        place = write.address;
    }
    Ok(())
}

/// Writes a byte that may be written.
fn put_byte<M: Memory>(memory: &mut M, address: u32, byte: u8)
    requires { (M.answers memory.old).may_write address ≡ MayWrite.May }
    ensures wrote { M.wrote memory.old (record { address = address; byte = byte } ∷ []) memory.new }
    ensures tests { (M.answers memory.new).may_write ≡ (M.answers memory.old).may_write }
{
    memory.write(address, byte);
}

/// Writes a number byte by byte, each of which may be written.
#[tactic(auto, unfolding(user_vax::specs::Effects::bytes_at))]
fn put_bytes<M: Memory>(memory: &mut M, write: Write)
    requires { IsReady (M.answers memory.old) write }
    ensures wrote { M.wrote memory.old (bytes_of write) memory.new }
    ensures tests { (M.answers memory.new).may_write ≡ (M.answers memory.old).may_write }
{
    let address = write.address;
    let mut bytes = [0u8; 4];
    LittleEndian::write_u32(&mut bytes, write.value);
    let [a, b, c, d] = bytes;
    match write.size {
        1 => put_byte(memory, address, a),
        2 => {
            put_byte(memory, address, a);
            put_byte(memory, address.wrapping_add(1), b);
        }
        _ => {
            put_byte(memory, address, a);
            put_byte(memory, address.wrapping_add(1), b);
            put_byte(memory, address.wrapping_add(2), c);
            put_byte(memory, address.wrapping_add(3), d);
        }
    }
}

/// Writes a number at once, where each of its bytes may be written and the memory does so. The answer is whether it did.
#[inline(always)]
fn put_number<M: Memory>(memory: &mut M, write: Write) -> bool
    requires { IsSize write.size }
    ensures may { result ≡ true → run (M.answers memory.old) (write_tests (bytes_of write)) ≡ Ok tt }
    ensures done { result ≡ true → M.wrote memory.old (bytes_of write) memory.new }
    ensures left { result ≡ false → memory.new ≡ memory.old }
{
    let mut bytes = [0u8; 4];
    LittleEndian::write_u32(&mut bytes, write.value);
    memory.put(write.address, &bytes[..write.size as usize])
}

/// Writes a number, each byte of which may be written.
fn put_write<M: Memory>(memory: &mut M, write: Write)
    requires { IsReady (M.answers memory.old) write }
    ensures wrote { M.wrote memory.old (bytes_of write) memory.new }
    ensures tests { (M.answers memory.new).may_write ≡ (M.answers memory.old).may_write }
{
    if !put_number(memory, write) {
        put_bytes(memory, write);
    }
}

/// Writes the number, if there is one.
fn put_one<M: Memory>(memory: &mut M, write: Option<Write>)
    requires { IsOneReady (M.answers memory.old) write }
    ensures wrote { M.wrote memory.old (bytes_in write) memory.new }
    ensures tests { (M.answers memory.new).may_write ≡ (M.answers memory.old).may_write }
{
    if let Some(write) = write {
        put_write(memory, write);
    }
}

/// Writes longwords downwards from an address, each byte of which may be written.
#[tactic(auto, using(crate::proofs::Downwards::writes_more, crate::proofs::Downwards::lowest_next))]
fn put_each<M: Memory>(memory: &mut M, address: u32, longwords: &[u32])
    requires { MayAll (M.answers memory.old) (writes_down address longwords.now) }
    ensures { M.wrote memory.old (writes_down address longwords.now) memory.new }
{
    let mut place = address;
    for longword in longwords {
        let write = longword_below(place, *longword);
        put_write(memory, write);
        place = write.address;
    }
}

/// Writes a number, where each of its bytes may be written, one after another.
#[inline(never)]
fn write_by_bytes<M: Memory>(memory: &mut M, write: Write) -> Result<(), Refused>
    requires { IsSize write.size }
    ensures value { result ≡ run (M.answers memory.old) (write_tests (bytes_of write)) }
    ensures done { OnOk result (M.wrote memory.old (bytes_of write) memory.new) }
    ensures none { OnErr result (M.wrote memory.old [] memory.new) }
{
    test_bytes(memory, write)?;
    put_bytes(memory, write);
    Ok(())
}

/// Writes the number, if there is one, where each of its bytes may be written.
#[inline(always)]
#[tactic(auto, unfolding(user_vax::specs::Instruction::write_tests))]
pub fn write_one<M: Memory>(memory: &mut M, write: Option<Write>) -> Result<(), Refused>
    requires { HasSize write }
    ensures value { result ≡ run (M.answers memory.old) (write_tests (bytes_in write)) }
    ensures done { OnOk result (M.wrote memory.old (bytes_in write) memory.new) }
    ensures none { OnErr result (M.wrote memory.old [] memory.new) }
{
    let Some(write) = write else {
        return Ok(());
    };
    if put_number(memory, write) {
        return Ok(());
    }
    write_by_bytes(memory, write)
}

/// Writes longwords downwards from an address at once, where each of their bytes may be written and the memory does so. The answer
/// is whether it did.
#[inline(always)]
fn put_frame<M: Memory>(memory: &mut M, top: u32, frame: &[u32]) -> bool
    requires { length frame.now ≤ 18 }
    ensures may { result ≡ true → run (M.answers memory.old) (write_tests (writes_down top frame.now)) ≡ Ok tt }
    ensures done { result ≡ true → M.wrote memory.old (writes_down top frame.now) memory.new }
    ensures left { result ≡ false → memory.new ≡ memory.old }
{
    memory.put_down(top, frame)
}

/// The same of a longword at an address, and those that lie just below it.
#[inline(always)]
fn put_counted<M: Memory>(memory: &mut M, address: u32, longwords: &[u32]) -> bool
    requires some { 0 < length longwords.now }
    requires few { length longwords.now ≤ 18 }
    ensures may { result ≡ true → run (M.answers memory.old) (write_tests (writes_below address longwords.now)) ≡ Ok tt }
    ensures done { result ≡ true → M.wrote memory.old (writes_below address longwords.now) memory.new }
    ensures left { result ≡ false → memory.new ≡ memory.old }
{
    put_frame(memory, address.wrapping_add(4), longwords)
}

/// Writes what a procedure call pushes at once, where all of it lies together, each of its bytes may be written and the memory
/// does so. The answer is whether it did.
fn put_pushes<M: Memory>(memory: &mut M, pushes: &Pushes) -> bool
    requires { ArePushes pushes.now }
    ensures may { result ≡ true → run (M.answers memory.old) (write_tests (pushed_bytes pushes.now)) ≡ Ok tt }
    ensures done { result ≡ true → M.wrote memory.old (pushed_bytes pushes.now) memory.new }
    ensures left { result ≡ false → memory.new ≡ memory.old }
{
    match pushes.counted_at {
        None => put_frame(memory, pushes.top, pushes.frame()),
        Some(address) => {
            if address != pushes.top {
                return false;
            }
            put_counted(memory, address, pushes.with_count())
        }
    }
}

/// Writes what a procedure call pushes, where each of its bytes may be written, one longword after another.
#[inline(never)]
#[tactic(auto, using(crate::proofs::Writing::tests_append))]
fn write_each<M: Memory>(memory: &mut M, low: u32, pushes: &Pushes) -> Result<(), Refused>
    requires { ArePushes pushes.now }
    ensures value { result ≡ run (M.answers memory.old) (write_tests (pushed_bytes pushes.now)) }
    ensures done { OnOk result (M.wrote memory.old (pushed_bytes pushes.now) memory.new) }
    ensures none { OnErr result (M.wrote memory.old [] memory.new) }
{
    let counted = pushes.counted();
    test_one(memory, counted)?;
    test_down(memory, low, pushes.top, pushes.frame())?;
    put_one(memory, counted);
    put_each(memory, pushes.top, pushes.frame());
    Ok(())
}

/// Writes what a procedure call pushes, where each of its bytes may be written. The lowest of them has this address.
pub fn write_pushes<M: Memory>(memory: &mut M, low: u32, pushes: &Pushes) -> Result<(), Refused>
    requires { ArePushes pushes.now }
    ensures value { result ≡ run (M.answers memory.old) (write_tests (pushed_bytes pushes.now)) }
    ensures done { OnOk result (M.wrote memory.old (pushed_bytes pushes.now) memory.new) }
    ensures none { OnErr result (M.wrote memory.old [] memory.new) }
{
    if put_pushes(memory, pushes) {
        return Ok(());
    }
    write_each(memory, low, pushes)
}
