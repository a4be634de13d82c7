//! Procedure calls: what CALLS and CALLG push, and the registers after them.
ghost use Rattle.std.specs.Prelude.{◌≡◌, ◌<◌, ◌≤◌, ◌+◌, ◌++◌, ◌∷◌, ◌*◌, ◌^◌, ℕ, List, true, OnOk, if◌then◌else◌};
ghost use Rattle.user_vax.specs.Program.{run};
ghost use Rattle.user_vax.specs.Computation.{computation};
ghost use Rattle.user_vax.specs.Frames.{push_all, saved, state_longword, with_frame, procedure_entry, procedure_call};
ghost use Rattle.vax_execute.specs.Outcomes.{ArePushes, CallsTo, IsAtFrame, IsUnpushed, calls_procedure, pushing};

use crate::pushes::Pushes;
use crate::ready::Ready;
use user_vax::{Refused, SIGILL, read_word};
use vax_code::Name;
use vm_facts::{Memory, Regs};

/// Pushes a longword of the frame where the test holds.
#[tactic(auto, unfolding(user_vax::specs::Frames::push_all))]
fn push_if(pushes: &mut Pushes, regs: &mut Regs, test: bool, value: u32)
    requires room { pushes.old.frame_length < 17 }
    requires place { IsAtFrame regs.old pushes.old }
    ensures pushed { (values : List ℕ)
        → push_all (pushing regs.new pushes.new) values ≡ push_all (pushing regs.old pushes.old) (if test then value ∷ values else values) }
    ensures place { IsAtFrame regs.new pushes.new }
    ensures longer { pushes.new.frame_length ≤ pushes.old.frame_length + 1 }
{
    if test {
        pushes.push(regs, value);
    }
}

/// Pushes the registers that a mask names, R11 first.
#[tactic(auto, using(crate::proofs::Saving::saved_more), unfolding(user_vax::specs::Frames::saved))]
fn save(pushes: &mut Pushes, regs: &mut Regs, registers: &[u32; 16], mask: u32)
    requires unframed { pushes.old.frame_length ≡ 0 }
    requires place { IsAtFrame regs.old pushes.old }
    ensures pushed { (values : List ℕ)
        → push_all (pushing regs.new pushes.new) values ≡ push_all (pushing regs.old pushes.old) (saved 12 registers.now mask ++ values) }
    ensures place { IsAtFrame regs.new pushes.new }
    ensures few { pushes.new.frame_length ≤ 12 }
{
    for done in 0..12u32 {
        let k = 11 - done;
        push_if(pushes, regs, (mask >> k) % 2 == 1, registers[k as usize]);
    }
}

/// The two low bits of SP, whether a count was pushed, and the mask.
fn state_longword(low: u32, counted: bool, mask: u32) -> u32
    requires low { low < 4 }
    requires mask { mask < 2 ^ 12 }
    ensures { result ≡ state_longword low counted mask }
{
    let count_bit = if counted { 0x2000_0000 } else { 0 };
    low * 0x4000_0000 + count_bit + mask * 0x1_0000
}

/// Pushes the frame of a procedure.
#[tactic(auto, unfolding(user_vax::specs::Frames::with_frame, user_vax::specs::Frames::push_all))]
fn push_frame(pushes: &mut Pushes, regs: &mut Regs, counted: bool, mask: u32)
    requires unframed { pushes.old.frame_length ≡ 0 }
    requires mask { mask < 2 ^ 12 }
    ensures effect { pushing regs.new pushes.new ≡ with_frame (pushing regs.old pushes.old) counted mask }
    ensures sound { ArePushes pushes.new }
{
    let r = regs.r;
    pushes.begin_frame(regs);
    save(pushes, regs, &r, mask);
    pushes.push(regs, r[15]);
    pushes.push(regs, r[13]);
    pushes.push(regs, r[12]);
    pushes.push(regs, state_longword(r[14] % 4, counted, mask));
    pushes.push(regs, 0);
}

/// The procedure entered, once its frame is pushed.
fn enter_procedure(regs: &mut Regs, ap: u32, target: u32)
    ensures { (pushes : Pushes) → pushing regs.new pushes ≡ procedure_entry (pushing regs.old pushes) ap target }
{
    regs.r[12] = ap;
    regs.r[13] = regs.r[14];
    regs.r[15] = target.wrapping_add(2);
    regs.n = false;
    regs.z = false;
    regs.v = false;
    regs.c = false;
}

/// The call of the procedure at a target, after what the instruction pushes before the frame.
#[tactic(auto, using(user_vax::proofs::Runs::run_bind), unfolding(user_vax::specs::Frames::procedure_call))]
fn call_procedure<M: Memory>(
    memory: &M,
    pushes: &mut Pushes,
    regs: &mut Regs,
    counted: bool,
    ap: u32,
    target: u32,
) -> Result<(), Refused>
    requires unframed { pushes.old.frame_length ≡ 0 }
    ensures value { CallsTo result regs.new pushes.new (run (M.answers memory.now) (procedure_call (pushing regs.old pushes.old) counted ap target)) }
    ensures sound { OnOk result (ArePushes pushes.new) }
{
    let mask = read_word(memory, target)?;
    if mask >= 0x1000 {
        return Err(Refused::Signal(SIGILL));
    }
    push_frame(pushes, regs, counted, mask);
    enter_procedure(regs, ap, target);
    Ok(())
}

/// What an instruction that calls a procedure pushes, and the registers after it.
#[tactic(auto, unfolding(user_vax::specs::Computation::computation))]
pub fn call<M: Memory>(
    memory: &M,
    pushes: &mut Pushes,
    regs: &mut Regs,
    ready: &Ready,
) -> Result<(), Refused>
    requires calls { calls_procedure ready.now.name ≡ true }
    requires none { IsUnpushed pushes.old }
    ensures value { CallsTo result regs.new pushes.new (run (M.answers memory.now) (computation ready.now.name regs.old ready.now.a ready.now.b ready.now.c)) }
    ensures sound { OnOk result (ArePushes pushes.new) }
{
    match ready.name {
        Name::Callg => call_procedure(memory, pushes, regs, false, ready.a.value, ready.b.value),
        Name::Calls => {
            pushes.push_count(regs, ready.a.value);
            let ap = regs.r[14];
            call_procedure(memory, pushes, regs, true, ap, ready.b.value)
        }
        _ => unreachable!(),
    }
}
