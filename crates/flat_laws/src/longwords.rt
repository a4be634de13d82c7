//! The law that registers are longwords, and memory bytes, all along a run. There is no code here.
ghost use Rattle.std.specs.Prelude.{◌≡◌, ℕ, ◌+◌, ◌<◌, ◌^◌, Bool, List, length, Some, Ok};
ghost use Rattle.vm_facts.specs.Answers.{Answers};
ghost use Rattle.vm_facts.specs.declared.memory.ByteRead.TheVariants as bytes;
ghost use Rattle.vm_facts.specs.declared.regs.Regs.{Regs};
ghost use Rattle.vm_facts.specs.declared.entry.Entry.{Entry};
ghost use Rattle.user_vax.specs.Instruction.{instruction};
ghost use Rattle.user_vax.specs.Program.{run};
ghost use Rattle.aout_image.specs.Image.{judged_image};
ghost use Rattle.vax_code.specs.Grammar.{AreOctets};
ghost use Rattle.flat_state.specs.Flat.{FlatState, NamedImage, Inputs, image_numbered, start_state};
ghost use Rattle.flat_state.specs.Journal.{instructions_of};
ghost use Rattle.flat_state.specs.Numbers.{IsNumbered};
ghost use Rattle.kernel_model.specs.UPage.{AreRegs};
ghost use Rattle.flat_model.specs.Step.{flat_step};
ghost use Rattle.flat_model.specs.Run.{Point, flat_run};
ghost use Rattle.flat_laws.specs.Longwords.{ProcessesFit, ImageFits, AllImages, LeavesLongwords};

/// The registers of each process are sixteen longwords, the bytes of each space that a process holds are below 256, and
/// the status with which a process ended is a longword: at the start, after each step, and in each run of the flat
/// machine, where the images fit, and so few instructions are counted that the numbers of processes are longwords. An
/// image fits that a file of bytes is. An instruction, over a memory that answers bytes, leaves registers that are
/// longwords, writes bytes, and is refused by a signal that is a longword.
pub fn registers_are_longwords()
    ensures instruction { (memory : Answers) (regs : Regs) → ((address byte : ℕ) → memory.read address ≡ bytes.Is byte → byte < 256)
        → AreRegs regs → LeavesLongwords (run memory (instruction regs)) }
    ensures image { (named : NamedImage) (file : List ℕ) → judged_image file ≡ Ok named.image → AreOctets file → AreOctets named.name → ImageFits named }
    ensures images { (images : List NamedImage)
        → ((number : ℕ) (named : NamedImage) → image_numbered images number ≡ Some named → ImageFits named) → AllImages images }
    ensures start { (A : Inputs) → AllImages A.images → ProcessesFit (start_state A).processes }
    ensures step { (A : Inputs) (F : FlatState) (pid : ℕ) (refused : Bool) → AllImages A.images → IsNumbered F → F.next_pid < 2 ^ 32
        → ProcessesFit F.processes → ProcessesFit (flat_step A F pid refused).after.processes }
    ensures run { (A : Inputs) (journal : List Entry) (point : Point) → AllImages A.images
        → length A.first + 1 + instructions_of journal < 2 ^ 32 → flat_run A journal ≡ Some point → ProcessesFit point.flat.processes }
{}
