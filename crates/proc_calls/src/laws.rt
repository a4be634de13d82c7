//! The law that a break over a machine replies as the flat machine does. There is no code here.
ghost use Rattle.std.specs.Prelude.{◌≡◌, ℕ, List, Some};
ghost use Rattle.vm_facts.specs.Answers.{Answers};
ghost use Rattle.vm_facts.specs.declared.regs.Regs.{Regs};
ghost use Rattle.user_vax.specs.Program.{run};
ghost use Rattle.flat_state.specs.Space.{Space};
ghost use Rattle.flat_state.specs.Flat.{FlatState, NamedImage, Process, image_numbered, spaces_of};
ghost use Rattle.flat_model.specs.Calls.{argument, reply_of};
ghost use Rattle.flat_model.specs.declared.calls.SystemCall.TheVariants.{Break};
ghost use Rattle.page_model.specs.Pages.{numbered};
ghost use Rattle.kernel_model.specs.Kernel.{Kernel};
ghost use Rattle.kernel_model.specs.Sound.{TextFits};
ghost use Rattle.kernel_model.specs.Coupled.{SameTables, image_text};
ghost use Rattle.fault_fill.specs.Growth.{space_of_pid};
ghost use Rattle.proc_calls.specs.Sizing.{break_read};

/// Where a machine has the processes and spaces of a flat state, the flat machine replies to a break of a process with the
/// sizes that the machine has of its space, over any memory.
pub fn break_is_flat()
    ensures { (images : List NamedImage) (k : Kernel) (flat : FlatState) (p : Process) (x : Space) (pid : ℕ) (regs : Regs) (memory : Answers)
        → SameTables k flat → TextFits images k.place → space_of_pid k pid ≡ x.sid
        → numbered (λ s. s.sid) x.sid (spaces_of flat) ≡ Some x → x.text_bytes ≡ image_text (image_numbered images x.image)
        → run memory (reply_of images flat p x Break regs) ≡ break_read k pid regs (run memory (argument regs 1)) }
{}
