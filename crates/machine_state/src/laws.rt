//! Laws of a machine's memories: they answer what the flat spaces do, and take writes. There is no code here.
ghost use Rattle.std.specs.Prelude.{◌≡◌, ℕ, List, Some};
ghost use Rattle.flat_model.specs.Laws.{Covers};
ghost use Rattle.flat_state.specs.Space.{Space, answers_of};
ghost use Rattle.flat_state.specs.Flat.{FlatState, NamedImage, image_numbered, spaces_of};
ghost use Rattle.page_model.specs.Pages.{numbered};
ghost use Rattle.kernel_model.specs.Kernel.{Kernel};
ghost use Rattle.kernel_model.specs.Sound.{TextFits};
ghost use Rattle.kernel_model.specs.Coupled.{Coupled, image_text};
ghost use Rattle.table_steps.specs.Machine.{Standing};
ghost use Rattle.table_steps.specs.UserMemory.{kernel_answers, Wrote};
ghost use Rattle.machine_state.specs.Going.{CanGoOn};
ghost use Rattle.vm_facts.specs.Answers.{ByteWrite};

/// Where a machine stands for a flat state, the memory of each of its spaces answers what the flat space does, at every
/// address where it doesn't miss; so do its tests of writes.
pub fn memory_is_flat()
    ensures { (images : List NamedImage) (k : Kernel) (image : List ℕ) (flat : FlatState) (x : Space) → Coupled k images image flat → TextFits images k.place
        → numbered (λ s. s.sid) x.sid (spaces_of flat) ≡ Some x → x.text_bytes ≡ image_text (image_numbered images x.image)
        → Covers (kernel_answers k x.sid) (answers_of x) }
{}

/// A machine that can go on can go on after writes of a process.
pub fn writes_go_on()
    ensures { (old new : Standing) (sid : ℕ) (ws : List ByteWrite) → Wrote old sid ws new → CanGoOn old → CanGoOn new }
{}
