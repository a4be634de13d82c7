//! The law that a run's units are the kernel's units. There is no code here.
ghost use Rattle.run_laws.specs.Agreeing.{KernelUnitsMakeMachine, KernelUnitsMakeImage};

/// What a next unit of a run makes of a machine that stands at the state is what the kernel's units of it make of that
/// machine, one after another: of a paging entry and of one that only goes into the journal, one unit; of a step of a
/// process, the writes of its bytes, and then the end of its instruction, or the finding of its pieces and its change. So
/// what is so of each unit of the kernel is so of each unit of a run.
pub fn units_are_the_kernels()
    ensures machine { KernelUnitsMakeMachine }
    ensures image { KernelUnitsMakeImage }
{}
