//! An instruction whose operands are evaluated.
ghost use Rattle.std.specs.Prelude.{◌≡◌};
ghost use Rattle.vax_execute.specs.Outcomes.{calls_procedure};

use user_vax::Evaluated;
use vax_code::Name;

/// An instruction whose operands are evaluated.
#[derive(Clone, Copy, Debug, PartialEq, Eq)]
pub struct Ready {
    pub name: Name,
    pub a: Evaluated,
    pub b: Evaluated,
    pub c: Evaluated,
}

impl Ready {
    /// Whether it calls a procedure, and pushes its frame.
    pub fn calls_procedure(&self) -> bool
        ensures { result ≡ calls_procedure self.now.name }
    {
        matches!(self.name, Name::Callg | Name::Calls)
    }
}
