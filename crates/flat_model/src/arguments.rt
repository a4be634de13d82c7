//! The arguments with which an image starts, few and short, and lent as a list.
ghost use Rattle.std.specs.Prelude.{◌≡◌, ℕ, ◌<◌, ◌≤◌, ◌++◌, ◌∷◌, [], length, List, OnOk, IfOk};
ghost use Rattle.flat_model.specs.Arguments.{AreArguments};

use std::alloc::Global;
use std::marker::Model;
use vm_facts::{Bytes, NoMemory};

/// The arguments with which an image starts: at most 8, of at most 63 bytes each. Contracts see the list of
/// them.
#[derive(Drop)]
pub struct Arguments {
    items: Vec<Bytes>,
}

impl Model for Arguments {
    ghost use Rattle.std.specs.Prelude.{List, ℕ};
    ghost use Rattle.flat_model.specs.Arguments.{AreArguments};

    ghost Value = { List (List ℕ) };

    ghost view = { λ a. a.items.items };

    ghost invariant = { λ a. AreArguments a.items.items };
}

impl Arguments {
    /// No arguments.
    pub fn new(alloc: Global) -> Arguments
        ensures { result ≡ [] }
    {
        Arguments {
            items: Vec::new(alloc),
        }
    }

    /// One argument.
    pub fn of(alloc: Global, argument: Bytes) -> Result<Arguments, NoMemory>
        requires { length argument < 64 }
        ensures { IfOk result (λ a. a ≡ argument ∷ []) }
    {
        let mut arguments = Arguments::new(alloc);
        arguments.push(argument)?;
        Ok(arguments)
    }

    /// One more argument, which is the last.
    pub fn push(&mut self, argument: Bytes) -> Result<(), NoMemory>
        requires few { length self.old < 8 }
        requires short { length argument < 64 }
        ensures { OnOk result (self.new ≡ self.old ++ argument ∷ []) }
    {
        if self.items.push(argument).is_err() {
            return Err(NoMemory);
        }
        Ok(())
    }

    /// Lends the arguments.
    pub fn as_slice(&self) -> &[Bytes]
        ensures value { result.now ≡ self.now }
        ensures sound { AreArguments self.now }
    {
        self.items.as_slice()
    }
}
