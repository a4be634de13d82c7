//! What the system refused, as it is told on standard error.
use std::fmt::{Display, Formatter};
use std::{fmt, io};

/// A call on a file that the system refused, for standard error: `vmrun.swap0: No space left on device`.
#[derive(Clone, Copy, Drop)]
pub struct Refusal<'a> {
    /// The name of the file.
    pub name: &'a str,
    /// What the system, or the adapter, said of it.
    pub error: io::Error,
}

impl Display for Refusal<'_> {
    fn fmt<W: fmt::Write>(&self, f: &mut Formatter<W>) -> fmt::Result {
        f.write_str(self.name)?;
        f.write_str(": ")?;
        self.error.fmt(f)
    }
}
