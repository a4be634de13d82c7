//! An output of the system as an output of a run.
ghost use Rattle.std.specs.Prelude.{◌≡◌, ◌≤◌, IfOk, OnErr, OnOk, [], length, take};
ghost use Rattle.std.proofs.Common.{le_refl, le_trans};
ghost use Rattle.io_edge.specs.Told.{extends_itself, extends_through};
ghost use Rattle.io_edge.specs.Written.{Appends, AppendsSome, Extends};

use crate::last_line::LastLine;
use io_edge::{Moved, Sink, raised};
use std::io;
use std::io::ErrorKind;
use system_calls::SystemOutput;

/// An output of the system. Where it tells what it took, that is what was written.
#[derive(Drop)]
pub struct OutSink<'a, O> {
    output: &'a mut O,
    faults: u64,
    fault: Option<io::Error>,
    last: LastLine,
}

impl<'a, O: SystemOutput> OutSink<'a, O> {
    /// The output, before the first piece.
    pub fn new(output: &'a mut O) -> OutSink<'a, O>
        ensures written { ⟦<OutSink<'a, O> as Sink>⟧.written result ≡ O.taken output.old }
        ensures faults { ⟦<OutSink<'a, O> as Sink>⟧.faults result ≡ 0 }
    {
        OutSink {
            output,
            faults: 0,
            fault: None,
            last: LastLine::new(),
        }
    }

    /// The last line of what was put, whole or not: its first 128 bytes.
    pub fn last_line(&self) -> &[u8] {
        self.last.as_slice()
    }

    /// Why the last call that failed did.
    pub fn last_error(&self) -> Option<io::Error> {
        self.fault
    }
}

// Hands over what is left of the bytes by one call. A call that takes nothing fails; one that a signal interrupted is made again.
fn write_more<O: SystemOutput>(output: &mut O, rest: &[u8]) -> io::Result<usize>
    ensures within { IfOk result (λ count. count ≤ length rest.now) }
    ensures taken { IfOk result (λ count. Appends (O.taken output.old) (take count rest.now) (O.taken output.new)) }
    ensures refused { OnErr result (Appends (O.taken output.old) [] (O.taken output.new)) }
{
    match output.write_some(rest) {
        Ok(0) => Err(io::Error::from(ErrorKind::WriteZero)),
        Ok(count) => Ok(count),
        Err(error) if error.kind() == ErrorKind::Interrupted => Ok(0),
        Err(error) => Err(error),
    }
}

// Writes all of the bytes, in as many calls as it takes.
fn write_whole<O: SystemOutput>(output: &mut O, bytes: &[u8]) -> io::Result<()>
    ensures done { OnOk result (Appends (O.taken output.old) bytes.now (O.taken output.new)) }
    ensures failed { OnErr result (AppendsSome (O.taken output.old) bytes.now (O.taken output.new)) }
{
    let mut done = 0;
    for _ in 0..u64::MAX {
        if done == bytes.len() {
            return Ok(());
        }
        done += write_more(output, &bytes[done..])?;
    }
    Err(io::Error::from(ErrorKind::Interrupted))
}

impl<O: SystemOutput> Sink for OutSink<'_, O> {
    ghost written = { λ s. O.taken s.output.now };

    ghost faults = { λ s. s.faults };

    ghost leads = { λ a b. Extends (O.taken a.output.now) (O.taken b.output.now) × (a.faults ≤ b.faults) };

    fn put(&mut self, bytes: &[u8]) -> Moved {
        self.last.note(bytes);
        match write_whole(self.output, bytes) {
            Ok(()) => Moved::Done,
            Err(error) => {
                self.fault = Some(error);
                self.faults = raised(self.faults);
                Moved::Failed
            }
        }
    }

    ghost leads_nowhere = { λ s. (extends_itself (O.taken s.output.now), le_refl s.faults) };

    ghost leads_through = { λ a b c first then. (
      extends_through (O.taken a.output.now) (O.taken b.output.now) (O.taken c.output.now) first.0 then.0,
      le_trans first.1 then.1,
    ) };

    ghost leads_more = { λ _ _ led. led.0 };

    ghost faults_grow = { λ _ _ led. led.1 };
}
