//! Outputs in memory: one keeps what it is given up to a length, one drops all.
ghost use Rattle.std.specs.Prelude.{◌≡◌, ◌≤◌, ◌<◌, ◌+◌, ◌⊎◌, ◌↔◌, Some, None, [], take, length, vec_len, IfOk, refl};
ghost use Rattle.std.proofs.Common.{◌∙◌, le_refl, le_trans, lit≤};
ghost use Rattle.io_edge.specs.Calls.{PutsBytes};
ghost use Rattle.io_edge.specs.Count.{OnFailed};
ghost use Rattle.io_edge.specs.Plan.{FailsNext, IsNewPlan, LaterCalls, NextCall};
ghost use Rattle.io_edge.specs.PlanLaws.{later_itself, later_through};
ghost use Rattle.io_edge.specs.Told.{extends_itself, extends_through};
ghost use Rattle.io_edge.specs.Written.{Extends};

use crate::count::{FaultPlan, raised};
use crate::{Moved, NoMemory, Sink};
use std::alloc::Global;

/// Output in memory of a bounded length, with calls that are to fail.
#[derive(Drop)]
pub struct MemSink {
    room: Vec<u8>,
    len: usize,
    plan: FaultPlan,
    faults: u64,
    ghost within: { len ≤ vec_len room },
}

impl MemSink {
    /// Room for this many bytes. `fail` holds the numbers of the calls of `put` that are to fail,
    /// counted from 1. A piece that doesn't fit into what is left fails too. A failing call appends
    /// nothing.
    pub fn new(alloc: Global, room: usize, fail: Vec<u64>) -> Result<MemSink, NoMemory>
        ensures written { IfOk result (λ sink. ⟦<MemSink as Sink>⟧.written sink ≡ Some []) }
        ensures faults { IfOk result (λ sink. ⟦<MemSink as Sink>⟧.faults sink ≡ 0) }
        ensures room { IfOk result (λ sink. vec_len sink.room ≡ room) }
        ensures plan { IfOk result (λ sink. IsNewPlan sink.plan fail.items) }
    {
        Ok(MemSink {
            room: vec![in alloc; 0u8; room]?,
            len: 0,
            plan: FaultPlan::new(fail),
            faults: 0,
        })
    }

    /// All bytes that were written, in order.
    pub fn written(&self) -> &[u8]
        ensures { ⟦<MemSink as Sink>⟧.written self.now ≡ Some result.now }
    {
        &self.room[..self.len]
    }
}

impl Sink for MemSink {
    ghost written = { λ s. Some (take s.len s.room.items) };

    ghost faults = { λ s. s.faults };

    ghost leads = { λ a b. Extends (Some (take a.len a.room.items)) (Some (take b.len b.room.items)) × (a.faults ≤ b.faults)
        × LaterCalls a.plan b.plan × (vec_len b.room ≡ vec_len a.room) };

    fn put(&mut self, bytes: &[u8]) -> Moved
        ensures puts { PutsBytes ⟦<MemSink as Sink>⟧ bytes.now result self.old self.new }

        // Just the calls whose numbers are listed fail, and those whose piece has no room; a failed one
        // appends nothing.
        ensures fails { (result ≡ Moved.Failed) ↔ (FailsNext self.old.plan ⊎ (vec_len self.old.room < self.old.len + length bytes.now)) }
        ensures unchanged { OnFailed result (⟦<MemSink as Sink>⟧.written self.new ≡ ⟦<MemSink as Sink>⟧.written self.old) }
        ensures room { vec_len self.new.room ≡ vec_len self.old.room }
        ensures plan { NextCall self.old.plan self.new.plan }
    {
        if self.plan.next_fails() || bytes.len() > self.room.len() - self.len {
            self.faults = raised(self.faults);
            return Moved::Failed;
        }
        let end = self.len + bytes.len();
        self.room[self.len..end].copy_from_slice(bytes);
        self.len = end;
        Moved::Done
    }

    ghost leads_nowhere = { λ s. (
      extends_itself (Some (take s.len s.room.items)),
      le_refl s.faults,
      later_itself s.plan,
      refl,
    ) };

    ghost leads_through = { λ a b c first then. (
      extends_through (Some (take a.len a.room.items)) (Some (take b.len b.room.items)) (Some (take c.len c.room.items)) first.0 then.0,
      le_trans first.1 then.1,
      later_through a.plan b.plan c.plan first.2 then.2,
      then.3 ∙ first.3,
    ) };

    ghost leads_more = { λ _ _ led. led.0 };

    ghost faults_grow = { λ _ _ led. led.1 };
}

/// Output that is dropped and never fails. It doesn't tell what was written.
#[derive(Drop)]
pub struct SureSink;

impl SureSink {
    /// Takes everything.
    pub fn new() -> SureSink
        ensures { ⟦<SureSink as Sink>⟧.faults result ≡ 0 }
    {
        SureSink
    }
}

impl Sink for SureSink {
    ghost written = { λ _. None };

    ghost faults = { λ _. 0 };

    ghost leads = { λ _ _. Unit {0} };

    fn put(&mut self, _bytes: &[u8]) -> Moved {
        Moved::Done
    }

    ghost leads_nowhere = { λ _. tt };

    ghost leads_through = { λ _ _ _ _ _. tt };

    ghost leads_more = { λ _ _ _. ([], refl) };

    ghost faults_grow = { λ _ _ _. lit≤ tt };
}
