//! Laws of FIFO and the clocks: none beats the best plan, and more frames may cost faults. There is no code here.
ghost use Rattle.std.specs.Prelude.{◌≡◌, ℕ};
ghost use Rattle.stack_dist.specs.Lru.{lru_faults};
ghost use Rattle.policy_faults.specs.Policies.{fifo_faults, clock_faults, hands_faults};
ghost use Rattle.fault_laws.specs.Policies.{IsAboveLeast, twelve_references};

/// Each of these policies brings in a page only when it is referenced and isn't there, so its faults are those of a plan, and at
/// least as many as the least. Under the clock with two hands that is so wherever the front hand is.
pub fn policies_have_least_faults()
    ensures fifo { IsAboveLeast fifo_faults }
    ensures clock { IsAboveLeast clock_faults }
    ensures hands { (ahead : ℕ → ℕ) → IsAboveLeast (λ refs n. hands_faults refs n (ahead n)) }
    ensures lru { IsAboveLeast lru_faults }
{}

/// First in, first out may have more faults with more frames (Belady, Nelson and Shedler, "An Anomaly in Space-Time
/// Characteristics of Certain Programs Running in a Paging Machine").
pub fn more_frames_may_cost_faults()
    ensures three { fifo_faults twelve_references 3 ≡ 9 }
    ensures four { fifo_faults twelve_references 4 ≡ 10 }
{}
