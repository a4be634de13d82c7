//! Laws of plans of replacement: demand paging is enough, and each page faults once. There is no code here.
ghost use Rattle.std.specs.Prelude.{◌≡◌, ℕ, ◌≤◌, true, List, [], length};
ghost use Rattle.page_opt.specs.Plans.{has};
ghost use Rattle.page_opt.specs.Cache.{count_in};
ghost use Rattle.fault_laws.specs.Memory.{Moment, used_in, brought, IsMemory, HasPlan, NoneFewer};

/// Demand paging brings in no more pages than any other memory (Mattson, Gecsei, Slutz and Traiger, "Evaluation Techniques
/// for Storage Hierarchies"). A plan brings a page in when it is referenced and isn't there, and no other. A memory may
/// bring in pages before they are used, several at once, and others that never are. For each memory of n frames there is a
/// plan for n frames, of the references that the memory has, with at most as many faults as the memory brings pages in. So
/// the least faults of a plan are at most that many.
pub fn demand_paging_brings_least()
    ensures plan { (n : ℕ) (moments : List Moment) → IsMemory n moments → HasPlan (used_in moments) n (brought [] moments) }
    ensures least { (n least : ℕ) (moments : List Moment) → IsMemory n moments → NoneFewer (used_in moments) n least → least ≤ brought [] moments }
{}

/// Each page of the references faults at least once, when it is first referenced, however many frames there are. So a plan
/// has at least as many faults as there are pages.
pub fn each_page_faults()
    ensures { (refs pages : List ℕ) (n : ℕ) → ((p : ℕ) → count_in p pages ≤ 1) → ((p : ℕ) → has p pages ≡ true → has p refs ≡ true)
        → NoneFewer refs n (length pages) }
{}
