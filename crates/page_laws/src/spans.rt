//! How few entries and moves of the hands forcing a frame and serving a page take. There is no code here.
ghost use Rattle.std.specs.Prelude.{◌≡◌, ℕ, ◌+◌, ◌<◌, ◌≤◌, Bool, true, List, ◌++◌, length};
ghost use Rattle.vm_facts.specs.declared.page.Page.{Page};
ghost use Rattle.vm_facts.specs.declared.entry.Entry.{Entry};
ghost use Rattle.page_model.specs.Journal.{appended};
ghost use Rattle.page_model.specs.Placement.{Placement, IsThere};
ghost use Rattle.page_model.specs.Serve.{Forces, Serves};
ghost use Rattle.page_model.specs.Rank.{HandsStand, HasRoom};
ghost use Rattle.page_model.specs.Ownership.{OwnsFrames};
ghost use Rattle.page_laws.specs.Spans.{ends_moving, added, takings, moves_of};
ghost use Rattle.page_laws.specs.Short.{ServingAddsFew, ServingLeavesFlights};

/// Units lengthen a journal by no more than `added` says, and those of two parts by no more than both.
pub fn entries_added()
    ensures journal { (journal us : List Entry) → length (appended journal us) ≤ length journal + added (ends_moving journal) us }
    ensures apart { (moved : Bool) (us vs : List Entry) → added moved (us ++ vs) ≤ added moved us + added true vs + 1 }
{}

/// Forcing a frame adds at most 2 entries more than the number by which the transfers in flight fall, however far it
/// has come; where a frame is free at its end, no more are in flight than at its start; and it makes no more moves of
/// the hands than there are frames.
pub fn forcing_is_short()
    ensures few { (p r : Placement) (locked : List Page) (journal us : List Entry) → OwnsFrames p → Forces us p locked r
        → length (appended journal us) + length r.transfers ≤ length journal + length p.transfers + 2 }
    ensures flights { (p r : Placement) (locked : List Page) (us : List Entry) → OwnsFrames p → Forces us p locked r → 0 < length r.free
        → length r.transfers ≤ length p.transfers }
    ensures moves { (p r : Placement) (locked : List Page) (us : List Entry) → OwnsFrames p → HandsStand p → HasRoom p locked
        → Forces us p locked r → moves_of us ≤ length p.holds }
{}

/// Serving a page adds at most 5 entries more than the number by which the transfers in flight fall, however far it has
/// come, and one of them at most takes frames for the page; where the page is valid at its end, no more transfers
/// are in flight than at its start; and it makes no more moves of the hands than there are frames.
pub fn serving_is_short()
    ensures few { ServingAddsFew }
    ensures takings { (p r : Placement) (locked : List Page) (q : Page) (now : Bool) (us : List Entry) → OwnsFrames p → IsThere p q
        → Serves us p locked q now r → takings us ≤ 1 }
    ensures flights { ServingLeavesFlights }
    ensures moves { (p r : Placement) (locked : List Page) (q : Page) (now : Bool) (us : List Entry) → OwnsFrames p → HandsStand p
        → HasRoom p locked → IsThere p q → Serves us p locked q now r → moves_of us ≤ length p.holds }
{}
