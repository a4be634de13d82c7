//! What the tables show of a placement: the entries of a space and the core map stand for the states and the marks of
//! the space's pages, and for the free list.
//!
//! Definitions, by file of specs/:
//! - Shown: `state_shown`, the state that an entry and the slot of its frame show; `ShowsMark`, what that slot says of the
//!   page beside it.
//! - Views: `ShowsSpace`, the core map and the entries of a space show a placement.
#![tactic(auto)]

ghost use Rattle.core_map.specs.Frames.{Frames};
ghost use Rattle.space_map.specs.Space.{Places};
ghost use Rattle.page_model.specs.Placement.{Placement};
ghost use Rattle.table_view.specs.Views.{ShowsSpace, ValidAreSeated};

/// A law: every core map and space whose valid pages are in resident frames show some placement.
pub fn some_placement_is_shown()
    ensures { (core : Frames) (s : Places) → ValidAreSeated core s → (p : Placement) × ShowsSpace p core s }
{}
