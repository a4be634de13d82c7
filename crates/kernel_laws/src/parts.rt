//! Laws of a part of a move of the hands that comes alone. There is no code here.
ghost use Rattle.std.specs.Prelude.{◌≡◌, ◌<◌, ◌≤◌, ℕ, Bool, List, length, Some};
ghost use Rattle.vm_facts.specs.declared.page.Page.{Page};
ghost use Rattle.swap_book.specs.Holdings.{Holdings};
ghost use Rattle.flat_state.specs.Flat.{FlatState, NamedImage};
ghost use Rattle.page_model.specs.Placement.{Placement};
ghost use Rattle.page_model.specs.Runs.{Run};
ghost use Rattle.page_model.specs.Rank.{HandsStand};
ghost use Rattle.page_model.specs.Ownership.{OwnsFrames, OneOwner};
ghost use Rattle.page_model.specs.Dues.{DueStand};
ghost use Rattle.page_model.specs.Hands.{hand_run, advance, hand_move};
ghost use Rattle.kernel_model.specs.Kernel.{Kernel};
ghost use Rattle.kernel_model.specs.Sound.{Sound};
ghost use Rattle.kernel_model.specs.Coupled.{Coupled};
ghost use Rattle.kernel_model.specs.declared.part.HandPart.{HandPart};
ghost use Rattle.kernel_model.specs.HandParts.{PartComes, PartsCome, part_place, parts_place, part_step};
ghost use Rattle.kernel_model.specs.HandMoves.{move_parts};

/// After a part of a move that may come each frame and each block of swap has one owner or is free, at most 16 transfers are in flight, the
/// hands stand a quarter apart, and what is due waits to be filled.
pub fn parts_keep_owners()
    ensures owner { (size : ℕ) (lives : ℕ → Bool) (p : Placement) (hs : Holdings) (x : HandPart) → OneOwner size lives p hs → PartComes p x
        → OneOwner size lives (part_place p x) hs }
    ensures few { (p : Placement) (x : HandPart) → OwnsFrames p → PartComes p x → length p.transfers ≤ 16 → length (part_place p x).transfers ≤ 16 }
    ensures hands { (p : Placement) (x : HandPart) → OwnsFrames p → PartComes p x → HandsStand p → HandsStand (part_place p x) }
    ensures due { (p : Placement) (x : HandPart) → OwnsFrames p → PartComes p x → DueStand p → DueStand (part_place p x) }
{}

/// A machine with its bytes stands after a part for each flat state for which it stood, with any images and the same swap image.
pub fn parts_keep_memory()
    ensures { (size : ℕ) (k : Kernel) (images : List NamedImage) (image : List ℕ) (flat : FlatState) (x : HandPart) → Sound size k → PartComes k.place x
        → Coupled k images image flat → Coupled (part_step k x) images image flat }
{}

/// A move of the hands is its parts, one after another, and then both hands go on by one frame. Where there is room for the write that it
/// begins, if it begins one, each of its parts may come.
pub fn moves_are_parts()
    ensures place { (p : Placement) (locked : List Page) → advance (parts_place p (move_parts p locked)) ≡ hand_move p locked }
    ensures come { (p : Placement) (locked : List Page) → OwnsFrames p
        → ((w : Page × Run) → hand_run p locked ≡ Some w → length p.transfers < 16) → PartsCome p (move_parts p locked) }
{}
