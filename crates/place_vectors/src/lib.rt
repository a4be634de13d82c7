//! The definitions of paging and of a run held against recorded runs, by computation. There is no code here, and no law: most files of
//! proofs/ are one run each of an independent implementation of the same rules, as a list of what was done, with the
//! units and choices that it made on the way and the whole placement that it left; the proof is that `page_model` makes
//! the same of it.
//!
//! A theorem is worth what its definitions are. `place_entry`, `place_change`, `serve_unit`, `put_out_unit` and
//! `swap_choice` decide what the theorems on a run say, and no proof of them shows that a limit is 16 and not 15. With a
//! rule changed, something here is no longer what was recorded; the README lists such changes and what refuses each.
//!
//! By file of proofs/:
//! - Walk: the operations, and the walk over them.
//! - Whole runs, with what they leave: TwoPagesOfText, StackGrows, DataGrows, TextFoundAgain, Fork, LendsNested,
//!   ExecveOfOwnImage, BorrowersOfManyImages, DeepStacks, ForksOfFour, EndWithWriteInFlight, WalkOf48Pages, PutOutAndIn,
//!   ForksWithFewFrames, ForcedFrames and StackReadByFours.
//! - Runs of which the units alone are told: HandsRest, TextOnSwap and RingOf200Pages.
//! - What no run shows, by the rule in words: Limits, OneMoveOfTheHands, PutOutByRuns, ReadsAndFills, SwapperChoice and
//!   TextAtItsLastEnd.
//! - Runs by the written policy, from the start on: WholeRuns.
//! - Worked states: OneProcessIn64Frames, ChoiceAmongFive, SpaceLentAndBack, PiecesOfSwap and MarksAndLocks.
#![tactic(auto)]
