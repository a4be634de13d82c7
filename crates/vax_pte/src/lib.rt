//! Page table entries: where the bytes of a page are, in one word of the VAX.
//!
//! ```text
//! bit 31      valid
//! bits 30..27 protection: 4, the user reads and writes, or 15, the user reads
//! bit 26      changed
//! bit 25      fill on demand
//! bits 24..0  with a frame, its number, below 2^21; to fill with zeros, 0; to fill from the image, 2^24 and the
//!             page of the image's segment; on swap, 0
//! ```
//!
//! The valid and the changed bit are set for a page with a frame alone, and no page has frame 0. The layout is
//! that of the VAX and of the 4.3BSD book, with the fields that this project's profile keeps. No call takes memory.
#![tactic(auto)]

ghost use Rattle.std.specs.Prelude.{◌≡◌, ◌<◌, ◌+◌, ◌*◌, ◌^◌, MatchOption};
ghost use Rattle.vax_pte.specs.Words.{IsInRange, PacksTo, usable_frame, was_filled, is_in_frame, place_bits, place_named, word_of, one_if};
ghost use Rattle.vax_pte.specs.declared.Place.{Place};
ghost use Rattle.vax_pte.specs.declared.Pte.{Pte};

/// Where the bytes of a page are, as far as its entry says.
#[derive(Clone, Copy, Debug, PartialEq, Eq, Drop)]
pub enum Place {
    /// Nowhere yet: the page is filled with zeros on demand.
    Zero,
    /// In the image's file: the page is filled on demand from this page of the image's segment, below 2^24.
    Image(u32),
    /// Only on swap.
    Swap,
    /// In frame `f`, from 1 to 2^21 - 1. The page is usable where it is `valid`, and `changed` where it was written
    /// to since it was last read or written out.
    Frame { f: u32, valid: bool, changed: bool },
}

/// A page table entry.
#[derive(Clone, Copy, Debug, PartialEq, Eq, Drop)]
pub struct Pte {
    /// The user may write to the page: so it is with data and stack, and not with text.
    pub user_write: bool,
    /// Where its bytes are.
    pub place: Place,
}

/// The bit of a valid entry.
const VALID: u32 = 0x8000_0000;

/// The lowest bit of the protection.
const PROTECTION: u32 = 0x0800_0000;

/// The protection of data and stack.
const USER_WRITE: u32 = 4;

/// The protection of text.
const USER_READ: u32 = 15;

/// The bit of a changed page.
const CHANGED: u32 = 0x0400_0000;

/// The bit of a page that is filled on demand.
const FILL: u32 = 0x0200_0000;

/// The bit of a page that is filled on demand from the image.
const FROM_IMAGE: u32 = 0x0100_0000;

/// Frames have numbers below this one.
const FRAMES: u32 = 0x0020_0000;

/// The word of an entry. Its frame is from 1 to 2^21 - 1, its page of the image below 2^24.
pub fn pack(e: Pte) -> u32
    requires { IsInRange e.place }
    ensures { result ≡ word_of e }
{
    let protection = if e.user_write { USER_WRITE } else { USER_READ };
    protection * PROTECTION + bits_of(e.place)
}

/// The bits of a place: all of the word but its protection.
fn bits_of(place: Place) -> u32
    requires { IsInRange place }
    ensures { result ≡ place_bits place }
{
    match place {
        Place::Zero => FILL,
        Place::Image(v) => FILL + FROM_IMAGE + v,
        Place::Swap => 0,
        Place::Frame { f, valid, changed } => {
            u32::from(valid) * VALID + u32::from(changed) * CHANGED + f
        }
    }
}

/// The entry of a word: the one that packs to it, or `None` exactly where none does.
pub fn unpack(word: u32) -> Option<Pte>
    ensures packs { MatchOption result ((e : Pte) → ¬ (PacksTo e word)) (λ e. PacksTo e word) }
    ensures inverse { (e : Pte) → PacksTo e word → result ≡ Some e }
{
    let user_write = match word / PROTECTION % 16 {
        USER_WRITE => true,
        USER_READ => false,
        _ => return None,
    };
    let place = place_of(word >= VALID, word % PROTECTION)?;
    Some(Pte { user_write, place })
}

/// The place in the word of an entry.
#[tactic(auto, unfolding(crate::specs::Words::place_named))]
pub fn place_named(word: u32) -> Place
    ensures named { result ≡ place_named word }
    ensures inverse { (e : Pte) → PacksTo e word → result ≡ e.place }
{
    let bits = word % CHANGED;
    if bits == 0 {
        return Place::Swap;
    }
    if bits == FILL {
        return Place::Zero;
    }
    if bits >= FILL {
        return Place::Image(word % FROM_IMAGE);
    }
    Place::Frame {
        f: bits,
        valid: word >= VALID,
        changed: word / CHANGED % 2 == 1,
    }
}

/// The frame of the page whose entry has this word, where the page is valid.
pub fn valid_frame(word: u32) -> Option<u32>
    ensures { (e : Pte) → PacksTo e word → result ≡ usable_frame e.place }
{
    if word >= VALID {
        Some(word % CHANGED)
    } else {
        None
    }
}

/// Whether the page whose entry has this word was filled: its bytes are in a frame or on swap.
#[tactic(auto, unfolding(crate::specs::Words::place_named))]
pub fn was_filled(word: u32) -> bool
    ensures { result ≡ was_filled (place_named word) }
{
    word % CHANGED < FILL
}

/// Whether the page whose entry has this word is in a frame.
#[tactic(auto, unfolding(crate::specs::Words::place_named))]
pub fn is_in_frame(word: u32) -> bool
    ensures { result ≡ is_in_frame (place_named word) }
{
    let bits = word % CHANGED;
    if bits == 0 {
        return false;
    }
    bits < FILL
}

/// The place of an entry that is or isn't valid and has these bits below its protection.
fn place_of(valid: bool, bits: u32) -> Option<Place>
    requires { bits < 2 ^ 27 }
    ensures { let whole = one_if valid * 2 ^ 31 + bits in
        MatchOption result
        ((place : Place) → IsInRange place → ¬ (place_bits place ≡ whole))
        (λ place. IsInRange place × (place_bits place ≡ whole)) }
{
    let changed = bits >= CHANGED;
    let rest = bits % CHANGED;
    if 0 < rest && rest < FRAMES {
        return Some(Place::Frame {
            f: rest,
            valid,
            changed,
        });
    }
    if valid || changed {
        return None;
    }
    match rest {
        0 => Some(Place::Swap),
        FILL => Some(Place::Zero),
        _ if rest >= FILL + FROM_IMAGE => Some(Place::Image(rest - FILL - FROM_IMAGE)),
        _ => None,
    }
}
