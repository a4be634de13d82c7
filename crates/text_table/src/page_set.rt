//! A set of the pages of one text, as a bitmap. It knows neither image nor sharer.
ghost use Rattle.std.specs.Prelude.{◌≡◌, ◌≢◌, ℕ, ◌<◌, ◌==◌, if◌then◌else◌, slice_set, slice_index_or, false};
ghost use Rattle.std.specs.Int.{bit_at};
ghost use Rattle.text_table.specs.Bitmap.{pages_of};
ghost use Rattle.text_table.specs.Texts.{no_pages};

/// How many pages one word marks.
const WORD_PAGES: u32 = 32;

/// The marks of 2,048 pages, 32 to a word, a word's first page at its lowest bit.
#[derive(Clone, Copy)]
pub struct PageSet {
    words: [u32; 64],
}

impl PageSet {
    /// The set with no page.
    pub fn empty() -> PageSet
        ensures { pages_of result.words ≡ no_pages }
    {
        PageSet { words: [0; 64] }
    }

    /// Whether page `v` is in the set.
    pub fn contains(&self, v: u32) -> bool
        requires { v < 2048 }
        ensures { result ≡ slice_index_or (pages_of self.now.words) v false }
    {
        has_bit(self.words[(v / WORD_PAGES) as usize], v % WORD_PAGES)
    }

    /// Puts page `v` into the set, or takes it out.
    pub fn set(&mut self, v: u32, member: bool)
        requires { v < 2048 }
        ensures { pages_of self.new.words ≡ slice_set (pages_of self.old.words) v member }
    {
        let at = (v / WORD_PAGES) as usize;
        self.words[at] = with_bit(self.words[at], v % WORD_PAGES, member);
    }
}

// Whether a bit of the word is 1.
fn has_bit(word: u32, bit: u32) -> bool
    requires { bit < 32 }
    ensures { result ≡ (bit_at word bit == 1) }
{
    (word >> bit) & 1 == 1
}

// The word with one bit made 1 or 0.
fn with_bit(word: u32, bit: u32, one: bool) -> u32
    requires { bit < 32 }
    ensures same { bit_at result bit ≡ (if one then 1 else 0) }
    ensures others { (i : ℕ) → i < 32 → i ≢ bit → bit_at result i ≡ bit_at word i }
{
    if one {
        word | (1 << bit)
    } else {
        word & !(1 << bit)
    }
}
