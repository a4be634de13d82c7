//! Pages in memory, in a ring that the hand of a clock goes round. Who leaves is the policy's to say.
ghost use Rattle.std.specs.Prelude.{◌≡◌, ◌<◌, ◌≤◌, ℕ, length, drop, true, false, vec_len, slice_index_or, slice_set, None, OnOk, []};
ghost use Rattle.policy_faults.specs.Ring.{is_in_memory, marked_page, unmarked_at, is_hand_marked, hand_passed, paged_in};

use std::alloc::Global;
use std::collections::VecDeque;
use std::marker::Model;
use vm_facts::NoMemory;

/// Pages with marks. Contracts see the list of them, from the one at the hand on.
#[derive(Drop)]
pub(crate) struct PageRing {
    pages: VecDeque<u32>,
    /// By its number whether a page is marked, and none where it isn't there, as those past the end aren't.
    marks: Vec<Option<bool>>,
}

impl Model for PageRing {
    ghost use Rattle.std.specs.Prelude.{List};
    ghost use Rattle.policy_faults.specs.Ring.{MarkedPage};
    ghost use Rattle.policy_faults.specs.Kept.{ring_of, IsPageRing};

    ghost Value = { List MarkedPage };

    ghost view = { ring_of };

    ghost invariant = { IsPageRing };
}

impl PageRing {
    /// No pages.
    pub(crate) fn new(alloc: Global) -> PageRing
        ensures { result ≡ [] }
    {
        PageRing {
            pages: VecDeque::new(alloc),
            marks: Vec::new(alloc),
        }
    }

    /// How many pages there are.
    pub(crate) fn len(&self) -> usize
        ensures { result ≡ length self.now }
    {
        self.pages.len()
    }

    /// Whether a page is there.
    pub(crate) fn contains(&self, page: u32) -> bool
        ensures { result ≡ is_in_memory page self.now }
    {
        mark_of(&self.marks, page).is_some()
    }

    /// Marks a page, where it is there, and answers whether it is.
    pub(crate) fn touch(&mut self, page: u32) -> bool
        ensures there { result ≡ is_in_memory page self.old }
        ensures marked { result ≡ true → self.new ≡ marked_page page self.old }
        ensures same { result ≡ false → self.new ≡ self.old }
    {
        if mark_of(&self.marks, page).is_none() {
            return false;
        }
        put_mark(&mut self.marks, page, Some(true));
        true
    }

    /// Takes the mark of the page at a place, counted from the hand.
    pub(crate) fn unmark(&mut self, place: usize)
        ensures { self.new ≡ unmarked_at place self.old }
    {
        let Some(page) = self.pages.get(place) else {
            return;
        };
        put_mark(&mut self.marks, *page, Some(false));
    }

    /// Whether the page at the hand is marked.
    pub(crate) fn is_hand_marked(&self) -> bool
        ensures { result ≡ is_hand_marked self.now }
    {
        let Some(page) = self.pages.front() else {
            return false;
        };
        mark_of(&self.marks, *page).unwrap_or(false)
    }

    /// The hand goes on by one page.
    pub(crate) fn pass_hand(&mut self)
        ensures { self.new ≡ hand_passed self.old }
    {
        let Some(page) = self.pages.pop_front() else {
            return;
        };
        let Ok(()) = self.pages.push_back(page) else {
            unreachable!()
        };
    }

    /// The page at the hand leaves, where there is one.
    pub(crate) fn drop_first(&mut self)
        ensures { self.new ≡ drop 1 self.old }
    {
        let Some(page) = self.pages.pop_front() else {
            return;
        };
        put_mark(&mut self.marks, page, None);
    }

    /// A page that isn't there comes, marked, as the last that the hand comes to.
    pub(crate) fn page_in(&mut self, page: u32) -> Result<(), NoMemory>
        requires { is_in_memory page self.old ≡ false }
        ensures { OnOk result (self.new ≡ paged_in page self.old) }
    {
        self.pages.reserve(1)?;
        have_place(&mut self.marks, page)?;
        put_mark(&mut self.marks, page, Some(true));
        let Ok(()) = self.pages.push_back(page) else {
            unreachable!()
        };
        Ok(())
    }
}

// The mark of a page, where it is there.
fn mark_of(marks: &[Option<bool>], page: u32) -> Option<bool>
    ensures { result ≡ slice_index_or marks.now page None }
{
    match marks.get(page as usize) {
        Some(mark) => *mark,
        None => None,
    }
}

// Puts the mark of a page, or none.
fn put_mark(marks: &mut Vec<Option<bool>>, page: u32, mark: Option<bool>)
    requires { page < vec_len marks.old }
    ensures { marks.new.items ≡ slice_set marks.old.items page mark }
{
    marks[page as usize] = mark;
}

// Makes a place for the mark of a page, where there is none.
fn have_place(marks: &mut Vec<Option<bool>>, page: u32) -> Result<(), NoMemory>
    ensures place { OnOk result (page < vec_len marks.new) }
    ensures same { (q : ℕ) → slice_index_or marks.new.items q None ≡ slice_index_or marks.old.items q None }
{
    let places = page as usize + 1;
    if marks.len() < places {
        marks.resize(places, None)?;
    }
    Ok(())
}
