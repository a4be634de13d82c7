//! The text pages that frames hold, found by hash chains. Links are frame numbers and 0 is none. It must follow each
//! change of a slot, and map.rt alone sees to that.
ghost use Rattle.std.specs.Prelude.{◌≡◌, ◌≢◌, ℕ, ◌+◌, ◌<◌, ◌≤◌, ◌^◌, List, [], ◌∷◌, length, slice_index, slice_set, IfSome, IfNone, IfOk, Some, None, replicate, IsTrue, ◌↔◌};
ghost use Rattle.core_map.specs.Chains.{key_at, bucket_of, IsIndexed, IsOnWay, IsBefore};
ghost use Rattle.core_map.specs.Slots.{key_of as page_key};

use std::alloc::{AllocError, Global};
use std::marker::Model;
use vm_facts::Page;

/// A text page: its image and its number.
#[derive(Clone, Copy, Debug, PartialEq, Eq)]
pub struct TextKey {
    pub image: u32,
    pub v: u32,
}

/// Hash chains of frames. `links[frame]` is the frame after it in its chain, and the first frames of the
/// chains stand after those links, chain by chain. `keys[frame]` is the text page that it holds, if any.
#[derive(Drop)]
pub struct TextIndex {
    links: Vec<u32>,
    keys: Vec<Option<TextKey>>,
    chains: usize,
}

impl Model for TextIndex {
    ghost use Rattle.std.specs.Prelude.{List, Option};
    ghost use Rattle.core_map.specs.declared.text_index.TextKey.{TextKey};

    ghost Value = { List (Option TextKey) };

    ghost use Rattle.core_map.specs.Chains.{keys_of, IsIndex};

    ghost view = { keys_of };

    ghost invariant = { IsIndex };
}

// The chain, of `chains` ones, in which the frame of a text page stands.
fn bucket(chains: usize, key: TextKey) -> usize
    requires { 0 < chains }
    ensures value { result ≡ bucket_of chains key }
    ensures below { result < chains }
{
    ((u64::from(key.image) * 4096 + u64::from(key.v)) % chains as u64) as usize
}

impl TextIndex {
    /// No frame below `bound` holds a text page. There are as many chains as frames.
    pub fn new(alloc: Global, bound: usize) -> Result<TextIndex, AllocError>
        requires above_zero { 0 < bound }
        requires nameable { bound ≤ 2 ^ 32 }
        ensures { IfOk result (λ t. t ≡ replicate bound None) }
    {
        Ok(TextIndex {
            links: vec![in alloc; 0; bound + bound]?,
            keys: vec![in alloc; None; bound]?,
            chains: bound,
        })
    }

    /// The frame that holds the text page.
    pub fn find(&self, key: TextKey) -> Option<u32>
        ensures found { IfSome result (λ frame. key_at self.now frame ≡ Some key) }
        ensures none { IfNone result ((frame : ℕ) → key_at self.now frame ≢ Some key) }
    {
        seek(&self.links, &self.keys, self.chains, key)
    }

    /// The frame holds the text page from now on.
    pub fn add(&mut self, frame: u32, key: TextKey)
        requires above_zero { 0 < frame }
        requires below { frame < length self.old }
        requires free { key_at self.old frame ≡ None }
        ensures { self.new ≡ slice_set self.old frame (Some key) }
    {
        let start = self.keys.len() + bucket(self.chains, key);
        let first = self.links[start];
        self.links[frame as usize] = first;
        self.links[start] = frame;
        self.keys[frame as usize] = Some(key);
    }

    /// The frame no longer holds the text page.
    pub fn remove(&mut self, frame: u32, key: TextKey)
        requires { key_at self.old frame ≡ Some key }
        ensures { self.new ≡ slice_set self.old frame None }
    {
        let start = self.keys.len() + bucket(self.chains, key);
        let at = before(&self.links, self.keys.len(), start, frame);
        let after = self.links[frame as usize];
        self.links[at] = after;
        self.keys[frame as usize] = None;
    }
}

/// Whether frame `at` has the key.
fn has_key(keys: &[Option<TextKey>], at: usize, key: TextKey) -> bool
    requires { at < length keys.now }
    ensures { IsTrue result ↔ (key_at keys.now at ≡ Some key) }
{
    keys[at] == Some(key)
}

/// Looks for a text page along its chain.
fn seek(links: &[u32], keys: &[Option<TextKey>], chains: usize, key: TextKey) -> Option<u32>
    requires { IsIndexed chains links.now keys.now }
    ensures found { IfSome result (λ frame. key_at keys.now frame ≡ Some key) }
    ensures none { IfNone result ((frame : ℕ) → key_at keys.now frame ≢ Some key) }
{
    let mut at = links[keys.len() + bucket(chains, key)];
    for _turn in 0..keys.len() {
        if at == 0 {
            return None;
        }
        if has_key(keys, at as usize, key) {
            return Some(at);
        }
        at = links[at as usize];
    }
    None
}

/// The place whose link leads to `frame`, on the way from `start`.
fn before(links: &[u32], frames: usize, start: usize, frame: u32) -> usize
    requires { IsOnWay links.now frames start frame }
    ensures within { result < length links.now }
    ensures before { IsBefore links.now start frame result }
{
    let mut at = start;
    for _turn in 0..frames {
        let next = links[at];
        if next == frame {
            return at;
        }
        at = next as usize;
    }
    unreachable!()
}

/// The key of a text page.
fn key_of(page: Option<Page>) -> Option<TextKey>
    ensures { result ≡ page_key page }
{
    match page {
        Some(Page::Text { image, v }) => Some(TextKey { image, v }),
        _ => None,
    }
}

/// The frame holds the page from now on.
pub(crate) fn enter(text: &mut TextIndex, frame: u32, page: Option<Page>)
    requires above_zero { 0 < frame }
    requires below { frame < length text.old }
    requires free { key_at text.old frame ≡ None }
    ensures { text.new ≡ slice_set text.old frame (page_key page) }
{
    if let Some(key) = key_of(page) {
        text.add(frame, key);
    }
}

/// The frame no longer holds the page.
pub(crate) fn leave(text: &mut TextIndex, frame: u32, page: Option<Page>)
    requires { key_at text.old frame ≡ page_key page }
    ensures { text.new ≡ slice_set text.old frame None }
{
    if let Some(key) = key_of(page) {
        text.remove(frame, key);
    }
}
