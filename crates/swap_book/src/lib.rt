//! The book of swap space: which owner holds which blocks.
//!
//! The owners are an image's text, a space's data, a space's stack and a process's u page. Data and stack
//! hold chunks, a text holds pieces of 1,024 blocks and a last one of what is left, and a u page holds one
//! piece of two blocks. Each piece is found at the lowest place at which its blocks are free in one unit of
//! 1,024 blocks. A request gets all its pieces or none. The holdings are a list: new pieces stand last, and
//! the others keep their order when pieces are given back. The scheme is that of the 4.3BSD book's swap
//! maps; units, sizes and the order of finding are this project's profile.
#![tactic(auto)]

ghost use Rattle.std.specs.Prelude.{◌≡◌, ℕ, ◌%◌, ◌<◌, ◌≤◌, ◌^◌, [], ◌∷◌, ◌++◌, length, remove, take, slice_get, IfOk, OnErr, OnOk, OnSome, IfSome, IfNone};
ghost use Rattle.swap_dmap.specs.Chunks.{pieces, text_pieces};
ghost use Rattle.swap_book.specs.Owners.{same_owner as is_same_owner, pieces_of, u_pieces, spot_of};
ghost use Rattle.swap_book.specs.Holdings.{Holdings, of_owner, lengths, kept, block_in, IsLastOf, LastOf, IsItsOwnersLast};
ghost use Rattle.swap_book.specs.Placing.{one, Adds, Finds};
ghost use Rattle.swap_book.specs.Book.{empty_book, with_holdings, CanGrow, CanShrink, growth_of, answer_of, grown_book, IsBook, ArePlacesApart};

use resource_map::{NoMemory, ResourceMap};
use std::alloc::Global;
use std::marker::Model;
use swap_dmap::{TEXT_PIECE, chunk, chunks_for, place_of, text_place_of};

/// The blocks of a u page.
const U_BLOCKS: u32 = 2;

/// Who holds swap space: the data or the stack of the space of this number, the u page of the process of
/// this pid, or the text of the image of this number.
#[derive(Clone, Copy, Debug, PartialEq, Eq)]
pub enum Owner {
    Data(u32),
    Stack(u32),
    U(u32),
    Text(u32),
}

/// A piece of swap space that an owner holds.
#[derive(Clone, Copy, Debug, PartialEq, Eq)]
pub struct Held {
    pub owner: Owner,
    /// The first block, which is even.
    pub start: u32,
    /// How many blocks, an even number of at least 2.
    pub length: u32,
}

/// What a growth answers.
#[derive(Clone, Copy, Debug, PartialEq, Eq)]
pub enum Grown {
    /// Every piece found its place.
    Ok,
    /// The piece of this many blocks found no place after the earlier ones.
    NoFit(u32),
}

/// The holdings of a swap area. Contracts see its size in blocks and the list of its pieces.
#[derive(Drop)]
pub struct SwapBook {
    map: ResourceMap,
    holdings: Vec<Held>,
}

impl Model for SwapBook {
    ghost use Rattle.swap_book.specs.Book.{Book};

    ghost Value = { Book };

    ghost use Rattle.swap_book.specs.Fields.{book_of, IsSound};

    ghost view = { book_of };

    ghost invariant = { IsSound };
}

impl SwapBook {
    /// A book of `size` blocks, of which nobody holds any.
    pub fn new(alloc: Global, size: u32) -> Result<SwapBook, NoMemory>
        ensures { IfOk result (λ b. b ≡ empty_book size) }
    {
        Ok(SwapBook {
            map: ResourceMap::new(alloc, size)?,
            holdings: Vec::new(alloc),
        })
    }

    /// The pieces that are held, in the order in which they were found.
    pub fn holdings(&self) -> &[Held]
        ensures { result.now ≡ self.now.holdings }
    {
        &self.holdings
    }

    /// Finds the pieces that an owner lacks to hold `blocks` blocks, one after another, each at its lowest
    /// place; nothing changes where it holds as many already. `NoFit(n)` comes exactly where the piece of
    /// `n` blocks finds no place after the earlier ones. Then, and after `NoMemory`, nothing has changed.
    /// A u page asks for 2 blocks; a text asks for an even number, while it holds nothing.
    pub fn grow(&mut self, owner: Owner, blocks: u32) -> Result<Grown, NoMemory>
        requires { CanGrow self.old.holdings owner blocks }
        ensures answer { IfOk result (λ grown. grown ≡ answer_of (growth_of self.old owner blocks)) }
        ensures book { OnOk result (self.new ≡ grown_book self.old (growth_of self.old owner blocks)) }
        ensures err { OnErr result (self.new ≡ self.old) }
    {
        let before = self.holdings.len();
        match self.find_all(owner, blocks) {
            Ok(Grown::Ok) => Ok(Grown::Ok),
            Ok(Grown::NoFit(n)) => {
                self.cut(before);
                Ok(Grown::NoFit(n))
            }
            Err(refused) => {
                self.cut(before);
                Err(refused)
            }
        }
    }

    /// Gives back the last chunks of a data or stack segment that it doesn't need for `blocks` blocks.
    pub fn shrink(&mut self, owner: Owner, blocks: u32)
        requires { CanShrink owner }
        ensures { self.new ≡ with_holdings self.old (kept owner (length (pieces_of owner blocks)) self.old.holdings) }
    {
        self.keep_first(owner, chunks_for(blocks) as usize);
    }

    /// Gives back all that an owner holds.
    pub fn drop_owner(&mut self, owner: Owner)
        ensures { self.new ≡ with_holdings self.old (kept owner 0 self.old.holdings) }
    {
        self.keep_first(owner, 0);
    }

    /// The first of the two blocks in which an owner's page `v` lies. None comes exactly where the owner
    /// holds no place for it. A u page is page 0 of its owner.
    pub fn block_of(&self, owner: Owner, v: u32) -> Option<u32>
        ensures { result ≡ block_in self.now.holdings owner v }
    {
        let (index, block) = spot(owner, v);
        let piece = nth_piece(&self.holdings, owner, index as usize)?;
        if block < piece.length {
            Some(piece.start + block)
        } else {
            None
        }
    }

    /// Finds places for the pieces that an owner lacks, until one finds none.
    fn find_all(&mut self, owner: Owner, blocks: u32) -> Result<Grown, NoMemory>
        requires { CanGrow self.old.holdings owner blocks }
        ensures found { IfOk result (λ grown. Finds grown (growth_of self.old owner blocks) self.new.holdings) }
        ensures front { take (length self.old.holdings) self.new.holdings ≡ self.old.holdings }
        ensures size { self.new.size ≡ self.old.size }
    {
        let mut index = count(&self.holdings, owner);
        while let Some(length) = piece(owner, blocks, index) {
            if !self.add(owner, length)? {
                return Ok(Grown::NoFit(length));
            }
            index += 1;
        }
        Ok(Grown::Ok)
    }

    /// Adds a piece at the lowest place for it; false where there is none, and then nothing changes.
    fn add(&mut self, owner: Owner, length: u32) -> Result<bool, NoMemory>
        requires some { 0 < length }
        requires even { length % 2 ≡ 0 }
        requires next { (blocks : ℕ) × (lengths owner self.old.holdings ++ length ∷ [] ≡ pieces_of owner blocks) }
        ensures added { IfOk result (λ found. Adds found self.old.size self.old.holdings (one owner length) self.new.holdings) }
        ensures size { self.new.size ≡ self.old.size }
        ensures err { OnErr result (self.new ≡ self.old) }
    {
        self.holdings.reserve(1)?;
        let Some(start) = self.map.alloc(length)? else {
            return Ok(false);
        };
        let Ok(()) = self.holdings.push(Held {
            owner,
            start,
            length,
        })
        else {
            unreachable!()
        };
        Ok(true)
    }

    /// Gives back the pieces after the first `before`, the last one first.
    fn cut(&mut self, before: usize)
        requires { before ≤ length self.old.holdings }
        ensures { self.new ≡ with_holdings self.old (take before self.old.holdings) }
    {
        while self.holdings.len() > before {
            let at = self.holdings.len() - 1;
            self.give_back(at);
        }
    }

    /// Gives back an owner's pieces after its first `keep`, the last one first.
    fn keep_first(&mut self, owner: Owner, keep: usize)
        ensures { self.new ≡ with_holdings self.old (kept owner keep self.old.holdings) }
    {
        while let Some(at) = last_beyond(&self.holdings, owner, keep) {
            self.give_back(at);
        }
    }

    /// Gives back one piece, which is its owner's last.
    fn give_back(&mut self, at: usize)
        requires within { at < length self.old.holdings }
        requires last { IsItsOwnersLast self.old.holdings at }
        ensures { self.new ≡ with_holdings self.old (remove self.old.holdings at) }
    {
        let Held { start, length, .. } = self.holdings.remove(at);
        self.map.free(start, length);
    }
}

/// In a book's holdings each page that an owner's blocks are for has a place. The place is even, below the
/// size and in a piece of the page's own owner, and two different pages, of whichever owners, share no block.
pub fn places_apart()
    ensures { (size : ℕ) (hs : Holdings) → IsBook size hs → ArePlacesApart size hs }
{}

/// Whether the two are one owner.
fn same_owner(a: Owner, b: Owner) -> bool
    ensures { result ≡ is_same_owner a b }
{
    a == b
}

/// The piece of an owner's page, and the block in it where the page begins.
fn spot(owner: Owner, v: u32) -> (u32, u32)
    ensures { result ≡ spot_of owner v }
{
    match owner {
        Owner::Data(_) => place_of(v, false),
        Owner::Stack(_) => place_of(v, true),
        Owner::U(_) => (v, 0),
        Owner::Text(_) => text_place_of(v),
    }
}

/// An owner's piece by its place among the owner's pieces.
fn nth_piece(holdings: &[Held], owner: Owner, index: usize) -> Option<Held>
    ensures { result ≡ slice_get (of_owner owner holdings.now) index }
{
    holdings
        .iter()
        .filter(|held| same_owner(held.owner, owner))
        .nth(index)
        .copied()
}

/// How many pieces an owner holds.
fn count(holdings: &[Held], owner: Owner) -> usize
    ensures { result ≡ length (of_owner owner holdings.now) }
{
    holdings
        .iter()
        .filter(|held| same_owner(held.owner, owner))
        .count()
}

/// Where an owner's last piece stands, if it has more than `keep`.
fn last_beyond(holdings: &[Held], owner: Owner, keep: usize) -> Option<usize>
    ensures none { IfNone result (length (of_owner owner holdings.now) ≤ keep) }
    ensures more { OnSome result (keep < length (of_owner owner holdings.now)) }
    ensures last { IfSome result (IsLastOf holdings.now owner (length holdings.now)) }
{
    if count(holdings, owner) > keep {
        last_piece(holdings, owner)
    } else {
        None
    }
}

/// Where an owner's last piece stands.
fn last_piece(holdings: &[Held], owner: Owner) -> Option<usize>
    ensures { LastOf holdings.now owner (length holdings.now) result }
{
    let mut last = None;
    for (at, held) in holdings.iter().enumerate() {
        if same_owner(held.owner, owner) {
            last = Some(at);
        }
    }
    last
}

/// The length of an owner's piece by its place among the pieces with which it holds `blocks` blocks.
fn piece(owner: Owner, blocks: u32, index: usize) -> Option<u32>
    ensures value { result ≡ slice_get (pieces_of owner blocks) index }
    ensures small { OnSome result (index < 2 ^ 32) }
{
    match owner {
        Owner::Data(_) => chunk_at(blocks, index),
        Owner::Stack(_) => chunk_at(blocks, index),
        Owner::U(_) => u_piece_at(blocks, index),
        Owner::Text(_) => text_piece_at(blocks, index),
    }
}

fn chunk_at(blocks: u32, index: usize) -> Option<u32>
    ensures value { result ≡ slice_get (pieces blocks) index }
    ensures small { OnSome result (index < 2 ^ 32) }
{
    if index < chunks_for(blocks) as usize {
        Some(chunk(index as u32))
    } else {
        None
    }
}

fn u_piece_at(blocks: u32, index: usize) -> Option<u32>
    ensures value { result ≡ slice_get (u_pieces blocks) index }
    ensures small { OnSome result (index < 2 ^ 32) }
{
    if index == 0 && blocks > 0 {
        Some(U_BLOCKS)
    } else {
        None
    }
}

fn text_piece_at(blocks: u32, index: usize) -> Option<u32>
    ensures value { result ≡ slice_get (text_pieces blocks) index }
    ensures small { OnSome result (index < 2 ^ 32) }
{
    let whole = (blocks / TEXT_PIECE) as usize;
    let rest = blocks % TEXT_PIECE;
    if index < whole {
        Some(TEXT_PIECE)
    } else if index == whole && rest > 0 {
        Some(rest)
    } else {
        None
    }
}
