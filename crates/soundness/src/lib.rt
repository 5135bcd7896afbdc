// The check call: one walk over the pages from the root, which tests all that soundness asks.
#![tactic(auto)]

ghost use Rattle.std.specs.Prelude.{◌≡◌, ◌≤◌, ◌<◌, ◌↔◌, IsTrue, IfSome, is_some, false, true, not, length, get_or, set};
ghost use Rattle.std.specs.List.{count_by};
ghost use Rattle.pages.specs.Sizes.{PIECES, PAGES};
ghost use Rattle.pages.specs.Layout.{page, table_in};
ghost use Rattle.pages.specs.Left.{left};
ghost use Rattle.pages.specs.Sound.{is, zeros, sound};
ghost use Rattle.soundness.specs.Calls.{checked_of, check_call};
ghost use Rattle.soundness.specs.Steps.{mark_at, IsPiece, shaped, Head, Tested, LeafTested, Visited, Complete, root_fewest, Rooted};

mod table;

use pages::{
    COUNT, ENTRY_WORDS, Entry, FANOUT, FEWEST, LEVEL, NUMBERS, PAGE_COUNT, PAGE_HEAD, PAGE_WORDS,
    PAGES, PIECE_COUNT, PageEntries, ROOT, ROOT_LEAST, Rect, TABLE_HEAD, TABLE_WORDS, TOP_LEVEL,
};
use refusals::{ACCEPTED, Refusal};
use std::mem;
pub use table::SoundTable;

/// What C gets of what check returns: a count of 6 is no refusal 6, so they stand apart.
#[repr(C)]
#[derive(Clone, Copy, Debug, PartialEq, Eq)]
pub struct Checked {
    pub refusal: u32,
    pub pieces: u32,
}

impl From<Result<u32, Refusal>> for Checked {
    ghost from_gives = { λ r c. c ≡ checked_of r };

    fn from(answer: Result<u32, Refusal>) -> Self {
        match answer {
            Ok(pieces) => Checked {
                refusal: ACCEPTED,
                pieces,
            },
            Err(refusal) => Checked {
                refusal: refusal.number(),
                pieces: 0,
            },
        }
    }
}

// Whether all words are zero: an accumulated `or` is vectorised, an early exit is not.
#[tactic(auto, using(crate::proofs::Blanks::zeros_or))]
fn is_blank(words: &[u32]) -> bool
    ensures { result ≡ zeros words.now }
{
    words.iter().fold(0, |any, w| any | *w) == 0
}

// How many are marked, by a sum: the count of a filter is slower.
fn total(marks: &[bool]) -> u32
    requires { length marks.now ≤ PIECES }
    ensures { result ≡ count_by (λ marked. marked) marks.now }
{
    marks.iter().map(|marked| u32::from(*marked)).sum()
}

// Marks i, and says whether it had no mark yet.
fn mark(marks: &mut [bool], i: usize) -> bool
    requires { i < length marks.old }
    ensures fresh { result ≡ not (get_or marks.old i false) }
    ensures marked { marks.new ≡ set marks.old i true }
{
    !mem::replace(&mut marks[i], true)
}

// The tests of an entry in a leaf: its number, its rectangle, and that the number was not met before.
fn take_piece(e: Entry, numbers: &mut [bool; NUMBERS]) -> bool
    ensures { Tested PIECES (IsPiece e) (λ c. is c e) numbers.old result numbers.new }
{
    e.r < pages::PIECES && e.rect.is_valid() && mark(numbers, e.r as usize)
}

// The bounds of a leaf's entries, if they pass their tests.
fn leaf(entries: PageEntries<'_>, numbers: &mut [bool; NUMBERS]) -> Option<Rect>
    ensures { LeafTested (left entries.entry) numbers.old result numbers.new }
{
    for e in entries {
        if !take_piece(e, numbers) {
            return None;
        }
    }
    Some(entries.bounds())
}

// The tests of a page's level, size and tail.
fn is_shaped(page: &[u32; PAGE_WORDS], level: u32, least: u32) -> bool
    ensures { result ≡ shaped page.now level least }
{
    let n = page[COUNT];
    page[LEVEL] == level
        && least <= n
        && n <= FANOUT as u32
        && is_blank(&page[PAGE_HEAD + ENTRY_WORDS * (n as usize)..])
}

// A table with k pages, and the marks that a walk over it leaves: the pages visited, the piece numbers met.
#[derive(Drop)]
struct Walk<'a> {
    table: &'a [u32; TABLE_WORDS],
    k: u32,
    seen: [bool; PAGES],
    numbers: [bool; NUMBERS],
    ghost count: { k ≡ length (table_in table.now).pages },
    ghost most: { k ≤ PAGES },
}

impl<'a> Walk<'a> {
    // The entries of page p, if it passes its own tests: its number, that it was not visited before, and its shape.
    #[tactic(auto, using(crate::proofs::Heads::entries_are))]
    fn enter(&mut self, level: u32, least: u32, p: u32) -> Option<PageEntries<'a>>
        ensures tested { Tested PAGES (Head self.old.table.now level least p) (mark_at p) self.old.seen (is_some result) self.new.seen }
        ensures entries { IfSome result (λ entries. left entries ≡ (page (table_in self.old.table.now) p).entries) }
        ensures same { (self.new.table.now ≡ self.old.table.now) × (self.new.numbers ≡ self.old.numbers) }
    {
        if p >= self.k || !mark(&mut self.seen, p as usize) {
            return None;
        }
        let table = self.table;
        let page = pages::page_of(table, p as usize);
        if !is_shaped(page, level, least) {
            return None;
        }
        Some(pages::entries_of(page, page[COUNT] as usize))
    }

    // The walk from page p, at a level, to all that is under it: the bounds of its entries, if all is good.
    fn visit(&mut self, level: u32, least: u32, p: u32) -> Option<Rect>
        ensures visited { Visited self.old.table.now level least p self.old.seen self.old.numbers result self.new.seen self.new.numbers }
        ensures same { self.new.table.now ≡ self.old.table.now }
    {
        let entries = self.enter(level, least, p)?;
        if level == 0 {
            return leaf(entries, &mut self.numbers);
        }
        for e in entries {
            // "An entry above the leaves holds exactly the bounding rectangle of its child's entries".
            if self.visit(level - 1, FEWEST, e.r)? != e.rect {
                return None;
            }
        }
        Some(entries.bounds())
    }

    // Whether each page below k is marked, and as many piece numbers as there are pieces.
    #[tactic(auto, using(crate::proofs::Marks::total_take))]
    fn is_complete(&self) -> bool
        ensures { IsTrue result ↔ Complete self.now.table.now self.now.k self.now.seen self.now.numbers }
    {
        total(&self.seen[..self.k as usize]) == self.k
            && total(&self.numbers) == self.table[PIECE_COUNT]
    }
}

// The fewest entries of a root at a level.
fn root_fewest(level: u32) -> u32
    ensures { result ≡ root_fewest level }
{
    if level == 0 { 0 } else { ROOT_LEAST }
}

// The walk from the root, then what it leaves, and that the pages from k on are zero.
fn is_sound_from(table: &[u32; TABLE_WORDS], k: u32, root: u32, level: u32) -> bool
    requires { Rooted table.now k root level }
    ensures { result ≡ sound table.now }
{
    let mut walk = Walk {
        table,
        k,
        seen: [false; PAGES],
        numbers: [false; NUMBERS],
    };
    walk.visit(level, root_fewest(level), root).is_some()
        && walk.is_complete()
        && is_blank(&table[TABLE_HEAD + PAGE_WORDS * (k as usize)..])
}

// Whether the words are a sound table.
#[tactic(auto, using(crate::proofs::Decides::count_refuses, crate::proofs::Decides::root_refuses, crate::proofs::Decides::level_refuses))]
fn is_sound(table: &[u32; TABLE_WORDS]) -> bool
    ensures { result ≡ sound table.now }
{
    let k = table[PAGE_COUNT];
    let root = table[ROOT];
    if k > PAGES as u32 || root >= k {
        return false;
    }
    let level = pages::page_of(table, root as usize)[LEVEL];
    level <= TOP_LEVEL && is_sound_from(table, k, root, level)
}

/// Whether the first words of the slice are a sound table, and then how many pieces it has.
pub fn check(table: &[u32]) -> Result<u32, Refusal>
    ensures { checked_of result ≡ check_call table.now }
{
    let Some(words) = table.first_chunk::<TABLE_WORDS>() else {
        return Err(Refusal::TableTooShort);
    };
    if !is_sound(words) {
        return Err(Refusal::TableNotSound);
    }
    Ok(words[PIECE_COUNT])
}
