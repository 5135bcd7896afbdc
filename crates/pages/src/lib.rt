// The page table as lent words: its sizes, readers over the words of one page, rectangles, and the empty call.
#![tactic(auto)]

ghost use Rattle.std.specs.Prelude.{List, ℕ, ◌≡◌, ◌≤◌, ◌<◌, length, get_or};
ghost use Rattle.std.specs.Fn.{FnOnceReturnsAtMut, FnOnceTakesAtMut};
ghost use Rattle.refusals.specs.Numbers.{refusal_of};
ghost use Rattle.pages.specs.Sizes.{PAGE_WORDS, PAGES, TABLE_WORDS, FANOUT};
ghost use Rattle.pages.specs.Rectangles.{rect_of, valid, widen, bounds};
ghost use Rattle.pages.specs.Layout.{decode_entry, page_words};
ghost use Rattle.pages.specs.Readers.{entry_in, entries_in};
ghost use Rattle.pages.specs.Writes.{put_page};
ghost use Rattle.pages.specs.Left.{left};
ghost use Rattle.pages.specs.Calls.{empty_call};

mod iter;
mod piece;

pub use iter::PageEntries;
pub use piece::{Piece, ValidPiece, ValidRect};
use refusals::Refusal;

// How many piece numbers there are.
pub const PIECES: u32 = 1_024;

// The same, as a length.
pub const NUMBERS: usize = PIECES as usize;

// The largest edge of a valid rectangle.
pub const EDGE: u32 = 1_000_000;

// The words of a page before its entries: its level and its entry count.
pub const PAGE_HEAD: usize = 2;

pub const LEVEL: usize = 0;

pub const COUNT: usize = 1;

pub const FANOUT: usize = 8;

pub const ENTRY_WORDS: usize = 5;

// The place of r among an entry's words, behind the four edges.
pub const ENTRY_R: usize = 4;

pub const PAGE_WORDS: usize = 42;

// The words of a table before its pages: the page count k, the root's page number and the piece count.
pub const TABLE_HEAD: usize = 3;

pub const PAGE_COUNT: usize = 0;

pub const ROOT: usize = 1;

pub const PIECE_COUNT: usize = 2;

// The highest level of a page.
pub const TOP_LEVEL: u32 = 4;

// The fewest entries of a page below the root, and of a root above level 0.
pub const FEWEST: u32 = 4;

pub const ROOT_LEAST: u32 = 2;

pub const PAGES: usize = 341;

pub const TABLE_WORDS: usize = 14_325;

// "four 32-bit unsigned numbers x1, y1, x2, y2 in tenths of a millimetre"; "x grows to the east, y to the north".
// By default the rectangle of zero words: that of a blank entry, and the bounds of none.
#[repr(C)]
#[derive(Clone, Copy, Debug, Default, PartialEq, Eq)]
pub struct Rect {
    pub x1: u32,
    pub y1: u32,
    pub x2: u32,
    pub y2: u32,
}

// In a leaf r is a piece number, above it a child's page number.
#[derive(Clone, Copy, Debug, Default, PartialEq, Eq)]
pub struct Entry {
    pub rect: Rect,
    pub r: u32,
}

impl From<[u32; 4]> for Rect {
    ghost from_gives = { λ w r. r ≡ rect_of (get_or w 0 0) (get_or w 1 0) (get_or w 2 0) (get_or w 3 0) };

    fn from(words: [u32; 4]) -> Rect {
        let [x1, y1, x2, y2] = words;
        Rect { x1, y1, x2, y2 }
    }
}

impl From<[u32; ENTRY_WORDS]> for Entry {
    ghost from_gives = { λ w e. e ≡ decode_entry w };

    #[tactic(auto, unfolding(crate::specs::Layout::decode_entry))]
    fn from(words: [u32; ENTRY_WORDS]) -> Entry {
        let [x1, y1, x2, y2, r] = words;
        let rect = Rect { x1, y1, x2, y2 };
        Entry { rect, r }
    }
}

impl Rect {
    // x1 and y1 are below x2 and y2, so two edges are left to test.
    #[tactic(auto, unfolding(crate::specs::Rectangles::valid))]
    pub fn is_valid(self) -> bool
        ensures { result ≡ valid self }
    {
        self.x1 < self.x2 && self.y1 < self.y2 && self.x2 <= EDGE && self.y2 <= EDGE
    }

    // The smallest rectangle around both.
    #[tactic(auto, unfolding(crate::specs::Rectangles::widen))]
    pub fn widened(self, other: Rect) -> Rect
        ensures { result ≡ widen self other }
    {
        Rect {
            x1: self.x1.min(other.x1),
            y1: self.y1.min(other.y1),
            x2: self.x2.max(other.x2),
            y2: self.y2.max(other.y2),
        }
    }
}

// The words of page p, from the middle of the table.
pub fn page_of(table: &[u32], p: usize) -> &[u32; PAGE_WORDS]
    requires { (TABLE_WORDS ≤ length table.now) × (p < PAGES) }
    ensures { result.now ≡ page_words table.now p }
{
    let at = TABLE_HEAD + PAGE_WORDS * p;
    as_array(&table[at..at + PAGE_WORDS])
}

// The words, as many as the array has. The length is known where this is inlined, so that it is not tested again.
#[inline(always)]
fn as_array<const N: usize>(words: &[u32]) -> &[u32; N]
    requires { length words.now ≡ N }
    ensures { result.now ≡ words.now }
{
    words.first_chunk().unwrap()
}

// Lends the words of page p, in the middle of the table, to a change.
#[tactic(auto, unfolding(crate::specs::Writes::put_page))]
pub fn change_page<F: FnOnce(&mut [u32; PAGE_WORDS])>(table: &mut [u32], p: usize, change: F)
    requires room { (TABLE_WORDS ≤ length table.old) × (p < PAGES) }
    requires takes { FnOnceTakesAtMut F.FnOnce change (page_words table.old p) }
    ensures { (w : List ℕ) × (table.new ≡ put_page table.old p w) × FnOnceReturnsAtMut F.FnOnce change (page_words table.old p) tt w }
{
    let start = TABLE_HEAD + PAGE_WORDS * p;
    change_words(&mut table[start..start + PAGE_WORDS], change);
}

fn change_words<F: FnOnce(&mut [u32; PAGE_WORDS])>(words: &mut [u32], change: F)
    requires long { length words.old ≡ PAGE_WORDS }
    requires takes { FnOnceTakesAtMut F.FnOnce change words.old }
    ensures { FnOnceReturnsAtMut F.FnOnce change words.old tt words.new }
{
    change(words.as_mut_array().unwrap());
}

// The entry at place i of a page's words.
#[tactic(auto, using(crate::proofs::Cells::entry_at))]
pub fn entry_of(page: &[u32; PAGE_WORDS], i: usize) -> Entry
    requires { i < FANOUT }
    ensures { result ≡ entry_in page.now i }
{
    let at = PAGE_HEAD + ENTRY_WORDS * i;
    Entry::from(*as_array::<ENTRY_WORDS>(&page[at..at + ENTRY_WORDS]))
}

// The first n entries of a page's words.
pub fn entries_of(page: &[u32; PAGE_WORDS], n: usize) -> PageEntries<'_>
    requires { n ≤ FANOUT }
    ensures items { left result ≡ entries_in page.now n }
    ensures count { length (left result) ≡ n }
{
    let (entries, _) = page[PAGE_HEAD..].as_chunks::<ENTRY_WORDS>();
    PageEntries {
        rest: &entries[..n],
    }
}

// The bounds of the first n entries of a page's words.
pub fn bounds_of(page: &[u32; PAGE_WORDS], n: usize) -> Rect
    requires { n ≤ FANOUT }
    ensures { result ≡ bounds (entries_in page.now n) }
{
    entries_of(page, n).bounds()
}

// Makes the table empty, whatever words it had.
#[tactic(auto, using(crate::proofs::Zeros::empty_refused))]
pub fn empty(table: &mut [u32]) -> Result<(), Refusal>
    ensures { (refusal_of result, table.new) ≡ empty_call table.old }
{
    if table.len() < TABLE_WORDS {
        return Err(Refusal::TableTooShort);
    }
    table[..TABLE_WORDS].fill(0);
    table[PAGE_COUNT] = 1;
    Ok(())
}
