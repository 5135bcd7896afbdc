// Placing a piece: the way down to a leaf, splits on the way back, and the place call.
#![tactic(auto)]

mod choice;
mod number;
mod order;
mod search;
mod words;

ghost use Rattle.std.specs.Prelude.{◌≡◌, ◌≤◌, ◌<◌, length, get_or, T, leb};
ghost use Rattle.refusals.specs.Numbers.{refusal_of};
ghost use Rattle.pages.specs.Sizes.{FANOUT, TABLE_WORDS};
ghost use Rattle.pages.specs.Layout.{page_of, encode_page, page_words, table_in};
ghost use Rattle.pages.specs.Writes.{put_page};
ghost use Rattle.pages.specs.Sound.{stored, sound};
ghost use Rattle.placing.specs.Calls.{placed_words, place_sound, place_call};
ghost use Rattle.placing.specs.Standing.{KnowsStanding};
ghost use Rattle.placing.specs.Steps.{split_into, add_to, bounds_at, entry_for_in, widen_entry, parted, place_at, root_made};

use choice::choose;
use number::PageNumber;
use order::Nine;
use pages::{
    COUNT, Entry, FANOUT, LEVEL, PAGE_COUNT, PIECE_COUNT, Piece, ROOT, Rect, TABLE_WORDS,
    ValidPiece,
};
use refusals::Refusal;
use search::stands;
use words::{Slot, append_entry, filled, write_entry, write_page};

// How many of nine entries stay in a page that is split.
const STAY: usize = 4;

// Writes the whole of page p.
fn set_page(table: &mut [u32; TABLE_WORDS], p: PageNumber, level: u32, es: &[Entry])
    requires { length es.now ≤ FANOUT }
    ensures { table.new ≡ put_page table.old p.number (encode_page (page_of level es.now)) }
{
    pages::change_page(table, p.index(), |page| write_page(page, level, es));
}

// Four of the nine stay in page p, and five go to page k.
fn split_page(table: &mut [u32; TABLE_WORDS], p: PageNumber, k: PageNumber, e: Entry)
    ensures { table.new ≡ split_into table.old p.number k.number e }
{
    let page = pages::page_of(table, p.index());
    let level = page[LEVEL];
    let es = Nine { page, last: e }.ordered();
    set_page(table, p, level, &es[..STAY]);
    set_page(table, k, level, &es[STAY..]);
}

fn is_full(table: &[u32; TABLE_WORDS], p: PageNumber) -> bool
    ensures { result ≡ leb FANOUT (get_or (page_words table.now p.number) 1 0) }
{
    pages::page_of(table, p.index())[COUNT] as usize >= FANOUT
}

// Adds the entry to page p. A full page is split, and the answer is the page that was made of its other part.
#[tactic(auto, unfolding(crate::specs::Steps::add_to))]
fn add_entry(table: &mut [u32; TABLE_WORDS], p: PageNumber, e: Entry) -> Option<u32>
    ensures { (result, table.new) ≡ add_to table.old p.number e }
{
    if !is_full(table, p) {
        pages::change_page(table, p.index(), |page| append_entry(page, e));
        return None;
    }
    let k = PageNumber::new(table[PAGE_COUNT])?;
    split_page(table, p, k, e);
    table[PAGE_COUNT] = k.number + 1;
    Some(k.number)
}

// The bounds of page q; zeros where it has no entry or is no page.
#[tactic(auto, unfolding(crate::specs::Steps::bounds_at))]
fn bounds_at(table: &[u32; TABLE_WORDS], q: u32) -> Rect
    ensures { result ≡ bounds_at table.now q }
{
    let Some(q) = PageNumber::new(q) else {
        return Rect::default();
    };
    filled(pages::page_of(table, q.index())).bounds()
}

fn entry_for(table: &[u32; TABLE_WORDS], q: u32) -> Entry
    ensures { result ≡ entry_for_in table.now q }
{
    Entry {
        rect: bounds_at(table, q),
        r: q,
    }
}

// Widens the entry in a slot of page p by the new rectangle. It was exact, so no bounds are made anew.
#[tactic(auto, unfolding(crate::specs::Steps::widen_entry))]
fn widen_entry(table: &mut [u32; TABLE_WORDS], p: PageNumber, slot: Slot, new: Rect)
    ensures { table.new ≡ widen_entry table.old p.number slot.index new }
{
    pages::change_page(table, p.index(), |page| words::widen_entry(page, slot, new));
}

// The child q in a slot of page p was split, and page k was made of its other part: q's entry gets its bounds, and k an entry of its own.
#[tactic(auto, unfolding(crate::specs::Steps::parted, crate::specs::Steps::reset_entry))]
fn add_part(
    table: &mut [u32; TABLE_WORDS],
    p: PageNumber,
    slot: Slot,
    q: u32,
    k: u32,
) -> Option<u32>
    ensures { (result, table.new) ≡ parted p.number slot.index q k table.old }
{
    let e = entry_for(table, q);
    pages::change_page(table, p.index(), |page| write_entry(page, slot, e));
    let part = entry_for(table, k);
    add_entry(table, p, part)
}

// Adds the entry below page p, which is at the level; the answer is the page that was split off p.
fn place_at(table: &mut [u32; TABLE_WORDS], level: u32, p: u32, e: Entry) -> Option<u32>
    ensures { (result, table.new) ≡ place_at level table.old p e }
{
    let p = PageNumber::new(p)?;
    if level == 0 {
        return add_entry(table, p, e);
    }
    let page = pages::page_of(table, p.index());
    let slot = choose(page, e.rect);
    let q = pages::entry_of(page, slot.index).r;
    match place_at(table, level - 1, q, e) {
        None => {
            widen_entry(table, p, slot, e.rect);
            None
        }
        Some(k) => add_part(table, p, slot, q, k),
    }
}

// A new page becomes the root, over the old root and page q, which was split off it.
#[tactic(auto, unfolding(crate::specs::Steps::root_made))]
fn make_root(table: &mut [u32; TABLE_WORDS], root: u32, q: u32, level: u32)
    ensures { table.new ≡ root_made table.old root q level }
{
    let Some(k) = PageNumber::new(table[PAGE_COUNT]) else {
        return;
    };
    let es = [entry_for(table, root), entry_for(table, q)];
    set_page(table, k, level, &es);
    table[PAGE_COUNT] = k.number + 1;
    table[ROOT] = k.number;
}

// A place call that nothing refuses.
pub fn place_new(table: &mut [u32], piece: ValidPiece)
    requires { (TABLE_WORDS ≤ length table.old) × T (sound table.old) × (stored (table_in table.old) piece.number ≡ 0) }
    ensures { table.new ≡ placed_words table.old piece.number piece.rect.rect }
{
    place_words(table.first_chunk_mut().unwrap(), piece);
}

fn place_words(table: &mut [u32; TABLE_WORDS], piece: ValidPiece)
    requires { T (sound table.old) × (stored (table_in table.old) piece.number ≡ 0) }
    ensures { table.new ≡ placed_words table.old piece.number piece.rect.rect }
{
    let root = table[ROOT];
    let count = table[PIECE_COUNT];
    let level = pages::page_of(table, root as usize)[LEVEL];
    let e = Entry {
        rect: piece.rect.rect,
        r: piece.number,
    };
    if let Some(part) = place_at(table, level, root, e) {
        make_root(table, root, part, level + 1);
    }
    table[PIECE_COUNT] = count + 1;
}

// A place call on a sound table, of which `is_standing` knows whether it holds the number.
pub fn place_where<F: FnOnce(&[u32]) -> bool>(
    table: &mut [u32],
    piece: Piece,
    is_standing: F,
) -> Result<(), Refusal>
    requires sound { (TABLE_WORDS ≤ length table.old) × T (sound table.old) }
    requires knows { KnowsStanding F.FnOnce is_standing table.old piece.number }
    ensures { (refusal_of result, table.new) ≡ place_sound table.old piece.number piece.rect }
{
    let piece = ValidPiece::try_from(piece)?;
    if is_standing(table) {
        return Err(Refusal::AlreadyStanding);
    }
    place_new(table, piece);
    Ok(())
}

// A place call on a sound table.
#[tactic(auto, using(crate::proofs::Joined::may_search, crate::proofs::Joined::search_knows))]
pub fn place_sound(table: &mut [u32], piece: Piece) -> Result<(), Refusal>
    requires { (TABLE_WORDS ≤ length table.old) × T (sound table.old) }
    ensures { (refusal_of result, table.new) ≡ place_sound table.old piece.number piece.rect }
{
    place_where(table, piece, |table| stands(table, piece.number))
}

// A place call on any words.
pub fn place(table: &mut [u32], piece: Piece) -> Result<(), Refusal>
    ensures { (refusal_of result, table.new) ≡ place_call table.old piece.number piece.rect }
{
    soundness::check(table)?;
    place_sound(table, piece)
}
