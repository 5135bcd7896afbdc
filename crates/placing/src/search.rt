// Whether a piece number stands in the table.
ghost use Rattle.std.specs.Prelude.{◌≡◌, ◌≤◌, length, get_or, ltb};
ghost use Rattle.pages.specs.Sizes.{PAGES, TABLE_WORDS};
ghost use Rattle.pages.specs.Lists.{sum};
ghost use Rattle.pages.specs.Sound.{is};
ghost use Rattle.pages.specs.Left.{left};
ghost use Rattle.placing.specs.Steps.{held_in, held_below};

use super::words::filled;
use pages::{FANOUT, LEVEL, PAGE_COUNT, PAGE_WORDS, PageEntries};

fn has_ref(mut entries: PageEntries<'_>, number: u32) -> bool
    ensures { result ≡ ltb 0 (sum (is number) (left entries.entry)) }
{
    entries.any(|e| e.r == number)
}

// The count is read only after a match at one of the eight places.
#[tactic(auto, using(crate::proofs::Searching::held_leaf))]
fn is_held(page: &[u32; PAGE_WORDS], number: u32) -> bool
    ensures { result ≡ ltb 0 (held_in page.now number) }
{
    page[LEVEL] == 0
        && has_ref(pages::entries_of(page, FANOUT), number)
        && has_ref(filled(page), number)
}

pub fn stands(table: &[u32], number: u32) -> bool
    requires { (TABLE_WORDS ≤ length table.now) × (get_or table.now 0 0 ≤ PAGES) }
    ensures { result ≡ ltb 0 (held_below table.now number (get_or table.now 0 0)) }
{
    let k = table[PAGE_COUNT] as usize;
    (0..k).any(|p| is_held(pages::page_of(table, p), number))
}
