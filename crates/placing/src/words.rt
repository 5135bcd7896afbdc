// A page's words written: one entry, one more, or all of them.
ghost use Rattle.std.specs.Prelude.{◌≡◌, ◌≤◌, ◌<◌, length, get_or};
ghost use Rattle.pages.specs.Sizes.{FANOUT};
ghost use Rattle.pages.specs.Layout.{page_of, encode_page};
ghost use Rattle.pages.specs.Left.{left};
ghost use Rattle.placing.specs.Steps.{count_in, filled_in, entry_set, entry_widened, appended};

use pages::{
    COUNT, ENTRY_R, ENTRY_WORDS, Entry, FANOUT, LEVEL, PAGE_HEAD, PAGE_WORDS, PageEntries, Rect,
};

// A place of a page, where an entry stands.
#[derive(Clone, Copy)]
pub struct Slot {
    pub index: usize,
    pub ghost inside: { index < FANOUT },
}

// The entry count of a page's words, at most 8.
pub fn entry_count(page: &[u32; PAGE_WORDS]) -> usize
    ensures { result ≡ count_in page.now }
{
    (page[COUNT] as usize).min(FANOUT)
}

pub fn filled(page: &[u32; PAGE_WORDS]) -> PageEntries<'_>
    ensures items { left result ≡ filled_in page.now }
    ensures few { length (left result) ≤ FANOUT }
{
    pages::entries_of(page, entry_count(page))
}

#[tactic(auto, unfolding(crate::specs::Steps::entry_set))]
pub fn write_entry(page: &mut [u32; PAGE_WORDS], slot: Slot, e: Entry)
    ensures { page.new ≡ entry_set page.old slot.index e }
{
    let at = PAGE_HEAD + ENTRY_WORDS * slot.index;
    page[at] = e.rect.x1;
    page[at + 1] = e.rect.y1;
    page[at + 2] = e.rect.x2;
    page[at + 3] = e.rect.y2;
    page[at + ENTRY_R] = e.r;
}

pub fn widen_entry(page: &mut [u32; PAGE_WORDS], slot: Slot, new: Rect)
    ensures { page.new ≡ entry_widened page.old slot.index new }
{
    let mut e = pages::entry_of(page, slot.index);
    e.rect = e.rect.widened(new);
    write_entry(page, slot, e);
}

#[tactic(auto, unfolding(crate::specs::Steps::appended))]
pub fn append_entry(page: &mut [u32; PAGE_WORDS], e: Entry)
    requires { get_or page.old 1 0 < FANOUT }
    ensures { page.new ≡ appended page.old e }
{
    let n = page[COUNT];
    let slot = Slot { index: n as usize };
    write_entry(page, slot, e);
    page[COUNT] = n + 1;
}

// Behind the entries come zeros.
pub fn write_page(page: &mut [u32; PAGE_WORDS], level: u32, es: &[Entry])
    requires { length es.now ≤ FANOUT }
    ensures { page.new ≡ encode_page (page_of level es.now) }
{
    page.fill(0);
    page[LEVEL] = level;
    for e in es {
        append_entry(page, *e);
    }
}
