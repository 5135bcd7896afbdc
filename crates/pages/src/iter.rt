// A page's first entries, one after the other.
ghost use Rattle.std.specs.Prelude.{◌≤◌, length};
ghost use Rattle.std.specs.Iterator.{YieldsFirst, item_count};
ghost use Rattle.pages.specs.Sizes.{FANOUT};

use super::{ENTRY_WORDS, Entry, Rect};

// The words of the entries that are left; a copy goes over them again.
#[derive(Clone, Copy)]
pub struct PageEntries<'a> {
    pub(crate) rest: &'a [[u32; ENTRY_WORDS]],
    ghost within: { length rest.now ≤ FANOUT },
}

impl<'a> Iterator for PageEntries<'a> {
    ghost use Rattle.pages.specs.Left.{left};

    type Item = Entry;

    ghost next_gives = { YieldsFirst left };

    ghost remaining = { item_count left };

    fn next(&mut self) -> Option<Entry> {
        let (words, rest) = self.rest.split_first()?;
        self.rest = rest;
        Some(Entry::from(*words))
    }
}

impl PageEntries<'_> {
    ghost use Rattle.std.specs.Prelude.{◌≡◌};
    ghost use Rattle.pages.specs.Rectangles.{bounds};
    ghost use Rattle.pages.specs.Left.{left};

    // The bounds of the entries that are left.
    #[tactic(auto, using(crate::proofs::Bounds::bounds_none))]
    pub fn bounds(mut self) -> Rect
        ensures { result ≡ bounds (left self.entry) }
    {
        let Some(first) = self.next() else {
            return Rect::default();
        };
        self.fold(first.rect, |bounds, e| bounds.widened(e.rect))
    }
}
