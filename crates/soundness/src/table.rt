// A table that is known to be sound, and how it is read: its counts, its root, and the level and entries of its pages.
ghost use Rattle.std.specs.Prelude.{◌≡◌, ◌≤◌, ◌<◌, IfOk, length, T};
ghost use Rattle.refusals.specs.Numbers.{refusal_of};
ghost use Rattle.pages.specs.Sizes.{TABLE_WORDS};
ghost use Rattle.pages.specs.Layout.{page, table_in};
ghost use Rattle.pages.specs.Sound.{sound};
ghost use Rattle.soundness.specs.Calls.{check_call};

use crate::check;
use pages::{COUNT, LEVEL, PAGE_COUNT, PIECE_COUNT, PageEntries, ROOT};
use refusals::Refusal;

/// The words of a sound table.
#[derive(Clone, Copy)]
pub struct SoundTable<'a> {
    pub words: &'a [u32],
    pub ghost long: { TABLE_WORDS ≤ length words.now },
    pub ghost holds: { T (sound words.now) },
}

impl<'a> SoundTable<'a> {
    ghost use Rattle.pages.specs.Left.{left};

    /// The table that the words are, if it is sound.
    pub fn read(words: &'a [u32]) -> Result<SoundTable<'a>, Refusal>
        ensures refusal { refusal_of result ≡ (check_call words.now).refusal }
        ensures words { IfOk result (λ table. table.words.now ≡ words.now) }
    {
        check(words)?;
        Ok(SoundTable { words })
    }

    pub fn piece_count(&self) -> usize
        ensures { result ≡ (table_in self.now.words.now).count }
    {
        self.words[PIECE_COUNT] as usize
    }

    pub fn page_count(&self) -> usize
        ensures { result ≡ length (table_in self.now.words.now).pages }
    {
        self.words[PAGE_COUNT] as usize
    }

    /// The page number of the root.
    pub fn root(&self) -> usize
        ensures { result ≡ (table_in self.now.words.now).root }
    {
        self.words[ROOT] as usize
    }

    pub fn level(&self, p: usize) -> usize
        requires { p < length (table_in self.now.words.now).pages }
        ensures { result ≡ (page (table_in self.now.words.now) p).level }
    {
        pages::page_of(self.words, p)[LEVEL] as usize
    }

    pub fn entries(&self, p: usize) -> PageEntries<'a>
        requires { p < length (table_in self.now.words.now).pages }
        ensures { left result ≡ (page (table_in self.now.words.now) p).entries }
    {
        let page = pages::page_of(self.words, p);
        pages::entries_of(page, page[COUNT] as usize)
    }
}
