// The search: of the reached pages the nearest is opened first.
ghost use Rattle.std.specs.Prelude.{◌≡◌, ◌+◌, ◌≤◌, ◌<◌, [], ◌++◌, length, MatchOption};
ghost use Rattle.pages.specs.Sizes.{PAGES};
ghost use Rattle.pages.specs.Layout.{page};
ghost use Rattle.pages.specs.Sound.{child_entries};
ghost use Rattle.nearest.specs.Search.{is_nearer};
ghost use Rattle.nearest.specs.Steps.{near_in, words_of, piece_in, least_with, IsLeastAt, IsLeastDistance};
ghost use Rattle.nearest.specs.Steps.{searched_table, searched_entries, opened_for, found_for, Same, IsFresh, Opens, Shows};

use crate::point::{NUMBERS, Point};
use crate::{Near, Nearest};
use arrayvec::ArrayVec;
use pages::PAGES;
use soundness::SoundTable;

// Where there is no piece yet: every page is nearer.
const NONE: u64 = u64::MAX;

/// The unopened reached pages in any order, and the best piece, each as one word.
#[derive(Drop)]
pub struct Search<'a> {
    table: SoundTable<'a>,
    point: Point,
    waiting: ArrayVec<u64, PAGES>,
    best: u64,
    opened: u32,
}

impl<'a> Search<'a> {
    pub fn new(table: SoundTable<'a>, point: Point) -> Search<'a>
        ensures table { result.table ≡ table.entry }
        ensures point { result.point ≡ point }
        ensures fresh { IsFresh result }
    {
        Search {
            table,
            point,
            waiting: ArrayVec::new(),
            best: NONE,
            opened: 0,
        }
    }

    // The children of page p are reached.
    fn reach(&mut self, p: usize)
        requires page { p < length (searched_table self.old).pages }
        requires room { length self.old.waiting.items + length (searched_entries self.old p) ≤ PAGES }
        ensures waiting { self.new.waiting.items ≡ self.old.waiting.items ++ words_of self.old.point (searched_entries self.old p) }
        ensures same { Same self.old self.new × (self.new.best ≡ self.old.best) × (self.new.opened ≡ self.old.opened) }
    {
        for e in self.table.entries(p) {
            self.waiting.push(self.point.word_of(e));
        }
    }

    // The pieces of leaf p may be nearer.
    #[tactic(auto, unfolding(crate::specs::Steps::least_with))]
    fn meet(&mut self, p: usize)
        requires page { p < length (searched_table self.old).pages }
        ensures best { self.new.best ≡ least_with self.old.point.x self.old.point.y self.old.best (searched_entries self.old p) }
        ensures same { Same self.old self.new × (self.new.waiting ≡ self.old.waiting) × (self.new.opened ≡ self.old.opened) }
    {
        let mut best = self.best;
        for e in self.table.entries(p) {
            best = best.min(self.point.word_of(e));
        }
        self.best = best;
    }

    // Opens page p.
    #[tactic(auto, using(crate::proofs::Words::least_above))]
    fn open(&mut self, p: usize)
        requires page { p < length (searched_table self.old).pages }
        requires room { length self.old.waiting.items + length (child_entries (page (searched_table self.old) p)) ≤ PAGES }
        requires few { self.old.opened < PAGES }
        ensures opens { Opens self.old.table self.old.point self.old p self.new }
        ensures same { Same self.old self.new }
    {
        self.opened += 1;
        if self.table.level(p) == 0 {
            self.meet(p);
        } else {
            self.reach(p);
        }
    }

    // The place of the nearest of the unopened reached pages, and its word.
    fn least(&self) -> Option<(usize, u64)>
        ensures { MatchOption result (self.now.waiting.items ≡ []) (λ r. IsLeastAt self.now.waiting.items r.0 r.1) }
    {
        let words = self.waiting.as_slice();
        let mut at = 0;
        let mut least = *words.first()?;
        for i in 1..words.len() {
            let word = words[i];
            if word < least {
                at = i;
                least = word;
            }
        }
        Some((at, least))
    }

    // "while there is no piece, every page is nearer"
    fn is_nearer(&self, word: u64) -> bool
        ensures { result ≡ is_nearer (piece_in self.now.best) (near_in word) }
    {
        self.best == NONE || word / NUMBERS < self.best / NUMBERS
    }

    // Opens pages from the root, until the allowance is spent or none is nearer than the best piece, and gives the least squared distance
    // of the unopened reached pages, if there are any.
    fn search(&mut self, allowance: u32) -> Option<u64>
        requires start { IsFresh self.old }
        requires some { 1 ≤ allowance }
        ensures shows { Shows self.old.table self.old.point self.new (opened_for self.old allowance) }
        ensures left { MatchOption result (self.new.waiting.items ≡ []) (IsLeastDistance self.new.waiting.items) }
        ensures same { Same self.old self.new }
    {
        let mut p = self.table.root();
        loop {
            self.open(p);
            let (at, word) = self.least()?;
            if self.opened == allowance || !self.is_nearer(word) {
                return Some(word / NUMBERS);
            }
            self.waiting.swap_remove(at);
            p = (word % NUMBERS) as usize;
        }
    }

    // The best piece, if there is one.
    fn piece(&self) -> Option<Near>
        ensures { result ≡ piece_in self.now.best }
    {
        if self.best == NONE {
            return None;
        }
        Some(Near {
            distance: self.best / NUMBERS,
            number: (self.best % NUMBERS) as u32,
        })
    }

    /// What is found on an allowance.
    pub fn run(mut self, allowance: u32) -> Nearest
        requires start { IsFresh self }
        requires some { 1 ≤ allowance }
        ensures { result ≡ found_for self.entry allowance }
    {
        let left = self.search(allowance);
        Nearest {
            piece: self.piece(),
            opened: self.opened,
            left,
        }
    }
}
