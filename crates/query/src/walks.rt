// The walk from the root, and what is done at the pages that it opens.
ghost use Rattle.std.specs.Prelude.{◌≡◌, ◌+◌, ◌≤◌, ◌<◌, ℕ, true, length, set};
ghost use Rattle.pages.specs.Sizes.{PAGES};
ghost use Rattle.query.specs.declared.searches.Search.{Search};
ghost use Rattle.query.specs.Steps.{SoundPage, hits_on};
ghost use Rattle.query.specs.Marks.{marked};
ghost use Rattle.query.specs.Search.{admits_in, table_of, opened_at, opened_in};
ghost use Rattle.query.specs.Visits.{VisitsAll};

use crate::marking::Marks;
use crate::searches::Search;

/// What is done at each page that a walk opens.
pub trait Visitor {
    /// For how many pages there is room.
    ghost limit: { Self → ℕ };

    /// What a page changes that is opened after n others.
    ghost Visited: { Search → Self → ℕ → ℕ → Self → Type 0 };

    fn visit(&mut self, search: &Search<'_>, level: usize, p: usize, n: usize)
        requires page { SoundPage search.now.table.words.now p level }
        requires room { n < limit self.old }
        ensures visited { Visited search.now self.old n p self.new }
        ensures limit { limit self.new ≡ limit self.old };
}

impl Search<'_> {
    // Marks the pieces of a leaf that do not lie beyond the window, where these are the admitted ones.
    fn mark_near(&self, p: usize, marks: &mut Marks)
        requires page { SoundPage self.now.table.words.now p 0 }
        requires whole { self.now.whole ≡ true }
        ensures { marks.new ≡ marked marks.old (hits_on (admits_in self.now) (table_of self.now) p) }
    {
        for e in self.table.entries(p) {
            if !self.window.is_beyond(e.rect) {
                marks.mark(e.r);
            }
        }
    }

    // Marks the admitted pieces of a leaf.
    fn mark_leaf(&self, p: usize, marks: &mut Marks)
        requires { SoundPage self.now.table.words.now p 0 }
        ensures { marks.new ≡ marked marks.old (hits_on (admits_in self.now) (table_of self.now) p) }
    {
        if self.whole {
            self.mark_near(p, marks);
            return;
        }
        for e in self.table.entries(p) {
            if !self.window.is_beyond(e.rect) && self.admits(e.rect) {
                marks.mark(e.r);
            }
        }
    }

    // Opens page p and the pages under it that may hold an admitted piece, and counts them on from n.
    fn walk<V: Visitor>(&self, visitor: &mut V, level: usize, p: usize, n: usize) -> usize
        requires page { SoundPage self.now.table.words.now p level }
        requires few { n + length (opened_at self.now level p) ≤ PAGES }
        requires room { n + length (opened_at self.now level p) ≤ V.limit visitor.old }
        ensures count { result ≡ n + length (opened_at self.now level p) }
        ensures visited { VisitsAll (V.Visited self.now) visitor.old n (opened_at self.now level p) visitor.new }
        ensures limit { V.limit visitor.new ≡ V.limit visitor.old }
    {
        visitor.visit(self, level, p, n);
        let mut count = n + 1;
        if level == 0 {
            return count;
        }
        for e in self.table.entries(p) {
            if self.opens(e.rect) {
                count = self.walk(visitor, level - 1, e.r as usize, count);
            }
        }
        count
    }

    /// Opens pages from the root on, each before its children, and gives their number.
    pub fn run<V: Visitor>(&self, visitor: &mut V) -> usize
        requires { length (table_of self.now).pages ≤ V.limit visitor.old }
        ensures count { result ≡ length (opened_in self.now) }
        ensures visited { VisitsAll (V.Visited self.now) visitor.old 0 (opened_in self.now) visitor.new }
    {
        let root = self.table.root();
        let level = self.table.level(root);
        self.walk(visitor, level, root, 0)
    }
}

/// At a leaf its admitted pieces are marked.
impl Visitor for Marks {
    ghost limit = { λ _. PAGES };

    ghost Visited = { λ s u n p v. v ≡ marked u (hits_on (admits_in s) (table_of s) p) };

    fn visit(&mut self, search: &Search<'_>, level: usize, p: usize, _: usize) {
        if level == 0 {
            search.mark_leaf(p, self);
        }
    }
}

/// The page's number is written, one word after the other.
#[derive(Drop)]
pub struct Lister<'a> {
    pub words: &'a mut [u16],
}

impl Visitor for Lister<'_> {
    ghost limit = { λ l. length l.words.now };

    ghost Visited = { λ s u n p v. (v.words.ghost_name ≡ u.words.ghost_name) × (v.words.now ≡ set u.words.now n p) };

    fn visit(&mut self, _: &Search<'_>, _: usize, p: usize, n: usize) {
        self.words[n] = p as u16;
    }
}
