// A search of a sound table, and what it asks of rectangles.
ghost use Rattle.std.specs.Prelude.{◌≡◌};
ghost use Rattle.relations.specs.Steps.{joined_of};
ghost use Rattle.query.specs.Admission.{code_y, code_x};
ghost use Rattle.pages.specs.Rectangles.{Small};
ghost use Rattle.query.specs.Steps.{admits_by, opens_by};
ghost use Rattle.query.specs.Window.{Decides};

use crate::window::Window;
use pages::{Rect, ValidRect};
use relations::{Code, PageTest, RowSets};
use soundness::SoundTable;

/// What lies beyond the window passes no test; where `whole` holds, all else passes each.
#[derive(Drop)]
pub struct Search<'a> {
    pub table: SoundTable<'a>,
    reference: ValidRect,
    set: RowSets,
    test: PageTest,
    pub window: Window,
    pub whole: bool,
    ghost joined: { test.below ≡ joined_of set.rows },
    ghost leaves: { Decides window whole (admits_by set.rows reference.rect) },
    ghost pages: { Decides window whole (opens_by test.below reference.rect) },
}

impl Search<'_> {
    ghost use Rattle.query.specs.Search.{admits_in, opens_in};

    pub fn new(table: SoundTable<'_>, reference: ValidRect, set: RowSets) -> Search<'_>
        ensures table { result.table.words.now ≡ table.entry.words.now }
        ensures reference { result.reference ≡ reference }
        ensures set { result.set ≡ set }
    {
        let test = PageTest::new(&set);
        let window = Window::new(reference, test.reach());
        let whole = test.is_overlap(&set);
        Search {
            table,
            reference,
            set,
            test,
            window,
            whole,
        }
    }

    // The codes of a rectangle on y and on x.
    fn codes(&self, rect: Rect) -> (Code, Code)
        ensures y { result.0.number ≡ code_y self.now.reference.rect rect }
        ensures x { result.1.number ≡ code_x self.now.reference.rect rect }
    {
        let q = self.reference.rect;
        (
            relations::axis_code(rect.y1, rect.y2, q.y1, q.y2),
            relations::axis_code(rect.x1, rect.x2, q.x1, q.x2),
        )
    }

    /// Whether a piece's rectangle is admitted.
    pub fn admits(&self, rect: Rect) -> bool
        ensures { result ≡ admits_in self.now rect }
    {
        let (cy, cx) = self.codes(rect);
        self.set.has(cy, cx)
    }

    /// Whether a page's rectangle may hold an admitted one.
    pub fn opens(&self, rect: Rect) -> bool
        requires { Small rect }
        ensures { result ≡ opens_in self.now rect }
    {
        if self.window.is_beyond(rect) {
            return false;
        }
        if self.whole {
            return true;
        }
        let (cy, cx) = self.codes(rect);
        self.test.may_hold(cy, cx)
    }
}
