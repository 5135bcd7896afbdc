// The window of a search: beyond it no rectangle passes a test.
ghost use Rattle.std.specs.Prelude.{◌≡◌};
ghost use Rattle.pages.specs.declared.Rect.{Rect};
ghost use Rattle.pages.specs.Rectangles.{Small};
ghost use Rattle.query.specs.Window.{paired_of, over, window_in, Roomy, window_for, beyond};

use pages::{Rect, ValidRect};
use relations::Reach;
use std::marker::Model;

// A paired word has an x in its lower half and a y in its upper half.
const HALF: u64 = 4_294_967_296;

// The highest bit of a half, which no edge reaches, and the most that leaves it alone.
const TOP: u64 = 2_147_483_648;

const MOST: u32 = 2_147_483_647;

fn paired(x: u32, y: u32) -> u64
    ensures { result ≡ paired_of x y }
{
    y as u64 * HALF + x as u64
}

// Whether the highest bit of one of the halves is set.
#[tactic(auto, unfolding(crate::specs::Window::over))]
fn is_over(word: u64) -> bool
    ensures { result ≡ over word }
{
    (word >= TOP * HALF) | (word % HALF >= TOP)
}

// What is searched: the reference drawn in by one unit where both codes are in 3 to 11, the reference itself where they are in 3
// to 12, else all that pieces can cover.
#[tactic(auto, using(crate::proofs::Tests::proper, pages::proofs::Valid::small), unfolding(crate::specs::Window::window_for))]
fn window_for(reference: ValidRect, reach: Reach) -> Rect
    ensures window { result ≡ window_for reference.rect reach }
    ensures small { Small result }
{
    let q = reference.rect;
    match reach {
        Reach::Inner => Rect {
            x1: q.x1 + 1,
            y1: q.y1 + 1,
            x2: q.x2 - 1,
            y2: q.y2 - 1,
        },
        Reach::Near => q,
        Reach::Anywhere => Rect {
            x1: 0,
            y1: 0,
            x2: pages::EDGE,
            y2: pages::EDGE,
        },
    }
}

/// Paired words: what a rectangle's start may grow by, and what its end is taken from, before the highest bit of a half is set.
#[derive(Drop)]
pub struct Window {
    starts: u64,
    ends: u64,
}

impl Model for Window {
    ghost Value = { Rect };

    ghost view = { λ w. window_in w.starts w.ends };

    ghost invariant = { λ w. Roomy w.starts w.ends };
}

impl Window {
    /// The window of a reference, by how far from it rectangles can be admitted.
    pub fn new(reference: ValidRect, reach: Reach) -> Window
        ensures { result ≡ window_for reference.rect reach }
    {
        let w = window_for(reference, reach);
        Window {
            starts: paired(MOST - w.x2, MOST - w.y2),
            ends: paired(MOST + w.x1, MOST + w.y1),
        }
    }

    /// Whether a rectangle lies beyond the window on one of its sides. A sum and a difference of paired words test both axes at
    /// once: four comparisons become four branches, which the processor can hardly foretell.
    pub fn is_beyond(&self, rect: Rect) -> bool
        requires { Small rect }
        ensures { result ≡ beyond self.now rect }
    {
        let starts = paired(rect.x1, rect.y1) + self.starts;
        let ends = self.ends - paired(rect.x2, rect.y2);
        is_over(starts) | is_over(ends)
    }
}
