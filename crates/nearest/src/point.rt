// Points on the cloth, and how near pieces and pages are to them.
ghost use Rattle.std.specs.Prelude.{◌≡◌, ◌≤◌, ◌<◌};
ghost use Rattle.pages.specs.Sizes.{EDGE};
ghost use Rattle.nearest.specs.Distance.{gap};

use pages::{EDGE, Entry, Rect};
use refusals::Refusal;

/// A word is a distance times this, plus a number below it: a piece's or a page's.
pub const NUMBERS: u64 = pages::NUMBERS as u64;

#[derive(Clone, Copy)]
pub struct Point {
    x: u32,
    y: u32,
    ghost x_most: { x ≤ EDGE },
    ghost y_most: { y ≤ EDGE },
}

// How far v lies outside the interval from low to high.
fn gap(v: u32, low: u32, high: u32) -> u64
    requires { (v ≤ EDGE) × (low ≤ EDGE) }
    ensures gap { result ≡ gap v low high }
    ensures most { result ≤ EDGE }
{
    u64::from(low.saturating_sub(v) + v.saturating_sub(high))
}

impl Point {
    ghost use Rattle.pages.specs.Sizes.{PIECES};
    ghost use Rattle.pages.specs.Rectangles.{Small};
    ghost use Rattle.nearest.specs.Distance.{distance_to};
    ghost use Rattle.nearest.specs.Steps.{FARTHEST_SQUARE, NONE, IsPointOf, word_of};

    pub fn read(x: u32, y: u32) -> Result<Point, Refusal>
        ensures { IsPointOf x y result }
    {
        if x > EDGE || y > EDGE {
            return Err(Refusal::OutOfRange);
        }
        Ok(Point { x, y })
    }

    // The squared distance of a rectangle.
    #[tactic(auto, unfolding(crate::specs::Distance::distance_to))]
    fn distance_to(self, rect: Rect) -> u64
        requires { Small rect }
        ensures distance { result ≡ distance_to self.x self.y rect }
        ensures most { result ≤ FARTHEST_SQUARE }
    {
        let dx = gap(self.x, rect.x1, rect.x2);
        let dy = gap(self.y, rect.y1, rect.y2);
        dx * dx + dy * dy
    }

    /// An entry's distance and number as one word: the order of the words is by distance, ties to the lower number.
    #[tactic(auto, unfolding(crate::specs::Steps::word_of))]
    pub fn word_of(self, e: Entry) -> u64
        requires small { Small e.rect }
        requires number { e.r < PIECES }
        ensures word { result ≡ word_of self.x self.y e }
        ensures some { result < NONE }
    {
        self.distance_to(e.rect) * NUMBERS + u64::from(e.r)
    }
}
