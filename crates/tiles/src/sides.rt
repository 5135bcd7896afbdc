// The sides of a valid rectangle, and how the edge lines of another cut them.
ghost use Rattle.std.specs.Prelude.{◌≡◌, ◌-◌, ◌≤◌, ◌<◌};
ghost use Rattle.pages.specs.Sizes.{EDGE};
ghost use Rattle.tiles.specs.Tiles.{area_of};
ghost use Rattle.tiles.specs.Steps.{Short, cut_at, shares_in_tiles};

use super::{STRIPS, TILES, TileShare};
use pages::{Rect, ValidRect};

/// A side of a valid rectangle on one axis; of the reference, its two edge lines there.
#[derive(Clone, Copy, Debug, PartialEq, Eq)]
pub struct Side {
    start: u32,
    end: u32,
    pub ghost rising: { start < end },
    pub ghost within: { end ≤ EDGE },
}

impl Side {
    fn length(self) -> u64
        ensures { result ≡ self.end - self.start }
    {
        u64::from(self.end - self.start)
    }

    // Cut at the two lines, each drawn in to the side.
    fn cut(self, lines: Side) -> [u64; STRIPS]
        ensures cut { result ≡ cut_at self.start self.end lines.start lines.end }
        ensures short { Short result }
    {
        let first = lines.start.clamp(self.start, self.end);
        let second = lines.end.clamp(self.start, self.end);
        [
            u64::from(first - self.start),
            u64::from(second - first),
            u64::from(self.end - second),
        ]
    }
}

/// The sides of a valid rectangle.
#[derive(Clone, Copy, Debug, PartialEq, Eq)]
pub struct Sides {
    x: Side,
    y: Side,
}

impl From<ValidRect> for Sides {
    ghost use Rattle.tiles.specs.Sides.{rect_with};

    ghost from_gives = { λ v s. rect_with s ≡ v.rect };

    fn from(valid: ValidRect) -> Sides {
        let Rect { x1, y1, x2, y2 } = valid.rect;
        Sides {
            x: Side { start: x1, end: x2 },
            y: Side { start: y1, end: y2 },
        }
    }
}

impl Sides {
    ghost use Rattle.tiles.specs.Sides.{rect_with};

    fn area(self) -> u64
        ensures area { result ≡ area_of (rect_with self) }
        ensures some { 0 < result }
    {
        self.x.length() * self.y.length()
    }

    pub fn shares_by(self, lines: Sides) -> [TileShare; TILES]
        ensures { result ≡ shares_in_tiles (rect_with self) (rect_with lines) }
    {
        let heights = self.y.cut(lines.y);
        let widths = self.x.cut(lines.x);
        let whole = self.area();
        std::array::from_fn(|t| TileShare::new(heights[t / STRIPS] * widths[t % STRIPS], whole))
    }
}
