// Twice the signed area of an outline, summed over its edges.
ghost use Rattle.std.specs.Prelude.{◌≡◌, ◌*◌, ◌≤◌, nat_abs};
ghost use Rattle.outline.specs.Outline.{edges};
ghost use Rattle.outline.specs.Area.{cross, area_twice};
ghost use Rattle.outline.specs.Steps.{LARGEST};

use super::words::Outline;
use super::{Coordinate, Edge};

pub fn product(v: Coordinate, w: Coordinate) -> u64
    ensures product { result ≡ v * w }
    ensures most { result ≤ LARGEST }
{
    u64::from(v.value) * u64::from(w.value)
}

fn cross(e: Edge) -> i64
    ensures cross { result ≡ cross e }
    ensures most { nat_abs result ≤ LARGEST }
{
    product(e.a, e.d) as i64 - product(e.b, e.c) as i64
}

impl Outline<'_> {
    pub fn twice_area(&self) -> i64
        ensures { result ≡ area_twice (edges self.now) }
    {
        self.edges().map(cross).sum()
    }
}
