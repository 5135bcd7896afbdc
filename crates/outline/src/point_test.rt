// The point test, edge by edge and by cross products, so that nothing is divided.
ghost use Rattle.std.specs.Prelude.{◌≡◌};
ghost use Rattle.outline.specs.Outline.{edges};
ghost use Rattle.outline.specs.Place.{between, place_of};
ghost use Rattle.outline.specs.Steps.{met_by};

use super::sums::product;
use super::words::Outline;
use super::{Coordinate, Edge, Place, Point};
use std::cmp::Ordering;

// z is one of v and w, or lies between them.
#[tactic(auto, unfolding(crate::specs::Place::between))]
fn is_between(v: Coordinate, w: Coordinate, z: Coordinate) -> bool
    ensures { result ≡ between v w z }
{
    v.min(w) <= z && z <= v.max(w)
}

// Whether an edge counts; `None` where the point is on it. An edge that is nowhere at the point's height is left without a product. One
// that goes down meets the ray when the point is on its right, one that goes up when it is on its left.
fn met_by(e: &Edge, p: &Point) -> Option<bool>
    ensures { result ≡ met_by e.now p.now }
{
    if !is_between(e.b, e.d, p.y) {
        return Some(false);
    }
    // Their difference is twice the signed area of the edge's ends and the point.
    let left = product(e.a, e.d) + product(e.c, p.y) + product(p.x, e.b);
    let right = product(e.b, e.c) + product(e.d, p.x) + product(p.y, e.a);
    match left.cmp(&right) {
        Ordering::Equal if is_between(e.a, e.c, p.x) => None,
        Ordering::Equal => Some(false),
        Ordering::Less => Some(p.y < e.b),
        Ordering::Greater => Some(p.y < e.d),
    }
}

impl Outline<'_> {
    pub fn place_of(&self, p: &Point) -> Place
        ensures { result ≡ place_of (edges self.now) p.now }
    {
        let mut inside = false;
        for edge in self.edges() {
            match met_by(&edge, p) {
                None => return Place::On,
                Some(counts) => inside ^= counts,
            }
        }
        if inside {
            Place::Inside
        } else {
            Place::Outside
        }
    }
}
