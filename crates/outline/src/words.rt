// The words of an outline: their refusals, and the edges that they make up.
ghost use Rattle.std.specs.Prelude.{◌≡◌, ◌≤◌, length};
ghost use Rattle.std.specs.Iterator.{YieldsFirst, item_count};
ghost use Rattle.outline.specs.Outline.{MOST_POINTS, FARTHEST, point};
ghost use Rattle.outline.specs.Refusals.{wrong_count, within};
ghost use Rattle.outline.specs.Steps.{outline_of, closing_first};

use super::{Coordinate, Edge, FARTHEST, Point};
use refusals::Refusal;
use std::marker::Model;

const FEWEST_POINTS: usize = 3;

const MOST_POINTS: usize = 64;

// The number of words makes up no outline.
#[tactic(auto, unfolding(crate::specs::Refusals::wrong_count))]
fn is_wrong_count(words: usize) -> bool
    ensures { result ≡ wrong_count words }
{
    words % 2 == 1 || words / 2 < FEWEST_POINTS || words / 2 > MOST_POINTS
}

// No word is above the largest coordinate. All are tested: a walk that ends at the first such word cannot take several at once.
fn are_within(words: &[u32]) -> bool
    ensures { result ≡ within words.now }
{
    words
        .iter()
        .fold(true, |within, word| within & (*word <= FARTHEST))
}

// The point of two words that are tested.
fn point_within(x: u32, y: u32) -> Point
    requires { (x ≤ FARTHEST) × (y ≤ FARTHEST) }
    ensures { result ≡ point x y }
{
    Point {
        x: Coordinate { value: x },
        y: Coordinate { value: y },
    }
}

/// The points of words that are not refused.
#[derive(Drop)]
pub struct Outline<'a> {
    words: &'a [u32],
}

impl<'a> Model for Outline<'a> {
    ghost use Rattle.std.specs.Prelude.{List, ◌≡◌, true, false, length};
    ghost use Rattle.outline.specs.declared.Point.{Point};
    ghost use Rattle.outline.specs.Outline.{points};
    ghost use Rattle.outline.specs.Refusals.{wrong_count, within};

    ghost Value = { List Point };

    ghost view = { λ o. points o.words.now };

    ghost invariant = { λ o. (wrong_count (length o.words.now) ≡ false) × (within o.words.now ≡ true) };
}

impl<'a> Outline<'a> {
    pub fn read(words: &'a [u32]) -> Result<Outline<'a>, Refusal>
        ensures { result ≡ outline_of words.now }
    {
        if is_wrong_count(words.len()) {
            return Err(Refusal::PointCount);
        }
        if !are_within(words) {
            return Err(Refusal::CoordinateTooLarge);
        }
        Ok(Outline { words })
    }

    /// The edges in turn, from the one that closes the outline.
    pub fn edges(&self) -> Edges<'a>
        ensures edges { result ≡ closing_first self.now }
        ensures most { length result ≤ MOST_POINTS }
    {
        let [.., x, y] = self.words else {
            unreachable!()
        };
        Edges {
            from: point_within(*x, *y),
            words: self.words,
        }
    }
}

/// The edges from a point to that of the first two words, from there to that of the next two, and so on.
#[derive(Drop)]
pub struct Edges<'a> {
    from: Point,
    words: &'a [u32],
}

impl<'a> Model for Edges<'a> {
    ghost use Rattle.std.specs.Prelude.{List, ◌≡◌, true};
    ghost use Rattle.outline.specs.declared.Edge.{Edge};
    ghost use Rattle.outline.specs.Outline.{points};
    ghost use Rattle.outline.specs.Refusals.{within};
    ghost use Rattle.outline.specs.Steps.{edges_to};

    ghost Value = { List Edge };

    ghost view = { λ e. edges_to e.from (points e.words.now) };

    ghost invariant = { λ e. within e.words.now ≡ true };
}

impl<'a> Iterator for Edges<'a> {
    type Item = Edge;

    ghost next_gives = { YieldsFirst (λ edges. edges) };

    ghost remaining = { item_count (λ edges. edges) };

    fn next(&mut self) -> Option<Edge> {
        let [x, y, rest @ ..] = self.words else {
            return None;
        };
        let to = point_within(*x, *y);
        let edge = Edge {
            a: self.from.x,
            b: self.from.y,
            c: to.x,
            d: to.y,
        };
        self.from = to;
        self.words = rest;
        Some(edge)
    }
}
