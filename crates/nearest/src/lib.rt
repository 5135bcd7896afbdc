// The nearest piece to a point, on a page allowance.
#![tactic(auto)]

mod point;
mod search;

ghost use Rattle.std.specs.Prelude.{◌≡◌};
ghost use Rattle.nearest.specs.Calls.{answer_from, out_of_range, nearest_sound, nearest_call};

use point::Point;
use refusals::{ACCEPTED, Refusal};
use search::Search;
use soundness::SoundTable;

/// A page or a piece, by its number, and its squared distance from the point.
#[derive(Clone, Copy, Debug, PartialEq, Eq)]
pub struct Near {
    pub distance: u64,
    pub number: u32,
}

/// The best piece of the opened leaves, how many pages were opened, and the least squared distance of the unopened reached pages.
#[derive(Clone, Copy, Debug, PartialEq, Eq)]
pub struct Nearest {
    pub piece: Option<Near>,
    pub opened: u32,
    pub left: Option<u64>,
}

/// The answer as C takes it: `found` and `left` are 1 where there is a piece, or a page, and what belongs to an absent one is 0.
#[repr(C)]
#[derive(Clone, Copy, Debug, Default, PartialEq, Eq)]
pub struct NearestAnswer {
    pub refusal: u32,
    pub found: u32,
    pub number: u32,
    pub opened: u32,
    pub left: u32,
    pub distance: u64,
    pub left_distance: u64,
}

impl From<Result<Nearest, Refusal>> for NearestAnswer {
    ghost from_gives = { λ r a. a ≡ answer_from r };

    fn from(answer: Result<Nearest, Refusal>) -> NearestAnswer {
        match answer {
            Ok(nearest) => NearestAnswer {
                refusal: ACCEPTED,
                found: u32::from(nearest.piece.is_some()),
                number: nearest.piece.map_or(0, |piece| piece.number),
                opened: nearest.opened,
                left: u32::from(nearest.left.is_some()),
                distance: nearest.piece.map_or(0, |piece| piece.distance),
                left_distance: nearest.left.unwrap_or(0),
            },
            Err(refusal) => NearestAnswer {
                refusal: refusal.number(),
                ..NearestAnswer::default()
            },
        }
    }
}

/// The nearest piece of a table that is known to be sound.
#[tactic(auto, unfolding(crate::specs::Calls::nearest_sound, crate::specs::Calls::out_of_range))]
pub fn nearest_sound(
    table: SoundTable<'_>,
    x: u32,
    y: u32,
    allowance: u32,
) -> Result<Nearest, Refusal>
    ensures { answer_from result ≡ nearest_sound table.entry.words.now x y allowance }
{
    let point = Point::read(x, y)?;
    if allowance == 0 || allowance > pages::PAGES as u32 {
        return Err(Refusal::OutOfRange);
    }
    if table.piece_count() == 0 {
        return Err(Refusal::NoPieces);
    }
    Ok(Search::new(table, point).run(allowance))
}

/// The best piece found for the point (x, y) by opening at most `allowance` pages, the nearest first.
pub fn nearest_piece(table: &[u32], x: u32, y: u32, allowance: u32) -> Result<Nearest, Refusal>
    ensures { answer_from result ≡ nearest_call table.now x y allowance }
{
    let table = SoundTable::read(table)?;
    nearest_sound(table, x, y, allowance)
}
