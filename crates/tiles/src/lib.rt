// How a piece is shared among the nine tiles into which the edge lines of a reference cut the plane. It knows nothing of page tables.
#![tactic(auto)]

mod sides;

ghost use Rattle.std.specs.Prelude.{◌≡◌, ◌≤◌, ◌<◌};
ghost use Rattle.tiles.specs.Calls.{shares_call, shares_from};
ghost use Rattle.tiles.specs.Steps.{MOST_AREA, share_of};

use pages::{Rect, ValidRect};
use refusals::{ACCEPTED, Refusal};
use sides::Sides;

pub const TILES: usize = 9;

// The strips of one axis: before both edge lines, between them, after both.
const STRIPS: usize = 3;

const THOUSAND: u64 = 1_000;

/// The piece's area in a tile, the whole thousandths of the piece's area that this is, and what that division leaves over.
#[derive(Clone, Copy, Debug, PartialEq, Eq)]
pub struct TileShare {
    pub area: u64,
    pub thousandths: u64,
    pub remainder: u64,
}

impl TileShare {
    // Areas reach 10^12, and a thousand times them 10^15.
    fn new(area: u64, whole: u64) -> TileShare
        requires area { area ≤ MOST_AREA }
        requires whole { 0 < whole }
        ensures { result ≡ share_of area whole }
    {
        let thousandfold = THOUSAND * area;
        TileShare {
            area,
            thousandths: thousandfold / whole,
            remainder: thousandfold % whole,
        }
    }
}

/// The shares as C gets them.
#[repr(C)]
#[derive(Clone, Copy, Debug, Default, PartialEq, Eq)]
pub struct Shares {
    pub refusal: u32,
    pub areas: [u64; TILES],
    pub thousandths: [u64; TILES],
    pub remainders: [u64; TILES],
}

impl From<Result<[TileShare; TILES], Refusal>> for Shares {
    ghost from_gives = { λ r s. s ≡ shares_from r };

    fn from(answer: Result<[TileShare; TILES], Refusal>) -> Shares {
        match answer {
            Ok(tiles) => Shares {
                refusal: ACCEPTED,
                areas: tiles.map(|tile| tile.area),
                thousandths: tiles.map(|tile| tile.thousandths),
                remainders: tiles.map(|tile| tile.remainder),
            },
            Err(refusal) => Shares {
                refusal: refusal.number(),
                ..Shares::default()
            },
        }
    }
}

/// For each tile, in rising rows from the south, west to east.
pub fn tile_shares(piece: Rect, reference: Rect) -> Result<[TileShare; TILES], Refusal>
    ensures { shares_from result ≡ shares_call piece reference }
{
    let sides = Sides::from(ValidRect::try_from(piece)?);
    let lines = Sides::from(ValidRect::try_from(reference)?);
    Ok(sides.shares_by(lines))
}
