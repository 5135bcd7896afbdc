// Pieces, and what is known of them and of their rectangles.
ghost use Rattle.std.specs.Prelude.{T, ◌<◌};
ghost use Rattle.pages.specs.Sizes.{PIECES};
ghost use Rattle.pages.specs.Rectangles.{valid};

use super::{PIECES, Rect};
use refusals::Refusal;

// A valid rectangle.
#[derive(Clone, Copy, Debug, PartialEq, Eq)]
pub struct ValidRect {
    pub rect: Rect,
    pub ghost holds: { T (valid rect) },
}

impl TryFrom<Rect> for ValidRect {
    ghost use Rattle.pages.specs.Pieces.{IsValidRectOf};

    type Error = Refusal;

    ghost try_from_gives = { IsValidRectOf };

    fn try_from(rect: Rect) -> Result<ValidRect, Refusal> {
        if !rect.is_valid() {
            return Err(Refusal::RectangleNotValid);
        }
        Ok(ValidRect { rect })
    }
}

// "A piece has a number, 0 to 1,023, and a rectangle"; that of a call may have any.
#[derive(Clone, Copy, Debug, PartialEq, Eq)]
pub struct Piece {
    pub number: u32,
    pub rect: Rect,
}

// A piece that a place call refuses only where its number stands already.
#[derive(Clone, Copy, Debug, PartialEq, Eq)]
pub struct ValidPiece {
    pub number: u32,
    pub rect: ValidRect,
    pub ghost below: { number < PIECES },
}

impl TryFrom<Piece> for ValidPiece {
    ghost use Rattle.pages.specs.Pieces.{IsValidPieceOf};

    type Error = Refusal;

    ghost try_from_gives = { IsValidPieceOf };

    fn try_from(piece: Piece) -> Result<ValidPiece, Refusal> {
        let rect = ValidRect::try_from(piece.rect)?;
        let number = piece.number;
        if number >= PIECES {
            return Err(Refusal::NumberTooLarge);
        }
        Ok(ValidPiece { number, rect })
    }
}

// The words of a place call: number, x1, y1, x2, y2.
impl From<[u32; 5]> for Piece {
    ghost use Rattle.std.specs.Prelude.{◌≡◌, get_or};
    ghost use Rattle.pages.specs.Rectangles.{rect_of};
    ghost use Rattle.pages.specs.Pieces.{piece_of};

    ghost from_gives = { λ w p. p ≡ piece_of (get_or w 0 0) (rect_of (get_or w 1 0) (get_or w 2 0) (get_or w 3 0) (get_or w 4 0)) };

    fn from(words: [u32; 5]) -> Piece {
        let [number, x1, y1, x2, y2] = words;
        let rect = Rect { x1, y1, x2, y2 };
        Piece { number, rect }
    }
}
