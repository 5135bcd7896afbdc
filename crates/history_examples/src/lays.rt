// Lists of place calls by formulas, as words: number, x1, y1, x2, y2.
ghost use Rattle.std.specs.Prelude.{◌≤◌, ◌<◌};
ghost use Rattle.pages.specs.Sizes.{PIECES};

use crate::draws::Generator;
use history::CALL_WORDS;
use pages::{EDGE, NUMBERS, PIECES, Piece, Rect};

// The longest list.
pub const MOST_CALLS: usize = 3_000;

// The last of 1,024.
const LAST: u16 = 1_023;

#[derive(Clone, Copy)]
pub enum Lay {
    Rising,
    Falling,
    Shuffled,
    Equal,
    Strips,
    Nested,
    Growing,
    Spread,
    Tiny,
    Refused,
}

// The rectangle that starts at (left, low).
pub fn sized(left: u32, low: u32, width: u32, height: u32) -> Rect {
    Rect {
        x1: left,
        y1: low,
        x2: left.wrapping_add(width),
        y2: low.wrapping_add(height),
    }
}

fn grid(c: u16) -> Piece {
    let c = u32::from(c);
    Piece {
        number: c,
        rect: sized(c % 32 * 900, c / 32 * 700, 800, 600),
    }
}

fn equal(c: u16) -> Piece {
    Piece {
        number: u32::from(c),
        rect: sized(5, 5, 5, 5),
    }
}

fn strip(c: u16) -> Piece {
    let c = u32::from(c);
    let rect = if c % 2 == 0 {
        sized(900 * c, 0, 1, EDGE)
    } else {
        sized(0, 900 * c, EDGE, 1)
    };
    Piece { number: c, rect }
}

fn nested(c: u16) -> Piece {
    let c = u32::from(c);
    let size = EDGE - 2 * c;
    Piece {
        number: c,
        rect: sized(c, c, size, size),
    }
}

fn spread(c: u16, draws: &mut Generator) -> Piece {
    let left = 15 * draws.below(65_536);
    let low = 15 * draws.below(65_536);
    Piece {
        number: u32::from(c),
        rect: sized(left, low, 1 + draws.below(9_999), 1 + draws.below(9_999)),
    }
}

fn tiny(c: u16, draws: &mut Generator) -> Piece {
    let left = draws.below(8);
    let low = draws.below(8);
    Piece {
        number: 341 * u32::from(c) % PIECES,
        rect: sized(left, low, 1 + draws.below(4), 1 + draws.below(4)),
    }
}

// One edge above 1,000,000 in two cases of sixteen.
fn faulty(mut rect: Rect, fault: u32) -> Rect {
    match fault {
        0 => rect.x2 = EDGE + 1,
        1 => rect.y2 = EDGE + 1,
        _ => {}
    }
    rect
}

fn refused(draws: &mut Generator) -> Piece {
    let number = draws.below(1_100);
    let left = draws.below(1_000);
    let low = draws.below(1_000);
    let rect = sized(left, low, draws.below(40), draws.below(40));
    Piece {
        number,
        rect: faulty(rect, draws.below(16)),
    }
}

// The piece at position i when the last of 1,024 goes first.
fn from_last(i: u16) -> u16
    ensures { result < PIECES }
{
    LAST.saturating_sub(i)
}

impl Lay {
    pub fn count(self) -> usize
        ensures { result ≤ MOST_CALLS }
    {
        match self {
            Lay::Refused => MOST_CALLS,
            _ => NUMBERS,
        }
    }

    fn piece(self, i: u16, draws: &mut Generator) -> Piece {
        match self {
            Lay::Rising | Lay::Shuffled => grid(i),
            Lay::Falling => grid(from_last(i)),
            Lay::Equal => equal(i),
            Lay::Strips => strip(i),
            Lay::Nested => nested(i),
            Lay::Growing => nested(from_last(i)),
            Lay::Spread => spread(i, draws),
            Lay::Tiny => tiny(i, draws),
            Lay::Refused => refused(draws),
        }
    }
}

// From the last call down to the second: the calls at i and at below(i + 1) change places.
fn shuffle(calls: &mut [[u32; CALL_WORDS]], mut draws: Generator) {
    for i in (1..calls.len().min(NUMBERS)).rev() {
        calls.swap(i, draws.below(i as u32 + 1) as usize);
    }
}

// The calls of a lay, from the generator's state x; those of a shuffled one change places at the end.
pub fn write(lay: Lay, x: u32, calls: &mut [[u32; CALL_WORDS]]) {
    let mut draws = Generator::new(x);
    for (i, call) in (0..u16::MAX).zip(calls.iter_mut()) {
        let Piece { number, rect } = lay.piece(i, &mut draws);
        *call = [number, rect.x1, rect.y1, rect.x2, rect.y2];
    }
    if let Lay::Shuffled = lay {
        shuffle(calls, Generator::new(x));
    }
}
