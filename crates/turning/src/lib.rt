// A lay turned by a quarter, clockwise: its rectangles and its clauses. specs/Claims states that the answers stay the same.
#![tactic(auto)]

ghost use Rattle.std.specs.Prelude.{◌≡◌};
ghost use Rattle.turning.specs.Turn.{turned_rect, turn_clause};

use pages::{EDGE, Rect};

// The rectangle after the turn; zeros for one that is not valid.
#[tactic(auto, using(crate::proofs::Rects::edges_fit), unfolding(crate::specs::Turn::turned_rect, crate::specs::Turn::turn_rect))]
pub fn turned_rect(r: Rect) -> Rect
    ensures { result ≡ turned_rect r }
{
    if !r.is_valid() {
        return Rect::default();
    }
    Rect {
        x1: r.y1,
        y1: EDGE - r.x2,
        x2: r.y2,
        y2: EDGE - r.x1,
    }
}

// The clause that names what the relations of this one become. A byte has the topological ones, four a direction each, three name none.
#[tactic(auto, using(crate::proofs::Made::made_is))]
pub fn turned_clause(clause: u64) -> u64
    ensures { result ≡ turn_clause clause }
{
    let [topological, north, east, south, west, b5, b6, b7] = clause.to_le_bytes();
    u64::from_le_bytes([topological, west, north, east, south, b5, b6, b7])
}
