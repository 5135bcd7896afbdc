// The entry to go to: the one whose area grows least.
ghost use Rattle.std.specs.Prelude.{◌≡◌, ◌-◌, ◌<◌};
ghost use Rattle.pages.specs.Sizes.{FANOUT};
ghost use Rattle.pages.specs.Readers.{entry_in};
ghost use Rattle.placing.specs.Place.{area};
ghost use Rattle.placing.specs.Parts.{cost_of, costs_less, lesser};
ghost use Rattle.placing.specs.Steps.{chosen_in};

use super::words::{Slot, entry_count};
use pages::{PAGE_WORDS, Rect};

// To the east, and to the north.
pub fn sides(r: Rect) -> (u32, u32)
    ensures { result ≡ (r.x2 - r.x1, r.y2 - r.y1) }
{
    (r.x2.saturating_sub(r.x1), r.y2.saturating_sub(r.y1))
}

// Areas reach 10^12.
#[tactic(auto, unfolding(crate::specs::Place::area))]
fn area(r: Rect) -> u64
    ensures { result ≡ area r }
{
    let (width, height) = sides(r);
    u64::from(width) * u64::from(height)
}

// What it costs to go to an entry: by how much its area grows; ties go to the smaller area. Its place in the page stands beside.
#[derive(Clone, Copy)]
pub struct Cost {
    pub growth: u64,
    pub area: u64,
    pub place: usize,
}

#[tactic(auto, using(crate::proofs::Choosing::area_widen))]
fn cost_at(page: &[u32; PAGE_WORDS], place: usize, new: Rect) -> Cost
    requires { place < FANOUT }
    ensures { result ≡ cost_of new (entry_in page.now) place }
{
    let r = pages::entry_of(page, place).rect;
    let old = area(r);
    Cost {
        growth: area(r.widened(new)) - old,
        area: old,
        place,
    }
}

fn is_less(a: Cost, b: Cost) -> bool
    ensures { result ≡ costs_less a b }
{
    a.growth < b.growth || (a.growth == b.growth && a.area < b.area)
}

fn lesser(a: Cost, b: Cost) -> Cost
    ensures { result ≡ lesser a b }
{
    if is_less(a, b) {
        return a;
    }
    b
}

// The slot of the entry to go to; of none, the first. The places count, and not what is left of the entries: of at most eight turns the
// compiler makes code without branches, which the processor could hardly foretell.
pub fn choose(page: &[u32; PAGE_WORDS], new: Rect) -> Slot
    ensures { result.index ≡ chosen_in page.now new }
{
    let first = cost_at(page, 0, new);
    let least = (1..entry_count(page)).fold(first, |least, place| {
        lesser(cost_at(page, place, new), least)
    });
    Slot { index: least.place }
}
