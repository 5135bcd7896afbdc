// The C interface: exactly what include/finder.h declares, each export with the equation of the call behind it.
#![tactic(auto)]

ghost use Rattle.std.specs.Prelude.{◌≡◌};
ghost use Rattle.relations.specs.Query.{admitted_of};
ghost use Rattle.pages.specs.Rectangles.{rect_of};
ghost use Rattle.pages.specs.Calls.{empty_call};
ghost use Rattle.outline.specs.Calls.{area_call, point_call};
ghost use Rattle.tiles.specs.Calls.{shares_call};
ghost use Rattle.turning.specs.Turn.{turned_rect, turn_clause};
ghost use Rattle.soundness.specs.Calls.{check_call};
ghost use Rattle.placing.specs.Calls.{place_call};
ghost use Rattle.query.specs.Calls.{query_call, OpenedWords};
ghost use Rattle.nearest.specs.Calls.{nearest_call};

use nearest::NearestAnswer;
use outline::{Area, Located};
use pages::{Piece, Rect};
use query::{Answer, Opened};
use refusals::refusal_of;
use relations::AdmittedSet;
use soundness::Checked;
use tiles::Shares;

#[unsafe(no_mangle)]
pub extern "C" fn finder_empty(table: &mut [u32]) -> u32
    ensures { (result, table.new) ≡ empty_call table.old }
{
    refusal_of(&pages::empty(table))
}

#[unsafe(no_mangle)]
pub extern "C" fn finder_check(table: &[u32]) -> Checked
    ensures { result ≡ check_call table.now }
{
    Checked::from(soundness::check(table))
}

#[unsafe(no_mangle)]
pub extern "C" fn finder_place(
    table: &mut [u32],
    number: u32,
    x1: u32,
    y1: u32,
    x2: u32,
    y2: u32,
) -> u32
    ensures { (result, table.new) ≡ place_call table.old number (rect_of x1 y1 x2 y2) }
{
    let rect = Rect { x1, y1, x2, y2 };
    refusal_of(&placing::place(table, Piece { number, rect }))
}

#[unsafe(no_mangle)]
pub extern "C" fn finder_query(
    table: &[u32],
    x1: u32,
    y1: u32,
    x2: u32,
    y2: u32,
    clauses: &[u64],
    answer: &mut [u16],
) -> Answer
    ensures { (result, answer.new) ≡ query_call table.now (rect_of x1 y1 x2 y2) clauses.now answer.old }
{
    Answer::from(query::query(table, Rect { x1, y1, x2, y2 }, clauses, answer))
}

#[unsafe(no_mangle)]
pub extern "C" fn finder_opened_pages(
    table: &[u32],
    x1: u32,
    y1: u32,
    x2: u32,
    y2: u32,
    clauses: &[u64],
    answer: &mut [u16],
) -> Opened
    ensures { OpenedWords table.now (rect_of x1 y1 x2 y2) clauses.now answer.old answer.new result }
{
    Opened::from(query::opened_pages(table, Rect { x1, y1, x2, y2 }, clauses, answer))
}

#[unsafe(no_mangle)]
pub extern "C" fn finder_admitted_set(clauses: &[u64]) -> AdmittedSet
    ensures { result ≡ admitted_of clauses.now }
{
    AdmittedSet::from(relations::admitted(clauses))
}

#[unsafe(no_mangle)]
pub extern "C" fn finder_outline_area(words: &[u32]) -> Area
    ensures { result ≡ area_call words.now }
{
    Area::from(outline::outline_area(words))
}

#[unsafe(no_mangle)]
pub extern "C" fn finder_outline_point(words: &[u32], x: u32, y: u32) -> Located
    ensures { result ≡ point_call words.now x y }
{
    Located::from(outline::outline_point(words, x, y))
}

// p is the piece, q the reference.
#[unsafe(no_mangle)]
pub extern "C" fn finder_tile_shares(
    px1: u32,
    py1: u32,
    px2: u32,
    py2: u32,
    qx1: u32,
    qy1: u32,
    qx2: u32,
    qy2: u32,
) -> Shares
    ensures { result ≡ shares_call (rect_of px1 py1 px2 py2) (rect_of qx1 qy1 qx2 qy2) }
{
    let piece = Rect::from([px1, py1, px2, py2]);
    let reference = Rect::from([qx1, qy1, qx2, qy2]);
    Shares::from(tiles::tile_shares(piece, reference))
}

#[unsafe(no_mangle)]
pub extern "C" fn finder_turned_rect(x1: u32, y1: u32, x2: u32, y2: u32) -> Rect
    ensures { result ≡ turned_rect (rect_of x1 y1 x2 y2) }
{
    turning::turned_rect(Rect { x1, y1, x2, y2 })
}

#[unsafe(no_mangle)]
pub extern "C" fn finder_turned_clause(clause: u64) -> u64
    ensures { result ≡ turn_clause clause }
{
    turning::turned_clause(clause)
}

#[unsafe(no_mangle)]
pub extern "C" fn finder_nearest_piece(
    table: &[u32],
    x: u32,
    y: u32,
    allowance: u32,
) -> NearestAnswer
    ensures { result ≡ nearest_call table.now x y allowance }
{
    NearestAnswer::from(nearest::nearest_piece(table, x, y, allowance))
}
