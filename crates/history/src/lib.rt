// Lists of place calls. specs/Demand3 states what their tables answer; `replay` runs a list that is given as words.
#![tactic(auto)]

ghost use Rattle.std.specs.Prelude.{◌≡◌, ◌≤◌, length, T};
ghost use Rattle.refusals.specs.Numbers.{refusal_of};
ghost use Rattle.pages.specs.Sizes.{TABLE_WORDS};
ghost use Rattle.pages.specs.Sound.{sound};
ghost use Rattle.placing.specs.Calls.{place_sound};
ghost use Rattle.history.specs.Replay.{Marked, replay_call};

use pages::{NUMBERS, Piece, TABLE_WORDS};
use refusals::{Refusal, refusal_of};

// The words of a place call: number, x1, y1, x2, y2.
pub const CALL_WORDS: usize = 5;

// A place call on a sound table. The marks say which numbers stand in it, so that no leaf is searched.
fn place_marked(table: &mut [u32], marks: &mut [bool; NUMBERS], piece: Piece) -> Result<(), Refusal>
    requires long { TABLE_WORDS ≤ length table.old }
    requires sound { T (sound table.old) }
    requires marked { Marked table.old marks.old }
    ensures answer { (refusal_of result, table.new) ≡ place_sound table.old piece.number piece.rect }
    ensures marked { Marked table.new marks.new }
{
    placing::place_where(table, piece, |_| marks[piece.number as usize])?;
    marks[piece.number as usize] = true;
    Ok(())
}

// Empties the table, places each call in turn and writes what it returns. Soundness follows from call to call, so it is never tested.
#[tactic(auto, using(crate::proofs::Replaying::replay_short, crate::proofs::Replaying::replay_few))]
pub fn replay(table: &mut [u32], calls: &[u32], refusals: &mut [u32]) -> Result<(), Refusal>
    ensures { (refusal_of result, table.new, refusals.new) ≡ replay_call table.old calls.now refusals.old }
{
    if table.len() < TABLE_WORDS {
        return Err(Refusal::TableTooShort);
    }
    let (groups, _) = calls.as_chunks::<CALL_WORDS>();
    if refusals.len() < groups.len() {
        return Err(Refusal::AnswerTooShort);
    }
    pages::empty(table)?;
    let mut marks = [false; NUMBERS];
    for (i, &call) in groups.iter().enumerate() {
        refusals[i] = refusal_of(&place_marked(table, &mut marks, Piece::from(call)));
    }
    Ok(())
}
