// Queries: the listing of the admitted pieces, the opened pages, and the front part of an answer.
#![tactic(auto)]

ghost use Rattle.std.specs.Prelude.{◌≡◌, IfOk};
ghost use Rattle.refusals.specs.Numbers.{refusal_of};
ghost use Rattle.query.specs.Calls.{answer_of, opened_of, sound_refusal, query_sound, query_call, OpenedWords, front_of};
ghost use Rattle.query.specs.Steps.{opened_listed};
ghost use Rattle.query.specs.Search.{SearchFor};

mod marking;
mod searches;
mod walks;
mod window;

use marking::Marks;
use pages::{Rect, ValidRect};
use refusals::{ACCEPTED, Refusal};
use searches::Search;
use soundness::SoundTable;
use walks::Lister;

/// How many pieces a query listed, and how many pages it opened.
#[derive(Clone, Copy, Debug, PartialEq, Eq)]
pub struct Found {
    pub hits: u32,
    pub opened: u32,
}

/// The answer of a query as C takes it.
#[repr(C)]
#[derive(Clone, Copy)]
pub struct Answer {
    pub refusal: u32,
    pub hits: u32,
    pub opened: u32,
}

/// How many pages were listed as opened, as C takes it.
#[repr(C)]
#[derive(Clone, Copy)]
pub struct Opened {
    pub refusal: u32,
    pub count: u32,
}

impl From<Result<Found, Refusal>> for Answer {
    ghost from_gives = { λ r a. a ≡ answer_of r };

    fn from(answer: Result<Found, Refusal>) -> Answer {
        match answer {
            Ok(found) => Answer {
                refusal: ACCEPTED,
                hits: found.hits,
                opened: found.opened,
            },
            Err(refusal) => Answer {
                refusal: refusal.number(),
                hits: 0,
                opened: 0,
            },
        }
    }
}

impl From<Result<u32, Refusal>> for Opened {
    ghost from_gives = { λ r o. o ≡ opened_of r };

    fn from(answer: Result<u32, Refusal>) -> Opened {
        match answer {
            Ok(count) => Opened {
                refusal: ACCEPTED,
                count,
            },
            Err(refusal) => Opened {
                refusal: refusal.number(),
                count: 0,
            },
        }
    }
}

/// The front part of the answer slice itself, its first count words; "a count above the length gives the empty part".
#[tactic(auto, unfolding(crate::specs::Calls::front_of))]
pub fn front(answer: &[u16], count: usize) -> &[u16]
    ensures { result.now ≡ front_of answer.now count }
{
    answer.get(..count).unwrap_or(&answer[..0])
}

// The search of a query, where the answer slice has `size` words and `needed` are asked.
fn search_of<'a>(
    table: SoundTable<'a>,
    reference: Rect,
    clauses: &[u64],
    size: usize,
    needed: usize,
) -> Result<Search<'a>, Refusal>
    ensures refusal { refusal_of result ≡ sound_refusal reference clauses.now size needed }
    ensures search { IfOk result (SearchFor table.entry.words.now reference clauses.now) }
{
    let reference = ValidRect::try_from(reference)?;
    let set = relations::admitted(clauses)?;
    if size < needed {
        return Err(Refusal::AnswerTooShort);
    }
    Ok(Search::new(table, reference, set))
}

/// A query on a table that is known to be sound.
pub fn query_sound(
    table: SoundTable<'_>,
    reference: Rect,
    clauses: &[u64],
    answer: &mut [u16],
) -> Result<Found, Refusal>
    ensures { (answer_of result, answer.new) ≡ query_sound table.entry.words.now reference clauses.now answer.old }
{
    let size = answer.len();
    let search = search_of(table, reference, clauses, size, table.piece_count())?;
    let mut marks = Marks::new();
    let opened = search.run(&mut marks);
    let hits = marks.list(answer);
    Ok(Found {
        hits: hits as u32,
        opened: opened as u32,
    })
}

/// The opened pages of a table that is known to be sound, each page before its children.
pub fn opened_sound(
    table: SoundTable<'_>,
    reference: Rect,
    clauses: &[u64],
    answer: &mut [u16],
) -> Result<u32, Refusal>
    ensures { (opened_of result, answer.new) ≡ opened_listed table.entry.words.now reference clauses.now answer.old }
{
    let size = answer.len();
    let search = search_of(table, reference, clauses, size, table.page_count())?;
    let count = search.run(&mut Lister { words: answer });
    Ok(count as u32)
}

/// The numbers of the admitted pieces, rising, at the start of the answer slice.
pub fn query(
    table: &[u32],
    reference: Rect,
    clauses: &[u64],
    answer: &mut [u16],
) -> Result<Found, Refusal>
    ensures { (answer_of result, answer.new) ≡ query_call table.now reference clauses.now answer.old }
{
    let table = SoundTable::read(table)?;
    query_sound(table, reference, clauses, answer)
}

/// The numbers of the opened pages, in any order, at the start of the answer slice.
pub fn opened_pages(
    table: &[u32],
    reference: Rect,
    clauses: &[u64],
    answer: &mut [u16],
) -> Result<u32, Refusal>
    ensures { OpenedWords table.now reference clauses.now answer.old answer.new (opened_of result) }
{
    let table = SoundTable::read(table)?;
    opened_sound(table, reference, clauses, answer)
}
