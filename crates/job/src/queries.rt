// The queries of a job, one after the other.
ghost use Rattle.std.specs.Prelude.{◌≡◌, ◌-◌, ◌≤◌, ◌<◌, length, map};
ghost use Rattle.std.specs.Iterator.{at_most};
ghost use Rattle.pages.specs.Sizes.{PIECES};
ghost use Rattle.query.specs.Calls.{answer_of, query_sound};
ghost use Rattle.job.specs.Words.{query_start, query_at};
ghost use Rattle.job.specs.Steps.{WordsFrom, clause_in, HasRoom, Gathers, full_table, query_line_at, answer_after};

use crate::words::{Word, first_clauses, next_query};
use crate::{CLAUSE_WORDS, Job, Lines};
use pages::Rect;
use query::Found;
use refusals::Refusal;
use soundness::SoundTable;
use std::ops::Range;

/// A query of a job: its position, its reference and the words of its clauses.
#[derive(Clone, Copy)]
pub struct Query<'a> {
    pub job: Job<'a>,
    pub position: u32,
    reference: Rect,
    clauses: &'a [[Word; CLAUSE_WORDS]],
    pub ghost listed: { position < job.queries },
    pub ghost refers: { reference ≡ (query_at job.bytes.now (query_start job.bytes.now position)).reference },
    pub ghost asks: { map clause_in clauses.now ≡ (query_at job.bytes.now (query_start job.bytes.now position)).clauses },
}

/// The queries of a job from one on, in order.
#[derive(Drop)]
pub struct Queries<'a> {
    pub job: Job<'a>,
    pub positions: Range<u32>,
    rest: &'a [Word],
    pub ghost listed: { (positions.start ≤ positions.end) × (positions.end ≡ job.queries) },
    pub ghost begins: { WordsFrom job.bytes.now (query_start job.bytes.now positions.start) rest.now },
}

impl<'a> Job<'a> {
    pub fn queries(&self) -> Queries<'a>
        ensures same { result.job.bytes.now ≡ self.now.bytes.now }
        ensures first { result.positions.start ≡ 0 }
    {
        Queries {
            job: *self,
            positions: 0..self.queries,
            rest: self.first,
        }
    }
}

impl<'a> Iterator for Queries<'a> {
    type Item = Query<'a>;

    ghost use Rattle.job.specs.Queries.{GivesQuery};

    ghost remaining = { λ s. at_most (s.positions.end - s.positions.start) };

    ghost next_gives = { GivesQuery };

    fn next(&mut self) -> Option<Query<'a>> {
        let position = self.positions.next()?;
        let (reference, clauses, rest) = next_query(self.rest)?;
        let query = Query {
            job: self.job,
            position,
            reference,
            clauses,
        };
        self.rest = rest;
        Some(query)
    }
}

impl Query<'_> {
    fn ask(&self, table: SoundTable<'_>, answer: &mut [u16]) -> Result<Found, Refusal>
        ensures { (answer_of result, answer.new)
            ≡ query_sound table.entry.words.now self.now.reference (map clause_in self.now.clauses.now) answer.old }
    {
        let clauses = first_clauses(self.clauses);
        query::query_sound(table, self.reference, clauses.as_slice(), answer)
    }

    /// Answers it, and gathers its line.
    pub fn answer<const N: usize>(&self, table: &[u32], answer: &mut [u16], lines: &mut Lines<N>)
        requires { (table.now ≡ full_table self.now.job.bytes.now)
            × (length answer.old ≡ PIECES) × HasRoom N lines.old }
        ensures line { Gathers lines.old lines.new (query_line_at self.now.job.bytes.now self.now.position) }
        ensures answer { answer.new ≡ answer_after self.now.job.bytes.now self.now.position answer.old }
    {
        let table = SoundTable { words: table };
        let found = self.ask(table, answer);
        lines.query(self.position, found, answer);
    }
}
