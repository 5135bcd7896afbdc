// The job program's work: a job read from its bytes, its pieces and queries, and the lines that they print.
#![tactic(auto)]

mod lines;
mod queries;
mod words;

ghost use Rattle.std.specs.Prelude.{◌≡◌, ◌+◌, ◌<◌, true, length, IfSome, is_some};
ghost use Rattle.pages.specs.Sizes.{TABLE_WORDS};
ghost use Rattle.pages.specs.Calls.{empty_words};
ghost use Rattle.job.specs.Words.{piece_count, piece_at, query_count, query_start, well_formed};
ghost use Rattle.job.specs.Steps.{InWords, WordsFrom, HasRoom, Gathers, table_at, piece_line_at};

use history::CALL_WORDS;
pub use lines::{LINE_BYTES, Lines};
use pages::Piece;
pub use queries::{Queries, Query};
use relations::CLAUSES;
use words::{Word, next_query, word_at, words_at, words_behind, words_of};

// The largest job.
pub const JOB_BYTES: usize = 65_536;

const WORD_BYTES: usize = 4;

// A job is made of whole words, and so is the largest.
const _: () = prove!(JOB_BYTES % WORD_BYTES == 0);

// The words of a query before its clauses.
const QUERY_HEAD: usize = 5;

const CLAUSE_WORDS: usize = 2;

// One clause more than a query may have: enough of them to be refused.
const CLAUSES_READ: usize = CLAUSES + 1;

/// A well-formed job: its bytes, the words that they make up, how many pieces and queries it has, and the words of its queries.
#[derive(Clone, Copy)]
pub struct Job<'a> {
    pub bytes: &'a [u8],
    words: &'a [Word],
    pub pieces: u32,
    pub queries: u32,
    first: &'a [Word],
    pub ghost cut: { InWords bytes.now words.now },
    pub ghost whole: { well_formed bytes.now ≡ true },
    pub ghost pieces_are: { pieces ≡ piece_count bytes.now },
    pub ghost queries_are: { queries ≡ query_count bytes.now },
    pub ghost begins: { WordsFrom bytes.now (query_start bytes.now 0) first.now },
}

impl<'a> Job<'a> {
    /// The job that the bytes are, if they are a well-formed one.
    #[tactic(auto, using(crate::proofs::Places::reading))]
    pub fn read(bytes: &'a [u8]) -> Option<Job<'a>>
        ensures some { is_some result ≡ well_formed bytes.now }
        ensures same { IfSome result (λ job. job.bytes.now ≡ bytes.now) }
    {
        if JOB_BYTES < bytes.len() {
            return None;
        }
        let words = words_of(bytes)?;
        let pieces = word_at(words, 0)?;
        let counted_at = 1 + CALL_WORDS * pieces as usize;
        let queries = word_at(words, counted_at)?;
        let first = words_behind(words, counted_at + 1)?;
        let mut left = first;
        for _ in 0..queries {
            let Some((_, _, behind)) = next_query(left) else {
                return None;
            };
            left = behind;
        }
        if !left.is_empty() {
            return None;
        }
        Some(Job {
            bytes,
            words,
            pieces,
            queries,
            first,
        })
    }

    /// The word at which the queries begin.
    pub fn first_query(&self) -> usize
        ensures { result ≡ query_start self.now.bytes.now 0 }
    {
        1 + CALL_WORDS * self.pieces as usize + 1
    }

    fn piece_at(&self, position: u32) -> Piece
        requires { position < self.now.pieces }
        ensures number { result.number ≡ (piece_at self.now.bytes.now position).number }
        ensures rect { result.rect ≡ (piece_at self.now.bytes.now position).rect }
    {
        let at = 1 + CALL_WORDS * position as usize;
        Piece::from(words_at::<CALL_WORDS>(self.words, at))
    }

    /// Places a piece, and gathers its line, if it is refused.
    pub fn place_piece<const N: usize>(
        &self,
        position: u32,
        table: &mut [u32],
        lines: &mut Lines<N>,
    )
        requires { (position < self.now.pieces) × (table.old ≡ table_at self.now.bytes.now position) × HasRoom N lines.old }
        ensures line { Gathers lines.old lines.new (piece_line_at self.now.bytes.now position) }
        ensures table { table.new ≡ table_at self.now.bytes.now (position + 1) }
    {
        let placed = placing::place_sound(table, self.piece_at(position));
        lines.piece(position, placed);
    }
}

/// Makes the table empty, before the first piece.
pub fn start(table: &mut [u32])
    requires { length table.old ≡ TABLE_WORDS }
    ensures { table.new ≡ empty_words }
{
    pages::empty(table).unwrap();
}
