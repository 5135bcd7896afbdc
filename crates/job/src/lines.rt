// The lines of the output, gathered in memory.
ghost use Rattle.std.specs.Prelude.{◌≡◌, ◌+◌, ◌≤◌, [], ◌∷◌, ◌++◌, length};
ghost use Rattle.refusals.specs.Numbers.{number_of, refusal_of};
ghost use Rattle.pages.specs.Sizes.{PIECES};
ghost use Rattle.query.specs.Calls.{answer_of};
ghost use Rattle.job.specs.Lines.{SPACE, decimal, fields, line};
ghost use Rattle.job.specs.Output.{bad_job, piece_line, query_line};
ghost use Rattle.job.specs.Steps.{HasRoom, Gathers};

use arrayvec::ArrayVec;
use itoa::Buffer;
use query::Found;
use refusals::Refusal;
use std::marker::Model;

// No line is longer.
pub const LINE_BYTES: usize = 8_192;

const SPACE: u8 = b' ';

const NEWLINE: u8 = b'\n';

// The letters that lines begin with.
const UNPLACED: u8 = b'P';

const ANSWERED: u8 = b'Q';

const REFUSED: u8 = b'R';

/// Lines, one behind the other, of at most `N` bytes.
#[derive(Drop)]
pub struct Lines<const N: usize> {
    bytes: ArrayVec<u8, N>,
}

impl<const N: usize> Model for Lines<N> {
    ghost use Rattle.std.specs.Prelude.{ℕ, List};

    ghost Value = { List ℕ };

    ghost view = { λ lines. lines.bytes.items };
}

impl<const N: usize> Lines<N> {
    pub fn new() -> Self
        ensures { result ≡ [] }
    {
        Lines {
            bytes: ArrayVec::new(),
        }
    }

    pub fn as_slice(&self) -> &[u8]
        ensures { result.now ≡ self.now }
    {
        self.bytes.as_slice()
    }

    /// How many bytes more fit.
    pub fn room(&self) -> usize
        ensures { result + length self.now ≡ N }
    {
        self.bytes.remaining_capacity()
    }

    pub fn clear(&mut self)
        ensures { self.new ≡ [] }
    {
        self.bytes.clear();
    }

    fn byte(&mut self, byte: u8)
        requires { length self.old + 1 ≤ N }
        ensures { self.new ≡ self.old ++ byte ∷ [] }
    {
        self.bytes.push(byte);
    }

    fn text(&mut self, text: &[u8])
        requires { length self.old + length text.now ≤ N }
        ensures { self.new ≡ self.old ++ text.now }
    {
        self.bytes.try_extend_from_slice(text).unwrap();
    }

    // A space and n.
    fn field(&mut self, n: u32)
        requires { length self.old + length (SPACE ∷ decimal n) ≤ N }
        ensures { self.new ≡ self.old ++ SPACE ∷ decimal n }
    {
        self.byte(SPACE);
        self.text(Buffer::new().format(n).as_bytes());
    }

    fn fields(&mut self, numbers: &[u16])
        requires { length self.old + length (fields numbers.now) ≤ N }
        ensures { self.new ≡ self.old ++ fields numbers.now }
    {
        for n in numbers {
            self.field(u32::from(*n));
        }
    }

    // The line of a refused piece or query.
    fn refused(&mut self, letter: u8, position: u32, refusal: Refusal)
        requires { HasRoom N self.old }
        ensures { Gathers self.old self.new (line letter (position ∷ number_of refusal ∷ [])) }
    {
        self.byte(letter);
        self.field(position);
        self.field(refusal.number());
        self.byte(NEWLINE);
    }

    // The line of an accepted query.
    fn answered(&mut self, position: u32, found: Found, numbers: &[u16])
        requires { HasRoom N self.old × (length numbers.now ≤ PIECES) }
        ensures { Gathers self.old self.new (line ANSWERED (position ∷ found.hits ∷ found.opened ∷ numbers.now)) }
    {
        self.byte(ANSWERED);
        self.field(position);
        self.field(found.hits);
        self.field(found.opened);
        self.fields(numbers);
        self.byte(NEWLINE);
    }

    /// All that a bad job prints.
    #[tactic(auto, unfolding(crate::specs::Output::bad_job))]
    pub fn bad_job(&mut self)
        requires { HasRoom N self.old }
        ensures { Gathers self.old self.new bad_job }
    {
        self.text(b"bad job\n");
    }

    // The line of a piece, if it is refused.
    #[tactic(auto, unfolding(crate::specs::Output::piece_line))]
    pub(crate) fn piece(&mut self, position: u32, placed: Result<(), Refusal>)
        requires { HasRoom N self.old }
        ensures { Gathers self.old self.new (piece_line position (refusal_of placed)) }
    {
        if let Err(refusal) = placed {
            self.refused(UNPLACED, position, refusal);
        }
    }

    // The line of a query.
    #[tactic(auto, unfolding(crate::specs::Output::query_line))]
    pub(crate) fn query(&mut self, position: u32, found: Result<Found, Refusal>, answer: &[u16])
        requires { HasRoom N self.old × (length answer.now ≡ PIECES) × ((answer_of found).hits ≤ length answer.now) }
        ensures { Gathers self.old self.new (query_line position (answer_of found, answer.now)) }
    {
        match found {
            Ok(found) => self.answered(position, found, &answer[..found.hits as usize]),
            Err(refusal) => self.refused(REFUSED, position, refusal),
        }
    }
}
