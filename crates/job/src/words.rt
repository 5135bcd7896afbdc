// Reading a job's little-endian words.
ghost use Rattle.std.specs.Prelude.{ℕ, ◌≡◌, ◌+◌, ◌*◌, ◌%◌, ◌≤◌, ◌<◌, length, get_or, map, take, drop, MatchOption};
ghost use Rattle.std.specs.List.{concat};
ghost use Rattle.job.specs.Sizes.{WORD_BYTES, QUERY_HEAD, CLAUSE_COUNT_AT, CLAUSE_WORDS};
ghost use Rattle.job.specs.Words.{word_at, clauses_at, rect_at};
ghost use Rattle.job.specs.Steps.{InWords, query_size, clause_in};

use crate::{CLAUSE_WORDS, CLAUSES_READ, QUERY_HEAD, WORD_BYTES};
use arrayvec::ArrayVec;
use pages::Rect;
use std::array;

// A word of 32 bits, its lowest byte first.
pub(crate) type Word = [u8; WORD_BYTES];

#[tactic(auto, using(crate::proofs::Reading::joined))]
pub(crate) fn words_of(bytes: &[u8]) -> Option<&[Word]>
    ensures { MatchOption result (0 < length bytes.now % WORD_BYTES) (λ words. InWords bytes.now words.now) }
{
    match bytes.as_chunks::<WORD_BYTES>() {
        (words, []) => Some(words),
        _ => None,
    }
}

#[tactic(auto, using(crate::proofs::Reading::word_of))]
pub(crate) fn word_at(words: &[Word], i: usize) -> Option<u32>
    ensures { MatchOption result (length words.now ≤ i) (λ word. (i < length words.now) × (word ≡ word_at (concat words.now) i)) }
{
    let word = words.get(i)?;
    Some(u32::from_le_bytes(*word))
}

pub(crate) fn words_at<const N: usize>(words: &[Word], i: usize) -> [u32; N]
    requires { i + N ≤ length words.now }
    ensures { (k : ℕ) → k < N → get_or result k 0 ≡ word_at (concat words.now) (i + k) }
{
    array::from_fn(|k| u32::from_le_bytes(words[i + k]))
}

#[tactic(auto, using(crate::proofs::Reading::clauses_of))]
pub(crate) fn clauses_at(words: &[Word], i: usize, count: usize) -> &[[Word; CLAUSE_WORDS]]
    requires { i + CLAUSE_WORDS * count ≤ length words.now }
    ensures { map clause_in result.now ≡ clauses_at (concat words.now) i count }
{
    let (clauses, _) = words[i..i + CLAUSE_WORDS * count].as_chunks();
    clauses
}

// The words behind the first n.
#[tactic(auto, using(crate::proofs::Reading::words_from))]
pub(crate) fn words_behind(words: &[Word], n: usize) -> Option<&[Word]>
    ensures { MatchOption result (length words.now < n)
        (λ rest. (n ≤ length words.now) × InWords (drop (WORD_BYTES * n) (concat words.now)) rest.now) }
{
    let (_, rest) = words.split_at_checked(n)?;
    Some(rest)
}

// The query at the front, its reference and the words of its clauses, and the words behind it.
pub(crate) fn next_query(words: &[Word]) -> Option<(Rect, &[[Word; CLAUSE_WORDS]], &[Word])>
    ensures { MatchOption result (length words.now < query_size (concat words.now))
        (λ query. (query_size (concat words.now) ≤ length words.now)
        × (query.0 ≡ rect_at (concat words.now) 0)
        × (map clause_in query.1.now ≡ clauses_at (concat words.now) QUERY_HEAD (word_at (concat words.now) CLAUSE_COUNT_AT))
        × InWords (drop (WORD_BYTES * query_size (concat words.now)) (concat words.now)) query.2.now) }
{
    if words.len() < QUERY_HEAD {
        return None;
    }
    let [x1, y1, x2, y2, clauses] = words_at::<QUERY_HEAD>(words, 0);
    let count = clauses as usize;
    let rest = words_behind(words, QUERY_HEAD + CLAUSE_WORDS * count)?;
    Some((
        Rect { x1, y1, x2, y2 },
        clauses_at(words, QUERY_HEAD, count),
        rest,
    ))
}

// A clause of its low word and its high word.
fn clause_in(words: &[Word; CLAUSE_WORDS]) -> u64
    ensures { result ≡ clause_in words.now }
{
    let &[[a, b, c, d], [e, f, g, h]] = words;
    u64::from_le_bytes([a, b, c, d, e, f, g, h])
}

pub(crate) fn first_clauses(clauses: &[[Word; CLAUSE_WORDS]]) -> ArrayVec<u64, CLAUSES_READ>
    ensures { result.items ≡ map clause_in (take CLAUSES_READ clauses.now) }
{
    let mut read = ArrayVec::new();
    for words in clauses.iter().take(CLAUSES_READ) {
        read.push(clause_in(words));
    }
    read
}
