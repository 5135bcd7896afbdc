// What the example programs print: numbers, sums of words, the answer of a query. A read or a store past the end is harmless here, so
// that the programs need no bounds.
#![tactic(auto)]

ghost use Rattle.std.specs.Prelude.{◌≡◌, get_or, set};

use pages::Rect;
use query::Answer;
use std::fmt::Display;
use std::{array, io};

// How many numbers of a listing are printed; the checksum has them all.
const SHOWN: u32 = 24;

pub fn number<N: Display + Drop>(rt: &impl Print, n: N) -> io::Result<()> {
    print!(rt; " {n}")
}

pub fn numbers<N: Display>(rt: &impl Print, list: &[N]) -> io::Result<()> {
    for n in list {
        number(rt, n)?;
    }
    Ok(())
}

pub fn edges(rt: &impl Print, r: Rect) -> io::Result<()> {
    print!(rt; " {} {} {} {}", r.x1, r.y1, r.x2, r.y2)
}

// A store past the end does nothing.
pub fn store(list: &mut [u32], i: usize, value: u32)
    ensures { list.new ≡ set list.old i value }
{
    if i < list.len() {
        list[i] = value;
    }
}

// The word at i, and zero past the end.
pub fn word(list: &[u32], i: usize) -> u32
    ensures { result ≡ get_or list.now i 0 }
{
    list.get(i).copied().unwrap_or(0)
}

// From zero, (31 sum + word) mod 2^32 for each word in turn.
pub fn checksum<N: Copy>(rt: &impl Print, list: &[N]) -> io::Result<()>
where
    u32: From<N>,
{
    let sum = list.iter().fold(
        0u32,
        |sum, n| sum.wrapping_mul(31).wrapping_add(u32::from(*n)),
    );
    number(rt, sum)
}

// The words before the pages, zero past the end.
pub fn head(rt: &impl Print, table: &[u32]) -> io::Result<()> {
    let words: [u32; pages::TABLE_HEAD] = array::from_fn(|i| word(table, i));
    numbers(rt, &words)
}

// The words before the pages, and the sum of all.
pub fn head_and_sum(rt: &impl Print, table: &[u32]) -> io::Result<()> {
    head(rt, table)?;
    checksum(rt, table)?;
    println!(rt)
}

// The reference and the clauses, what the query returns, the sum of the answer slice, and the first numbers of the listing.
pub fn ask(
    rt: &impl Print,
    table: &[u32],
    reference: Rect,
    clauses: &[u64],
    answer: &mut [u16],
) -> io::Result<()> {
    let a = Answer::from(query::query(table, reference, clauses, answer));
    edges(rt, reference)?;
    number(rt, clauses.len())?;
    numbers(rt, clauses)?;
    print!(rt; " | {} {} {}", a.refusal, a.hits, a.opened)?;
    checksum(rt, answer)?;
    print!(rt; " |")?;
    numbers(rt, query::front(answer, a.hits.min(SHOWN) as usize))?;
    println!(rt)
}
