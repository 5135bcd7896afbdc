// Runs of place calls, the words that they leave, and queries at their end.
use crate::draws::Generator;
use crate::lays::{Lay, MOST_CALLS, sized, write};
use history::CALL_WORDS;
use pages::{COUNT, PAGE_COUNT, Piece, Rect, TABLE_WORDS};
use printing::{ask, checksum, head_and_sum, number};
use refusals::{ACCEPTED, Refusal, refusal_of};
use std::io;

const QUESTIONS: u8 = 10;

// After how many calls the sum of the table is printed.
const STOPS: [u16; 7] = [1, 8, 9, 10, 33, 100, 500];

const MEET: u64 = 1 << 1;

const PLAIN_NORTH: u64 = 1 << 15;

const PLAIN_EAST: u64 = 1 << 23;

const PLAIN_SOUTH: u64 = 1 << 31;

// The calls of a lay from the generator's state x, and queries over lengths of a unit.
#[derive(Clone, Copy)]
pub struct Run {
    pub name: &'static str,
    pub lay: Lay,
    pub x: u32,
    pub unit: u32,
}

// Which clauses a question has of three relations that are drawn.
#[derive(Clone, Copy)]
enum Kind {
    One,
    Joined,
    Two,
    Meeting,
    Directed,
}

// Asked in turn, two times.
const KINDS: [Kind; 5] = [
    Kind::One,
    Kind::Joined,
    Kind::Two,
    Kind::Meeting,
    Kind::Directed,
];

// The first entry of page q mod k, if it has one.
fn first_entry(table: &[u32; TABLE_WORDS], q: u8) -> Option<Rect> {
    let p = u32::from(q).checked_rem(table[PAGE_COUNT])?;
    let page = pages::page_of(table, p as usize);
    if page[COUNT] == 0 {
        return None;
    }
    Some(pages::entry_of(page, 0).rect)
}

// The set of one relation.
fn relation(draws: &mut Generator) -> u64 {
    1u64 << draws.below(40)
}

fn drawn(unit: u32, draws: &mut Generator) -> Rect {
    let left = unit.wrapping_mul(draws.below(12));
    let low = unit.wrapping_mul(draws.below(12));
    let width = unit.wrapping_mul(1 + draws.below(6));
    let height = unit.wrapping_mul(1 + draws.below(6));
    sized(left, low, width, height)
}

// The first clause of a query, and the second if it has one.
fn clauses(kind: Kind, draws: &mut Generator) -> (u64, Option<u64>) {
    let t = relation(draws);
    let u = relation(draws);
    let v = relation(draws);
    match kind {
        Kind::One => (t, None),
        Kind::Joined => (t | u | v, None),
        Kind::Two => (t, Some(u)),
        Kind::Meeting => (MEET | t, None),
        Kind::Directed => (
            PLAIN_NORTH | PLAIN_EAST | t,
            Some(MEET | PLAIN_EAST | PLAIN_SOUTH),
        ),
    }
}

// A reference that is drawn, or for an odd q the first entry of page q mod k, if it has one.
fn reference(table: &[u32; TABLE_WORDS], unit: u32, q: u8, draws: &mut Generator) -> Rect {
    let other = drawn(unit, draws);
    if q % 2 == 0 {
        return other;
    }
    first_entry(table, q).unwrap_or(other)
}

fn questions(
    rt: &impl Print,
    run: Run,
    table: &[u32; TABLE_WORDS],
    answer: &mut [u16],
) -> io::Result<()> {
    let mut draws = Generator::new(5);
    for (q, kind) in (0..QUESTIONS).zip(KINDS.iter().cycle()) {
        rt.print(run.name)?;
        let reference = reference(table, run.unit, q, &mut draws);
        match clauses(*kind, &mut draws) {
            (first, None) => ask(rt, table, reference, &[first], answer)?,
            (first, Some(second)) => ask(rt, table, reference, &[first, second], answer)?,
        }
    }
    Ok(())
}

// The table after the first calls, by `replay`.
fn stop(
    rt: &impl Print,
    calls: &[[u32; CALL_WORDS]],
    count: u16,
    table: &mut [u32],
    returned: &mut [u32],
) -> io::Result<()> {
    let first = calls.get(..usize::from(count)).unwrap_or(calls);
    let _ = history::replay(table, first.as_flattened(), returned);
    print!(rt; "after {count}")?;
    checksum(rt, table)?;
    println!(rt)
}

fn place_all(calls: &[[u32; CALL_WORDS]], table: &mut [u32], returned: &mut [u32]) {
    for (&call, refusal) in calls.iter().zip(returned.iter_mut()) {
        *refusal = refusal_of(&placing::place(table, Piece::from(call)));
    }
}

// The sum of what the calls returned, and how often that was 0, 2, 3 and 7.
fn print_refusals(rt: &impl Print, returned: &[u32]) -> io::Result<()> {
    print!(rt; "refusals")?;
    checksum(rt, returned)?;
    for n in [
        ACCEPTED,
        Refusal::RectangleNotValid.number(),
        Refusal::NumberTooLarge.number(),
        Refusal::AlreadyStanding.number(),
    ] {
        number(rt, returned.iter().filter(|r| **r == n).count())?;
    }
    println!(rt)
}

// Some stops, then the calls one after the other, then the questions.
pub fn print_run(rt: &impl Print, run: Run, answer: &mut [u16]) -> io::Result<()> {
    let mut table = [0u32; TABLE_WORDS];
    let mut calls = [[0u32; CALL_WORDS]; MOST_CALLS];
    let mut returned = [0u32; MOST_CALLS];
    let count = run.lay.count();
    let calls = &mut calls[..count];
    let returned = &mut returned[..count];
    write(run.lay, run.x, calls);
    println!(rt; "run {} {count}", run.name)?;
    for stop_at in STOPS {
        stop(rt, calls, stop_at, &mut table, returned)?;
    }
    let _ = pages::empty(&mut table);
    place_all(calls, &mut table, returned);
    print_refusals(rt, returned)?;
    print!(rt; "end")?;
    head_and_sum(rt, &table)?;
    questions(rt, run, &table, answer)
}
