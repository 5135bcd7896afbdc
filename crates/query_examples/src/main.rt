// Runs the query calls on three tables and prints what they answer: the nine pieces of document 01, a table that place calls
// never make (three levels, pages in another order, other fills), and the empty one.
#![tactic(auto)]

mod queries;
mod tables;

use pages::{ENTRY_WORDS, PAGE_WORDS, Rect};
use printing::numbers;
use queries::{NINE_QUERIES, Query, REFUSED_QUERIES, SOME_QUERIES, THREE_LEVELS_QUERIES};
use query::{Answer, Opened};
use std::io;
use tables::{NINE_PIECES, Page, THREE_LEVELS, Table};

// One word less than a table.
const SHORT: usize = pages::TABLE_WORDS - 1;

// What the answer slice holds before each call.
const BLANK: u16 = 7;

fn words_of(table: &Table) -> [u32; pages::TABLE_WORDS] {
    let mut words = [0; pages::TABLE_WORDS];
    words[pages::PAGE_COUNT] = table.pages.len().min(pages::PAGES) as u32;
    words[pages::ROOT] = table.root;
    words[pages::PIECE_COUNT] = table.pieces;
    let (places, _) = words[pages::TABLE_HEAD..].as_chunks_mut::<PAGE_WORDS>();
    for (place, page) in places.iter_mut().zip(table.pages) {
        put_page(place, page);
    }
    words
}

fn put_page(words: &mut [u32; PAGE_WORDS], page: &Page) {
    words[pages::LEVEL] = page.level;
    words[pages::COUNT] = page.entries.len().min(pages::FANOUT) as u32;
    let (places, _) = words[pages::PAGE_HEAD..].as_chunks_mut::<ENTRY_WORDS>();
    for (place, entry) in places.iter_mut().zip(page.entries) {
        *place = *entry;
    }
}

// The sum of all words of the answer slice.
fn print_sum(rt: &impl Print, answer: &[u16]) -> io::Result<()> {
    let sum = answer
        .iter()
        .fold(0u64, |sum, &word| sum.wrapping_add(u64::from(word)));
    print!(rt; " | {sum}")
}

// The order of pages is free, so they are printed rising.
fn print_pages(rt: &impl Print, list: &[u16]) -> io::Result<()> {
    for p in 0..pages::PAGES as u16 {
        if list.contains(&p) {
            print!(rt; " {p}")?;
        }
    }
    Ok(())
}

// What the query call answers, and the sum.
fn ask_query(rt: &impl Print, table: &[u32], query: &Query, answer: &mut [u16]) -> io::Result<()> {
    answer.fill(BLANK);
    let reference = Rect::from(query.edges);
    let a = Answer::from(query::query(table, reference, query.clauses, answer));
    print!(rt; " | {} {} {} |", a.refusal, a.hits, a.opened)?;
    numbers(rt, query::front(answer, a.hits as usize))?;
    print_sum(rt, answer)
}

// What the call for the opened pages answers, and the sum.
fn ask_opened(rt: &impl Print, table: &[u32], query: &Query, answer: &mut [u16]) -> io::Result<()> {
    answer.fill(BLANK);
    let reference = Rect::from(query.edges);
    let o = Opened::from(query::opened_pages(table, reference, query.clauses, answer));
    print!(rt; " | {} {} |", o.refusal, o.count)?;
    print_pages(rt, query::front(answer, o.count as usize))?;
    print_sum(rt, answer)
}

fn ask(
    rt: &impl Print,
    name: &str,
    table: &[u32],
    queries: &[Query],
    answer: &mut [u16],
) -> io::Result<()> {
    for query in queries {
        print!(rt; "{name}")?;
        numbers(rt, &query.edges)?;
        print!(rt; " {}", query.clauses.len())?;
        numbers(rt, query.clauses)?;
        ask_query(rt, table, query, answer)?;
        ask_opened(rt, table, query, answer)?;
        println!(rt)?;
    }
    Ok(())
}

// With an answer slice of `room` words.
fn ask_room(
    rt: &impl Print,
    name: &str,
    table: &[u32],
    room: usize,
    answer: &mut [u16],
) -> io::Result<()> {
    match answer.get_mut(..room) {
        Some(part) => ask(rt, name, table, &SOME_QUERIES, part),
        None => Ok(()),
    }
}

// Answer slices that are just long enough for each call, and one word shorter.
fn ask_rooms(rt: &impl Print, nine: &[u32], empty: &[u32], answer: &mut [u16]) -> io::Result<()> {
    for (name, table, room) in [
        ("nine-words", nine, 9),
        ("eight-words", nine, 8),
        ("three-words", nine, 3),
        ("two-words", nine, 2),
        ("empty-one-word", empty, 1),
        ("empty-no-word", empty, 0),
    ] {
        ask_room(rt, name, table, room, answer)?;
    }
    Ok(())
}

// The length of the slice, the count, and the part that the front call hands back.
fn print_front(rt: &impl Print, answer: &[u16], count: usize) -> io::Result<()> {
    print!(rt; "front {} {count} |", answer.len())?;
    numbers(rt, query::front(answer, count))?;
    println!(rt)
}

fn main(rt: HostRuntime) -> io::Result<()> {
    let mut answer = [0; pages::NUMBERS];
    let zeros = [0; pages::TABLE_WORDS];
    let mut empty = zeros;
    empty[pages::PAGE_COUNT] = 1;
    let nine = words_of(&NINE_PIECES);
    let three = words_of(&THREE_LEVELS);
    ask(&rt, "nine", &nine, &NINE_QUERIES, &mut answer)?;
    ask(
        &rt,
        "three-levels",
        &three,
        &THREE_LEVELS_QUERIES,
        &mut answer,
    )?;
    ask(&rt, "refused", &nine, &REFUSED_QUERIES, &mut answer)?;
    ask(&rt, "unsound", &zeros, &SOME_QUERIES, &mut answer)?;
    let short = nine.get(..SHORT).unwrap_or(&[]);
    ask(&rt, "short-table", short, &SOME_QUERIES, &mut answer)?;
    ask_rooms(&rt, &nine, &empty, &mut answer)?;
    // A count below the length, at it, above it, and one that would be 1 in 32 bits.
    for count in [2, 3, 4, 4_294_967_297] {
        print_front(&rt, &[3, 5, 8], count)?;
    }
    Ok(())
}
