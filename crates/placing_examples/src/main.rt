// Places the examples of document 01 and prints what the calls return and leave.
#![tactic(auto)]

use pages::{PAGE_COUNT, PIECE_COUNT, Piece, Rect, TABLE_WORDS};
use printing::{ask, checksum, edges, head, head_and_sum, number, numbers, store, word};
use refusals::refusal_of;
use std::io;

// One word less than a table.
const SHORT: usize = TABLE_WORDS - 1;

// Place calls on the table of nine pieces, as words: a piece number and the four edges.
static CALLS: [[u32; 5]; 13] = [
    // Edge 1,000,000 and number 1,023.
    [1_023, 999_999, 0, 1_000_000, 1_000_000],
    [1_022, 0, 0, 1_000_000, 1],
    // An edge beyond.
    [1_021, 0, 0, 1_000_001, 10],
    [1_021, 0, 0, 10, 1_000_001],
    // No area.
    [1_021, 10, 0, 10, 10],
    [1_021, 0, 10, 10, 10],
    [1_021, 0, 4_294_967_295, 10, 10],
    // A number that is too large, or that stands.
    [1_024, 0, 0, 10, 10],
    [4_294_967_295, 0, 0, 10, 10],
    [1_023, 0, 0, 10, 10],
    [8, 80, 0, 85, 5],
    // Both: the rectangle is tested before the number.
    [1_024, 10, 0, 10, 10],
    [8, 10, 0, 10, 10],
];

// Pieces 0 to 8, piece c at (10c, 0, 10c + 5, 5).
fn place_nine(rt: &impl Print, table: &mut [u32; TABLE_WORDS]) -> io::Result<()> {
    let _ = pages::empty(table);
    print!(rt; "nine")?;
    for c in 0..9 {
        let piece = Piece::from([c, 10 * c, 0, 10 * c + 5, 5]);
        number(rt, refusal_of(&placing::place(table, piece)))?;
    }
    println!(rt)
}

fn print_nine(rt: &impl Print, table: &[u32; TABLE_WORDS]) -> io::Result<()> {
    print!(rt; "head")?;
    head(rt, table)?;
    for p in 0..3 {
        print!(rt; "\npage {p} |")?;
        numbers(rt, pages::page_of(table, p))?;
    }
    print!(rt; "\nequal")?;
    let mut answer = [0; pages::NUMBERS];
    ask(
        rt,
        table,
        Rect::from([80, 0, 85, 5]),
        &[1 << 5],
        &mut answer,
    )
}

// A place call, what it returns, the pieces and the sum of all words after it.
fn print_call(rt: &impl Print, table: &mut [u32; TABLE_WORDS], piece: Piece) -> io::Result<()> {
    let refusal = refusal_of(&placing::place(table, piece));
    print!(rt; "place {}", piece.number)?;
    edges(rt, piece.rect)?;
    print!(rt; " | {refusal} {}", word(table, PIECE_COUNT))?;
    checksum(rt, table)?;
    println!(rt)
}

// A call in which the number and the rectangle are wrong too, and the sum of the words that it leaves.
fn print_refused(rt: &impl Print, name: &str, table: &mut [u32]) -> io::Result<()> {
    let answer = placing::place(table, Piece::from([1_024, 10, 0, 10, 10]));
    print!(rt; "{name} place {}\nleft", refusal_of(&answer))?;
    checksum(rt, table)?;
    println!(rt)
}

// A slice one word short.
fn short_calls(rt: &impl Print) -> io::Result<()> {
    let mut table = [0; SHORT];
    println!(rt; "short empty {}", refusal_of(&pages::empty(&mut table)))?;
    print_refused(rt, "short", &mut table)
}

// A table that is not sound, then the empty one.
fn unsound_calls(rt: &impl Print, table: &mut [u32; TABLE_WORDS]) -> io::Result<()> {
    store(table, PAGE_COUNT, 0);
    print_refused(rt, "unsound", table)?;
    print!(rt; "empty {}", refusal_of(&pages::empty(table)))?;
    head_and_sum(rt, table)
}

fn main(rt: HostRuntime) -> io::Result<()> {
    let mut table = [0; TABLE_WORDS];
    place_nine(&rt, &mut table)?;
    print_nine(&rt, &table)?;
    for call in CALLS {
        print_call(&rt, &mut table, Piece::from(call))?;
    }
    short_calls(&rt)?;
    unsound_calls(&rt, &mut table)
}
