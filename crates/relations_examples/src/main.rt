// Runs the relation layer on the examples of document 01 and on others, and prints what it answers.
#![tactic(auto)]

ghost use Rattle.std.specs.Prelude.{◌<◌};
ghost use Rattle.relations.specs.Axis.{CODES};

use relations::{AdmittedSet, CODES, Code, PageTest, RowSets};
use std::{array, io};

const RELATIONS: u32 = 40;

// Rectangles x1, y1, x2, y2.
const RECTANGLES: [[u32; 4]; 13] = [
    [250, 250, 300, 300],
    [200, 100, 300, 200],
    [100, 100, 200, 200],
    [50, 50, 250, 250],
    [120, 150, 180, 250],
    [100, 120, 250, 180],
    [100, 100, 200, 250],
    [100, 100, 200, 150],
    [0, 1, 50, 99],
    [0, 50, 100, 100],
    [50, 0, 150, 200],
    [150, 150, 200, 200],
    [150, 200, 250, 300],
];

// Names and clauses; at the end what may be refused, with its accepted neighbours.
const QUERIES: [(&str, &[u64]); 22] = [
    ("overlap and north", &[1 << 2, 1 << 15]),
    ("weak corner north", &[1 << 13]),
    ("equal and contains", &[1 << 5, 1 << 7]),
    ("equal or contains", &[(1 << 5) + (1 << 7)]),
    ("disjoint", &[1 << 0]),
    ("meet", &[1 << 1]),
    ("overlap", &[1 << 2]),
    ("covered_by", &[1 << 3]),
    ("covers", &[1 << 6]),
    ("every relation", &[(1 << 40) - 1]),
    (
        "overlap, and north or east",
        &[1 << 2, (1 << 15) + (1 << 23)],
    ),
    ("no clause", &[]),
    ("eight clauses", &[1, 1, 1, 1, 1, 1, 1, 4]),
    ("nine clauses", &[1; 9]),
    ("nine clauses, all zero", &[0; 9]),
    ("5000 clauses", &[1; 5000]),
    ("zero clause", &[0]),
    ("zero clause last", &[4, 0]),
    ("bit 39", &[1 << 39]),
    ("bit 40", &[1 << 40]),
    ("bit 63", &[1 << 63]),
    ("bit 40 and bit 0", &[1, (1 << 40) + 1]),
];

const EQUAL_OR_CORNER: u64 = (1 << 5) + (1 << 12);

// Names and clauses, and the rectangle of a page.
const PAGES: [(&str, &[u64], [u32; 4]); 7] = [
    ("equal and contains", &[1 << 5, 1 << 7], [0, 0, 1000, 1000]),
    (
        "equal or strong corner",
        &[EQUAL_OR_CORNER],
        [100, 250, 200, 300],
    ),
    (
        "equal or strong corner",
        &[EQUAL_OR_CORNER],
        [100, 100, 200, 200],
    ),
    (
        "equal or strong corner",
        &[EQUAL_OR_CORNER],
        [250, 250, 300, 300],
    ),
    ("inside", &[1 << 4], [150, 150, 151, 151]),
    ("inside", &[1 << 4], [100, 100, 101, 101]),
    ("inside", &[1 << 4], [0, 0, 100, 100]),
];

// The codes of a rectangle on y and on x against the reference (100, 100, 200, 200).
fn codes([x1, y1, x2, y2]: [u32; 4]) -> (Code, Code) {
    (
        relations::axis_code(y1, y2, 100, 200),
        relations::axis_code(x1, x2, 100, 200),
    )
}

fn configurations(rt: &impl Print) -> io::Result<()> {
    for rectangle in RECTANGLES {
        let [x1, y1, x2, y2] = rectangle;
        let (i, j) = codes(rectangle);
        println!(rt;
            "configuration {x1} {y1} {x2} {y2}: {} {}",
            i.number, j.number
        )?;
    }
    Ok(())
}

fn rows_of(rt: &impl Print, rows: [u16; CODES]) -> io::Result<()> {
    for row in rows {
        print!(rt; " {row}")?;
    }
    println!(rt)
}

// Refusal, count and row sets of a query.
fn query(rt: &impl Print, name: &str, clauses: &[u64]) -> io::Result<()> {
    let set = AdmittedSet::from(relations::admitted(clauses));
    print!(rt; "{name}: {} {}", set.refusal, set.count)?;
    rows_of(rt, set.rows)
}

fn every_code() -> [Code; CODES] {
    array::from_fn(
        |i|
            requires { i < CODES }
        { Code { number: i + 1 } },
    )
}

// How many of the 169 pairs of codes pass.
fn passing<F: Fn(Code, Code) -> bool>(test: F) -> usize
    requires { F.IsAlwaysCallable test }
{
    let codes = every_code();
    codes
        .iter()
        .flat_map(|first| codes.iter().map(move |second| (*first, *second)))
        .filter(|&(first, second)| test(first, second))
        .count()
}

// The size of relation t, which the clause names alone: by the count, by the leaf test, and the pages that it opens.
fn relation(rt: &impl Print, t: u32, clause: u64) -> io::Result<()> {
    match relations::admitted(&[clause]) {
        Ok(set) => {
            let test = PageTest::new(&set);
            let leaves = passing(|i, j| set.has(i, j));
            let pages = passing(|cy, cx| test.may_hold(cy, cx));
            println!(rt; "relation {t}: {} {leaves} {pages}", set.count())
        }
        Err(refusal) => println!(rt; "relation {t}: {refusal}"),
    }
}

fn every_relation(rt: &impl Print) -> io::Result<()> {
    for t in 0..RELATIONS {
        relation(rt, t, 1 << t)?;
    }
    Ok(())
}

// The page test for one page, whose codes the rectangle gives.
fn page(rt: &impl Print, name: &str, clauses: &[u64], rectangle: [u32; 4]) -> io::Result<()> {
    let (cy, cx) = codes(rectangle);
    match relations::admitted(clauses) {
        Ok(set) => {
            let holds = PageTest::new(&set).may_hold(cy, cx);
            println!(rt; "{name}: {} {} {}", cy.number, cx.number, holds as u32)
        }
        Err(refusal) => println!(rt; "{name}: {refusal}"),
    }
}

fn every_query(rt: &impl Print) -> io::Result<()> {
    for (name, clauses) in QUERIES {
        query(rt, name, clauses)?;
    }
    Ok(())
}

fn every_page(rt: &impl Print) -> io::Result<()> {
    for (name, clauses, rectangle) in PAGES {
        page(rt, name, clauses, rectangle)?;
    }
    Ok(())
}

fn main(rt: HostRuntime) -> io::Result<()> {
    configurations(&rt)?;
    every_query(&rt)?;
    every_relation(&rt)?;
    every_page(&rt)?;
    // Row set i has code i alone, so the joined rows are the thirteen sets.
    let own = RowSets {
        rows: array::from_fn(|i| 1 << i),
    };
    print!(rt; "node sets:")?;
    rows_of(&rt, PageTest::new(&own).below)
}
