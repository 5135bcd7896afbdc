// Axis codes, relations, admitted sets, and the thirteen sets of what can stand inside a page.
#![tactic(auto)]

ghost use Rattle.std.specs.Prelude.{◌≡◌, ℕ, suc, ◌-◌, ◌<◌, ◌^◌};
ghost use Rattle.refusals.specs.Numbers.{refusal_of};
ghost use Rattle.relations.specs.Sets.{listed, ones_from};
ghost use Rattle.relations.specs.Axis.{CODES, code, IsCode};
ghost use Rattle.relations.specs.Relation.{sets_of};
ghost use Rattle.relations.specs.Query.{count_of, some_bad, refusal_of as clauses_refusal, admitted_of, admitted_set_of};
ghost use Rattle.relations.specs.Steps.{side_of, named_row, with_relation, cut_to, rows_have};
ghost use Rattle.relations.specs.Steps.{union_of, joined_of, node_masks, page_test, open_at, near_by, inner_by, reach_by, overlap_by};

mod set_bits;

use refusals::{ACCEPTED, Refusal};
pub use set_bits::SetBits;

// The codes are 1 to 13.
pub const CODES: usize = 13;

const RELATIONS: usize = 40;

pub const CLAUSES: usize = 8;

/// How an interval lies to the reference on one axis.
#[derive(Clone, Copy, Debug, PartialEq, Eq)]
pub struct Code {
    pub number: usize,
    pub ghost one_of_thirteen: { IsCode number },
}

impl Code {
    // Its place in thirteen rows or bits.
    fn index(self) -> usize
        ensures { result ≡ self.number - 1 }
    {
        self.number - 1
    }
}

/// Row set i of a query, at place i - 1: its bit j - 1 says whether configuration (i, j) is admitted.
#[derive(Clone, Copy, Debug, PartialEq, Eq)]
pub struct RowSets {
    pub rows: [u16; CODES],
}

/// The answer of the admitted-set call as C takes it.
#[repr(C)]
#[derive(Clone, Copy)]
pub struct AdmittedSet {
    pub refusal: u32,
    pub rows: [u16; CODES],
    pub count: u32,
}

/// The codes that a relation allows on y and on x: bit c - 1 stands for code c.
#[derive(Clone, Copy, Debug, PartialEq, Eq)]
pub struct CodeSets {
    pub rows: u16,
    pub cols: u16,
}

// Every code.
const EVERY: u16 = 8191;

// By relation number 0 to 7: the codes, the same on both axes.
const TOPOLOGICAL: [u16; 8] = [8191, 4094, 2044, 864, 256, 64, 216, 16];

// By kind: the codes of north along its own axis, and across it; and both turned round.
const ALONG: [u16; 8] = [1, 4, 1, 4, 1, 4, 2, 7];

const ACROSS: [u16; 8] = [8191, 8191, 256, 256, 1, 7, 8191, 8191];

const ALONG_TURNED: [u16; 8] = [4096, 1024, 4096, 1024, 4096, 1024, 2048, 7168];

const ACROSS_TURNED: [u16; 8] = [8191, 8191, 256, 256, 4096, 7168, 8191, 8191];

// The codes 3 to 11.
const OVERLAPPING: u16 = 2_044;

// The code of a page that reaches beyond the reference on both sides, in which every code can stand.
const AROUND: Code = Code { number: 5 };

// By the code of a page, from 1 on: the codes of intervals inside it.
const NODE_MASKS: [u16; CODES] = [
    1, 3, 295, 879, 8191, 288, 864, 8160, 256, 768, 7936, 6144, 4096,
];

// 0 where a is above b, 1 where it is at b, 2 where it is below b: a sum, so that no branch is left.
fn side(a: u32, b: u32) -> usize
    ensures { (result ≡ side_of a b) × (result < 3) }
{
    (a <= b) as usize + (a < b) as usize
}

/// The code of [p1, p2] against the reference [q1, q2].
pub fn axis_code(p1: u32, p2: u32, q1: u32, q2: u32) -> Code
    requires { q1 < q2 }
    ensures { result.number ≡ code p1 p2 q1 q2 }
{
    if p1 >= q2 {
        return Code {
            number: 1 + side(p1, q2),
        };
    }
    if p2 <= q1 {
        return Code {
            number: 11 + side(p2, q1),
        };
    }
    Code {
        number: 3 + 3 * side(p2, q2) + side(p1, q1),
    }
}

/// The codes of relation t on y and on x; no codes for a number above 39.
pub fn relation_sets(t: usize) -> CodeSets
    ensures { result ≡ sets_of t }
{
    match t {
        0..=7 => CodeSets {
            rows: TOPOLOGICAL[t],
            cols: TOPOLOGICAL[t],
        },
        8..=15 => CodeSets {
            rows: ALONG[t - 8],
            cols: ACROSS[t - 8],
        },
        16..=23 => CodeSets {
            rows: ACROSS_TURNED[t - 16],
            cols: ALONG[t - 16],
        },
        24..=31 => CodeSets {
            rows: ALONG_TURNED[t - 24],
            cols: ACROSS_TURNED[t - 24],
        },
        32..=39 => CodeSets {
            rows: ACROSS[t - 32],
            cols: ALONG_TURNED[t - 32],
        },
        _ => CodeSets { rows: 0, cols: 0 },
    }
}

// Adds to the thirteen rows what relation t allows.
fn add_relation(rows: &mut [u16; CODES], t: usize)
    ensures { rows.new ≡ with_relation rows.old t }
{
    let sets = relation_sets(t);
    for (h, row) in rows.iter_mut().enumerate() {
        if (sets.rows >> h) % 2 == 1 {
            *row |= sets.cols;
        }
    }
}

// The thirteen rows of what one clause names. It goes from one set bit to the next, since most clauses name few relations.
fn clause_rows(clause: u64) -> [u16; CODES]
    ensures { result ≡ listed (λ (h : ℕ). named_row clause (suc h)) CODES }
{
    let mut rows = [0; CODES];
    for t in SetBits::new(clause) {
        add_relation(&mut rows, t as usize);
    }
    rows
}

// Cuts the thirteen rows down to what one more clause names.
fn cut_to(rows: &mut [u16; CODES], clause: u64)
    ensures { rows.new ≡ cut_to rows.old clause }
{
    let named = clause_rows(clause);
    for (h, row) in rows.iter_mut().enumerate() {
        *row &= named[h];
    }
}

// Whether a clause names no relation, or one above 39.
fn some_bad(clauses: &[u64]) -> bool
    ensures { result ≡ some_bad clauses.now }
{
    clauses
        .iter()
        .any(|&clause| clause == 0 || clause >= 1 << RELATIONS)
}

// Refuses clauses that are no query.
#[tactic(auto, unfolding(crate::specs::Query::refusal_of))]
fn refused(clauses: &[u64]) -> Result<(), Refusal>
    ensures { refusal_of result ≡ clauses_refusal clauses.now }
{
    if clauses.is_empty() || clauses.len() > CLAUSES {
        return Err(Refusal::ClauseCount);
    }
    if some_bad(clauses) {
        return Err(Refusal::ClauseNotValid);
    }
    Ok(())
}

/// The admitted set of a query.
pub fn admitted(clauses: &[u64]) -> Result<RowSets, Refusal>
    ensures { admitted_set_of result ≡ admitted_of clauses.now }
{
    refused(clauses)?;
    let mut rows = [EVERY; CODES];
    for &clause in clauses {
        cut_to(&mut rows, clause);
    }
    Ok(RowSets { rows })
}

impl RowSets {
    /// Whether configuration (i, j) is admitted.
    pub fn has(&self, i: Code, j: Code) -> bool
        ensures { result ≡ rows_have self.now.rows i.number j.number }
    {
        (self.rows[i.index()] >> j.index()) % 2 == 1
    }

    /// How many configurations are admitted.
    pub fn count(&self) -> u32
        ensures { result ≡ count_of self.now.rows }
    {
        self.rows.iter().map(|row| row.count_ones()).sum()
    }
}

impl From<Result<RowSets, Refusal>> for AdmittedSet {
    ghost from_gives = { λ answer set. set ≡ admitted_set_of answer };

    fn from(answer: Result<RowSets, Refusal>) -> AdmittedSet {
        match answer {
            Ok(set) => AdmittedSet {
                refusal: ACCEPTED,
                rows: set.rows,
                count: set.count(),
            },
            Err(refusal) => AdmittedSet {
                refusal: refusal.number(),
                rows: [0; CODES],
                count: 0,
            },
        }
    }
}

/// How far from the reference rectangles can be admitted.
#[derive(Clone, Copy, Debug, PartialEq, Eq)]
pub enum Reach {
    /// Both codes are in 3 to 11: the insides of the rectangle and of the reference meet.
    Inner,
    /// Both codes are in 3 to 12: on each axis the rectangle starts below the reference's end, and reaches its start or passes it.
    Near,
    /// Some code may be 1, 2 or 13.
    Anywhere,
}

/// What can stand inside a page, made once for each query: the page test then looks at one row and one mask.
#[derive(Drop)]
pub struct PageTest {
    /// By the code of a page on y: the row sets joined of the codes that can stand inside it.
    pub below: [u16; CODES],
    /// By the code of a page on x: the codes that can stand inside it. A constant would be copied each time a walk reads it.
    pub masks: [u16; CODES],
    pub ghost tabled: { masks ≡ node_masks },
}

// The row sets of some codes, joined.
fn joined_row(rows: &[u16; CODES], codes: u16) -> u16
    requires { codes < 2 ^ CODES }
    ensures { result ≡ union_of rows.now 0 (ones_from 0 64 codes) }
{
    let mut joined = 0;
    for h in SetBits::new(u64::from(codes)) {
        joined |= rows[h as usize];
    }
    joined
}

// The row sets joined for each code of a page.
fn joined(rows: &[u16; CODES]) -> [u16; CODES]
    ensures { result ≡ joined_of rows.now }
{
    let mut below = [0; CODES];
    for (c, row) in below.iter_mut().enumerate() {
        *row = joined_row(rows, NODE_MASKS[c]);
    }
    below
}

impl PageTest {
    pub fn new(set: &RowSets) -> PageTest
        ensures { result.below ≡ joined_of set.now.rows }
    {
        PageTest {
            below: joined(&set.rows),
            masks: NODE_MASKS,
        }
    }

    /// Whether a page of codes cy and cx can hold an admitted configuration.
    pub fn may_hold(&self, cy: Code, cx: Code) -> bool
        ensures { result ≡ page_test self.now.below cy.number cx.number }
    {
        self.below[cy.index()] & self.masks[cx.index()] != 0
    }

    // Whether something admitted can stand below a page of code c on one axis, whatever its code on the other.
    #[tactic(auto, unfolding(crate::specs::Steps::open_at))]
    fn is_open(&self, c: Code) -> bool
        ensures { result ≡ open_at self.now.below c.number }
    {
        self.may_hold(c, AROUND) || self.may_hold(AROUND, c)
    }

    /// Whether nothing is admitted but with both codes in 3 to 12.
    #[tactic(auto, unfolding(crate::specs::Steps::near_by))]
    pub fn is_near(&self) -> bool
        ensures { result ≡ near_by self.now.below }
    {
        !self.is_open(Code { number: 1 })
            && !self.is_open(Code { number: 2 })
            && !self.is_open(Code { number: CODES })
    }

    /// How far rectangles can be admitted: a walk passes by what lies beyond without its codes. Of the single relations, overlap to
    /// contains and the weak bounded directions are `Inner`; `Near` are queries such as "just south and weak east". Disjoint, meet and
    /// the other directions admit code 1, 2 or 13, so they gain nothing.
    #[tactic(auto, unfolding(crate::specs::Steps::reach_by, crate::specs::Steps::inner_by))]
    pub fn reach(&self) -> Reach
        ensures { result ≡ reach_by self.now.below }
    {
        if !self.is_near() {
            return Reach::Anywhere;
        }
        if self.is_open(Code { number: 12 }) {
            return Reach::Near;
        }
        Reach::Inner
    }

    /// Whether nothing is admitted but with both codes in 3 to 11.
    #[tactic(auto, unfolding(crate::specs::Steps::reach_by))]
    pub fn is_inner(&self) -> bool
        ensures { result ≡ inner_by self.now.below }
    {
        self.reach() == Reach::Inner
    }

    /// Whether the admitted set is that of overlap, the 81 configurations with both codes in 3 to 11: a walk then needs no codes.
    #[tactic(auto, unfolding(crate::specs::Steps::overlap_by))]
    pub fn is_overlap(&self, set: &RowSets) -> bool
        ensures { result ≡ overlap_by set.now.rows self.now.below }
    {
        if !self.is_inner() {
            return false;
        }
        set.rows[2..=10]
            .iter()
            .all(|row| row & OVERLAPPING == OVERLAPPING)
    }
}
