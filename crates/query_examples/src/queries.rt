// The queries that are asked.

// A clause has bit t for each relation t that it names.
pub struct Query {
    pub edges: [u32; 4],
    pub clauses: &'static [u64],
}

pub static NINE_QUERIES: [Query; 10] = [
    Query {
        edges: [80, 0, 85, 5],
        clauses: &[1 << 5],
    },
    Query {
        edges: [45, 5, 50, 20],
        clauses: &[1 << 30],
    },
    Query {
        edges: [40, 0, 45, 5],
        clauses: &[1 << 5 | 1 << 18 | 1 << 32],
    },
    Query {
        edges: [20, 0, 50, 15],
        clauses: &[1 << 31, 1 << 29],
    },
    Query {
        edges: [30, 15, 50, 40],
        clauses: &[1 << 1 | 1 << 15 | 1 << 23, 1 << 1 | 1 << 23 | 1 << 31],
    },
    Query {
        edges: [30, 5, 40, 10],
        clauses: &[1 << 1 | 1 << 19],
    },
    Query {
        edges: [0, 0, 5, 5],
        clauses: &[1 << 8 | 1 << 15 | 1 << 23, 1 << 1 | 1 << 23 | 1 << 31],
    },
    Query {
        edges: [15, 50, 30, 75],
        clauses: &[1 << 15 | 1 << 23 | 1 << 35, 1 << 1 | 1 << 23 | 1 << 31],
    },
    Query {
        edges: [15, 20, 40, 35],
        clauses: &[1 << 26 | 1 << 30 | 1 << 32],
    },
    Query {
        edges: [0, 0, 35, 5],
        clauses: &[1 << 1, 1 << 14],
    },
];

pub static THREE_LEVELS_QUERIES: [Query; 12] = [
    Query {
        edges: [15300, 0, 16100, 600],
        clauses: &[1 << 5 | 1 << 18 | 1 << 32],
    },
    Query {
        edges: [20700, 0, 21500, 600],
        clauses: &[1 << 1 | 1 << 16],
    },
    Query {
        edges: [14400, 7200, 24000, 19200],
        clauses: &[1 << 1 | 1 << 15 | 1 << 23, 1 << 1 | 1 << 23 | 1 << 31],
    },
    Query {
        edges: [26400, 24000, 40800, 31200],
        clauses: &[1 << 5 | 1 << 13 | 1 << 32],
    },
    Query {
        edges: [14400, 2400, 19200, 4800],
        clauses: &[1 << 1 | 1 << 19],
    },
    Query {
        edges: [0, 0, 800, 600],
        clauses: &[1 << 7 | 1 << 29 | 1 << 38],
    },
    Query {
        edges: [14400, 0, 17900, 600],
        clauses: &[1 << 1 | 1 << 34],
    },
    Query {
        edges: [7200, 24000, 14400, 36000],
        clauses: &[1 << 15 | 1 << 23 | 1 << 35, 1 << 1 | 1 << 23 | 1 << 31],
    },
    Query {
        edges: [25200, 0, 26000, 600],
        clauses: &[1 << 8],
    },
    Query {
        edges: [7200, 9600, 19200, 16800],
        clauses: &[1 << 26 | 1 << 30 | 1 << 32],
    },
    Query {
        edges: [23400, 0, 24200, 600],
        clauses: &[1 << 1, 1 << 14],
    },
    Query {
        edges: [0, 0, 17900, 600],
        clauses: &[1 << 13 | 1 << 15 | 1 << 23, 1 << 1 | 1 << 23 | 1 << 31],
    },
];

pub static REFUSED_QUERIES: [Query; 9] = [
    Query {
        edges: [80, 5, 85, 5],
        clauses: &[],
    },
    Query {
        edges: [80, 0, 1000001, 5],
        clauses: &[0],
    },
    Query {
        edges: [85, 0, 80, 5],
        clauses: &[1 << 5],
    },
    Query {
        edges: [80, 0, 85, 5],
        clauses: &[],
    },
    Query {
        edges: [80, 0, 85, 5],
        clauses: &[
            1 << 5,
            1 << 5,
            1 << 5,
            1 << 5,
            1 << 5,
            1 << 5,
            1 << 5,
            1 << 5,
        ],
    },
    Query {
        edges: [80, 0, 85, 5],
        clauses: &[
            1 << 5,
            1 << 5,
            1 << 5,
            1 << 5,
            0,
            1 << 5,
            1 << 5,
            1 << 5,
            1 << 5,
        ],
    },
    Query {
        edges: [80, 0, 85, 5],
        clauses: &[1 << 5, 0],
    },
    Query {
        edges: [80, 0, 85, 5],
        clauses: &[1 << 40],
    },
    Query {
        edges: [80, 0, 85, 5],
        clauses: &[1 << 39],
    },
];

pub static SOME_QUERIES: [Query; 3] = [
    Query {
        edges: [80, 0, 85, 5],
        clauses: &[1 << 5],
    },
    Query {
        edges: [80, 0, 85, 5],
        clauses: &[1 << 0],
    },
    Query {
        edges: [80, 5, 85, 5],
        clauses: &[],
    },
];
