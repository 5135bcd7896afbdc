// Places long lists of pieces, asks queries at their end, and prints what the calls return and leave.
#![tactic(auto)]

mod draws;
mod lays;
mod runs;

use lays::Lay;
use pages::NUMBERS;
use runs::{Run, print_run};
use std::io;

// A name, a lay, the generator's state before it, and the unit of its queries' lengths.
const RUNS: [(&str, Lay, u32, u32); 10] = [
    ("rising", Lay::Rising, 0, 2_400),
    ("falling", Lay::Falling, 0, 2_400),
    ("shuffled", Lay::Shuffled, 1, 2_400),
    ("equal", Lay::Equal, 0, 1),
    ("strips", Lay::Strips, 0, 55_000),
    ("nested", Lay::Nested, 0, 55_000),
    ("growing", Lay::Growing, 0, 55_000),
    ("spread", Lay::Spread, 2, 55_000),
    ("tiny", Lay::Tiny, 3, 1),
    ("refused", Lay::Refused, 4, 60),
];

fn main(rt: HostRuntime) -> io::Result<()> {
    let mut answer = [0u16; NUMBERS];
    for (name, lay, x, unit) in RUNS {
        let run = Run { name, lay, x, unit };
        print_run(&rt, run, &mut answer)?;
    }
    Ok(())
}
