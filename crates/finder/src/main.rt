// The job program: a job on standard input, its output on standard output.
#![tactic(auto)]

use std::io;

fn main(rt: HostRuntime) -> io::Result<()> {
    job_io::run(&mut rt.reader(), &mut io::writer(&rt))
}
