// Running a job: its bytes read from a reader, its output written to a writer.
#![tactic(auto)]

ghost use Rattle.std.specs.Prelude.{◌≡◌, ◌≤◌, ◌<◌, [], length, take, ⊤, IfOk, OnOk, OnErr};
ghost use Rattle.std.specs.Io.{ReadsAtMost};
ghost use Rattle.std.specs.Io.KnownBytes.{Appends, Consumes, IsAtEnd, ReadConsumes};
ghost use Rattle.pages.specs.Calls.{empty_words};
ghost use Rattle.job.specs.Words.{piece_count, query_count};
ghost use Rattle.job.specs.Steps.{HasRoom, full_table, piece_line_at, query_line_at, lines_to};
ghost use Rattle.job_io.specs.Gathered.{kept, held_pieces, held_queries, held_at_end, output_of, Gathered};
ghost use Rattle.job_io.specs.Printed.{Printed};
ghost use Rattle.job_io.specs.Prints.{Prints};

use job::{JOB_BYTES, Job, LINE_BYTES, Lines};
use pages::{NUMBERS, TABLE_WORDS};
use std::io;
use std::io::{Read, Write};

// Lines are gathered here, so that a write has many of them. The pieces of a job print 28,374 bytes at the most: a buffer of less is
// written between their lines as well as between those of the queries, in jobs that can be given, and runs can show both.
const BUFFER_BYTES: usize = 16_384;

const READ_BYTES: usize = JOB_BYTES + 1;

// What a job is read from: any reader. std's contract of a read does not say when one fails. `failed` stands for whatever is known
// of a reader after a failed read, so that what follows can say what is done only then.
pub trait Source: Read {
    ghost failed: { Self → Type 0 };

    fn read_some(&mut self, rest: &mut [u8]) -> io::Result<usize>
        ensures bound { ReadsAtMost result rest.new }
        ensures bytes { ReadConsumes (Self.remaining self.old) (Self.remaining self.new) result rest.new }
        ensures failure { OnErr result (failed self.new) };
}

impl<R: Read> Source for R {
    ghost failed = { λ _. ⊤ };

    fn read_some(&mut self, rest: &mut [u8]) -> io::Result<usize> {
        self.read(rest)
    }
}

// How many bytes there are up to the end of the input, or as many as `bytes` has.
fn read_all<R: Source>(from: &mut R, bytes: &mut [u8]) -> io::Result<usize>
    ensures within { IfOk result (λ n. n ≤ length bytes.new) }
    ensures read { IfOk result (λ n. Consumes (R.remaining from.old) (R.remaining from.new) (take n bytes.new)) }
    ensures end { IfOk result (λ n. n < length bytes.new → IsAtEnd (R.remaining from.new)) }
    ensures failure { OnErr result (R.failed from.new) }
{
    let mut n = 0;
    while n < bytes.len() {
        let more = from.read_some(&mut bytes[n..])?;
        if more == 0 {
            return Ok(n);
        }
        n += more;
    }
    Ok(n)
}

// Lines on their way to a writer.
#[derive(Drop)]
struct Output<'a, W> {
    to: &'a mut W,
    lines: Lines<BUFFER_BYTES>,
}

impl<W: Write> Output<'_, W> {
    // Nothing else here writes.
    fn flush(&mut self) -> io::Result<()>
        ensures same_writer { self.new.to.ghost_name ≡ self.old.to.ghost_name }
        ensures empty { OnOk result (self.new.lines ≡ []) }
        ensures written { OnOk result (Appends (W.contents self.old.to.now) (W.contents self.new.to.now) self.old.lines) }
    {
        self.to.write_all(self.lines.as_slice())?;
        self.lines.clear();
        Ok(())
    }

    // Writes what is gathered where the next line might not fit behind it.
    #[tactic(auto, using(crate::proofs::Gathered::kept_laws))]
    fn make_room(&mut self) -> io::Result<()>
        ensures room { OnOk result (HasRoom BUFFER_BYTES self.new.lines) }
        ensures front { OnOk result (self.new.lines ≡ kept BUFFER_BYTES self.old.lines) }
        ensures all { OnOk result (Prints W.contents self.old self.new []) }
    {
        if self.lines.room() >= LINE_BYTES {
            return Ok(());
        }
        self.flush()
    }
}

#[tactic(auto, using(crate::proofs::Gathered::piece_laws))]
fn place_pieces<W: Write>(job: &Job, table: &mut [u32], out: &mut Output<W>) -> io::Result<()>
    requires { (table.old ≡ empty_words) × (out.old.lines ≡ []) }
    ensures placed { OnOk result (table.new ≡ full_table job.now.bytes.now) }
    ensures held { OnOk result (out.new.lines ≡ held_pieces BUFFER_BYTES job.now.bytes.now) }
    ensures all { OnOk result (Prints W.contents out.old out.new
        (lines_to (piece_line_at job.now.bytes.now) (piece_count job.now.bytes.now))) }
{
    for position in 0..job.pieces {
        out.make_room()?;
        job.place_piece(position, table, &mut out.lines);
    }
    Ok(())
}

#[tactic(auto, using(crate::proofs::Gathered::query_laws))]
fn answer_queries<W: Write>(job: &Job, table: &[u32], out: &mut Output<W>) -> io::Result<()>
    requires { (table.now ≡ full_table job.now.bytes.now)
        × (out.old.lines ≡ held_pieces BUFFER_BYTES job.now.bytes.now) }
    ensures held { OnOk result (out.new.lines ≡ held_queries BUFFER_BYTES job.now.bytes.now) }
    ensures all { OnOk result (Prints W.contents out.old out.new
        (lines_to (query_line_at job.now.bytes.now) (query_count job.now.bytes.now))) }
{
    let mut answer = [0u16; NUMBERS];
    for query in job.queries() {
        out.make_room()?;
        query.answer(table, &mut answer, &mut out.lines);
    }
    Ok(())
}

// Gathers the lines of a job, one behind the other, or that of a bad one. What is gathered at the end is still to be written.
fn answer_job<W: Write>(read: Option<Job>, out: &mut Output<W>) -> io::Result<()>
    requires { out.old.lines ≡ [] }
    ensures gathered { OnOk result ((out.new.lines ≡ held_at_end BUFFER_BYTES read.entry) × Gathered (output_of read.entry) out.new.lines) }
    ensures all { OnOk result (Prints W.contents out.old out.new (output_of read.entry)) }
{
    let Some(job) = read else {
        out.lines.bad_job();
        return Ok(());
    };
    let mut table = [0u32; TABLE_WORDS];
    job::start(&mut table);
    place_pieces(&job, &mut table, out)?;
    answer_queries(&job, &table, out)
}

fn print_job<W: Write>(job: Option<Job>, to: &mut W) -> io::Result<()>
    ensures { OnOk result (Appends (W.contents to.old) (W.contents to.new) (output_of job.entry)) }
{
    let mut out = Output {
        to,
        lines: Lines::new(),
    };
    answer_job(job, &mut out)?;
    out.flush()
}

// Reads a job to its end, and writes what it prints. After a failed read that is what a bad job prints.
pub fn run<R: Source, W: Write>(from: &mut R, to: &mut W) -> io::Result<()>
    ensures { OnOk result (Printed (R.remaining from.old) (R.failed from.new) (W.contents to.old) (W.contents to.new)) }
{
    let mut bytes = [0u8; READ_BYTES];
    let job = match read_all(from, &mut bytes) {
        Ok(n) => Job::read(&bytes[..n]),
        Err(_) => None,
    };
    print_job(job, to)
}
