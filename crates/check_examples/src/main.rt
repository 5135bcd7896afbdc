// Reads tables, sound and damaged, and prints what `check` answers for each: its name, the refusal and the piece count.
// Standard input has the number of tables, then for each table a line: its name, how many words the slice has, and how many runs
// of words change. For each run a line follows: its first index, its size and its words. A table starts as the one before it ended,
// the first from zeros.
// Nothing is refused: past the end of the text numbers are 0 and names empty, and words past the end of the slice change nothing.
#![tactic(auto)]

use soundness::Checked;
use std::io;
use std::io::{Cursor, Read};
use std::slice::Iter;

// Room for words after the table.
const ROOM: usize = 14_400;

// Bytes after these are not read.
const TEXT: usize = 65_536;

// The digits, modulo 2^32. The one byte after them, whatever it is, is passed over.
fn number(text: &mut Iter<'_, u8>) -> u32 {
    text.take_while(|byte| byte.is_ascii_digit()).fold(
        0,
        |value: u32, digit| value.wrapping_mul(10).wrapping_add((digit - b'0') as u32),
    )
}

// The bytes up to a space, which is passed over. Where no space follows, none of them.
fn name<'a>(text: &mut Iter<'a, u8>) -> &'a [u8] {
    let bytes = text.as_slice();
    text.position(|byte| *byte == b' ')
        .and_then(|end| bytes.get(..end))
        .unwrap_or_default()
}

// Takes over one run of words.
fn change_run(words: &mut [u32], text: &mut Iter<'_, u8>) {
    let first = number(text) as usize;
    let size = number(text) as usize;
    for i in first..first + size {
        let value = number(text);
        if let Some(word) = words.get_mut(i) {
            *word = value;
        }
    }
}

fn print_table(rt: &impl Print, words: &mut [u32], text: &mut Iter<'_, u8>) -> io::Result<()> {
    rt.write_all(name(text))?;
    let length = number(text) as usize;
    for _ in 0..number(text) {
        change_run(words, text);
    }
    if let Some(table) = words.get(..length) {
        let checked = Checked::from(soundness::check(table));
        print!(rt; " {} {}", checked.refusal, checked.pieces)?;
    }
    println!(rt)
}

fn main(rt: HostRuntime) -> io::Result<()> {
    let mut read = Cursor::new([0; TEXT]);
    let length = io::copy(&mut rt.reader().take(TEXT as u64), &mut read)?;
    let mut text = read.get_ref()[..TEXT.min(length as usize)].iter();
    let mut words = [0; ROOM];
    for _ in 0..number(&mut text) {
        print_table(&rt, &mut words, &mut text)?;
    }
    Ok(())
}
