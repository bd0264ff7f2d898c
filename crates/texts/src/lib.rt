// What the programs on tables share: the words of a line, bytes that are read into a buffer, how long a written table
// is, and the one line on standard error for a table that is refused.
#![tactic(auto)]

ghost use Rattle.std.specs.Prelude.{◌≡◌, List, ◌++◌, ℕ, ◌+◌, ◌*◌, ◌≤◌, length};
ghost use Rattle.model.specs.Tables.{Table};
ghost use Rattle.model.specs.Layout.{table_bytes};
ghost use Rattle.texts.specs.Counts.{IsPrefixLen};

use std::env::FillError;
use std::io;
use std::io::Read;
use std::rt::Env;

// Words of a line.

fn is_blank(b: u8) -> bool {
    matches!(b, b' ' | b'\t')
}

// Where the next word starts, or the line's end.
fn word_start(line: &[u8], at: usize) -> usize
    ensures { result ≤ length line.now }
{
    let from = at.min(line.len());
    match line[from..].iter().position(|b| !is_blank(*b)) {
        Some(n) => from + n,
        None => line.len(),
    }
}

// Where the word at a place ends.
fn word_end(line: &[u8], at: usize) -> usize
    requires { at ≤ length line.now }
    ensures { (at ≤ result) × (result ≤ length line.now) }
{
    match line[at..].iter().position(|b| is_blank(*b)) {
        Some(n) => at + n,
        None => line.len(),
    }
}

// The next word from a place on; no bytes at the line's end.
pub fn word_at(line: &[u8], at: usize) -> &[u8] {
    let from = word_start(line, at);
    let to = word_end(line, from);
    &line[from..to]
}

// The place behind that word.
pub fn past(line: &[u8], at: usize) -> usize {
    word_end(line, word_start(line, at))
}

// Bytes that are read.

// Reads until a buffer is full, the input ends or a read fails; how many bytes it put, and what failed.
// By hand: `read_to_end` takes memory of its own, and `read_exact` does not say how many bytes it put.
pub fn read_full<R: Read>(reader: &mut R, buf: &mut [u8]) -> (usize, io::Result<()>)
    ensures { IsPrefixLen result.0 buf.new }
{
    let mut n = 0;
    while n < buf.len() {
        match reader.read(&mut buf[n..]) {
            Ok(0) => break,
            Ok(more) => n += more,
            Err(error) => return (n, Err(error)),
        }
    }
    (n, Ok(()))
}

// Table bytes.

// Two bytes as a number, low byte first.
fn two(low: u8, high: u8) -> usize
    ensures { result ≡ low + 256 * high }
{
    usize::from(u16::from_le_bytes([low, high]))
}

// How many bytes the table at the start of a buffer takes: its members' offset and their number.
#[tactic(auto, using(crate::proofs::Sizes::size_is))]
pub fn table_len(buf: &[u8]) -> usize
    requires { 12 ≤ length buf.now }
    ensures { (t : Table) (rest : List ℕ) → buf.now ≡ table_bytes t ++ rest
        → result ≡ length (table_bytes t) }
{
    two(buf[10], buf[11]) + two(buf[4], buf[5])
}

// Standard error, to which `err` prints.

// Bytes that need not be text. A line's pieces are written by themselves: each is tried, whatever became of the others.
pub fn complain(err: &impl Print, text: &[u8]) {
    let _ = err.write_all(text);
}

// A number between two texts.
pub fn complain_number(err: &impl Print, ahead: &[u8], n: u64, behind: &[u8]) {
    complain(err, ahead);
    let _ = err.print(n);
    complain(err, behind);
}

pub fn complain_refused(err: &impl Print, number: u8) {
    complain_number(err, b"refused ", u64::from(number), b": ");
}

// When the reader gives a number.
fn when(number: u8) -> &'static [u8] {
    match number {
        1 => b"under 12 bytes",
        2 => b"T, R or M out of range",
        3 => b"offsets or length wrong",
        4 => b"byte over 1",
        5 => b"wrong first member, count not 1 to 8, or last byte over 2",
        6 => b"member counts do not sum to M",
        _ => b"tray number T or more",
    }
}

// The whole line for the reader's number, with a text that says of which table it is.
pub fn table_refused(err: &impl Print, number: u8, label: &[u8]) {
    complain_refused(err, number);
    complain(err, label);
    complain(err, when(number));
    complain(err, b"\n");
}

// The arguments.

// Whether the program was given an argument of this number; its own name is number 0.
pub fn has_arg(env: &impl Env, i: usize) -> bool {
    let mut first = [0u8; 1];
    !matches!(env.arg(i, &mut first), Err(FillError::NotPresent))
}
