// Two tables merged into one: `tablemerge FIRST SECOND MAP > rules.bin`, where MAP is a text with a word for each tray
// of the second table: the number of the first's tray that it becomes, or `new`. A comment goes from `#` to its line's
// end. Standard output gets the merged table or nothing; what is wrong goes to standard error as one line.
#![tactic(auto)]

ghost use Rattle.std.specs.Prelude.{◌≡◌, ◌≢◌, take, IfSome, IfOk, IfErr};
ghost use Rattle.merging.specs.Merges.{merge_refusal};
ghost use Rattle.texts.specs.Counts.{IsPrefixLen};
ghost use Rattle.tablemerge.specs.Merged.{Merged};

use std::fs::File;
use std::rt::{Env, Files};
use std::str;
use texts::{complain, complain_number, has_arg, read_full};

// Files.

// The bytes of the file at a path; none where it cannot be opened, as where the path is no text, or read.
fn read_at(files: &impl Files, path: &[u8], buf: &mut [u8]) -> Option<usize>
    ensures { IfSome result (λ n. IsPrefixLen n buf.new) }
{
    let text = str::from_utf8(path).ok()?;
    let mut file = File::open(files, text).ok()?;
    let (n, read) = read_full(&mut file, buf);
    read.ok()?;
    Some(n)
}

fn cannot_read(err: &impl Print, path: &[u8]) {
    let _ = print!(err; "cannot read ");
    complain(err, path);
    let _ = println!(err);
}

// The bytes of the file at a path; where it cannot be read, that is said.
fn load(files: &impl Files, err: &impl Print, path: &[u8], buf: &mut [u8]) -> Option<usize>
    ensures { IfSome result (λ n. IsPrefixLen n buf.new) }
{
    let read = read_at(files, path, buf);
    if read.is_none() {
        cannot_read(err, path);
    }
    read
}

// The bytes of the file that an argument names.
fn load_arg<R: Env + Files>(rt: &R, err: &impl Print, i: usize, buf: &mut [u8]) -> Option<usize>
    ensures { IfSome result (λ n. IsPrefixLen n buf.new) }
{
    let mut path = [0u8; 4095];
    let Ok(n) = rt.arg(i, &mut path) else {
        complain_number(err, b"argument ", i as u64, b" is longer than 4095 bytes\n");
        return None;
    };
    load(rt, err, &path[..n], buf)
}

// The merge.

// How many bytes the merged table takes, at the start of a buffer; or the number that turns the merge away.
#[tactic(auto, using(crate::proofs::Outcomes::number_is))]
fn merge(first: &[u8], second: &[u8], map: &[u8], out: &mut [u8; 412]) -> Result<usize, u8>
    ensures accepted { IfOk result (λ _. merge_refusal first.now second.now map.now ≡ 0) }
    ensures merged { IfOk result
        (λ n. IsPrefixLen n out.new × Merged first.now second.now map.now (take n out.new)) }
    ensures turned_away { IfErr result
        (λ number. (number ≡ merge_refusal first.now second.now map.now) × (number ≢ 0)) }
{
    match merger::merge_tables(first, second, map, out) {
        0 => Ok(texts::table_len(out)),
        number => Err(number),
    }
}

// The program.

fn write_merged(
    out: &impl Print,
    err: &impl Print,
    first: &[u8],
    second: &[u8],
    map: &[u8],
    text: &[u8],
) {
    let mut bytes = [0u8; 412];
    match merge(first, second, map, &mut bytes) {
        Ok(n) => {
            if out.write_all(&bytes[..n]).is_err() {
                let _ = println!(err; "cannot write the table");
            }
        }
        Err(number) => maps::explain(err, first, second, map, text, number),
    }
}

// A text of 4,096 bytes has at most 2,048 words.
fn merge_by_text(out: &impl Print, err: &impl Print, first: &[u8], second: &[u8], text: &mut [u8]) {
    maps::bare_all(text);
    let mut map = [0u8; 2048];
    if let Some(n) = maps::read_map(err, text, &mut map) {
        write_merged(out, err, first, second, &map[..n], text);
    }
}

fn merge_by_file<R: Env + Files + Print>(rt: &R, err: &impl Print, first: &[u8], second: &[u8]) {
    let mut text = [0u8; 4097];
    let Some(n) = load_arg(rt, err, 3, &mut text) else {
        return;
    };
    if 4096 < n {
        let _ = println!(err; "the map is longer than 4096 bytes");
        return;
    }
    merge_by_text(rt, err, first, second, &mut text[..n]);
}

// One byte more than the longest table is read, so that a longer file is refused.
fn main(rt: HostRuntime) {
    let err = rt.stderr();
    if !has_arg(&rt, 3) || has_arg(&rt, 4) {
        let _ = println!(err; "usage: tablemerge FIRST SECOND MAP > rules.bin");
        return;
    }
    let mut first = [0u8; 413];
    let Some(n) = load_arg(&rt, &err, 1, &mut first) else {
        return;
    };
    let mut second = [0u8; 413];
    let Some(m) = load_arg(&rt, &err, 2, &mut second) else {
        return;
    };
    merge_by_file(&rt, &err, &first[..n], &second[..m]);
}
