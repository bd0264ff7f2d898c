// A table written as text, compiled to table bytes: `tablec < table.txt > rules.bin`; with `-r` the way back.
// A line is `tray NAME leave|waiting` or `rule NAME = A + B [same property|unit]`; a comment goes from `#` to its end.
// Standard output gets nothing unless the whole text is right; what is wrong goes to standard error as one line.
#![tactic(auto)]

ghost use Rattle.std.specs.Prelude.{◌<◌, take, IfSome};
ghost use Rattle.texts.specs.Counts.{IsPrefixLen};
ghost use Rattle.tablec.specs.Encoded.{Encoded};

use std::io;
use std::io::Read;
use std::rt::Env;
use table::Equality;
use texts::{complain, complain_number, has_arg, past, read_full, table_refused, word_at};

const NO_CHORD: codec::Chord = codec::Chord {
    channels: [0; 8],
    len: 0,
    equal: Equality::Any,
};

// A name of 1 to 24 bytes, with zeros past them.
#[derive(Clone, Copy, PartialEq)]
struct Name {
    bytes: [u8; 24],
}

// The names of trays or of rules, in the order of their lines.
#[derive(Clone, Copy)]
struct Names {
    list: [Name; 32],
    count: u8,
}

// What the lines so far declare.
#[derive(Clone, Copy)]
struct Text {
    trays: Names,
    rules: Names,
    table: codec::Table,
}

// A rule's trays as they are read, and where the text goes on.
#[derive(Clone, Copy)]
struct Reading {
    chord: codec::Chord,
    at: usize,
}

// The line that is being read, as far as it fits, its length and its number, and the text before it.
#[derive(Clone, Copy)]
struct Input {
    bytes: [u8; 1024],
    len: usize,
    number: u64,
    text: Text,
}

// The text is wrong, which was said on standard error.
#[derive(Clone, Copy)]
struct Complained;

// The one line on standard error, about a word that stands between two texts.
fn wrong_word(err: &impl Print, number: u64, ahead: &str, word: &[u8], behind: &str) -> Complained {
    complain_number(err, b"line ", number, b": ");
    complain(err, ahead.as_bytes());
    complain(err, word);
    complain(err, behind.as_bytes());
    complain(err, b"\n");
    Complained
}

fn wrong(err: &impl Print, number: u64, reason: &str) -> Complained {
    wrong_word(err, number, reason, b"", "")
}

// Puts an item behind the first `len`, if there is room.
fn push<T: Copy>(list: &mut [T], len: &mut u8, item: T) {
    if let Some(place) = list.get_mut(usize::from(*len)) {
        *place = item;
        *len = len.saturating_add(1);
    }
}

// The bytes of a line.

// Whether a byte may stand in a name.
fn is_letter(b: u8) -> bool {
    b.is_ascii_alphanumeric() || matches!(b, b'-' | b'_')
}

// A line without its comment, and without the carriage return before its line feed.
fn bare(line: &[u8]) -> &[u8] {
    match line.iter().position(|b| *b == b'#') {
        Some(n) => &line[..n],
        None => line.strip_suffix(b"\r").unwrap_or(line),
    }
}

// Names.

// A word as a name: 1 to 24 letters, digits, `-` and `_`.
fn name_of(word: &[u8]) -> Option<Name> {
    if word.is_empty() || !word.iter().all(|b| is_letter(*b)) {
        return None;
    }
    let mut bytes = [0; 24];
    bytes.get_mut(..word.len())?.copy_from_slice(word);
    Some(Name { bytes })
}

// The number of a name that is there.
fn number_of(names: &Names, name: Name) -> Option<usize>
    ensures { IfSome result (λ i. i < 32) }
{
    let count = usize::from(names.count);
    names
        .list
        .iter()
        .take(count)
        .position(|other| *other == name)
}

// A word as a name that can be declared.
fn new_name(
    err: &impl Print,
    names: &Names,
    number: u64,
    label: &str,
    word: &[u8],
) -> Result<Name, Complained> {
    let Some(name) = name_of(word) else {
        return Err(wrong(err, number, "a name is 1 to 24 letters, digits, - or _"));
    };
    if number_of(names, name).is_some() {
        return Err(wrong_word(err, number, label, word, " is declared already"));
    }
    Ok(name)
}

// A line has no further word.
fn expect_end(err: &impl Print, line: &[u8], at: usize, number: u64) -> Result<(), Complained> {
    let word = word_at(line, at);
    if word.is_empty() {
        return Ok(());
    }
    Err(wrong_word(err, number, "expected the end of the line, not ", word, ""))
}

// Tray lines.

// 0 for leave, 1 for waiting.
fn kind_of(word: &[u8]) -> Option<u8> {
    match word {
        b"leave" => Some(0),
        b"waiting" => Some(1),
        _ => None,
    }
}

// `NAME leave` or `NAME waiting` from a place on.
fn tray_line(
    err: &impl Print,
    t: &mut Text,
    number: u64,
    line: &[u8],
    at: usize,
) -> Result<(), Complained> {
    let name = new_name(err, &t.trays, number, "tray ", word_at(line, at))?;
    if 16 <= t.trays.count {
        return Err(wrong(err, number, "more than 16 trays"));
    }
    let second = past(line, at);
    let Some(kind) = kind_of(word_at(line, second)) else {
        return Err(wrong(err, number, "expected leave or waiting"));
    };
    expect_end(err, line, past(line, second), number)?;
    push(&mut t.trays.list, &mut t.trays.count, name);
    push(&mut t.table.kinds, &mut t.table.kinds_len, kind);
    Ok(())
}

// Rule lines.

// The name of one tray, at the place where the text goes on.
fn member(
    err: &impl Print,
    r: Reading,
    trays: &Names,
    number: u64,
    line: &[u8],
    missing: &str,
) -> Result<Reading, Complained> {
    let word = word_at(line, r.at);
    if word.is_empty() {
        return Err(wrong(err, number, missing));
    }
    let Some(channel) = name_of(word).and_then(|name| number_of(trays, name)) else {
        return Err(wrong_word(err, number, "no tray is called ", word, ""));
    };
    let mut chord = r.chord;
    push(&mut chord.channels, &mut chord.len, channel as u8);
    Ok(Reading {
        chord,
        at: past(line, r.at),
    })
}

// The trays of a rule, at most eight.
fn members(
    err: &impl Print,
    trays: &Names,
    number: u64,
    line: &[u8],
    at: usize,
) -> Result<Reading, Complained> {
    let start = Reading {
        chord: NO_CHORD,
        at,
    };
    let mut r = member(err, start, trays, number, line, "a rule has 1 to 8 trays")?;
    for _ in 1..8 {
        if !matches!(word_at(line, r.at), b"+") {
            break;
        }
        let next = Reading {
            at: past(line, r.at),
            ..r
        };
        r = member(err, next, trays, number, line, "expected a tray after +")?;
    }
    Ok(r)
}

// What follows the trays: nothing, `same property`, or `same unit`, a unit with its property.
fn rule_end(err: &impl Print, number: u64, line: &[u8], at: usize) -> Result<Equality, Complained> {
    let second = past(line, at);
    let equal = match (word_at(line, at), word_at(line, second)) {
        (b"", _) => return Ok(Equality::Any),
        (b"+", _) => return Err(wrong(err, number, "a rule has 1 to 8 trays")),
        (b"same", b"property") => Equality::Property,
        (b"same", b"unit") => Equality::Unit,
        _ => return Err(wrong(err, number, "expected +, same property or same unit")),
    };
    expect_end(err, line, past(line, second), number)?;
    Ok(equal)
}

// `NAME = A + B` from a place on.
fn rule_line(
    err: &impl Print,
    t: &mut Text,
    number: u64,
    line: &[u8],
    at: usize,
) -> Result<(), Complained> {
    let name = new_name(err, &t.rules, number, "rule ", word_at(line, at))?;
    if 32 <= t.rules.count {
        return Err(wrong(err, number, "more than 32 rules"));
    }
    let second = past(line, at);
    if !matches!(word_at(line, second), b"=") {
        return Err(wrong(err, number, "expected ="));
    }
    let Reading { chord, at } = members(err, &t.trays, number, line, past(line, second))?;
    let equal = rule_end(err, number, line, at)?;
    push(&mut t.rules.list, &mut t.rules.count, name);
    push(
        &mut t.table.chords,
        &mut t.table.chords_len,
        codec::Chord { equal, ..chord },
    );
    Ok(())
}

// Lines.

// The text gets one line more, whose comment is cut.
fn add_line(err: &impl Print, t: &mut Text, number: u64, line: &[u8]) -> Result<(), Complained> {
    let word = word_at(line, 0);
    let at = past(line, 0);
    match word {
        b"" => Ok(()),
        b"tray" => tray_line(err, t, number, line, at),
        b"rule" => rule_line(err, t, number, line, at),
        _ => Err(wrong_word(err, number, "expected tray or rule, not ", word, "")),
    }
}

fn no_text() -> Text {
    let names = Names {
        list: [Name { bytes: [0; 24] }; 32],
        count: 0,
    };
    Text {
        trays: names,
        rules: names,
        table: codec::Table {
            kinds: [0; 16],
            kinds_len: 0,
            chords: [NO_CHORD; 32],
            chords_len: 0,
        },
    }
}

fn no_input() -> Input {
    Input {
        bytes: [0; 1024],
        len: 0,
        number: 1,
        text: no_text(),
    }
}

// The line in hand is whole: it is read, and the next one begins.
fn line_done(err: &impl Print, input: &mut Input) -> Result<(), Complained> {
    let Some(line) = input.bytes.get(..input.len) else {
        return Err(wrong(err, input.number, "longer than 1024 bytes"));
    };
    add_line(err, &mut input.text, input.number, bare(line))?;
    input.len = 0;
    input.number = input.number.saturating_add(1);
    Ok(())
}

fn take_byte(err: &impl Print, input: &mut Input, b: u8) -> Result<(), Complained> {
    if b == b'\n' {
        return line_done(err, input);
    }
    let at = input.len;
    if let Some(place) = input.bytes.get_mut(at) {
        *place = b;
    }
    input.len = at.saturating_add(1);
    Ok(())
}

fn take_all(err: &impl Print, input: &mut Input, s: &[u8]) -> Result<(), Complained> {
    for b in s {
        take_byte(err, input, *b)?;
    }
    Ok(())
}

// The input ends: bytes after the last line feed are a line too.
fn ended(err: &impl Print, input: &mut Input) -> Result<(), Complained> {
    if 0 < input.len {
        line_done(err, input)?;
    }
    Ok(())
}

// The whole text; a read that fails is said.
fn read_text(err: &impl Print, reader: &mut impl Read) -> Result<Text, Complained> {
    let mut input = no_input();
    let mut buf = [0u8; 4096];
    for _ in 0..u64::MAX {
        let Ok(n) = reader.read(&mut buf) else {
            break;
        };
        if n == 0 {
            ended(err, &mut input)?;
            return Ok(input.text);
        }
        take_all(err, &mut input, &buf[..n])?;
    }
    let _ = println!(err; "cannot read the text");
    Err(Complained)
}

// Table bytes.

// The table's bytes at the start of a buffer, and how many they are; none where the writer refuses the table.
// The writer stores only bytes that the reader accepts, so what is written to standard output always passes it.
fn encode(table: codec::Table, out: &mut [u8; 412]) -> Option<usize>
    ensures { IfSome result (λ n. IsPrefixLen n out.new × Encoded table (take n out.new)) }
{
    match writer::write_table(table, out) {
        0 => Some(texts::table_len(out)),
        _ => None,
    }
}

// From text to bytes.
fn compile(rt: &(impl io::Input + Print), err: &impl Print) {
    let Ok(text) = read_text(err, &mut rt.reader()) else {
        return;
    };
    if text.table.kinds_len == 0 {
        let _ = println!(err; "the table has no tray");
        return;
    }
    let mut out = [0u8; 412];
    let Some(n) = encode(text.table, &mut out) else {
        let _ = println!(err; "the table cannot be written");
        return;
    };
    if rt.write_all(&out[..n]).is_err() {
        let _ = println!(err; "cannot write the table");
    }
}

// From bytes to text.

// Text to standard output, to which `out` prints; whether it could be written, here and in what follows. Each piece is
// tried here too.
fn say(out: &impl Print, text: &[u8]) -> bool {
    out.write_all(text).is_ok()
}

fn say_number(out: &impl Print, n: usize) -> bool {
    out.print(n).is_ok()
}

fn say_trays(out: &impl Print, table: &codec::Table) -> bool {
    let n = usize::from(table.kinds_len);
    let mut said = true;
    for (i, kind) in table.kinds.iter().take(n).enumerate() {
        let word: &[u8] = if *kind == 0 {
            b" leave\n"
        } else {
            b" waiting\n"
        };
        said &= say(out, b"tray t") & say_number(out, i) & say(out, word);
    }
    said
}

fn say_chord(out: &impl Print, chord: &codec::Chord) -> bool {
    let n = usize::from(chord.len);
    let mut said = true;
    for (k, channel) in chord.channels.iter().take(n).enumerate() {
        let ahead: &[u8] = if k == 0 { b" t" } else { b" + t" };
        said &= say(out, ahead) & say_number(out, usize::from(*channel));
    }
    let end: &[u8] = match chord.equal {
        Equality::Any => b"\n",
        Equality::Property => b" same property\n",
        Equality::Unit => b" same unit\n",
    };
    said & say(out, end)
}

fn say_rules(out: &impl Print, table: &codec::Table) -> bool {
    let n = usize::from(table.chords_len);
    let mut said = true;
    for (i, chord) in table.chords.iter().take(n).enumerate() {
        said &= say(out, b"rule r") & say_number(out, i) & say(out, b" =") & say_chord(out, chord);
    }
    said
}

fn say_table(out: &impl Print, table: &codec::Table) -> bool {
    say_trays(out, table) & say_rules(out, table)
}

// One byte more than the longest table is read, so that longer input is refused.
fn decompile(rt: &(impl io::Input + Print), err: &impl Print) {
    let mut bytes = [0u8; 413];
    let (n, _) = read_full(&mut rt.reader(), &mut bytes);
    let read = codec::read_table(&bytes[..n]);
    if read.number != 0 {
        table_refused(err, read.number, b"");
        return;
    }
    if !say_table(rt, &read.table) {
        let _ = println!(err; "cannot write the text");
    }
}

fn is_back(env: &impl Env) -> bool {
    let mut word = [0u8; 3];
    match env.arg(1, &mut word) {
        Ok(n) => matches!(&word[..n], b"-r"),
        Err(_) => false,
    }
}

fn main(rt: HostRuntime) {
    let err = rt.stderr();
    if !has_arg(&rt, 1) {
        compile(&rt, &err);
    } else if !has_arg(&rt, 2) && is_back(&rt) {
        decompile(&rt, &err);
    } else {
        let _ = println!(err;
            "usage: tablec < table.txt > rules.bin, or tablec -r < rules.bin > table.txt"
        );
    }
}
