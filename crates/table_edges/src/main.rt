// Table bytes cut short, and with one byte damaged: how many of a byte's 255 other values give each number.
// Tables go through the reader and the writer first: table P, and one of 16 channels and 32 chords of 8.
#![tactic(auto)]

ghost use Rattle.std.specs.Prelude.{◌<◌, ◌≤◌};

use std::array;
use std::fmt::Display;
use std::io::Stdout;
use table::Equality;

const P: [u8; 20] = [
    2, 0, 1, 0, 2, 0, 12, 0, 14, 0, 18, 0, 0, 1, 0, 0, 2, 1, 0, 1,
];

#[derive(Clone, Copy, PartialEq)]
struct Tally {
    counts: [u16; 8],
}

// What cannot be written is missing from the printout, which goes on: so each piece is written by itself.
fn say<D: Display + Drop>(stdout: Stdout, piece: D) {
    let _ = stdout.print(piece);
}

// One more of a number.
fn count(t: &mut Tally, number: u8) {
    if let Some(c) = t.counts.get_mut(usize::from(number)) {
        *c = c.saturating_add(1);
    }
}

// The number of the first bytes, of all where there are fewer.
fn number_of(bytes: &[u8], len: usize) -> u8 {
    table::table_refusal(bytes.get(..len).unwrap_or(bytes))
}

// The same with one byte another.
fn damaged(mut bytes: [u8; 412], len: usize, at: usize, b: u8) -> u8
    requires { at < 412 }
{
    bytes[at] = b;
    number_of(&bytes, len)
}

// The numbers of every other value of a byte.
fn tally_of(bytes: [u8; 412], len: usize, at: usize) -> Tally
    requires { at < 412 }
{
    let mut t = Tally { counts: [0; 8] };
    for b in 0..=u8::MAX {
        if b != bytes[at] {
            count(&mut t, damaged(bytes, len, at, b));
        }
    }
    t
}

// A line for bytes that fare alike: each number, and how many values give it.
fn say_tally(stdout: Stdout, from: usize, to: usize, t: Tally) {
    say(stdout, "bytes ");
    say(stdout, from);
    say(stdout, " to ");
    say(stdout, to);
    say(stdout, ":");
    for (number, c) in t.counts.iter().enumerate() {
        if *c != 0 {
            say(stdout, "  ");
            say(stdout, number);
            say(stdout, " by ");
            say(stdout, *c);
        }
    }
    say(stdout, "\n");
}

// A line for each run of bytes that fare alike.
fn say_damage(stdout: Stdout, bytes: [u8; 412], len: usize)
    requires { (1 ≤ len) × (len ≤ 412) }
{
    let mut from = 0;
    let mut last = tally_of(bytes, len, 0);
    for at in 1..len {
        let t = tally_of(bytes, len, at);
        if last != t {
            say_tally(stdout, from, at - 1, last);
            from = at;
            last = t;
        }
    }
    say_tally(stdout, from, len - 1, last);
}

// The number of each beginning of the bytes.
fn say_cuts(stdout: Stdout, bytes: [u8; 412], len: usize)
    requires { len ≤ 412 }
{
    for n in 0..=len {
        let number = number_of(&bytes, n);
        say(stdout, " ");
        say(stdout, number);
    }
    say(stdout, "\n");
}

// The three equalities in turn.
fn equal_of(i: u8) -> Equality {
    match i % 3 {
        0 => Equality::Any,
        1 => Equality::Property,
        _ => Equality::Unit,
    }
}

fn full_chord(i: u8) -> codec::Chord
    requires { i < 32 }
{
    codec::Chord {
        channels: array::from_fn(|k| (i + k as u8) % 16),
        len: 8,
        equal: equal_of(i),
    }
}

fn full_table() -> codec::Table {
    codec::Table {
        kinds: array::from_fn(|i| (i % 2) as u8),
        kinds_len: 16,
        chords: array::from_fn(|i| full_chord(i as u8)),
        chords_len: 32,
    }
}

fn say_written(stdout: Stdout, number: u8) {
    say(stdout, "written, number ");
    say(stdout, number);
    say(stdout, "\n");
}

// A value with its first chord of another length, with another second channel, or with another equality.
fn with_len(mut t: codec::Table, len: u8) -> codec::Table {
    t.chords[0].len = len;
    t
}

fn with_channel(mut t: codec::Table, channel: u8) -> codec::Table {
    t.chords[0].channels[1] = channel;
    t
}

fn with_equal(mut t: codec::Table, equal: Equality) -> codec::Table {
    t.chords[0].equal = equal;
    t
}

fn with_kind(mut t: codec::Table, kind: u8) -> codec::Table {
    t.kinds[1] = kind;
    t
}

fn with_lens(t: codec::Table, kinds_len: u8, chords_len: u8) -> codec::Table {
    codec::Table {
        kinds_len,
        chords_len,
        ..t
    }
}

// The number of a value written to a buffer of some bytes, and whether the bytes stayed as they were.
fn say_value(stdout: Stdout, label: &str, t: codec::Table, room: usize)
    requires { room ≤ 20 }
{
    let mut out = [255u8; 20];
    let number = writer::write_table(t, &mut out[..room]);
    say(stdout, label);
    say(stdout, ": ");
    say(stdout, number);
    if out[0] == 255 {
        say(stdout, ", nothing written");
    }
    say(stdout, "\n");
}

// Table P's value with an equality: the number of its writing, its chord's last byte, and that byte once it is read and
// written again.
fn say_equal(stdout: Stdout, label: &str, t: codec::Table, equal: Equality) {
    let mut out = [255u8; 20];
    let number = writer::write_table(with_equal(t, equal), &mut out);
    let mut back = [255u8; 20];
    writer::write_table(codec::read_table(&out).table, &mut back);
    say(stdout, label);
    say(stdout, ": ");
    say(stdout, number);
    say(stdout, ", last byte ");
    say(stdout, out[17]);
    say(stdout, ", back ");
    say(stdout, back[17]);
    say(stdout, "\n");
}

fn say_equals(stdout: Stdout, t: codec::Table) {
    say_equal(stdout, "any", t, Equality::Any);
    say_equal(stdout, "equal properties", t, Equality::Property);
    say_equal(stdout, "equal properties and units", t, Equality::Unit);
}

// Table P's value with one field out of range.
fn say_values(stdout: Stdout, t: codec::Table) {
    say_value(stdout, "0 channels", with_lens(t, 0, 1), 20);
    say_value(stdout, "17 channels", with_lens(t, 17, 1), 20);
    say_value(stdout, "200 channels", with_lens(t, 200, 1), 20);
    say_value(stdout, "33 chords", with_lens(t, 2, 33), 20);
    say_value(stdout, "a chord of 0", with_len(t, 0), 20);
    say_value(stdout, "a chord of 9", with_len(t, 9), 20);
    say_value(stdout, "kind 7", with_kind(t, 7), 20);
    say_value(stdout, "channel 2", with_channel(t, 2), 20);
    say_value(stdout, "a buffer of 19", t, 19);
    say_value(stdout, "a buffer of 20", t, 20);
}

fn main(rt: HostRuntime) {
    let stdout = rt.stdout();
    let table = codec::read_table(&P).table;
    let mut p = [255u8; 412];
    say(stdout, "table P, ");
    say_written(stdout, writer::write_table(table, &mut p));
    say(stdout, "cut to 0, 1, .. 20 bytes:");
    say_cuts(stdout, p, 20);
    say_damage(stdout, p, 20);
    say_values(stdout, table);
    say_equals(stdout, table);
    let mut full = [255u8; 412];
    say(stdout, "full table, ");
    say_written(stdout, writer::write_table(full_table(), &mut full));
    say_damage(stdout, full, 412);
}
