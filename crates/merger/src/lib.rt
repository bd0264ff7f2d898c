// Two tables merged into one by a map of the second's channels: every test first, then the merged value, then its
// bytes.
#![tactic(auto)]

ghost use Rattle.std.specs.Prelude.{◌≡◌, ◌||◌, ◌≤◌, ltb, length, replicate};
ghost use Rattle.std.specs.List.{zip};
ghost use Rattle.std.proofs.lemmas.List.Edits.{sets};
ghost use Rattle.model.specs.Basics.{every};
ghost use Rattle.model.specs.Tables.{chord_at};
ghost use Rattle.model.specs.Layout.{table_refusal, table_of};
ghost use Rattle.merging.specs.Merges.{is_new, targets, new_kinds, merged_chord, merged_table, joined_once, map_ok};
ghost use Rattle.merging.specs.Merges.{counts_fit, merged_of, merge_write_refusal, merge_written};
ghost use Rattle.codec.specs.Views.{chord_for, table_in};
ghost use Rattle.merger.specs.Asks.{joins, count_new, chords_for, BothAsked, KindsRoom, ChordAsked, ChordsRoom};
ghost use Rattle.merger.specs.Asks.{ValueAsked};

// The byte of a map that stands for a new channel.
const NEW: u8 = 255;

// The tests of the map: refusal 17.

// Whether each byte is 255 or below n.
fn names_ok(map: &[u8], n: usize) -> bool
    ensures { result ≡ every (λ m. is_new m || ltb m n) map.now }
{
    map.iter().all(|m| *m == NEW || usize::from(*m) < n)
}

// Whether no channel of the first is named twice; from the last byte to the first, with those seen marked, since a search
// of the rest for each byte takes longer.
fn none_twice(map: &[u8]) -> bool
    ensures { result ≡ joined_once map.now }
{
    let mut seen = [false; 256];
    for m in map.iter().rev() {
        if *m != NEW && seen[usize::from(*m)] {
            return false;
        }
        seen[usize::from(*m)] = true;
    }
    true
}

// Whether a channel of this kind may become m.
fn joins(kinds: &[u8], m: u8, kind: u8) -> bool
    ensures { result ≡ joins kinds.now m kind }
{
    m == NEW || kinds.get(usize::from(m)) == Some(&kind)
}

// Whether channels that are joined are of one kind.
fn kinds_agree(first: &[u8], map: &[u8], second: &[u8]) -> bool
    ensures { result ≡ every (λ p. joins first.now p.0 p.1) (zip map.now second.now) }
{
    map.iter()
        .zip(second)
        .all(|(m, kind)| joins(first, *m, *kind))
}

// Whether the map may join the two tables.
#[tactic(auto, using(crate::proofs::Walks::map_tested))]
fn map_ok(first: &[u8], second: &[u8], map: &[u8]) -> bool
    requires { (table_refusal first.now ≡ 0) × (table_refusal second.now ≡ 0) }
    ensures { result ≡ map_ok (table_of first.now) (table_of second.now) map.now }
{
    let a = codec::kinds(first);
    let b = codec::kinds(second);
    map.len() == b.len() && names_ok(map, a.len()) && none_twice(map) && kinds_agree(a, map, b)
}

// The test of the counts: refusal 18.

// How many channels of the second are new.
fn count_new(map: &[u8]) -> usize
    ensures { result ≡ count_new map.now }
{
    map.iter().filter(|m| **m == NEW).count()
}

// Whether the merged counts keep the table's limits.
// Chords within their limit have no more members than theirs, so two sums decide.
#[tactic(auto, using(crate::proofs::Walks::accepted_tables))]
fn fits(first: &[u8], second: &[u8], map: &[u8]) -> bool
    requires { BothAsked first.now second.now map.now }
    ensures { result ≡ counts_fit (merged_of first.now second.now map.now) }
{
    let t = codec::kinds(first).len() + count_new(map);
    let r = table::chords_len(first) + table::chords_len(second);
    t <= 16 && r <= 32
}

// The merged value.

// The kinds of the new channels, from a place on.
#[tactic(auto, using(crate::proofs::Walks::bytes_left))]
fn kinds_after(mut kinds: [u8; 16], at: u8, map: &[u8], second: &[u8]) -> [u8; 16]
    requires { KindsRoom map.now second.now at }
    ensures { result ≡ sets kinds at (new_kinds map.now second.now) }
{
    let mut n = usize::from(at);
    for (m, kind) in map.iter().zip(second) {
        if *m == NEW {
            kinds[n] = *kind;
            n += 1;
        }
    }
    kinds
}

// What each channel of the second becomes, after n channels of the first.
fn targets(map: &[u8], n: u8) -> [u8; 16]
    requires { (length map.now ≤ 16) × (n ≤ 16) }
    ensures { result ≡ sets (replicate 16 0) 0 (targets n map.now) }
{
    let mut out = [0; 16];
    let mut next = n;
    for (i, m) in map.iter().enumerate() {
        let new = *m == NEW;
        out[i] = if new { next } else { *m };
        next += u8::from(new);
    }
    out
}

// A chord of the second with its channels mapped.
fn chord_after(second: &[u8], chord: u8, targets: &[u8; 16]) -> codec::Chord
    requires { ChordAsked second.now chord }
    ensures { result ≡ chord_for (merged_chord targets.now (chord_at (table_of second.now) chord)) }
{
    let mut channels = [0; 8];
    for (k, x) in table::members(second, chord).iter().enumerate() {
        channels[k] = targets[usize::from(*x)];
    }
    codec::Chord {
        channels,
        len: table::chord_len(second, chord),
        equal: table::chord_equal(second, chord),
    }
}

// The chords of the second, from a place on.
fn chords_after(
    mut chords: [codec::Chord; 32],
    at: u8,
    second: &[u8],
    targets: &[u8; 16],
) -> [codec::Chord; 32]
    requires { ChordsRoom second.now at }
    ensures { result ≡ sets chords at (chords_for targets.now second.now) }
{
    for i in 0..table::chords_len(second) {
        chords[usize::from(at + i)] = chord_after(second, i, targets);
    }
    chords
}

// The merged table as a value.
fn merged(first: codec::Table, second: &[u8], map: &[u8]) -> codec::Table
    requires { ValueAsked first.kinds_len first.chords_len second.now map.now }
    ensures { table_in result ≡ merged_table (table_in first) (table_of second.now) map.now }
{
    let n = first.kinds_len;
    let at = first.chords_len;
    codec::Table {
        kinds: kinds_after(first.kinds, n, map, codec::kinds(second)),
        kinds_len: n + count_new(map) as u8,
        chords: chords_after(first.chords, at, second, &targets(map, n)),
        chords_len: at + table::chords_len(second),
    }
}

// The merged table's bytes from the start of a buffer, and 0; the bytes past them are kept.
// Or a number, with the buffer as it was: the reader's for the first table, then for the second; 17, 18, 31.
pub fn merge_tables(first: &[u8], second: &[u8], map: &[u8], out: &mut [u8]) -> u8
    ensures value { result
        ≡ merge_write_refusal first.now second.now map.now out.old }
    ensures out_after { out.new
        ≡ merge_written first.now second.now map.now out.old }
{
    let read = codec::read_table(first);
    if read.number != 0 {
        return read.number;
    }
    let other = table::table_refusal(second);
    if other != 0 {
        return other;
    }
    if !map_ok(first, second, map) {
        return 17;
    }
    if !fits(first, second, map) {
        return 18;
    }
    writer::write_table(merged(read.table, second, map), out)
}
