// The table's value written to a lent buffer: every test first, then field by field.
// A refusal leaves the buffer as it was.
#![tactic(auto)]

ghost use Rattle.std.specs.Prelude.{◌≡◌, ◌&&◌, map, ◌+◌, ◌*◌, ◌≤◌, leb, length};
ghost use Rattle.std.proofs.lemmas.List.Edits.{sets};
ghost use Rattle.model.specs.Basics.{every};
ghost use Rattle.model.specs.Layout.{table_refusal, two, write_refusal, written};
ghost use Rattle.model.specs.Layout.{equality_byte, table_bytes, written_header, written_chords, written_members};
ghost use Rattle.table.specs.Equalities.{equality_in};
ghost use Rattle.codec.specs.Views.{chord_in, table_in};
ghost use Rattle.writer.specs.Writes.{table_with, members_len, len_ok, channels_below, stored, entry_bytes};
ghost use Rattle.writer.specs.Writes.{Counted, MembersFit, Writable};

// Whether the counts of channels and chords are in range.
fn counts_ok(table: &codec::Table) -> bool
    ensures { result ≡ (leb 1 table.now.kinds_len && (leb table.now.kinds_len 16 && leb table.now.chords_len 32)) }
{
    (1..=16).contains(&table.kinds_len) && table.chords_len <= 32
}

// The number of members of all chords.
fn members_len(chords: &[codec::Chord]) -> u16
    requires { length chords.now ≤ 32 }
    ensures { result ≡ members_len chords.now }
{
    chords.iter().map(|c| u16::from(c.len)).sum()
}

// Whether each chord has 1 to 8 channels.
fn chords_sized(chords: &[codec::Chord]) -> bool
    ensures { result ≡ every len_ok chords.now }
{
    chords.iter().all(|c| (1..=8).contains(&c.len))
}

// Whether a chord's channels are below a number.
fn channels_below(chord: &codec::Chord, n: u8) -> bool
    ensures { result ≡ channels_below n chord.now }
{
    chord
        .channels
        .iter()
        .take(usize::from(chord.len))
        .all(|x| *x < n)
}

// Whether each chord's channels are below a number.
fn members_in(chords: &[codec::Chord], n: u8) -> bool
    ensures { result ≡ every (channels_below n) chords.now }
{
    chords.iter().all(|c| channels_below(c, n))
}

// Whether each kind is known.
fn kinds_known(kinds: &[u8]) -> bool
    ensures { result ≡ every (λ k. leb k 1) kinds.now }
{
    kinds.iter().all(|k| *k <= 1)
}

// The reader's number for the bytes of a table with these kinds and chords, whose counts are in range.
#[tactic(auto, using(crate::proofs::Refusals::refusal_tested))]
fn lists_refusal(kinds: &[u8], chords: &[codec::Chord]) -> u8
    requires { Counted kinds.now chords.now }
    ensures { result ≡ table_refusal (table_bytes (table_with kinds.now chords.now)) }
{
    if 256 < members_len(chords) {
        return 2;
    }
    if !kinds_known(kinds) {
        return 4;
    }
    if !chords_sized(chords) {
        return 5;
    }
    if !members_in(chords, kinds.len() as u8) {
        return 7;
    }
    0
}

// Bytes from a place on.
fn put_bytes(out: &mut [u8], at: usize, src: &[u8])
    requires { at + length src.now ≤ length out.old }
    ensures { out.new ≡ sets out.old at src.now }
{
    let end = at + src.len();
    out[at..end].copy_from_slice(src);
}

// A number at a place, low byte first.
fn put_two(out: &mut [u8], at: usize, v: u16)
    requires { at + 2 ≤ length out.old }
    ensures { out.new ≡ sets out.old at (two v) }
{
    put_bytes(out, at, &v.to_le_bytes());
}

// The header of a table with these counts.
fn put_header(out: &mut [u8], t: u16, r: u16, m: u16)
    requires { (t ≤ 16) × (r ≤ 32) × (12 ≤ length out.old) }
    ensures { out.new ≡ sets out.old 0 (written_header t r m) }
{
    put_two(out, 0, t);
    put_two(out, 2, r);
    put_two(out, 4, m);
    put_two(out, 6, 12);
    put_two(out, 8, 12 + t);
    put_two(out, 10, 12 + (t + 4 * r));
}

// The byte of what a chord wants to be equal.
fn byte_of(equal: table::Equality) -> u8
    ensures { result ≡ equality_byte (equality_in equal) }
{
    match equal {
        table::Equality::Any => 0,
        table::Equality::Property => 1,
        table::Equality::Unit => 2,
    }
}

// A chord's entry: its first member, the number of its channels, and what it wants to be equal.
fn put_entry(out: &mut [u8], at: usize, next: u16, chord: &codec::Chord)
    requires { at + 4 ≤ length out.old }
    ensures { out.new ≡ sets out.old at (entry_bytes next chord.now.len (equality_in chord.now.equal)) }
{
    let [low, high] = next.to_le_bytes();
    put_bytes(out, at, &[low, high, chord.len, byte_of(chord.equal)]);
}

// The chords' entries from a place on.
fn put_entries(chords: &[codec::Chord], out: &mut [u8], at: usize)
    requires { (length chords.now ≤ 32) × (at + 4 * length chords.now ≤ length out.old) }
    ensures { out.new ≡ sets out.old at (written_chords 0 (map chord_in chords.now)) }
{
    let mut next = 0;
    for (i, c) in chords.iter().enumerate() {
        put_entry(out, at + 4 * i, next, c);
        next += u16::from(c.len);
    }
}

// The channels that a chord has.
fn channels_of(chord: &codec::Chord) -> &[u8]
    requires { chord.now.len ≤ 8 }
    ensures value { result.now ≡ (chord_in chord.now).channels }
    ensures len { length result.now ≡ chord.now.len }
{
    &chord.channels[..usize::from(chord.len)]
}

// The members of all chords from a place on.
fn put_members(chords: &[codec::Chord], out: &mut [u8], at: usize)
    requires { MembersFit chords.now at out.old }
    ensures { out.new ≡ sets out.old at (written_members (map chord_in chords.now)) }
{
    let mut next = at;
    for c in chords {
        let channels = channels_of(c);
        put_bytes(out, next, channels);
        next += channels.len();
    }
}

// The four sections of a table, each after the one before.
fn put_table(kinds: &[u8], chords: &[codec::Chord], out: &mut [u8])
    requires { Writable kinds.now chords.now out.old }
    ensures { out.new ≡ stored (table_bytes (table_with kinds.now chords.now)) out.old }
{
    let t = kinds.len();
    let r = chords.len();
    let entries = 12 + t;
    let members = entries + 4 * r;
    put_header(out, t as u16, r as u16, members_len(chords));
    put_bytes(out, 12, kinds);
    put_entries(chords, out, entries);
    put_members(chords, out, members);
}

// A table with these kinds and chords, whose counts are in range, written as `write_table` does.
fn write_lists(kinds: &[u8], chords: &[codec::Chord], out: &mut [u8]) -> u8
    requires { Counted kinds.now chords.now }
    ensures value { result ≡ write_refusal (table_with kinds.now chords.now) out.old }
    ensures out_after { out.new ≡ written (table_with kinds.now chords.now) out.old }
{
    let number = lists_refusal(kinds, chords);
    if number != 0 {
        return number;
    }
    if out.len() < 12 + kinds.len() + 4 * chords.len() + usize::from(members_len(chords)) {
        return 31;
    }
    put_table(kinds, chords, out);
    0
}

// The bytes of the table from the start of a buffer, and 0; the bytes past them are kept.
// Or a number, with the buffer as it was: the reader's for these bytes, then 31 where the buffer is shorter.
pub fn write_table(table: codec::Table, out: &mut [u8]) -> u8
    ensures value { result ≡ write_refusal (table_in table) out.old }
    ensures out_after { out.new ≡ written (table_in table) out.old }
{
    if !counts_ok(&table) {
        return 2;
    }
    let kinds = &table.kinds[..usize::from(table.kinds_len)];
    let chords = &table.chords[..usize::from(table.chords_len)];
    write_lists(kinds, chords, out)
}
