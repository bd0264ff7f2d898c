// The table as a value: read from bytes, and written to a lent buffer.
// Bytes are read by the crate `table`, which refuses them first.
#![tactic(auto)]

ghost use Rattle.std.specs.Prelude.{◌≡◌, map, ◌<◌, ◌≤◌, length, replicate};
ghost use Rattle.std.proofs.lemmas.List.Edits.{sets};
ghost use Rattle.model.specs.Tables.{chord_at};
ghost use Rattle.model.specs.Layout.{table_refusal, table_of};
ghost use Rattle.codec.specs.Views.{table_in, empty_chord, chord_for, table_for, table_read};

#[derive(Clone, Copy)]
pub struct Chord {
    pub channels: [u8; 8],
    pub len: u8,
    pub equal: table::Equality,
}

// The lengths are fields of their own: the writer also answers for a value whose lengths are out of range, as 33 chords
// or a chord of 9 channels.
#[derive(Clone, Copy)]
pub struct Table {
    pub kinds: [u8; 16],
    pub kinds_len: u8,
    pub chords: [Chord; 32],
    pub chords_len: u8,
}

#[derive(Clone, Copy)]
pub struct Read {
    pub number: u8,
    pub table: Table,
}

// A chord with no channels, as the places past a table's chords hold it.
pub const EMPTY_CHORD: Chord = Chord {
    channels: [0; 8],
    len: 0,
    equal: table::Equality::Any,
};

// A table with no channels, which a refused read gives.
pub const EMPTY_TABLE: Table = Table {
    kinds: [0; 16],
    kinds_len: 0,
    chords: [EMPTY_CHORD; 32],
    chords_len: 0,
};

// Bytes from the start of an array, with zeros past them.
fn padded<const N: usize>(bytes: &[u8]) -> [u8; N]
    requires { length bytes.now ≤ N }
    ensures { result ≡ sets (replicate N 0) 0 bytes.now }
{
    let mut all = [0; N];
    all[..bytes.len()].copy_from_slice(bytes);
    all
}

// The kinds of a table's channels, the part of the bytes that holds them.
#[tactic(auto, using(crate::proofs::Parts::kinds_from))]
pub fn kinds(table: &[u8]) -> &[u8]
    requires { table_refusal table.now ≡ 0 }
    ensures { result.now ≡ (table_of table.now).kinds }
{
    let end = 12 + usize::from(table::channels_len(table));
    &table[12..end]
}

// A chord of the table as a value.
fn chord_read(table: &[u8], chord: u8) -> Chord
    requires { (table_refusal table.now ≡ 0) × (chord < length (table_of table.now).chords) }
    ensures { result ≡ chord_for (chord_at (table_of table.now) chord) }
{
    Chord {
        channels: padded(table::members(table, chord)),
        len: table::chord_len(table, chord),
        equal: table::chord_equal(table, chord),
    }
}

// The chords of the table, from the start of an array.
fn chords_read(table: &[u8]) -> [Chord; 32]
    requires { table_refusal table.now ≡ 0 }
    ensures { result ≡ sets (replicate 32 empty_chord) 0 (map chord_for (table_of table.now).chords) }
{
    let mut chords = [EMPTY_CHORD; 32];
    for i in 0..table::chords_len(table) {
        chords[usize::from(i)] = chord_read(table, i);
    }
    chords
}

// The table that accepted bytes hold.
fn table_read(table: &[u8]) -> Table
    requires { table_refusal table.now ≡ 0 }
    ensures { result ≡ table_for (table_of table.now) }
{
    Table {
        kinds: padded(kinds(table)),
        kinds_len: table::channels_len(table),
        chords: chords_read(table),
        chords_len: table::chords_len(table),
    }
}

// The table that the bytes hold, and 0; or the number that refuses them, with an empty table.
pub fn read_table(bytes: &[u8]) -> Read
    ensures value { result ≡ table_read bytes.now }
    ensures table_value { table_refusal bytes.now ≡ 0 → table_in result.table ≡ table_of bytes.now }
{
    let number = table::table_refusal(bytes);
    if number != 0 {
        return Read {
            number,
            table: EMPTY_TABLE,
        };
    }
    Read {
        number,
        table: table_read(bytes),
    }
}
