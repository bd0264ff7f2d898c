// Table bytes read where they are lent: the refusals in their order, counts and chords by their places,
// and a chord's channels as a part of the bytes.
#![tactic(auto)]

ghost use Rattle.std.specs.Prelude.{◌≡◌, is_some, IfSome, ◌+◌, ◌*◌, ◌<◌, ◌≤◌, ltb, length, drop, get_or};
ghost use Rattle.model.specs.Basics.{every};
ghost use Rattle.model.specs.Tables.{size, chord_at};
ghost use Rattle.model.specs.Layout.{word, count_t, count_r, kind_bytes, chord_bytes, member_bytes};
ghost use Rattle.model.specs.Layout.{counts_ok, offsets_ok, kinds_ok, chord_ok, chords_ok, members_sum, members_ok};
ghost use Rattle.model.specs.Layout.{table_refusal, table_of, chord_entry, part_start, chord_refusal, chord_part};
ghost use Rattle.model.specs.Layout.{equality_of};
ghost use Rattle.table.specs.Equalities.{equality_in};
ghost use Rattle.table.specs.Headers.{Counts, Header, entries_sum};

// What a chord wants to be equal of all its messages: nothing, the property, or the property and the unit.
#[derive(Clone, Copy, PartialEq, Eq)]
pub enum Equality {
    Any,
    Property,
    Unit,
}

// A u16 of the header, by its place.
#[tactic(auto, using(crate::proofs::Walks::two_bytes), unfolding(model::specs::Layout::word))]
fn word_at(bytes: &[u8], i: usize) -> u16
    requires { (i < 6) × (12 ≤ length bytes.now) }
    ensures { result ≡ word i bytes.now }
{
    u16::from_le_bytes([bytes[2 * i], bytes[2 * i + 1]])
}

// Whether each byte is below n.
pub fn all_below(s: &[u8], n: u8) -> bool
    ensures { result ≡ every (λ x. ltb x n) s.now }
{
    s.iter().all(|x| *x < n)
}

// Whether the four bytes at a place are those of a chord whose first member is `next`.
#[tactic(auto, using(crate::proofs::Walks::two_bytes, crate::proofs::Walks::chord_from))]
fn chord_ok(s: &[u8], at: usize, next: u16) -> bool
    requires { at + 4 ≤ length s.now }
    ensures { result ≡ chord_ok next (drop at s.now) }
{
    let first = u16::from_le_bytes([s[at], s[at + 1]]);
    let count = s[at + 2];
    let equal = s[at + 3];
    first == next && 1 <= count && count <= 8 && equal <= 2
}

// The sum of the member counts of n chords; none where one of them is wrong, or stands after others than it says.
fn members_in(s: &[u8], n: usize) -> Option<u16>
    requires { (n ≤ 32) × (4 * n ≤ length s.now) }
    ensures ok { is_some result ≡ chords_ok n 0 s.now }
    ensures sum { IfSome result (λ m. m ≡ members_sum n s.now) }
{
    let mut next = 0;
    for i in 0..n {
        if !chord_ok(s, 4 * i, next) {
            return None;
        }
        next += u16::from(s[4 * i + 2]);
    }
    Some(next)
}

// Whether the counts T, R and M are in range.
#[tactic(auto, unfolding(model::specs::Layout::counts_ok))]
fn counts_ok(bytes: &[u8]) -> bool
    requires { 12 ≤ length bytes.now }
    ensures { result ≡ counts_ok bytes.now }
{
    let t = word_at(bytes, 0);
    let r = word_at(bytes, 1);
    let m = word_at(bytes, 2);
    1 <= t && t <= 16 && r <= 32 && m <= 256
}

// Whether the offsets and the length are those of the counts.
#[tactic(auto, unfolding(model::specs::Layout::offsets_ok))]
fn offsets_ok(bytes: &[u8]) -> bool
    requires { Counts bytes.now }
    ensures { result ≡ offsets_ok bytes.now }
{
    let chords = 12 + word_at(bytes, 0);
    let members = chords + 4 * word_at(bytes, 1);
    let end = members + word_at(bytes, 2);
    word_at(bytes, 3) == 12
        && word_at(bytes, 4) == chords
        && word_at(bytes, 5) == members
        && bytes.len() == usize::from(end)
}

// Whether each channel's kind is known.
#[tactic(auto, unfolding(model::specs::Layout::kinds_ok), using(crate::proofs::Headers::kinds_below))]
fn kinds_ok(bytes: &[u8]) -> bool
    requires { Header bytes.now }
    ensures { result ≡ kinds_ok (kind_bytes bytes.now) }
{
    let end = usize::from(12 + word_at(bytes, 0));
    all_below(&bytes[12..end], 2)
}

// The sum of the chords' member counts; none where an entry is wrong.
fn members_sum(bytes: &[u8]) -> Option<u16>
    requires { Header bytes.now }
    ensures ok { is_some result ≡ chords_ok (count_r bytes.now) 0 (chord_bytes bytes.now) }
    ensures sum { IfSome result (λ m. m ≡ entries_sum bytes.now) }
{
    let start = usize::from(12 + word_at(bytes, 0));
    members_in(&bytes[start..], usize::from(word_at(bytes, 1)))
}

// Whether each member is a channel of the table.
#[tactic(auto, unfolding(model::specs::Layout::members_ok))]
fn members_ok(bytes: &[u8]) -> bool
    requires { Header bytes.now }
    ensures { result ≡ members_ok (count_t bytes.now) (member_bytes bytes.now) }
{
    let t = word_at(bytes, 0);
    let start = usize::from(12 + (t + 4 * word_at(bytes, 1)));
    all_below(&bytes[start..], t as u8)
}

// The first refusal of table bytes, in the order of the layout; 0 for none.
#[tactic(auto, unfolding(model::specs::Layout::table_refusal), using(crate::proofs::Headers::counts_from, crate::proofs::Headers::header_from))]
pub fn table_refusal(bytes: &[u8]) -> u8
    ensures { result ≡ table_refusal bytes.now }
{
    if bytes.len() < 12 {
        return 1;
    }
    if !counts_ok(bytes) {
        return 2;
    }
    if !offsets_ok(bytes) {
        return 3;
    }
    if !kinds_ok(bytes) {
        return 4;
    }
    let Some(sum) = members_sum(bytes) else {
        return 5;
    };
    if sum != word_at(bytes, 2) {
        return 6;
    }
    if !members_ok(bytes) {
        return 7;
    }
    0
}

// The reader's number for the bytes, then 32 for a chord that the table does not have.
pub fn chord_refusal(table: &[u8], chord: u32) -> u8
    ensures { result ≡ chord_refusal table.now chord }
{
    let number = table_refusal(table);
    if number != 0 {
        return number;
    }
    if u32::from(word_at(table, 1)) <= chord {
        return 32;
    }
    0
}

// The number of channels.
pub fn channels_len(table: &[u8]) -> u8
    requires { table_refusal table.now ≡ 0 }
    ensures { result ≡ length (table_of table.now).kinds }
{
    word_at(table, 0) as u8
}

// The number of chords.
pub fn chords_len(table: &[u8]) -> u8
    requires { table_refusal table.now ≡ 0 }
    ensures { result ≡ length (table_of table.now).chords }
{
    word_at(table, 1) as u8
}

// One of the four bytes of a chord's entry.
fn entry_byte(table: &[u8], chord: u8, k: usize) -> u8
    requires { (table_refusal table.now ≡ 0) × (chord < length (table_of table.now).chords) × (k < 4) }
    ensures { result ≡ get_or (chord_entry table.now chord) k 0 }
{
    let chords = 12 + usize::from(word_at(table, 0));
    table[chords + 4 * usize::from(chord) + k]
}

// Where a chord's channels start.
fn chord_start(table: &[u8], chord: u8) -> usize
    requires { (table_refusal table.now ≡ 0) × (chord < length (table_of table.now).chords) }
    ensures { result ≡ part_start table.now chord }
{
    let t = usize::from(word_at(table, 0));
    let r = usize::from(word_at(table, 1));
    let first = u16::from_le_bytes([entry_byte(table, chord, 0), entry_byte(table, chord, 1)]);
    12 + (t + 4 * r) + usize::from(first)
}

// The number of a chord's channels.
pub fn chord_len(table: &[u8], chord: u8) -> u8
    requires { (table_refusal table.now ≡ 0) × (chord < length (table_of table.now).chords) }
    ensures { result ≡ size (table_of table.now) chord }
{
    entry_byte(table, chord, 2)
}

// The equality that a chord's last byte stands for.
fn equality_of(byte: u8) -> Equality
    ensures { equality_in result ≡ equality_of byte }
{
    match byte {
        0 => Equality::Any,
        1 => Equality::Property,
        _ => Equality::Unit,
    }
}

// What a chord wants to be equal.
pub fn chord_equal(table: &[u8], chord: u8) -> Equality
    requires { (table_refusal table.now ≡ 0) × (chord < length (table_of table.now).chords) }
    ensures { equality_in result ≡ (chord_at (table_of table.now) chord).equal }
{
    equality_of(entry_byte(table, chord, 3))
}

// A chord's channels, the part of the table that holds them.
pub fn members<'a>(table: &'a [u8], chord: u8) -> &'a [u8]
    requires { (table_refusal table.now ≡ 0) × (chord < length (table_of table.now).chords) }
    ensures { result.now ≡ (chord_at (table_of table.now) chord).channels }
{
    let start = chord_start(table, chord);
    let end = start + usize::from(chord_len(table, chord));
    &table[start..end]
}

// The same for any number and any bytes; no bytes where the chord is refused.
pub fn chord_channels<'a>(table: &'a [u8], chord: u32) -> &'a [u8]
    ensures { result.now ≡ chord_part table.now chord }
{
    let number = chord_refusal(table, chord);
    if number != 0 {
        return &table[..0];
    }
    members(table, chord as u8)
}
