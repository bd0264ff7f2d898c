// Channels and chords of accepted table bytes, as a step reads them: each by offsets, in one pass at most.
// The bytes are judged once, by the caller; no function here tests them again.
#![tactic(auto)]

ghost use Rattle.std.specs.Prelude.{◌≡◌, ◌<◌, eqb, length};
ghost use Rattle.model.specs.Basics.{is_in, first_by};
ghost use Rattle.model.specs.Tables.{chord_at, size, channel_at, is_sync, first_sync, wakes};
ghost use Rattle.model.specs.Layout.{table_refusal, table_of};
ghost use Rattle.chords.specs.Naming.{next_naming};

// Whether a channel is synchronous.
#[tactic(auto, using(crate::proofs::Places::kinds), unfolding(model::specs::Tables::is_sync))]
pub fn is_sync(table: &[u8], channel: u8) -> bool
    requires { (table_refusal table.now ≡ 0) × (channel < length (table_of table.now).kinds) }
    ensures { result ≡ is_sync (table_of table.now) channel }
{
    table[12 + usize::from(channel)] == 1
}

// A chord's channel, by its place in the chord.
pub fn channel_at(table: &[u8], chord: u8, k: u8) -> u8
    requires table_value { (table_refusal table.now ≡ 0) × (chord < length (table_of table.now).chords) }
    requires k_bound { k < size (table_of table.now) chord }
    ensures { result ≡ channel_at (table_of table.now) chord k }
{
    table::members(table, chord)[usize::from(k)]
}

// Whether a chord names a channel.
pub fn names(table: &[u8], chord: u8, channel: u8) -> bool
    requires { (table_refusal table.now ≡ 0) × (chord < length (table_of table.now).chords) }
    ensures { result ≡ is_in channel (chord_at (table_of table.now) chord).channels }
{
    table::members(table, chord).iter().any(|x| *x == channel)
}

// The next chord from a number on that names a channel; the number of chords for none.
#[tactic(auto, using(crate::proofs::Naming::turns))]
pub fn next_naming(table: &[u8], channel: u8, from: u8) -> u8
    requires { table_refusal table.now ≡ 0 }
    ensures { result ≡ next_naming (table_of table.now) channel from }
{
    let n = table::chords_len(table);
    for i in from..n {
        if names(table, i, channel) {
            return i;
        }
    }
    n
}

// The place of a channel in a chord, the first one; the size for none.
pub fn first_of(table: &[u8], chord: u8, channel: u8) -> u8
    requires { (table_refusal table.now ≡ 0) × (chord < length (table_of table.now).chords) }
    ensures { result ≡ first_by (eqb channel) (chord_at (table_of table.now) chord).channels }
{
    let part = table::members(table, chord);
    let place = part.iter().position(|x| channel == *x);
    place.unwrap_or(part.len()) as u8
}

// The place of a chord's first synchronous channel; the size for none.
pub fn first_sync(table: &[u8], chord: u8) -> u8
    requires { (table_refusal table.now ≡ 0) × (chord < length (table_of table.now).chords) }
    ensures { result ≡ first_sync (table_of table.now) chord }
{
    let part = table::members(table, chord);
    let place = part.iter().position(|x| is_sync(table, *x));
    place.unwrap_or(part.len()) as u8
}

// Whether the last claim of a chord wakes: the subject is of an asynchronous channel, and the chord names another kind.
#[tactic(auto, unfolding(model::specs::Tables::wakes))]
pub fn wakes(table: &[u8], chord: u8, channel: u8) -> bool
    requires table_value { (table_refusal table.now ≡ 0) × (chord < length (table_of table.now).chords) }
    requires channel_in_bounds { channel < length (table_of table.now).kinds }
    ensures { result ≡ wakes (table_of table.now) chord channel }
{
    !is_sync(table, channel) && first_sync(table, chord) < table::chord_len(table, chord)
}
