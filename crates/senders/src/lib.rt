// The part of the soundness test that is about senders, on any numbers that they may hold.
#![tactic(auto)]

ghost use Rattle.std.specs.Prelude.{◌≡◌, ◌<◌, ◌≤◌, length, filter};
ghost use Rattle.model.specs.Tables as MT;
ghost use Rattle.model.specs.Boards as MB;
ghost use Rattle.model.specs.Layout.{table_refusal, table_of};
ghost use Rattle.model.specs.Sound.{all_below, place_ok, job_ok};
ghost use Rattle.state.specs.Views.{phase_in, chosen_by, job_in, sender_in};
ghost use Rattle.senders.specs.Seen.{Seen, Known, channel_in, in_chord, is_told, none_twice};

use state::{Job, Phase, Sender};

// The channel of message v of n; 0 for none.
#[tactic(auto, unfolding(crate::specs::Seen::channel_in))]
fn channel_of(channels: &[u8], n: u16, v: u16) -> u8
    requires { n ≤ length channels.now }
    ensures { result ≡ channel_in channels.now n v }
{
    if v < n { channels[usize::from(v)] } else { 0 }
}

// Whether the chord is in the table and names the channel.
#[tactic(auto, unfolding(crate::specs::Seen::in_chord))]
fn at_chord(table: &[u8], chord: u8, channel: u8) -> bool
    requires { table_refusal table.now ≡ 0 }
    ensures { result ≡ in_chord (table_of table.now) chord channel }
{
    chord < table::chords_len(table) && chords::names(table, chord, channel)
}

// The number of the chord's channels; 0 for a chord that the table does not have.
#[tactic(auto, using(state::proofs::Sizes::chord_few))]
fn size_at(table: &[u8], chord: u8) -> u8
    requires { table_refusal table.now ≡ 0 }
    ensures { (result ≡ MT.size (table_of table.now) chord) × (result ≤ 8) }
{
    if chord < table::chords_len(table) {
        table::chord_len(table, chord)
    } else {
        0
    }
}

// Whether message v of a match of the subject is to be told of it.
#[tactic(auto, using(crate::proofs::Places::channel_known))]
fn is_told(table: &[u8], subject: u16, v: u16, n: u16, channels: &[u8]) -> bool
    requires { (table_refusal table.now ≡ 0) × Known (table_of table.now) n channels.now }
    ensures { result ≡ is_told (table_of table.now) channels.now n subject v }
{
    chords::is_sync(table, channel_of(channels, n, v)) && v != subject
}

// How many of the chosen messages are to be told of the subject's match.
fn tells_len(table: &[u8], subject: u16, chosen: &[u16], n: u16, channels: &[u8]) -> usize
    requires { (table_refusal table.now ≡ 0) × Known (table_of table.now) n channels.now }
    ensures { result ≡ length (filter (is_told (table_of table.now) channels.now n subject) chosen.now) }
{
    chosen
        .iter()
        .filter(|v| is_told(table, subject, **v, n, channels))
        .count()
}

// Whether the job, whose subject has this channel, is at a place that the steps have for its chord and subject.
#[tactic(auto, using(crate::proofs::Places::places), unfolding(crate::specs::Seen::in_chord))]
fn place_ok(table: &[u8], j: Job, channel: u8, n: u16, matches: u16, channels: &[u8]) -> bool
    requires table_value { (table_refusal table.now ≡ 0) × Known (table_of table.now) n channels.now }
    requires channel_in_bounds { channel < length (table_of table.now).kinds }
    ensures { (b : MB.Board) → Seen b n matches channels.now → MB.channel_of b j.subject ≡ channel
        → result ≡ place_ok (table_of table.now) b (job_in (table_of table.now) j)
        (phase_in j.phase) }
{
    let named = at_chord(table, j.chord, channel);
    let size = size_at(table, j.chord);
    match j.phase {
        Phase::Look(k) | Phase::Claim(k) => named && k < size,
        Phase::Revert(k, m) => named && k < m && m < size,
        Phase::Consume(k, m) => {
            named
                && k < size
                && (1..=matches).contains(&m)
                && !chords::wakes(table, j.chord, channel)
        }
        Phase::Tell(k) => {
            let chosen = &j.chosen[..usize::from(size)];
            named
                && !chords::wakes(table, j.chord, channel)
                && usize::from(k) < tells_len(table, j.subject, chosen, n, channels)
        }
        Phase::Wake | Phase::Signal => named && chords::wakes(table, j.chord, channel),
        Phase::Free(k) => {
            named && u16::from(k) + 1 < u16::from(size) && chords::wakes(table, j.chord, channel)
        }
        Phase::PassEnd | Phase::Backoff(_) => true,
    }
}

// How many messages a job in the phase has chosen at a chord of so many channels.
fn chosen_by(phase: Phase, size: u8) -> u8
    ensures { result ≡ chosen_by phase size }
{
    match phase {
        Phase::Look(k) => k,
        Phase::PassEnd | Phase::Backoff(_) => 0,
        _ => size,
    }
}

// Whether the messages that the job has chosen are below n.
fn all_chosen_below(table: &[u8], j: Job, n: u16) -> bool
    requires { table_refusal table.now ≡ 0 }
    ensures { result ≡ all_below n (job_in (table_of table.now) j).chosen }
{
    let len = chosen_by(j.phase, size_at(table, j.chord));
    j.chosen.iter().take(usize::from(len)).all(|v| *v < n)
}

// Whether the sender's job is on its own message or its waker, has chosen messages of the board, and is at a place that
// the steps have.
pub fn job_ok(table: &[u8], d: Sender, n: u16, matches: u16, channels: &[u8]) -> bool
    requires { (table_refusal table.now ≡ 0) × Known (table_of table.now) n channels.now }
    ensures { (b : MB.Board) → Seen b n matches channels.now
        → result ≡ job_ok (table_of table.now) b (sender_in (table_of table.now) d)
        (job_in (table_of table.now) d.job) }
{
    let j = d.job;
    j.subject < n
        && (j.subject + 1 == d.own || j.subject + 1 == d.waker)
        && all_chosen_below(table, j, n)
        && place_ok(
            table,
            j,
            channels[usize::from(j.subject)],
            n,
            matches,
            channels,
        )
}

// Whether no mark but 0 stands twice.
pub fn none_twice(marks: &[u32]) -> bool
    ensures { result ≡ none_twice marks.now }
{
    for (i, m) in marks.iter().enumerate() {
        if *m != 0 && marks[i + 1..].contains(m) {
            return false;
        }
    }
    true
}
