// What the reads answer of a board that was judged before: a message, a match, and whether the board is quiet.
#![tactic(auto)]

ghost use Rattle.std.specs.Prelude.{◌≡◌, not, map, ℕ, ◌+◌, ◌<◌, ◌≤◌, pos, length, get_or, take, drop, replicate};
ghost use Rattle.model.specs.Basics.{every};
ghost use Rattle.model.specs.Tables.{Table};
ghost use Rattle.model.specs.Boards as MB;
ghost use Rattle.model.specs.Pools.{can_step, read_match};
ghost use Rattle.model.specs.Layout.{table_refusal, table_of};
ghost use Rattle.columns.specs.Columns.{days_at, message_in, columns_of};
ghost use Rattle.columns.specs.MatchColumns.{match_in, matches_of};
ghost use Rattle.state.specs.Views.{sender_in};
ghost use Rattle.reads.specs.Reads.{message_of, read_of, MatchLent, InRange, Readable};

use state::Sender;

#[derive(Clone, Copy)]
pub struct MessageRead {
    pub channel: u8,
    pub property: u32,
    pub cents: i64,
    pub day: u32,
    pub unit: u16,
    pub status: u8,
    pub matched: u16,
    pub waker: u16,
}

// The numbers past len are 0.
#[derive(Clone, Copy)]
pub struct MatchRead {
    pub chord: u8,
    pub len: u8,
    pub messages: [u16; 8],
    pub cents: i64,
}

// Message n, by its columns.
#[tactic(auto, unfolding(columns::specs::Columns::message_in))]
pub fn message_read(
    n: u16,
    channels: &[u8],
    keys: &[u32],
    cents: &[i64],
    statuses: &[u8],
    matched: &[u16],
    wakers: &[u16],
    units: &[u16],
) -> MessageRead
    requires n_in_bounds { (n < length channels.now) × (days_at + n < length keys.now) × (n < length cents.now) }
    requires n_in_bounds_2 { (n < length statuses.now) × (n < length matched.now) × (n < length wakers.now) }
    requires n_in_bounds_3 { n < length units.now }
    ensures result_value { message_of result ≡ message_in (columns_of channels.now keys.now
        cents.now statuses.now matched.now wakers.now
        units.now) n }
    ensures status_value { result.status ≡ get_or statuses.now n 0 }
{
    let i = usize::from(n);
    MessageRead {
        channel: channels[i],
        property: keys[i],
        cents: cents[i],
        day: keys[columns::DAYS + i],
        unit: units[i],
        status: statuses[i],
        matched: matched[i],
        waker: wakers[i],
    }
}

// The numbers of match k's messages.
#[tactic(auto, using(model::proofs::TableLaws::size_few), unfolding(columns::specs::MatchColumns::match_in))]
fn match_numbers<'a>(table: &[u8], k: u16, chords: &[u8], messages: &'a [u16]) -> &'a [u16]
    requires table_value { table_refusal table.now ≡ 0 }
    requires cases { MatchLent (table_of table.now) (matches_of chords.now messages.now) k }
    ensures { (result.now ≡ (match_in (table_of table.now) (matches_of chords.now messages.now) k).messages)
        × (length result.now ≤ 8) }
{
    let k = usize::from(k);
    let len = usize::from(table::chord_len(table, chords[k]));
    let at = 8 * k;
    &messages[at..at + len]
}

// The cents of up to eight messages, by their numbers.
fn cents_of(numbers: &[u16], cents: &[i64]) -> i64
    requires { InRange cents.now numbers.now }
    ensures { (t : Table) (sent : ℕ → MB.Sent) → ((j : ℕ) → j < length numbers.now
        → (sent (get_or numbers.now j 0)).cents
        ≡ get_or cents.now (get_or numbers.now j 0) (pos 0))
        → result ≡ MB.cents_of t sent numbers.now }
{
    let mut sum = 0;
    for k in numbers {
        sum += cents[usize::from(*k)];
    }
    sum
}

// Up to eight numbers by value, 0 past the last.
fn copied(numbers: &[u16]) -> [u16; 8]
    requires { length numbers.now ≤ 8 }
    ensures { (take (length numbers.now) result ≡ numbers.now)
        × (drop (length numbers.now) result ≡ drop (length numbers.now) (replicate 8 0)) }
{
    let mut copy = [0; 8];
    copy[..numbers.len()].copy_from_slice(numbers);
    copy
}

// Match k on a board whose first n messages have these cents.
pub fn match_read(
    table: &[u8],
    k: u16,
    chords: &[u8],
    messages: &[u16],
    n: u16,
    cents: &[i64],
) -> MatchRead
    requires table_value { table_refusal table.now ≡ 0 }
    requires readable { Readable (table_of table.now) (matches_of chords.now messages.now) k n cents.now }
    ensures by_index { (b : MB.Board)
        → ((i : ℕ) → i < n → (MB.message_at b i).sent.cents ≡ get_or cents.now i (pos 0))
        → read_of result ≡ read_match (table_of table.now) b (match_in (table_of table.now)
        (matches_of chords.now messages.now) k) }
    ensures len_bound { (result.len ≤ 8) × (drop result.len result.messages ≡ drop result.len (replicate 8 0)) }
{
    let numbers = match_numbers(table, k, chords, messages);
    MatchRead {
        chord: chords[usize::from(k)],
        len: numbers.len() as u8,
        messages: copied(numbers),
        cents: cents_of(numbers, cents),
    }
}

// Whether no sender has a step to take.
pub fn is_quiet(senders: [Sender; 32]) -> bool
    ensures { (t : Table)
        → result ≡ every (λ d. not (can_step d.state d.signalled)) (map (sender_in t) senders) }
{
    senders.iter().all(|d| !state::can_step(*d))
}
