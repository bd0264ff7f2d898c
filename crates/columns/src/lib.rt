// What a look reads of the lent messages: a column for each field, the first n messages of them.
#![tactic(auto)]

mod clear;
mod fit;
mod gather;
mod skip;
mod weigh;

ghost use Rattle.std.specs.Prelude.{◌≡◌, ◌+◌, ◌-◌, ◌%◌, ◌<◌, ◌≤◌};
ghost use Rattle.model.specs.Tables.{Chord};
ghost use Rattle.model.specs.Boards.{Sent};
ghost use Rattle.model.specs.Looks.{is_free, oldest, some_claimed, day_at};
ghost use Rattle.columns.specs.Columns.{Lent, Passed, Others, board_by};
ghost use Rattle.columns.specs.Firsts.{eligible, Wants};
ghost use Rattle.columns.specs.Ranks.{day_in, no_rank, least_from, RankBelow};

use table::Equality;

// What is sought for a member of a chord: a message of the channel and of the status, and of the property and the unit
// where they are to be equal.
#[derive(Clone, Copy)]
pub struct Want {
    pub channel: u8,
    pub status: u8,
    pub equal: Equality,
    pub property: u32,
    pub unit: u16,
}

// Where the days begin among the keys.
pub const DAYS: usize = 1024;

// No message's rank, above them all.
pub const NO_RANK: u64 = 281474976710656;

// The best rank so far, or the least of the eligible messages of a block, by its word; the block is passed over where
// none of it is worth a visit.
fn in_block(
    channels: &[u8],
    keys: &[u32],
    units: &[u16],
    statuses: &[u8],
    from: u16,
    to: u16,
    want: Want,
    best: u64,
    chosen: &[u16],
) -> u64
    requires from_le_to { (from ≤ to) × (to ≤ from + 64) × (from + 64 ≤ 1024) × (65536 ≤ best) }
    requires lent { Lent to channels.now keys.now units.now statuses.now }
    requires rank_below { RankBelow (day_in keys.now) from best }
    ensures { result ≡ least_from (day_in keys.now) (eligible channels.now keys.now
        units.now statuses.now want chosen.now) best from (to - from) }
{
    let at = from as usize;
    if !skip::is_worth(keys, at, best) {
        return best;
    }
    let w = gather::word_at(channels, keys, units, statuses, at, want);
    if w == 0 {
        return best;
    }
    let u = clear::without_chosen(w, at, chosen);
    weigh::least_of(keys, gather::low_bits(u, to - from), at, best)
}

// The least rank of the eligible of the first n messages, block by block from number `from` on, where a block begins.
fn by_blocks(
    channels: &[u8],
    keys: &[u32],
    units: &[u16],
    statuses: &[u8],
    from: u16,
    n: u16,
    want: Want,
    chosen: &[u16],
) -> u64
    requires { (from ≤ n) × (from % 64 ≡ 0) × Lent n channels.now keys.now units.now statuses.now }
    ensures { result ≡ least_from (day_in keys.now) (eligible channels.now keys.now
        units.now statuses.now want chosen.now) no_rank from (n - from) }
{
    let mut b = NO_RANK;
    let mut at = from;
    while at < n {
        let k = skip::block_from(channels, statuses, at, n, want, b);
        if n <= k {
            return b;
        }
        let to = skip::block_end(k, n);
        b = in_block(channels, keys, units, statuses, k, to, want, b, chosen);
        if b < 65536 {
            return b;
        }
        at = to;
    }
    b
}

// The same of all of them, of which those below number `start` are consumed: of few one by one, else by blocks.
fn least(
    channels: &[u8],
    keys: &[u32],
    units: &[u16],
    statuses: &[u8],
    start: u16,
    n: u16,
    want: Want,
    chosen: &[u16],
) -> u64
    requires lent { Lent n channels.now keys.now units.now statuses.now }
    requires passed { Passed start n statuses.now × (want.status < 3) }
    ensures { result ≡ least_from (day_in keys.now) (eligible channels.now keys.now
        units.now statuses.now want chosen.now) no_rank 0 n }
{
    if n - start <= 24 {
        return weigh::least_in(channels, keys, units, statuses, start, n, want, chosen);
    }
    let from = start - start % 64;
    by_blocks(channels, keys, units, statuses, from, n, want, chosen)
}

// The oldest of the first n messages that is sought, pending and not chosen yet: its number plus 1, 0 for none.
pub fn oldest(
    channels: &[u8],
    keys: &[u32],
    units: &[u16],
    statuses: &[u8],
    start: u16,
    n: u16,
    want: Want,
    chosen: &[u16],
) -> u16
    requires lent { Lent n channels.now keys.now units.now statuses.now }
    requires passed { Passed start n statuses.now × (want.status ≡ 0) }
    ensures { (result ≤ n) × ((o : Others) (c : Chord) (s : Sent) → o.units ≡ units.now → Wants want c s
        → result ≡ oldest (day_at (board_by channels.now keys.now statuses.now n o))
        (is_free c want.channel s chosen.now) 0
        (board_by channels.now keys.now statuses.now n o).messages) }
{
    let b = least(channels, keys, units, statuses, start, n, want, chosen);
    (b % 65536) as u16
}

// One of the first n messages is sought and claimed, chosen or not.
pub fn some_claimed(
    channels: &[u8],
    keys: &[u32],
    units: &[u16],
    statuses: &[u8],
    start: u16,
    n: u16,
    want: Want,
) -> bool
    requires lent { Lent n channels.now keys.now units.now statuses.now }
    requires passed { Passed start n statuses.now × (want.status ≡ 1) }
    ensures { (o : Others) (c : Chord) (s : Sent) → o.units ≡ units.now → Wants want c s
        → result ≡ some_claimed c want.channel s
        (board_by channels.now keys.now statuses.now n o).messages }
{
    let chosen = [0u16; 1];
    let b = least(
        channels,
        keys,
        units,
        statuses,
        start,
        n,
        want,
        &chosen[..0],
    );
    b != NO_RANK
}
