// Blocks of 64 messages: which of them a look passes over.
ghost use Rattle.std.specs.Prelude.{◌≡◌, ◌⊎◌, ℕ, ◌+◌, ◌-◌, ◌%◌, ◌<◌, ◌≤◌, Bool, true, false, length};
ghost use Rattle.columns.specs.Columns.{days_at};
ghost use Rattle.columns.specs.Firsts.{first_from, found, Skipped, of_kind, of_day_before};
ghost use Rattle.columns.specs.Ranks.{day_in, rank_of, better, RankBelow};

use crate::{DAYS, NO_RANK, Want};

// One of the messages of the numbers `from` up to `to` is of the channel and of the status.
fn any_in(channels: &[u8], statuses: &[u8], from: usize, to: usize, wanted: u8, status: u8) -> bool
    requires { (from ≤ to) × (to ≤ length channels.now) × (to ≤ length statuses.now) }
    ensures { result ≡ found (first_from (of_kind channels.now statuses.now wanted status) from
        (to - from)) }
{
    let mut any = false;
    let mut i = from;
    while i < to {
        any = any | ((channels[i] == wanted) & (statuses[i] == status));
        i += 1;
    }
    any
}

// Where the first block from number `from` on begins that has a message of the channel and of the status; n or more if
// none has.
fn next_block(channels: &[u8], statuses: &[u8], from: u16, n: u16, wanted: u8, status: u8) -> u16
    requires from_value { (from % 64 ≡ 0) × (from ≤ n) × (n ≤ 1024) }
    requires in_bounds { (1024 ≤ length channels.now) × (1024 ≤ length statuses.now) }
    ensures { Skipped (of_kind channels.now statuses.now wanted status) from result }
{
    let mut at = from;
    while at < n {
        let k = at as usize;
        if any_in(channels, statuses, k, k + 64, wanted, status) {
            return at;
        }
        at += 64;
    }
    at
}

// Where the next block to be tried begins. Once there is a best, days pass over more blocks than channels do.
pub fn block_from(channels: &[u8], statuses: &[u8], from: u16, n: u16, want: Want, best: u64) -> u16
    requires from_value { (from % 64 ≡ 0) × (from ≤ n) × (n ≤ 1024) }
    requires in_bounds { (1024 ≤ length channels.now) × (1024 ≤ length statuses.now) }
    ensures { Skipped
        (of_kind channels.now statuses.now want.channel want.status) from result }
{
    if best != NO_RANK {
        return from;
    }
    next_block(channels, statuses, from, n, want.channel, want.status)
}

// Where the block at number `at` ends.
pub fn block_end(at: u16, n: u16) -> u16
    requires { (at ≤ n) × (n ≤ 1024) }
    ensures { (at ≤ result) × (result ≤ n) × (result ≤ at + 64) × ((result ≡ n) ⊎ (result ≡ at + 64)) }
{
    if n - at < 64 {
        return n;
    }
    at + 64
}

// One of the messages of the numbers `from` up to `to` is of a day before that day.
fn any_before(keys: &[u32], from: usize, to: usize, day: u32) -> bool
    requires { (from ≤ to) × (days_at + to ≤ length keys.now) }
    ensures { result ≡ found (first_from (of_day_before keys.now day) from (to - from)) }
{
    let mut any = false;
    let mut i = from;
    while i < to {
        any = any | (keys[DAYS + i] < day);
        i += 1;
    }
    any
}

// Whether one of the 64 messages from number `at` on may come before the best so far.
pub fn is_worth(keys: &[u32], at: usize, best: u64) -> bool
    requires at_in_bounds { (days_at + (at + 64) ≤ length keys.now) × (at + 64 ≤ 1024) }
    requires rank_below { RankBelow (day_in keys.now) at best }
    ensures { result ≡ false → (t : Bool) (k : ℕ) → at ≤ k → k < at + 64
        → better t (rank_of (day_in keys.now) k) best ≡ best }
{
    if best == NO_RANK {
        return true;
    }
    any_before(keys, at, at + 64, (best / 65536) as u32)
}
