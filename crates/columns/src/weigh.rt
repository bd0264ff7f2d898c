// The least rank of messages that are tried one by one, or by the bits of a word.
ghost use Rattle.std.specs.Prelude.{◌≡◌, ◌+◌, ◌-◌, ◌<◌, ◌≤◌, length};
ghost use Rattle.model.specs.Basics.{is_in};
ghost use Rattle.columns.specs.Columns.{Lent, days_at};
ghost use Rattle.columns.specs.Firsts.{is_like, unchosen, eligible};
ghost use Rattle.columns.specs.Ranks.{day_in, rank_of, no_rank, better, least_from};
ghost use Rattle.columns.specs.Words.{least_bit};

use crate::{DAYS, NO_RANK, Want};
use table::Equality;

// The numbers hold x.
fn is_in(x: u16, s: &[u16]) -> bool
    ensures { result ≡ is_in x s.now }
{
    let mut i = 0;
    while i < s.len() {
        if s[i] == x {
            return true;
        }
        i += 1;
    }
    false
}

// A message's rank in the order of days and numbers.
fn rank(keys: &[u32], k: usize) -> u64
    requires { (days_at + k < length keys.now) × (k < 1024) }
    ensures { result ≡ rank_of (day_in keys.now) k }
{
    let day = keys[DAYS + k];
    (day as u64) * 65536 + ((k as u64) + 1)
}

// The best rank so far, or that of message k where it is not chosen and comes before it.
fn weighed(keys: &[u32], k: usize, best: u64, chosen: &[u16]) -> u64
    requires { (days_at + k < length keys.now) × (k < 1024) }
    ensures { result
        ≡ better (unchosen chosen.now k) (rank_of (day_in keys.now) k) best }
{
    let r = rank(keys, k);
    if best <= r {
        return best;
    }
    if is_in(k as u16, chosen) {
        return best;
    }
    r
}

// Whether message k is like what is wanted.
fn is_like(keys: &[u32], units: &[u16], k: usize, want: Want) -> bool
    requires { (k < length keys.now) × (k < length units.now) }
    ensures { result ≡ is_like keys.now units.now want k }
{
    let property = keys[k] == want.property;
    let unit = units[k] == want.unit;
    let equal = want.equal;
    match equal {
        Equality::Any => true,
        Equality::Property => property,
        Equality::Unit => property & unit,
    }
}

// The same where message n is of the channel and of the status, and like what is wanted.
fn judged(
    channels: &[u8],
    keys: &[u32],
    units: &[u16],
    statuses: &[u8],
    n: u16,
    want: Want,
    best: u64,
    chosen: &[u16],
) -> u64
    requires { (n < 1024) × Lent n channels.now keys.now units.now statuses.now }
    ensures { result ≡ better (eligible channels.now keys.now units.now
        statuses.now want chosen.now n) (rank_of (day_in keys.now) n) best }
{
    let k = n as usize;
    if !((channels[k] == want.channel) & (statuses[k] == want.status)) {
        return best;
    }
    if !is_like(keys, units, k, want) {
        return best;
    }
    weighed(keys, k, best, chosen)
}

// The least rank of the eligible messages of the numbers `from` up to `n`, one by one; none after one of day 0 comes
// before it.
pub fn least_in(
    channels: &[u8],
    keys: &[u32],
    units: &[u16],
    statuses: &[u8],
    from: u16,
    n: u16,
    want: Want,
    chosen: &[u16],
) -> u64
    requires { (from ≤ n) × Lent n channels.now keys.now units.now statuses.now }
    ensures { result ≡ least_from (day_in keys.now) (eligible channels.now keys.now
        units.now statuses.now want chosen.now) no_rank from (n - from) }
{
    let mut b = NO_RANK;
    let mut i = from;
    while i < n {
        b = judged(channels, keys, units, statuses, i, want, b, chosen);
        if b < 65536 {
            return b;
        }
        i += 1;
    }
    b
}

// The best rank so far, or the least of the messages of a word, by its bits.
pub fn least_of(keys: &[u32], word: u64, at: usize, best: u64) -> u64
    requires { (at + 64 ≤ 1024) × (days_at + (at + 64) ≤ length keys.now) × (65536 ≤ best) }
    ensures { result ≡ least_bit (day_in keys.now) word best at 64 }
{
    let mut b = best;
    let mut w = word;
    while w != 0 {
        let t = u64::trailing_zeros(w);
        let r = rank(keys, at + (t as usize));
        if r < b {
            if r < 65536 {
                return r;
            }
            b = r;
        }
        w = w & (w - 1);
    }
    b
}
