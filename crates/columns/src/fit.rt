// Of each of sixty-four messages whether it fits: a byte, 1 or 0.
ghost use Rattle.std.specs.Prelude.{◌≡◌, ◌&&◌, ℕ, ◌+◌, ◌<◌, ◌≤◌, length, get_or};
ghost use Rattle.columns.specs.Firsts.{of_kind, of_property, of_both, fitting};
ghost use Rattle.columns.specs.Words.{bit, Told};

use crate::Want;
use table::Equality;

// Sixteen of the bytes, from number `from` on: the messages of the channel and of the status.
fn put_kinds(y: &mut [u8; 64], from: usize, channels: &[u8], statuses: &[u8], at: usize, want: Want)
    requires from_bound { (from + 16 ≤ 64) × (at + 64 ≤ length channels.now) × (at + 64 ≤ length statuses.now) }
    requires told { Told (of_kind channels.now statuses.now want.channel want.status) at from y.old }
    ensures { Told (of_kind channels.now statuses.now want.channel want.status) at
        (from + 16) y.new }
{
    let mut i = from;
    while i < from + 16 {
        let kind = (channels[at + i] == want.channel) & (statuses[at + i] == want.status);
        y[i] = kind as u8;
        i += 1;
    }
}

// The same: those that have the property as well.
fn put_properties(
    y: &mut [u8; 64],
    from: usize,
    channels: &[u8],
    keys: &[u32],
    statuses: &[u8],
    at: usize,
    want: Want,
)
    requires from_bound { (from + 16 ≤ 64) × (at + 64 ≤ length channels.now) × (at + 64 ≤ length keys.now)
        × (at + 64 ≤ length statuses.now) }
    requires told { Told (λ k. of_kind channels.now statuses.now want.channel want.status k
        && of_property keys.now want.property k) at from y.old }
    ensures { Told (λ k. of_kind channels.now statuses.now want.channel want.status k
        && of_property keys.now want.property k) at (from + 16) y.new }
{
    let mut i = from;
    while i < from + 16 {
        let kind = (channels[at + i] == want.channel) & (statuses[at + i] == want.status);
        y[i] = (kind & (keys[at + i] == want.property)) as u8;
        i += 1;
    }
}

// The same: those that have the property and the unit as well.
fn put_both(
    y: &mut [u8; 64],
    from: usize,
    channels: &[u8],
    keys: &[u32],
    units: &[u16],
    statuses: &[u8],
    at: usize,
    want: Want,
)
    requires from_bound { (from + 16 ≤ 64) × (at + 64 ≤ length channels.now) × (at + 64 ≤ length keys.now)
        × (at + 64 ≤ length units.now) × (at + 64 ≤ length statuses.now) }
    requires told { Told (λ k. of_kind channels.now statuses.now want.channel want.status k
        && of_both keys.now units.now want.property want.unit k) at from y.old }
    ensures { Told (λ k. of_kind channels.now statuses.now want.channel want.status k
        && of_both keys.now units.now want.property want.unit k) at (from + 16)
        y.new }
{
    let mut i = from;
    while i < from + 16 {
        let kind = (channels[at + i] == want.channel) & (statuses[at + i] == want.status);
        let both = (keys[at + i] == want.property) & (units[at + i] == want.unit);
        y[i] = (kind & both) as u8;
        i += 1;
    }
}

// The same: those that fit.
fn put_fits(
    y: &mut [u8; 64],
    from: usize,
    channels: &[u8],
    keys: &[u32],
    units: &[u16],
    statuses: &[u8],
    at: usize,
    want: Want,
)
    requires from_bound { (from + 16 ≤ 64) × (at + 64 ≤ length channels.now) × (at + 64 ≤ length keys.now)
        × (at + 64 ≤ length units.now) × (at + 64 ≤ length statuses.now) }
    requires told { Told (fitting channels.now keys.now units.now statuses.now want) at from y.old }
    ensures { Told (fitting channels.now keys.now units.now
        statuses.now want) at (from + 16) y.new }
{
    let equal = want.equal;
    match equal {
        Equality::Any => put_kinds(y, from, channels, statuses, at, want),
        Equality::Property => put_properties(y, from, channels, keys, statuses, at, want),
        Equality::Unit => put_both(y, from, channels, keys, units, statuses, at, want),
    }
}

// Of each of the messages from number `at` on whether it fits; by sixteens, which become vectors.
pub fn bytes_at(
    channels: &[u8],
    keys: &[u32],
    units: &[u16],
    statuses: &[u8],
    at: usize,
    want: Want,
) -> [u8; 64]
    requires { (at + 64 ≤ length channels.now) × (at + 64 ≤ length keys.now)
        × (at + 64 ≤ length units.now) × (at + 64 ≤ length statuses.now) }
    ensures { (k : ℕ) → k < 64 → get_or result k 0 ≡ bit (fitting channels.now keys.now
        units.now statuses.now want (at + k)) }
{
    let mut y = [0u8; 64];
    let mut from = 0;
    while from < 64 {
        put_fits(&mut y, from, channels, keys, units, statuses, at, want);
        from += 16;
    }
    y
}
