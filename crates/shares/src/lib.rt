// Fair shares of the board, by how many messages each sender has added: whether a sender has room, and whether the
// shares are kept.
#![tactic(auto)]

ghost use Rattle.std.specs.Prelude.{◌≡◌, ◌-◌, ◌<◌, length, sum, sum_by};
ghost use Rattle.model.specs.Shares.{has_room, shares_ok};

// How many of the common messages are used: the parts of the tallies above the senders' own 16.
#[inline(always)]
fn common_used(tallies: &[u16; 32]) -> u32
    ensures { result ≡ sum_by (λ k. k - 16) tallies.now }
{
    tallies
        .iter()
        .map(|k| u32::from(k.saturating_sub(16)))
        .sum()
}

// How many messages the senders have added.
fn added_total(tallies: &[u16; 32]) -> u32
    ensures { result ≡ sum tallies.now }
{
    tallies.iter().map(|k| u32::from(*k)).sum()
}

// Whether the sender at a place has one of its own messages left, or there is a common one.
#[tactic(auto, using(crate::proofs::SumLaws::sums_are), unfolding(model::specs::Shares::has_room))]
pub fn has_room(tallies: &[u16], i: u8) -> bool
    requires { (length tallies.now ≡ 32) × (i < 32) }
    ensures { result ≡ has_room tallies.now i }
{
    tallies[usize::from(i)] < 16 || common_used(tallies.as_array().unwrap()) < 512
}

// Whether the tallies are those of a sound board with n messages.
#[tactic(auto, using(crate::proofs::SumLaws::sums_are), unfolding(model::specs::Shares::shares_ok))]
pub fn shares_ok(tallies: &[u16], n: u16) -> bool
    requires { length tallies.now ≡ 32 }
    ensures { result ≡ shares_ok tallies.now n }
{
    let all = tallies.as_array().unwrap();
    added_total(all) == u32::from(n) && common_used(all) <= 512
}
