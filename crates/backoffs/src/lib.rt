// Backoff tables: the built-in one, whether one passes, and the rests by the count of retries.
#![tactic(auto)]

ghost use Rattle.std.specs.Prelude.{◌≡◌, true, ◌≤◌, ◌&&◌, leb, fold};
ghost use Rattle.std.specs.List.{zip};
ghost use Rattle.model.specs.Boards.{backoff_at, backoffs_pass, builtin_backoffs};

// How many entries a backoff table has.
const ENTRIES: usize = 16;

// The table for those who give none.
#[tactic(auto, unfolding(model::specs::Boards::builtin_backoffs))]
pub fn builtin() -> [u8; 16]
    ensures { result ≡ builtin_backoffs }
{
    [0, 1, 1, 2, 2, 4, 4, 8, 8, 16, 16, 16, 32, 32, 32, 32]
}

// The most rests that an entry may give.
const MOST: u16 = 64;

// Whether no entry is over 64. A fold, since an early exit would not vectorize; so is the next.
fn none_over(rests: &[u16]) -> bool
    ensures { result ≡ fold (λ ok k. ok && leb k 64) true rests.now }
{
    rests.iter().fold(true, |ok, k| ok & (*k <= MOST))
}

// Whether none is less than the one beside it.
fn in_order(rests: &[u16], next: &[u16]) -> bool
    ensures { result ≡ fold (λ ok p. ok && leb p.0 p.1) true (zip rests.now next.now) }
{
    rests
        .iter()
        .zip(next)
        .fold(true, |ok, (k, n)| ok & (*k <= *n))
}

// Whether a table passes: sixteen entries, none over 64, none less than the one before.
#[tactic(auto, using(crate::proofs::PassLaws::tests), unfolding(model::specs::Boards::backoffs_pass))]
#[inline(always)]
pub fn passes(rests: &[u16]) -> bool
    ensures { result ≡ backoffs_pass rests.now }
{
    rests.len() == ENTRIES && none_over(rests) && in_order(rests, &rests[1..])
}

// The same numbers, of 16 bits.
fn widened(rests: &[u8; ENTRIES]) -> [u16; ENTRIES]
    ensures { result ≡ rests.now }
{
    rests.map(u16::from)
}

// Whether the bytes that a customer gives are a table that passes.
#[tactic(auto, unfolding(model::specs::Boards::backoffs_pass))]
pub fn bytes_pass(rests: &[u8]) -> bool
    ensures { result ≡ backoffs_pass rests.now }
{
    let Some(rests) = rests.as_array() else {
        return false;
    };
    passes(&widened(rests))
}

// The rests at a count of retries, from 1 on.
#[tactic(auto, using(crate::proofs::PassLaws::passing), unfolding(model::specs::Boards::backoff_at))]
pub fn rests_at(rests: &[u16], k: u8) -> u8
    requires { (backoffs_pass rests.now ≡ true) × (1 ≤ k) × (k ≤ 16) }
    ensures { result ≡ backoff_at rests.now k }
{
    rests[usize::from(k - 1)] as u8
}
