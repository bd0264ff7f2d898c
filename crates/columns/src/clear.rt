// A word without the bits of the messages that are chosen.
ghost use Rattle.std.specs.Prelude.{◌≡◌, Bool, ◌&&◌, not, ℕ, eqb};
ghost use Rattle.columns.specs.Firsts.{unchosen};
ghost use Rattle.columns.specs.Words.{bit, word_from};

// The word of the messages from number `at` on, without message k.
fn without(w: u64, at: usize, k: usize) -> u64
    ensures { (p : ℕ → Bool) → w ≡ word_from (λ j. bit (p j)) at 64
        → result ≡ word_from (λ j. bit (p j && not (eqb j k))) at 64 }
{
    if k < at {
        return w;
    }
    let t = k - at;
    if 64 <= t {
        return w;
    }
    let one: u64 = 1 << (t as u64);
    if (w / one) % 2 == 0 {
        return w;
    }
    w - one
}

// The same without those that are chosen.
pub fn without_chosen(word: u64, at: usize, chosen: &[u16]) -> u64
    ensures { (p : ℕ → Bool) → word ≡ word_from (λ j. bit (p j)) at 64
        → result ≡ word_from (λ j. bit (p j && unchosen chosen.now j)) at 64 }
{
    let mut w = word;
    let mut i = 0;
    while i < chosen.len() {
        w = without(w, at, chosen[i] as usize);
        i += 1;
    }
    w
}
