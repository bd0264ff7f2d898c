// Words and numbers on standard output.
use state::Said;
use std::io::Stdout;

// The words by their numbers.
const WORDS: [&str; 19] = [
    "item",
    "looked",
    "missed",
    "claimed",
    "lost",
    "reverted",
    "matched",
    "consumed",
    "told",
    "woke",
    "freed",
    "signalled",
    "again",
    "ended",
    "rested",
    "answered",
    "resumed",
    "refused",
    "closed",
];

// What cannot be written is missing from the printout, which goes on: so each piece is written by itself.
pub fn text(stdout: Stdout, t: &str) {
    let _ = stdout.print(t);
}

pub fn word(stdout: Stdout, word: &str, n: u16) {
    text(stdout, word);
    text(stdout, " ");
    let _ = stdout.print(n);
}

pub fn next(stdout: Stdout, n: u8) {
    word(stdout, "", u16::from(n));
}

// Whether all is as it was.
pub fn kept(stdout: Stdout, yes: bool) {
    if yes {
        text(stdout, " kept");
    }
}

// Whether a word says no number.
fn is_alone(word: u32) -> bool {
    matches!(word, 2 | 12 | 13 | 14 | 16 | 18)
}

// An answer by its number; a dash where there is none.
pub fn answer(stdout: Stdout, a: u32) {
    let word = a / 65536;
    let n = a % 65536;
    text(stdout, " ");
    let Some(name) = WORDS.get(word as usize) else {
        text(stdout, "-");
        return;
    };
    text(stdout, name);
    if !is_alone(word) {
        text(stdout, " ");
        let _ = stdout.print(n);
    }
}

pub fn said(stdout: Stdout, said: Said) {
    answer(stdout, plays::answer_number(said));
}

// The number of a refusal; 0 for any other answer.
pub fn refusal(stdout: Stdout, said: Said) {
    next(stdout, state::number_of(said));
}
