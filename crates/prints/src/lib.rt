// The program's printing, into a lent buffer at a place; each function answers the place after what it wrote.
#![tactic(auto)]

ghost use Rattle.std.specs.Prelude.{◌≡◌, ◌∷◌, [], ◌++◌, ◌+◌, ◌*◌, ◌<◌, ◌≤◌, length, MatchOption};
ghost use Rattle.model.specs.Printing.{decimal, signed, spaced, spaced_all, feed, answer_line, match_line};
ghost use Rattle.model.specs.Printing.{open_line, quiet_line};
ghost use Rattle.columns.specs.Columns.{status_of};
ghost use Rattle.state.specs.Views.{said_in};
ghost use Rattle.reads.specs.Reads.{read_of};
ghost use Rattle.prints.specs.Printed.{Printed};

use reads::MatchRead;
use state::Said;

// A byte.
fn put(out: &mut [u8], at: usize, byte: u8) -> usize
    requires { at + 1 ≤ length out.old }
    ensures { Printed out.old at (byte ∷ []) result out.new }
{
    out[at] = byte;
    at + 1
}

// A text.
fn put_text(out: &mut [u8], at: usize, text: &[u8]) -> usize
    requires { at + length text.now ≤ length out.old }
    ensures { Printed out.old at text.now result out.new }
{
    let end = at + text.len();
    out[at..end].copy_from_slice(text);
    end
}

// The digits of a number.
#[tactic(auto, using(crate::proofs::Decimals::length_small, crate::proofs::Decimals::length_more))]
fn put_digits(out: &mut [u8], at: usize, n: u64) -> usize
    requires { at + length (decimal n) ≤ length out.old }
    ensures { Printed out.old at (decimal n) result out.new }
{
    if n < 10 {
        return put(out, at, b'0' + n as u8);
    }
    let next = put_digits(out, at, n / 10);
    put(out, next, b'0' + (n % 10) as u8)
}

// A number with its minus.
#[tactic(auto, using(crate::proofs::Decimals::digits_63))]
fn put_signed(out: &mut [u8], at: usize, x: i64) -> usize
    requires { at + 20 ≤ length out.old }
    ensures printed { Printed out.old at (signed x) result out.new }
    ensures upper_bound { result ≤ at + 20 }
{
    let n = x.unsigned_abs();
    if x >= 0 {
        return put_digits(out, at, n);
    }
    let next = put(out, at, b'-');
    put_digits(out, next, n)
}

// A number after a space.
#[tactic(auto, using(crate::proofs::Decimals::digits_16))]
fn put_spaced(out: &mut [u8], at: usize, n: u16) -> usize
    requires { at + 6 ≤ length out.old }
    ensures printed { Printed out.old at (spaced n) result out.new }
    ensures upper_bound { result ≤ at + 6 }
{
    let next = put(out, at, b' ');
    put_digits(out, next, u64::from(n))
}

// A word, a space and a number.
fn put_named(out: &mut [u8], at: usize, name: &[u8], n: u16) -> usize
    requires { at + length name.now + 6 ≤ length out.old }
    ensures printed { Printed out.old at (name.now ++ spaced n) result out.new }
    ensures upper_bound { result ≤ at + length name.now + 6 }
{
    let next = put_text(out, at, name);
    put_spaced(out, next, n)
}

// The line of a word alone.
fn put_alone(out: &mut [u8], at: usize, name: &[u8]) -> usize
    requires { at + length name.now + 1 ≤ length out.old }
    ensures printed { Printed out.old at (name.now ++ feed) result out.new }
    ensures upper_bound { result ≤ at + length name.now + 1 }
{
    let next = put_text(out, at, name);
    put(out, next, b'\n')
}

// The word of an answer, and the number beside it: a refusal's, or that of a message or match.
#[tactic(auto, unfolding(model::specs::Printing::words))]
fn word_and_number(said: Said) -> (&'static [u8], Option<u16>)
    ensures line { MatchOption result.1 (answer_line (said_in said) ≡ result.0.now ++ feed)
        (λ n. answer_line (said_in said) ≡ result.0.now ++ spaced n ++ feed) }
    ensures upper_bound { length result.0.now ≤ 9 }
{
    match said {
        Said::Item(n) => (b"item", Some(n)),
        Said::Looked(n) => (b"looked", Some(n)),
        Said::Missed => (b"missed", None),
        Said::Claimed(n) => (b"claimed", Some(n)),
        Said::Lost(n) => (b"lost", Some(n)),
        Said::Reverted(n) => (b"reverted", Some(n)),
        Said::Matched(n) => (b"matched", Some(n)),
        Said::Consumed(n) => (b"consumed", Some(n)),
        Said::Told(n) => (b"told", Some(n)),
        Said::Woke(n) => (b"woke", Some(n)),
        Said::Freed(n) => (b"freed", Some(n)),
        Said::Signalled(n) => (b"signalled", Some(n)),
        Said::Again => (b"again", None),
        Said::Ended => (b"ended", None),
        Said::Rested => (b"rested", None),
        Said::Answered(n) => (b"answered", Some(n)),
        Said::Resumed => (b"resumed", None),
        Said::Refused(n) => (b"refused", Some(u16::from(n))),
        Said::Closed => (b"closed", None),
    }
}

// The line of an answer.
pub fn put_answer(out: &mut [u8], at: usize, said: Said) -> usize
    requires { at + 16 ≤ length out.old }
    ensures printed { Printed out.old at (answer_line (said_in said)) result out.new }
    ensures upper_bound { result ≤ at + 16 }
{
    let (word, number) = word_and_number(said);
    let Some(n) = number else {
        return put_alone(out, at, word);
    };
    let next = put_named(out, at, word, n);
    put(out, next, b'\n')
}

// Numbers, each after a space.
fn put_items(out: &mut [u8], at: usize, numbers: &[u16]) -> usize
    requires { at + 6 * length numbers.now ≤ length out.old }
    ensures printed { Printed out.old at (spaced_all numbers.now) result out.new }
    ensures upper_bound { result ≤ at + 6 * length numbers.now }
{
    let mut next = at;
    for n in numbers {
        next = put_spaced(out, next, *n);
    }
    next
}

// The line of match k.
pub fn put_match(out: &mut [u8], at: usize, k: u16, m: MatchRead) -> usize
    requires { (at + 104 ≤ length out.old) × (m.len ≤ 8) }
    ensures printed { Printed out.old at (match_line k (read_of m)) result out.new }
    ensures upper_bound { result ≤ at + 104 }
{
    let next = put_named(out, at, b"match", k);
    let next = put_named(out, next, b" rule", u16::from(m.chord));
    let next = put_text(out, next, b" cents ");
    let next = put_signed(out, next, m.cents);
    let next = put_text(out, next, b" items");
    let next = put_items(out, next, &m.messages[..usize::from(m.len)]);
    put(out, next, b'\n')
}

// The line of a message that is not consumed.
pub fn put_open(out: &mut [u8], at: usize, n: u16, status: u8) -> usize
    requires { (at + 19 ≤ length out.old) × (status < 3) }
    ensures printed { Printed out.old at (open_line n (status_of status)) result out.new }
    ensures upper_bound { result ≤ at + 19 }
{
    let next = put_named(out, at, b"open", n);
    match status {
        0 => put_alone(out, next, b" pending"),
        1 => put_alone(out, next, b" claimed"),
        _ => put_alone(out, next, b" woken"),
    }
}

// The last line.
pub fn put_quiet(out: &mut [u8], at: usize, quiet: bool) -> usize
    requires { at + 10 ≤ length out.old }
    ensures { Printed out.old at (quiet_line quiet) result out.new }
{
    if quiet {
        put_alone(out, at, b"quiet yes")
    } else {
        put_alone(out, at, b"quiet no")
    }
}
