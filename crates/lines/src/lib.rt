// A line of the program's input read as a call. Bytes are ASCII.
#![tactic(auto)]

ghost use Rattle.std.specs.Prelude.{◌≡◌, ◌==◌, ◌<◌, ◌≤◌, [], ◌∷◌, length, MatchOption, IfSome};
ghost use Rattle.std.specs.Bool.{then_some};
ghost use Rattle.std.specs.List.{position, position_or_len, before_first, after_first};
ghost use Rattle.model.specs.Lines.{cut_at, fields_of, digits_value, is_number, is_magnitude, is_cents, cents_from};
ghost use Rattle.model.specs.Lines.{add_of, add_line, step_line, line_of};
ghost use Rattle.lines.specs.Views.{line_in};

use boards::{Call, Sent};

// The place of the first such byte.
fn place_of(s: &[u8], byte: u8) -> Option<usize>
    ensures { result ≡ position (λ x. x == byte) s.now }
{
    s.iter().position(|x| *x == byte)
}

// The bytes before the first such byte, and those after it; none where there is no such byte.
#[tactic(auto, using(crate::proofs::Fields::cut_none, crate::proofs::Fields::cut_some, model::proofs::Parts::to_end))]
pub fn split_once(s: &[u8], byte: u8) -> Option<(&[u8], &[u8])>
    ensures first { MatchOption result (length s.now ≤ position_or_len (λ x. x == byte) s.now)
        (λ p. (position_or_len (λ x. x == byte) s.now < length s.now)
        × (p.0.now ≡ before_first (λ x. x == byte) s.now)
        × (p.1.now ≡ after_first (λ x. x == byte) s.now)) }
    ensures parts { MatchOption result (cut_at byte s.now ≡ s.now ∷ [])
        (λ p. cut_at byte s.now ≡ p.0.now ∷ cut_at byte p.1.now) }
{
    let n = place_of(s, byte)?;
    Some((&s[..n], &s[n + 1..]))
}

// The number that a field is, up to the most that it may be.
#[tactic(auto, using(crate::proofs::Digits::number_none, crate::proofs::Digits::number_is))]
fn number(s: &[u8], most: u64) -> Option<u64>
    requires { most ≤ 999999999999999999 }
    ensures value { result ≡ then_some (is_number most s.now) (digits_value s.now) }
    ensures upper_bound { IfSome result (λ n. n ≤ most) }
{
    if s.is_empty() {
        return None;
    }
    let mut n = 0;
    for x in s {
        if !x.is_ascii_digit() {
            return None;
        }
        n = 10 * n + u64::from(*x - b'0');
        if n > most {
            return None;
        }
    }
    Some(n)
}

// A number of at most 18 digits.
#[tactic(auto, using(crate::proofs::Digits::magnitude_none, crate::proofs::Digits::magnitude_is))]
fn magnitude(s: &[u8]) -> Option<u64>
    ensures value { result ≡ then_some (is_magnitude s.now) (digits_value s.now) }
    ensures upper_bound { IfSome result (λ n. n ≤ 999999999999999999) }
{
    if s.len() > 18 {
        return None;
    }
    number(s, 999999999999999999)
}

// The cents of a field, with a minus or without.
#[tactic(auto, using(crate::proofs::Digits::cents))]
fn cents_of(s: &[u8]) -> Option<i64>
    ensures { result ≡ then_some (is_cents s.now) (cents_from s.now) }
{
    match s {
        [b'-', digits @ ..] => Some(-(magnitude(digits)? as i64)),
        _ => Some(magnitude(s)? as i64),
    }
}

// An add by its six fields.
#[tactic(auto, unfolding(model::specs::Lines::add_of))]
fn add_of(
    sender: &[u8],
    channel: &[u8],
    property: &[u8],
    cents: &[u8],
    day: &[u8],
    unit: &[u8],
) -> Option<Call>
    ensures { line_in result ≡ add_of sender.now channel.now property.now cents.now
        day.now unit.now }
{
    let i = number(sender, 65535)? as u16;
    let sent = Sent {
        channel: number(channel, 65535)? as u16,
        property: number(property, 4294967295)? as u32,
        cents: cents_of(cents)?,
        day: number(day, 4294967295)? as u32,
        unit: number(unit, 65535)? as u16,
    };
    Some(Call::Add(i, sent))
}

// An add by what follows the `a` and its space; a day or a unit that is missing is 0.
#[tactic(auto, using(crate::proofs::Fields::add_last))]
fn read_add(s: &[u8]) -> Option<Call>
    ensures { line_in result ≡ add_line (fields_of s.now) }
{
    let (sender, rest) = split_once(s, b' ')?;
    let (channel, rest) = split_once(rest, b' ')?;
    let (property, rest) = split_once(rest, b' ')?;
    let (cents, rest) = split_once(rest, b' ').unwrap_or((rest, b"0"));
    let (day, unit) = split_once(rest, b' ').unwrap_or((rest, b"0"));
    add_of(sender, channel, property, cents, day, unit)
}

// A step by what follows the `s` and its space.
#[tactic(auto, using(crate::proofs::Fields::step_last), unfolding(model::specs::Lines::step_of))]
fn read_step(s: &[u8]) -> Option<Call>
    ensures { line_in result ≡ step_line (fields_of s.now) }
{
    let i = number(s, 65535)?;
    Some(Call::Step(i as u16))
}

// The call of a line, which is given without its line feed.
#[tactic(auto, unfolding(model::specs::Lines::line_of))]
pub fn read_line(line: &[u8]) -> Option<Call>
    ensures { line_in result ≡ line_of line.now }
{
    if line.len() > 80 {
        return None;
    }
    let (kind, rest) = split_once(line, b' ')?;
    match kind {
        b"a" => read_add(rest),
        b"s" => read_step(rest),
        _ => None,
    }
}
