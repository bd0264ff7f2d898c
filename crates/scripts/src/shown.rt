// Reads, as words.
use crate::say;
use crate::script::Part;
use boards::Sent;
use calls::{MatchAnswer, MessageAnswer, QuietRead, ReplyRead};
use reads::MatchRead;
use std::io::Stdout;

fn quiet(stdout: Stdout, r: QuietRead) {
    say::next(stdout, r.number);
    if r.quiet {
        say::text(stdout, " quiet");
    }
}

fn reply(stdout: Stdout, r: ReplyRead) {
    say::next(stdout, r.number);
    say::word(stdout, " reply", r.reply);
}

fn numbers(stdout: Stdout, q: u8, r: u8, m: u8, k: u8) {
    for n in [q, r, m, k] {
        say::next(stdout, n);
    }
}

// A message's number, and whether channel, property, cents, day and unit are these.
fn message(stdout: Stdout, r: MessageAnswer, x: Sent) {
    let m = r.message;
    say::next(stdout, r.number);
    let told = u16::from(m.channel) == x.channel && m.property == x.property && m.cents == x.cents;
    if told && m.day == x.day && m.unit == x.unit {
        say::text(stdout, " as sent");
    }
}

// A match's chord, length and first messages.
fn members(stdout: Stdout, m: MatchRead) {
    let [first, second, ..] = m.messages;
    say::word(stdout, " rule", u16::from(m.chord));
    say::word(stdout, " members", u16::from(m.len));
    say::word(stdout, " items", first);
    say::word(stdout, "", second);
}

fn matched(stdout: Stdout, r: MatchAnswer) {
    say::next(stdout, r.number);
    if r.number == 0 {
        members(stdout, r.read);
    }
    if r.read.cents == 5000 {
        say::text(stdout, " cents 5000");
    }
}

// The read of a part, or with letter v the numbers of all: quiet, sender n's reply, message 0 and match 0.
pub fn reads(
    stdout: Stdout,
    table: &[u8],
    board: &[u16],
    bytes: &[u8],
    links: &[u16],
    keys: &[u32],
    cents: &[i64],
    p: &Part,
) {
    let n = p.small(0);
    let at = if p.kind == 'v' { 0 } else { n };
    let q = calls::read_quiet(table, board, bytes, links, keys, cents);
    let r = calls::read_reply(table, board, bytes, links, keys, cents, n);
    let m = calls::read_message(table, board, bytes, links, keys, cents, at);
    let k = calls::read_match(table, board, bytes, links, keys, cents, at);
    match p.kind {
        'q' => quiet(stdout, q),
        'r' => reply(stdout, r),
        'k' => matched(stdout, k),
        'v' => numbers(stdout, q.number, r.number, m.number, k.number),
        _ => message(stdout, m, p.sent(1)),
    }
}
