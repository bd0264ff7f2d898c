// Full boards: the last message, and refusals in their order.
use crate::acts;
use crate::tables::ONE;
use scripts::say;
use scripts::script::Part;
use scripts::world::World;
use state::Said;
use std::io::Stdout;

fn is_said(said: Said, answer: u32) -> bool {
    plays::answer_number(said) == answer
}

// Whose message n is: the senders' in turn; or 528 are the first sender's, and then each other has 16.
fn whose(alone: bool, n: u16) -> u16 {
    if !alone {
        n % 32
    } else if n < 528 {
        0
    } else {
        1 + (n - 528) / 16
    }
}

// An add of sender i and one step, which ends it; whether the answers are message n and 851968.
fn is_added(stdout: Stdout, table: &[u8], w: &mut World, i: u16, n: u16) -> bool {
    let added = w.ask(stdout, table, &Part::ask('a', i));
    let ended = w.ask(stdout, table, &Part::ask('s', i));
    is_said(added, u32::from(n)) && is_said(ended, 851968)
}

// The messages from one number up to another.
pub fn fill(stdout: Stdout, table: &[u8], w: &mut World, alone: bool, from: u16, to: u16) {
    let refused = (from..to).find(|n| !is_added(stdout, table, w, whose(alone, *n), *n));
    let n = refused.unwrap_or(to);
    say::word(stdout, "taken", n);
    say::word(stdout, ", ended", n);
    say::text(stdout, "\n");
}

// Adds to a full board where day 5 is closed, whose last sender is at work.
fn closed(stdout: Stdout, table: &[u8], full: &World) {
    acts::lines(
        stdout,
        table,
        full,
        "full, closed, desk 32, tray and cents out of range|z 5;a 32 1 7 1000000000000 5\n\
        full, closed, desk at work, the same|z 5;a 31 1 7 1000000000000 5\n\
        full, closed, desk idle, the same|z 5;a 0 1 7 1000000000000 5\n\
        full, closed, cents out of range|z 5;a 0 0 7 1000000000000 5\n\
        full, closed|z 5;a 0 0 7 1 5\n\
        full, closed, the day after, cents out of range|z 5;a 0 0 7 1000000000000 6\n\
        full, closed, the day after|z 5;a 0 0 7 1 6\n\
        full, closed, a day before|z 5;z 4\n\
        full, closed, item 1,023|z 5;m 1023 0 7 1\n\
        full, closed, step|z 5;s 31\n\
        full, closed, step of an idle desk|z 5;s 30\n",
    );
}

// An add of each sender.
pub fn everyone(stdout: Stdout, table: &[u8], w: &World) {
    acts::lines(
        stdout,
        table,
        w,
        "every desk|a 0 0 7 1\
        ;a 1 0 7 1;a 2 0 7 1;a 3 0 7 1;a 4 0 7 1;a 5 0 7 1;a 6 0 7 1;a 7 0 7 1;a 8 0 7 1;a 9 0 7 1;a 10 0 7 1\
        ;a 11 0 7 1;a 12 0 7 1;a 13 0 7 1;a 14 0 7 1;a 15 0 7 1;a 16 0 7 1;a 17 0 7 1;a 18 0 7 1;a 19 0 7 1\
        ;a 20 0 7 1;a 21 0 7 1;a 22 0 7 1;a 23 0 7 1;a 24 0 7 1;a 25 0 7 1;a 26 0 7 1;a 27 0 7 1;a 28 0 7 1\
        ;a 29 0 7 1;a 30 0 7 1;a 31 0 7 1\n",
    );
}

// Calls of a full board, whose last sender is at work.
fn open(stdout: Stdout, table: &[u8], full: &World) {
    acts::lines(
        stdout,
        table,
        full,
        "full, desk 32, tray and cents out of range|a 32 1 7 1000000000000\n\
        full, desk at work, the same|a 31 1 7 1000000000000\n\
        full, desk idle, the same|a 0 1 7 1000000000000\n\
        full, cents out of range|a 0 0 7 1000000000000\n\
        full|a 0 0 7 1\n\
        full, item 1,023|m 1023 0 7 1\n\
        full, item 1,024|m 1024 0 7 1\n\
        full, step|s 31\n\
        full, step of an idle desk|s 30\n",
    );
}

// The last message, which is a common one and so may be anybody's; then calls of the full board.
pub fn lines(stdout: Stdout) {
    let mut w = World::opened(stdout, &ONE, 0);
    fill(stdout, &ONE, &mut w, false, 0, 1023);
    acts::lines(
        stdout,
        &ONE,
        &w,
        "item 1,024, desk 0|a 0 0 7 1;s 0;a 0 0 7 1;a 31 0 7 1\n",
    );
    acts::play(stdout, &ONE, &mut w, "item 1,024|a 31 0 7 1\n");
    open(stdout, &ONE, &w);
    everyone(stdout, &ONE, &w);
    closed(stdout, &ONE, &w);
}
