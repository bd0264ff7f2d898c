// One sender alone: 528 messages, then refusals in their order, while each other sender still has its 16.
use crate::tables::{ONE, P, TWO};
use crate::{acts, full};
use scripts::world::World;
use std::io::Stdout;

// Adds of sender 0, which is at work on the last message that it may add: each of the grounds before 26 with it; then
// 26 alone.
fn order(stdout: Stdout, table: &[u8], last: &World) {
    acts::lines(
        stdout,
        table,
        last,
        "spent, desk 32|a 32 0 7 1\n\
        spent, at work|a 0 0 7 1\n\
        spent, no such tray|s 0;a 0 1 7 1\n\
        spent, a closed day|s 0;z 5;a 0 0 7 1 5\n\
        spent, cents 1,000,000,000,000|s 0;a 0 0 7 1000000000000\n\
        spent, cents -1,000,000,000,000|s 0;A 0 0 7 999999999999\n\
        spent, all of these|z 5;a 32 1 7 1000000000000 5;a 0 1 7 1000000000000 5;s 0;a 0 1 7 1000000000000 5\
        ;a 0 0 7 1000000000000 5;a 0 0 7 1000000000000 6\n\
        spent, the day after|s 0;z 5;a 0 0 7 1 6\n\
        spent, cents 999,999,999,999|s 0;a 0 0 7 999999999999\n\
        spent|s 0;a 0 0 7 1;a 0 0 7 1;s 0\n\
        spent, opened anew|s 0;a 0 0 7 1;o;a 0 0 7 1\n",
    );
}

// Of each other sender its 16, which are 1,024 with those of sender 0.
fn others(stdout: Stdout, table: &[u8], spent: &World) {
    let mut w = *spent;
    full::fill(stdout, table, &mut w, true, 528, 543);
    acts::lines(
        stdout,
        table,
        &w,
        "desk 1, its last|a 1 0 7 1;a 1 0 7 1;s 1;a 1 0 7 1;a 0 0 7 1;a 2 0 7 1\n\
        desk 1, its last, after adds that are refused|a 1 1 7 1;a 1 0 7 1000000000000;z 5;a 1 0 7 1 5;a 0 0 7 1 6\
        ;a 1 0 7 1 6;s 1;a 1 0 7 1 6\n",
    );
    full::fill(stdout, table, &mut w, true, 543, 1023);
    acts::play(
        stdout,
        table,
        &mut w,
        "item 1,024, desk 31|a 31 0 7 1;s 31\n",
    );
    full::everyone(stdout, table, &w);
}

// The last message of sender 0 is matched, by itself or by another, which gives nothing back; whose tally an add moves,
// since with that tally as it was the board is not sound; and every call where sender 0 has added all that it may: on a
// list too short, as it is, and under no table.
fn sections(stdout: Stdout) {
    acts::section(
        stdout,
        &TWO,
        "",
        "item 528, matched|n 0 527;n 675 527;a 0 1 7 1;s 0;s 0;s 0;s 0;s 0;s 0;a 0 0 7 1;q\n\
        item 528 and another's, matched|n 0 528;n 675 528;a 1 1 7 1;s 1;s 1;s 1;s 1;s 1;s 1;a 0 0 7 1;a 1 0 7 1\n",
    );
    acts::section(
        stdout,
        &P,
        "",
        "item 528, waiting|n 0 527;n 675 527;a 0 1 7 1;s 0;s 0;a 0 0 7 1;a 1 0 7 1;s 1;s 1;s 1;s 1;s 1;s 1;s 1\
        ;s 0;s 0;s 0;s 0;s 0;s 0;s 0;a 0 0 7 1;a 1 0 7 1\n\
        an add of desk 0|a 0 0 7 1;n 675 0;s 0;n 675 2;s 0;n 675 1;s 0\n\
        an add of desk 5|a 5 0 7 1;n 680 0;s 5;n 680 2;s 5;n 680 1;s 5\n\
        an add of desk 31|a 31 0 7 1;n 706 0;s 31;n 706 2;s 31;n 706 1;s 31\n\
        30 before 26|n 0 528;n 675 528;L 4 1023;y 0\n\
        26|n 0 528;n 675 528;y 0\n",
    );
    acts::section(stdout, b"", "", "1 before 26|n 0 528;n 675 528;y 0\n");
}

// 528 messages of sender 0, the last of which it is at work on at first.
pub fn lines(stdout: Stdout) {
    let mut w = World::opened(stdout, &ONE, 0);
    full::fill(stdout, &ONE, &mut w, true, 0, 527);
    acts::play(stdout, &ONE, &mut w, "item 528|a 0 0 7 1\n");
    order(stdout, &ONE, &w);
    acts::play(stdout, &ONE, &mut w, "item 528, step|s 0\n");
    full::everyone(stdout, &ONE, &w);
    others(stdout, &ONE, &w);
    sections(stdout);
}
