// Closed days: the adds and the closes that are refused for them, in their order.
use crate::acts;
use crate::tables::{ONE, P};
use std::io::Stdout;

// Adds on an empty board, none closed, and after a close.
fn days(stdout: Stdout) {
    acts::section(
        stdout,
        &ONE,
        "",
        "none closed, day 0|a 0 0 7 1\n\
        0 closed, day 0|z 0;a 0 0 7 1\n\
        0 closed, day 1|z 0;a 0 0 7 1 1\n\
        5 closed, day 0|z 5;a 0 0 7 1\n\
        5 closed, day 4|z 5;a 0 0 7 1 4\n\
        5 closed, day 5|z 5;a 0 0 7 1 5\n\
        5 closed, day 6|z 5;a 0 0 7 1 6;m 0 0 7 1 6\n\
        5 closed, day 4,294,967,295|z 5;a 0 0 7 1 4294967295\n\
        5 closed, days 5 and 6, desk 31|z 5;a 31 0 7 1 5;a 31 0 7 1 6\n\
        256 closed, day 1|z 256;a 0 0 7 1 1\n\
        65,536 closed, day 1|z 65536;a 0 0 7 1 1\n\
        2,147,483,647 closed, day 2,147,483,648|z 2147483647;a 0 0 7 1 2147483648\n\
        2,147,483,648 closed, day 2,147,483,647|z 2147483648;a 0 0 7 1 2147483647\n\
        4,294,967,294 closed, days 4,294,967,294 and 4,294,967,295|z 4294967294;a 0 0 7 1 4294967294\
        ;a 0 0 7 1 4294967295\n\
        4,294,967,295 closed, days 0, 4,294,967,294 and 4,294,967,295|z 4294967295;a 0 0 7 1;a 0 0 7 1 4294967294\
        ;a 0 0 7 1 4294967295\n",
    );
}

// Closes one after another, and adds of the last close day and the day after.
fn again(stdout: Stdout) {
    acts::section(
        stdout,
        &ONE,
        "",
        "5, then 4|z 5;z 4;a 0 0 7 1 5;a 0 0 7 1 6\n\
        5, then 0|z 5;z 0;a 0 0 7 1 5;a 0 0 7 1 6\n\
        5, then 5|z 5;z 5;a 0 0 7 1 5;a 0 0 7 1 6\n\
        5, then 6|z 5;z 6;a 0 0 7 1 6;a 0 0 7 1 7\n\
        5, then 4, 5, 6 and 5|z 5;z 4;z 5;z 6;z 5;a 0 0 7 1 6;a 0 0 7 1 7\n\
        0, then 0|z 0;z 0;a 0 0 7 1;a 0 0 7 1 1\n\
        256, then 255|z 256;z 255\n\
        65,536, then 65,535|z 65536;z 65535\n\
        2,147,483,647, then 2,147,483,648|z 2147483647;z 2147483648\n\
        2,147,483,648, then 2,147,483,647|z 2147483648;z 2147483647\n\
        0, then 4,294,967,295|z 0;z 4294967295;a 0 0 7 1 4294967295\n\
        4,294,967,295, then 4,294,967,295|z 4294967295;z 4294967295;a 0 0 7 1 4294967295\n\
        4,294,967,295, then 4,294,967,294 and 0|z 4294967295;z 4294967294;z 0;a 0 0 7 1 4294967295\n",
    );
}

// Refusals in their order, where sender 0 is blocked; then what a close does not refuse.
fn order(stdout: Stdout) {
    acts::section(
        stdout,
        &P,
        "desk 0 blocks, 5 closed|a 0 1 7 1;s 0;s 0;z 5\n",
        "8 before 19|a 32 0 7 1 5\n\
        9 before 19|a 0 0 7 1 5\n\
        10 before 19|a 1 2 7 1 5\n\
        8 before 9, 10, 19 and 11|a 32 2 7 1000000000000 5\n\
        9 before 10, 19 and 11|a 0 2 7 1000000000000 5\n\
        10 before 19 and 11|a 1 2 7 1000000000000 5\n\
        19 before 11|a 1 0 7 1000000000000 5\n\
        19 before 11, cents -1,000,000,000,000|A 1 0 7 999999999999 5\n\
        19|a 1 0 7 1 5\n\
        11, the day after|a 1 0 7 1000000000000 6\n\
        the day after|a 1 0 7 1 6\n\
        closed, step of desk 32|s 32\n\
        closed, blocked|s 0\n\
        closed, idle|s 1\n\
        closed, item 0|m 0 1 7 1\n\
        closed, item 1|m 1 1 7 1\n\
        closed, match 0|k 0\n\
        closed, slip|r 0\n\
        closed, quiet|q\n",
    );
}

// Every call on an empty board with day 33 closed, under tables that are refused: by the first number and the last.
fn tables(stdout: Stdout) {
    let mut table = P;
    table[18] = 2;
    acts::section(
        stdout,
        b"",
        "",
        "1 before 19 and 20|n 674 1;K 2048 33;y 32\n",
    );
    acts::section(
        stdout,
        &table,
        "",
        "7 before 19 and 20|n 674 1;K 2048 33;y 32\n",
    );
    acts::section(
        stdout,
        &P,
        "",
        "30 before 19 and 20|n 674 1;K 2048 33;L 4 1023;y 0\n\
        19 and 20|n 674 1;K 2048 33;y 0\n",
    );
}

// A close day that is not read, as its flag is 0: it stays, also when a board is opened anew.
fn unread(stdout: Stdout) {
    acts::section(
        stdout,
        &ONE,
        "",
        "unread close day 4,294,967,295|K 2048 4294967295;a 0 0 7 1\n\
        unread close day 4,294,967,295, 0 closed|K 2048 4294967295;z 0;a 0 0 7 1;a 0 0 7 1 1\n\
        unread close day 5, its flag set|K 2048 5;a 0 0 7 1;s 0;n 674 1;a 0 0 7 1 5;a 0 0 7 1 6\n\
        5 closed, opened anew|z 5;o;a 0 0 7 1\n\
        5 closed, opened anew, its flag set|z 5;o;n 674 1;a 0 0 7 1 5;a 0 0 7 1 6\n",
    );
}

pub fn lines(stdout: Stdout) {
    days(stdout);
    again(stdout);
    order(stdout);
    tables(stdout);
    unread(stdout);
}
