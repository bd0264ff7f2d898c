// Messages of days that were closed once they were added: they match as before, and a close in between changes nothing.
use crate::acts;
use crate::tables::{P, Q, TWO};
use std::io::Stdout;

// Which message a look takes, among closed days and others.
fn looks(stdout: Stdout) {
    acts::section(
        stdout,
        &TWO,
        "",
        "days 9 and 3, closed|a 0 0 7 1 9;a 1 0 7 1 3;a 2 1 7 1 5;z 9;s 2;s 2;s 2;s 2;s 2;s 2;k 0;m 1 0 7 1 3\n\
        days 3 and 10, 9 closed between|a 0 0 7 1 3;z 9;a 1 0 7 1 10;a 2 1 7 1 10;s 2;s 2;s 2;s 2;s 2;s 2;k 0\n\
        days 10 and 3, 9 closed after|a 0 0 7 1 10;a 1 0 7 1 3;z 9;a 2 1 7 1 10;s 2;s 2;s 2;s 2;s 2;s 2;k 0\n\
        claimed, then closed|a 0 0 7 1 3;a 1 1 7 1 3;a 2 1 7 1 3;s 1;s 1;s 2;s 2;s 1;z 9;s 2;s 2;s 1;s 1;s 1;s 2;s 2\n",
    );
}

// The run of table P: both messages closed at once, and a close after each call.
fn run(stdout: Stdout) {
    acts::section(
        stdout,
        &P,
        "",
        "the run of P, closed|a 0 1 7 1 3;s 0;s 0;a 1 0 7 1 4;z 9;a 2 0 7 1 9;s 1;s 1;s 1;s 1;s 1;s 1;s 1\
        ;s 0;s 0;s 0;s 0;s 0;s 0;s 0;k 0;q;r 0;m 0 1 7 1 3;m 1 0 7 1 4\n\
        the run of P, a close after each call|a 0 1 7 1;z 0;s 0;z 1;s 0;z 2;a 1 0 7 1 3;z 3;s 1;z 4;s 1;z 5;s 1;z 6\
        ;s 1;z 7;s 1;z 8;s 1;z 9;s 1;z 10;s 0;z 11;s 0;z 12;s 0;z 13;s 0;z 14;s 0;z 15;s 0;z 16;s 0;z 17;s 0;q\n",
    );
}

// Signals that were set before a close: of a woken message, and of one that another sender's match consumed.
fn signals(stdout: Stdout) {
    acts::section(
        stdout,
        &P,
        "desk 0 signalled|a 0 1 7 1 3;s 0;s 0;a 1 0 7 1 4;s 1;s 1;s 1;s 1;s 1;s 1;s 1\n",
        "woken, closed|q;z 9;q;s 0;s 0\n\
        woken, closed, refused|z 9;z 8;a 1 0 7 1 9;q;s 0;s 0\n",
    );
    acts::section(
        stdout,
        &Q,
        "desk 0 told|a 0 1 7 1 3;s 0;s 0;s 0;s 0;a 1 0 7 1 4;a 2 2 7 1 5;s 2;s 2;s 2;s 2;s 2;s 2;s 2;s 2;s 2;s 2\n",
        "told, closed|r 0;z 9;q;r 0;s 0;r 0\n",
    );
    acts::section(
        stdout,
        &P,
        "desk 0 blocks, closed|a 0 1 7 1 3;s 0;s 0;z 9\n",
        "no signal|s 0;q\n",
    );
}

pub fn lines(stdout: Stdout) {
    looks(stdout);
    run(stdout);
    signals(stdout);
}
