// Lists of calls (rule 6.7): rows that do not fit, too little room for the answers, the run of table P, also on a table
// that wants equal units, closes, and the last messages of senders.
use crate::acts;
use crate::tables::{ONE, P, UNITS};
use std::io::Stdout;

pub fn lines(stdout: Stdout) {
    acts::section(
        stdout,
        &P,
        "",
        "two rows, room for two|w 8 4 2 2\n\
        three rows, room for three|w 12 6 3 3\n\
        two rows, room for three|w 8 4 2 3\n\
        no rows, no room|w 0 0 0 0\n\
        a unit less|w 7 4 2 2\n\
        a number of the calls more|w 9 4 2 2\n\
        calls without units|w 6 4 2 2\n\
        four rows without units|w 12 8 4 4\n\
        a day less|w 8 3 2 2\n\
        a property more|w 8 5 2 2\n\
        properties alone|w 8 2 2 2\n\
        an amount less|w 8 4 1 2\n\
        an amount more|w 8 4 3 2\n\
        rows and no amounts|w 8 4 0 2\n\
        room for one|w 8 4 2 1\n\
        no room|w 8 4 2 0\n\
        30 before 31|w 7 4 2 0\n\
        rows that fit, a board that is not sound|n 0 1025;w 8 4 2 2\n\
        rows that fit, a board of 675 numbers|L 0 675;w 8 4 2 2\n\
        rows that fit, a board of 707 numbers|L 0 707;w 8 4 2 2\n\
        rows that fit, a board of 722 numbers|L 0 722;w 8 4 2 2\n\
        rows that fit, an add too many|n 706 1;w 8 4 2 2\n\
        rows that fit, 529 adds of desk 0|n 0 529;n 675 529;w 8 4 2 2\n\
        rows that fit, keys of 2,048 numbers|L 3 2048;w 8 4 2 2\n\
        rows that fit, flag of the close day 2|n 674 2;w 8 4 2 2\n\
        the run of P|w 80 40 20 20;k 0;q;r 0;m 0 1 7 0 0 3;m 1 0 7 5000 0 65535\n",
    );
    acts::section(
        stdout,
        &UNITS,
        "",
        "the run, units wanted|w 80 40 20 20;k 0;q;r 0\n",
    );
    acts::section(stdout, b"", "", "1 before 30|w 7 4 2 0\n");
    closes(stdout);
    shares(stdout);
}

// The last messages that a sender may add, in rows.
fn shares(stdout: Stdout) {
    acts::section(
        stdout,
        &ONE,
        "",
        "items 527 and 528 in rows|n 0 526;n 675 526;p 1 0 0 1 0,0 0 0 0 0,1 0 0 1 0,0 0 0 0 0,1 0 0 1 0,1 1 0 1 0\
        ;a 0 0 7 1;s 1\n\
        rows that are all refused|n 0 528;n 675 528;p 1 0 0 1 0,1 0 0 1 0\n\
        the last of a share in rows|n 0 543;n 675 528 15;p 1 1 1 1 0,1 1 0 1000000000000 0,1 1 0 1 0,1 1 0 1 0\
        ,0 1 0 0 0,1 1 0 1 0,1 0 0 1 0,1 2 0 1 0;a 1 0 7 1;s 2\n\
        refusals in rows before 26|n 0 528;n 675 528;p 2 0 0 0 5,1 32 1 1000000000000 5,1 0 1 1000000000000 5\
        ,1 0 0 1000000000000 5,1 0 0 1 5,1 0 0 1000000000000 6,1 0 0 1 6,1 1 0 1 6,0 0 0 0 0,1 1 1 1000000000000 5\n\
        items 1,023 and 1,024 in rows|n 0 1022;T 16;n 675 528;n 706 14;p 1 31 0 1 0,0 31 0 0 0,1 0 0 1 0,1 31 0 1 0\
        ,0 31 0 0 0,1 31 0 1 0,1 0 0 1 0,1 16 0 1 0;a 31 0 7 1;q\n",
    );
}

// Rows of kind 2, which are closes, among others.
fn closes(stdout: Stdout) {
    acts::section(
        stdout,
        &P,
        "",
        "a close in a row|p 2 0 0 0 5;a 0 0 7 1 5;a 0 0 7 1 6\n\
        a close in a row, all else out of range|p 2 65535 65535 1000000000000 5;a 0 0 7 1 5;a 0 0 7 1 6\n\
        kinds 3, 256, 258 and 65,535|p 3 0 0 1 5,256 1 0 1 5,258 2 0 1 5,65535 3 0 1 5;z 0\n\
        closes and adds|p 1 0 0 1 0,2 0 0 0 5,2 0 0 0 4,2 0 0 0 5,1 1 0 1 5,1 1 0 1 6,2 0 0 0 6,1 2 0 1 6,1 2 0 1 7\
        ;z 5;z 6\n\
        refusals in rows|p 2 0 0 0 5,1 32 2 1000000000000 5,1 0 2 1000000000000 5,1 0 0 1000000000000 5,1 0 0 1 5\
        ,1 0 0 1000000000000 6,1 0 0 1 6,1 0 2 1000000000000 5,0 1 0 0 0,2 0 0 0 4\n\
        closes of the day that is closed and of one before|z 5;p 2 0 0 0 5,2 0 0 0 4\n\
        closes one after another|p 2 0 0 0 0,2 0 0 0 4294967295,2 0 0 0 0;p 2 0 0 0 4294967295,1 0 0 1 4294967295\n\
        a close in a row, a board that is not sound|n 0 1025;p 2 0 0 0 5\n\
        a close in a row, flag of the close day 2|n 674 2;p 2 0 0 0 5\n\
        the run of P with closes|p 1 0 1 0 1,0 0 0 0 0,0 0 0 0 0,1 1 0 5000 2,2 0 0 0 9,0 1 0 0 0,0 1 0 0 0,0 1 0 0 0\
        ,0 1 0 0 0,0 1 0 0 0,0 1 0 0 0,0 1 0 0 0,2 0 0 0 9,0 0 0 0 0,0 0 0 0 0,0 0 0 0 0,0 0 0 0 0,0 0 0 0 0\
        ,0 0 0 0 0,0 0 0 0 0;k 0;q;r 0;m 0 1 7 0 1;m 1 0 7 5000 2\n",
    );
}
