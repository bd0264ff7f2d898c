// The backoff table that stands on a board from number 707 on, and the rests that senders spend by it.
use crate::tables::{P, TWO};
use crate::{acts, sound};
use std::io::Stdout;

// Tables that no sound board has, each beside one that passes; the low byte of a number does not help.
fn standing(stdout: Stdout) {
    sound::lines(
        stdout,
        "the built-in rests|x 0\n\
        rest 1 as rest 2|n 707 1;x 0\n\
        rest 1 over rest 2|n 707 2;x 0\n\
        rest 1 of 64|n 707 64;x 0\n\
        rest 8 over rest 9|n 714 9;x 0\n\
        rest 9 as rest 10|n 715 16;x 0\n\
        rest 10 as rest 9|n 716 8;x 0\n\
        rest 10 under rest 9|n 716 7;x 0\n\
        rest 15 over rest 16|n 721 33;x 0\n\
        rest 16 as rest 15|n 722 32;x 0\n\
        rest 16 under rest 15|n 722 31;x 0\n\
        rest 16 of 0|n 722 0;x 0\n\
        rest 16 of 64|n 722 64;x 0\n\
        rest 16 of 65|n 722 65;x 0\n\
        rest 16 of 255|n 722 255;x 0\n\
        rest 16 of 256|n 722 256;x 0\n\
        rest 16 of 288|n 722 288;x 0\n\
        rest 16 of 65,535|n 722 65535;x 0\n\
        rest 1 of 256|n 707 256;x 0\n\
        rest 8 of 264|n 714 264;x 0\n\
        rests of 0|n 707 0 0 0 0 0 0 0 0 0 0 0 0 0 0 0 0;x 0\n\
        rests of 1|n 707 1 1 1 1 1 1 1 1 1 1 1 1 1 1 1 1;x 0\n\
        rests of 64|n 707 64 64 64 64 64 64 64 64 64 64 64 64 64 64 64 64;x 0\n\
        rests of 65|n 707 65 65 65 65 65 65 65 65 65 65 65 65 65 65 65 65;x 0\n\
        rests of 256|n 707 256 256 256 256 256 256 256 256 256 256 256 256 256 256 256 256;x 0\n\
        rests from 1 to 16|n 707 1 2 3 4 5 6 7 8 9 10 11 12 13 14 15 16;x 0\n\
        rests from 16 to 1|n 707 16 15 14 13 12 11 10 9 8 7 6 5 4 3 2 1;x 0\n\
        rests of 0 and a rest of 64|n 707 0 0 0 0 0 0 0 0 0 0 0 0 0 0 0 64;x 0\n\
        rests of 64 and a rest of 63|n 707 64 64 64 64 64 64 64 64 64 64 64 64 64 64 64 63;x 0\n\
        rest 16 of 65, desk 32|n 722 65;y 32\n",
    );
}

// Rests after sender 0 is at it again for a number of times, and then its next step.
fn agains(stdout: Stdout) {
    sound::lines(
        stdout,
        "built-in, again 1|d 0 8 8 0 0 1 0;s 0;R 0;s 0\n\
        built-in, again 2|d 0 8 8 0 0 1 1;s 0;R 0;s 0\n\
        built-in, again 9|d 0 8 8 0 0 1 8;s 0;R 0;s 0\n\
        built-in, again 10|d 0 8 8 0 0 1 9;s 0;R 0;s 0\n\
        built-in, again 16|d 0 8 8 0 0 1 15;s 0;R 0;s 0\n\
        built-in, again 17|d 0 8 8 0 0 1 16;s 0;R 0;s 0\n\
        1 to 16, again 1|n 707 1 2 3 4 5 6 7 8 9 10 11 12 13 14 15 16;d 0 8 8 0 0 1 0;s 0;R 0;s 0\n\
        1 to 16, again 2|n 707 1 2 3 4 5 6 7 8 9 10 11 12 13 14 15 16;d 0 8 8 0 0 1 1;s 0;R 0;s 0\n\
        1 to 16, again 8|n 707 1 2 3 4 5 6 7 8 9 10 11 12 13 14 15 16;d 0 8 8 0 0 1 7;s 0;R 0;s 0\n\
        1 to 16, again 15|n 707 1 2 3 4 5 6 7 8 9 10 11 12 13 14 15 16;d 0 8 8 0 0 1 14;s 0;R 0;s 0\n\
        1 to 16, again 16|n 707 1 2 3 4 5 6 7 8 9 10 11 12 13 14 15 16;d 0 8 8 0 0 1 15;s 0;R 0;s 0\n\
        1 to 16, again 17|n 707 1 2 3 4 5 6 7 8 9 10 11 12 13 14 15 16;d 0 8 8 0 0 1 16;s 0;R 0;s 0\n\
        1 to 16, again 256|n 707 1 2 3 4 5 6 7 8 9 10 11 12 13 14 15 16;d 0 8 8 0 0 1 255;s 0;R 0;s 0\n\
        64, again 1|n 707 64 64 64 64 64 64 64 64 64 64 64 64 64 64 64 64;d 0 8 8 0 0 1 0;s 0;R 0;s 0\n\
        64, again 16|n 707 64 64 64 64 64 64 64 64 64 64 64 64 64 64 64 64;d 0 8 8 0 0 1 15;s 0;R 0;s 0\n\
        64, again 17|n 707 64 64 64 64 64 64 64 64 64 64 64 64 64 64 64 64;d 0 8 8 0 0 1 16;s 0;R 0;s 0\n\
        0, again 1|n 707 0 0 0 0 0 0 0 0 0 0 0 0 0 0 0 0;d 0 8 8 0 0 1 0;s 0;R 0;s 0\n\
        0, again 16|n 707 0 0 0 0 0 0 0 0 0 0 0 0 0 0 0 0;d 0 8 8 0 0 1 15;s 0;R 0;s 0\n\
        0, again 17|n 707 0 0 0 0 0 0 0 0 0 0 0 0 0 0 0 0;d 0 8 8 0 0 1 16;s 0;R 0;s 0\n\
        0, then 64, again 1|n 707 0 64 64 64 64 64 64 64 64 64 64 64 64 64 64 64;d 0 8 8 0 0 1 0;s 0;R 0;s 0\n\
        0, then 64, again 2|n 707 0 64 64 64 64 64 64 64 64 64 64 64 64 64 64 64;d 0 8 8 0 0 1 1;s 0;R 0;s 0\n\
        64 at last, again 15|n 707 0 0 0 0 0 0 0 0 0 0 0 0 0 0 0 64;d 0 8 8 0 0 1 14;s 0;R 0;s 0\n\
        64 at last, again 16|n 707 0 0 0 0 0 0 0 0 0 0 0 0 0 0 0 64;d 0 8 8 0 0 1 15;s 0;R 0;s 0\n\
        64 at last, again 17|n 707 0 0 0 0 0 0 0 0 0 0 0 0 0 0 0 64;d 0 8 8 0 0 1 16;s 0;R 0;s 0\n",
    );
}

// Rests that are left, which are not of the table; then replays.
fn left(stdout: Stdout) {
    sound::lines(
        stdout,
        "rest 255 of rests of 0|n 707 0 0 0 0 0 0 0 0 0 0 0 0 0 0 0 0;d 0 8 9 255 0;x 0\n\
        rest 255 of rests of 0, spent|n 707 0 0 0 0 0 0 0 0 0 0 0 0 0 0 0 0;d 0 8 9 255 0;R 0;s 0\n\
        rest 255 of rests of 64|n 707 64 64 64 64 64 64 64 64 64 64 64 64 64 64 64 64;d 0 8 9 255 0;x 0\n\
        rest 255 of rests that fall|n 722 31;d 0 8 9 255 0;x 0\n\
        rest 256 of rests of 64|n 707 64 64 64 64 64 64 64 64 64 64 64 64 64 64 64 64;d 0 8 9 256 0;x 0\n\
        rest 0 of rests of 64, spent|n 707 64 64 64 64 64 64 64 64 64 64 64 64 64 64 64 64;d 0 8 9 0 0;R 0;s 0\n\
        64, then 0|n 707 64 64 64 64 64 64 64 64 64 64 64 64 64 64 64 64;d 0 8 8 0 0 1 0;s 0\
        ;n 707 0 0 0 0 0 0 0 0 0 0 0 0 0 0 0 0;R 0;s 0\n",
    );
    acts::section(
        stdout,
        &P,
        "",
        "falling, in rows|n 707 2;w 8 4 2 2;p 2 0 0 0 5\n\
        falling at last, in rows|n 722 31;w 8 4 2 2;p 2 0 0 0 5\n\
        a rest of 65, in rows|n 722 65;w 8 4 2 2;p 2 0 0 0 5\n\
        falling, 30 before 31|n 722 31;w 8 4 2 0\n\
        rests of 64, in rows|n 707 64 64 64 64 64 64 64 64 64 64 64 64 64 64 64 64;w 8 4 2 2\n",
    );
}

// Sender 1 holds message 0, and sender 2 tries again and again.
fn tries(stdout: Stdout, first: &str) {
    acts::section(
        stdout,
        &TWO,
        first,
        "agains|s 2;s 2;R 2;s 2;s 2;R 2;s 2;s 2;R 2;s 2;s 2;R 2;s 2;s 2;R 2;s 2;s 2;R 2;s 2;s 2;R 2;s 2;s 2;R 2;s 2\
        ;s 2;R 2;s 2;s 2;R 2;s 2;s 2;R 2;s 2;s 2;R 2;s 2;s 2;R 2;s 2;s 2;R 2;s 2;s 2;R 2;s 2;s 2;R 2;s 2;s 2;R 2;s 2\
        ;s 2;R 2\n",
    );
}

// By tables that were given, and where none was; then with other calls between, and with the message gone.
fn schedules(stdout: Stdout) {
    tries(
        stdout,
        "desk 1 holds item 0, rests from 1 to 16|O 1 2 3 4 5 6 7 8 9 10 11 12 13 14 15 16;a 0 0 7 1;a 1 1 7 1\
        ;a 2 1 7 1;s 1;s 1;s 1\n",
    );
    tries(
        stdout,
        "desk 1 holds item 0, a rest of 64 at last|O 0 0 0 0 0 0 0 0 0 0 0 0 0 0 0 64;a 0 0 7 1;a 1 1 7 1;a 2 1 7 1\
        ;s 1;s 1;s 1\n",
    );
    tries(
        stdout,
        "desk 1 holds item 0, none given|a 0 0 7 1;a 1 1 7 1;a 2 1 7 1;s 1;s 1;s 1\n",
    );
    acts::section(
        stdout,
        &TWO,
        "desk 1 holds item 0, rests of 2|O 2 2 2 2 2 2 2 2 2 2 2 2 2 2 2 2;a 0 0 7 1;a 1 1 7 1;a 2 1 7 1;s 1;s 1\
        ;s 1\n",
        "calls between|s 2;s 2;z 5;a 3 1 7 1 6;O;R 2;s 2;s 2;s 3;q;R 2\n\
        rows|p 0 2 0 0 0,0 2 0 0 0,0 2 0 0 0,0 2 0 0 0,0 2 0 0 0,0 2 0 0 0,1 3 1 1 0,2 0 0 0 5;R 2;s 2;s 2;R 2\n\
        desk 1 done|s 2;s 2;R 2;s 2;s 2;s 1;s 1;s 1;R 2;s 2;s 2\n",
    );
}

pub fn lines(stdout: Stdout) {
    standing(stdout);
    agains(stdout);
    left(stdout);
    schedules(stdout);
}
