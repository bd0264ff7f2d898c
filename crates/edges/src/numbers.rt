// Numbers that are no board's: a low byte that a board could have does not help.
use crate::sound;
use std::io::Stdout;

// Numbers out of their ranges; places and second numbers that a phase does not have.
pub fn lines(stdout: Stdout) {
    sound::lines(
        stdout,
        "state 3|d 0 0 3;x 0\n\
        state 257|d 0 0 257;x 0\n\
        flag of the signal 1|d 0 1 1;x 0\n\
        flag of the signal 2|d 0 1 2;x 0\n\
        rule 256|d 0 7 256;x 0\n\
        phase 10|d 0 8 10;x 0\n\
        phase 256|d 0 8 256;x 0\n\
        mark 1|d 0 11 1;x 0\n\
        mark 2|d 0 11 2;x 0\n\
        again 255 times|d 0 12 255;x 0\n\
        again 256 times|d 0 12 256;x 0\n\
        next chosen item 65,535|d 0 14 65535;x 0\n\
        look 257|d 0 8 0 257 0;x 0\n\
        claim 256|d 0 8 1 256 0;x 0\n\
        revert 256 of 1|d 0 8 2 256 1;x 0\n\
        free 256|d 0 8 6 256 0;x 0\n\
        rest 256|d 0 8 9 256 0;x 0\n\
        consume 256|d 2 8 3 256 1;x 2\n\
        tell 256|d 2 8 4 256 0;x 2\n\
        wake with a place|d 0 8 5 1 0;x 0\n\
        signal with a place|d 0 8 7 1 0;x 0\n\
        pass end with a place|d 0 8 8 1 0;x 0\n\
        look with a second number|d 0 8 0 1 1;x 0\n\
        claim with a second number|d 0 8 1 1 1;x 0\n\
        revert 0 of 257|d 0 8 2 0 257;x 0\n\
        tell with a second number|d 2 8 4 0 1;x 2\n\
        wake with a second number|d 0 8 5 0 1;x 0\n\
        free with a second number|d 0 8 6 0 1;x 0\n\
        signal with a second number|d 0 8 7 0 1;x 0\n\
        pass end with a second number|d 0 8 8 0 1;x 0\n\
        rest with a second number|d 0 8 9 0 1;x 0\n",
    );
    idle(stdout);
    closed(stdout);
}

// A job that is not read: sender 3 is idle; then numbers that no job has, though it is not read.
fn idle(stdout: Stdout) {
    sound::lines(
        stdout,
        "idle, flag of the signal 1|d 3 1 1;x 0\n\
        idle, item 65,535 in hand|d 3 6 65535;x 0\n\
        idle, rule 255|d 3 7 255;x 0\n\
        idle, look 255|d 3 8 0 255 0;x 0\n\
        idle, revert 255 of 255|d 3 8 2 255 255;x 0\n\
        idle, consume by match 65,534|d 3 8 3 255 65535;x 0\n\
        idle, mark 1, again 255 times|d 3 11 1 255;x 0\n\
        idle, chosen item 65,535|d 3 13 65535;x 0\n\
        the last number 65,535|d 31 20 65535;x 0\n\
        idle, flag of the signal 2|d 3 1 2;x 0\n\
        idle, rule 256|d 3 7 256;x 0\n\
        idle, phase 10|d 3 8 10;x 0\n\
        idle, look 256|d 3 8 0 256 0;x 0\n\
        idle, look with a second number|d 3 8 0 0 1;x 0\n\
        idle, revert 0 of 256|d 3 8 2 0 256;x 0\n\
        idle, pass end with a place|d 3 8 8 1 0;x 0\n\
        idle, mark 2|d 3 11 2;x 0\n\
        idle, again 256 times|d 3 12 256;x 0\n\
        blocked, phase 10|d 1 8 10;x 0\n\
        the last desk, state 3|d 31 0 3;x 0\n",
    );
}

// Whether a day is closed, and which: a flag that no board has, and a day that is read only with the flag.
fn closed(stdout: Stdout) {
    sound::lines(
        stdout,
        "none closed|n 674 0;x 0\n\
        day 0 closed|n 674 1;x 0\n\
        flag of the close day 2|n 674 2;x 0\n\
        flag of the close day 256|n 674 256;x 0\n\
        flag of the close day 257|n 674 257;x 0\n\
        flag of the close day 65,535|n 674 65535;x 0\n\
        close day 4,294,967,295 without its flag|K 2048 4294967295;x 0\n\
        day 4,294,967,295 closed|n 674 1;K 2048 4294967295;x 0\n\
        day 30 closed|n 674 1;K 2048 30;x 0\n\
        day 31 closed|n 674 1;K 2048 31;x 0\n\
        day 32 closed|n 674 1;K 2048 32;x 0\n\
        day 32 closed, status 4|n 674 1;K 2048 32;b 1028 4;x 0\n\
        day 32 closed, 3,071 bytes|n 674 1;K 2048 32;L 1 3071;x 0\n\
        day 32 closed, 2,048 keys|n 674 1;K 2048 32;L 3 2048;x 0\n",
    );
}
