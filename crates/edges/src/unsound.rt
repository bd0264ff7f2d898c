// Boards that are not sound, each beside one that is: counts, messages, matches, and senders that are not at work. With
// more messages there are as many adds more.
use crate::sound;
use std::io::Stdout;

pub fn lines(stdout: Stdout) {
    sound::lines(
        stdout,
        "the sound board|x 0\n\
        1,024 items|n 0 1024;T 32;x 0\n\
        1,025 items|n 0 1025;T 32;n 675 33;x 0\n\
        65,535 items|n 0 65535;n 675 65535 0 0 0;x 0\n\
        1,024 matches|n 1 1024;x 0\n\
        1,025 matches|n 1 1025;x 0\n\
        item 5 in tray 2|b 5 2;x 0\n\
        item 5 in tray 3|b 5 3;x 0\n\
        item 6 in tray 255|b 6 255;x 0\n\
        cents 999,999,999,999|c 5 999999999999;x 0\n\
        cents 1,000,000,000,000|c 5 1000000000000;x 0\n\
        cents -999,999,999,999|C 5 999999999998;x 0\n\
        cents -1,000,000,000,000|C 5 999999999999;x 0\n\
        status 4|b 1028 4;x 0\n\
        status 255|b 1028 255;x 0\n\
        consumed without match|l 1 0;x 0\n\
        woken without waker|l 1026 0;x 0\n\
        item 0 with match 0|l 0 1;x 0\n\
        item 0 with match 1|l 0 2;x 0\n\
        item 0 with waker 5|l 1024 6;x 0\n\
        item 0 with waker 6|l 1024 7;x 0\n\
        match of rule 3|b 2048 3;x 0\n\
        match 1, not counted, of rule 3|b 2049 3;x 0\n\
        match of item 6|l 2049 6;x 0\n\
        past its members, item 6|l 2050 6;x 0\n\
        item 0 of unit 65,535|l 10240 65535;x 0\n\
        item 1,023, not counted, of unit 65,535|l 11263 65535;x 0\n\
        idle, own item 5|d 3 2 6 0 0 0;x 0\n\
        idle, own item 6|d 3 2 7 0 0 0;x 0\n\
        idle, waker 6|d 3 2 2 7 0 0;x 0\n\
        idle, slip of match 1|d 3 2 2 0 2 0;x 0\n\
        idle, made match 1|d 3 2 2 0 0 2;x 0\n\
        idle, own item of the blocked|d 3 2 3 0 0 0;x 0\n\
        blocked, own item 5|d 3 0 2 0 6 0 0 0;x 0\n\
        blocked, own item of the blocked|d 3 0 2 0 3 0 0 0;x 0\n\
        blocked without own item|d 3 0 2 0 0 0 0 0;x 0\n",
    );
}
