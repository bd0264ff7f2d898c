// Refusals in their order.
use crate::acts;
use crate::tables::P;
use std::io::Stdout;

// Where sender 0 is blocked; then on an empty board.
pub fn lines(stdout: Stdout) {
    acts::section(
        stdout,
        &P,
        "desk 0 blocks|a 0 1 7 1;s 0;s 0\n",
        "step of desk 32|s 32\n\
        8 before 9|a 32 2 7 1000000000000\n\
        9 before 10|a 0 2 7 1000000000000\n\
        10 before 11|a 1 2 7 1000000000000\n\
        11|a 1 1 7 1000000000000\n\
        blocked|s 0\n\
        idle|s 1\n\
        item 0|m 0 1 7 1\n\
        item 1|m 1 1 7 1\n\
        match 0|k 0\n\
        slip|r 0\n\
        quiet|q\n",
    );
    empty(stdout);
}

// The last are adds, with a read of the message.
fn empty(stdout: Stdout) {
    acts::section(
        stdout,
        &P,
        "",
        "add, desk 31|a 31 0 7 1\n\
        add, desk 32|a 32 0 7 1\n\
        add, desk 65,535|a 65535 0 7 1\n\
        step, desk 31|s 31\n\
        step, desk 32|s 32\n\
        step, desk 65,535|s 65535\n\
        slip, desk 31|r 31\n\
        slip, desk 32|r 32\n\
        slip, desk 65,535|r 65535\n\
        tray 1 of 2|a 0 1 7 1\n\
        tray 2 of 2|a 0 2 7 1\n\
        tray 256|a 0 256 7 1\n\
        tray 65,535|a 0 65535 7 1\n\
        property 0|a 0 0 0 1;m 0 0 0 1\n\
        property 4,294,967,295|a 0 0 4294967295 1;m 0 0 4294967295 1\n\
        day 0|a 0 0 7 1 0;m 0 0 7 1 0\n\
        day 4,294,967,295|a 0 0 7 1 4294967295;m 0 0 7 1 4294967295\n\
        day 65,536, day 0 is asked for|a 0 0 7 1 65536;m 0 0 7 1 0\n\
        unit 0|a 0 0 7 1 5 0;m 0 0 7 1 5 0\n\
        unit 65,535|a 0 0 7 1 5 65535;m 0 0 7 1 5 65535\n\
        unit 256, unit 0 is asked for|a 0 0 7 1 5 256;m 0 0 7 1 5 0\n\
        a unit not given|a 0 0 7 1 5;m 0 0 7 1 5 0\n\
        cents 999,999,999,999|a 0 0 7 999999999999;m 0 0 7 999999999999\n\
        cents 1,000,000,000,000|a 0 0 7 1000000000000;m 0 0 7 1000000000000\n\
        cents -999,999,999,999|A 0 0 7 999999999998;M 0 0 7 999999999998\n\
        cents -1,000,000,000,000|A 0 0 7 999999999999;M 0 0 7 999999999999\n",
    );
}
