// Which messages fit: of the subject's property and unit, of its property alone, or any, as the chord wants (rule 4.2).
use crate::acts;
use crate::tables::{P, TWO, UNITS, WAKED};
use std::io::Stdout;

// Senders 0 and 1 add to one channel, sender 2 to the other, and matches.
fn taken(stdout: Stdout) {
    acts::section(
        stdout,
        &UNITS,
        "",
        "units 3 and 4, 4 in hand|a 0 0 7 1 0 3;a 1 0 7 1 0 4;a 2 1 7 1 0 4;s 2;s 2;s 2;s 2;s 2;s 2;k 0\n\
        units 4 and 3, 4 in hand|a 0 0 7 1 0 4;a 1 0 7 1 0 3;a 2 1 7 1 0 4;s 2;s 2;s 2;s 2;s 2;s 2;k 0;m 1 0 7 1 0 3\n\
        units 4 and 4, 4 in hand|a 0 0 7 1 0 4;a 1 0 7 1 0 4;a 2 1 7 1 0 4;s 2;s 2;s 2;s 2;s 2;s 2;k 0\n\
        older, of another unit|a 0 0 7 1 3 3;a 1 0 7 1 9 4;a 2 1 7 1 5 4;s 2;s 2;s 2;s 2;s 2;s 2;k 0\n\
        older, of the same unit|a 0 0 7 1 9 4;a 1 0 7 1 3 4;a 2 1 7 1 5 4;s 2;s 2;s 2;s 2;s 2;s 2;k 0\n\
        the same unit of another property|a 0 0 8 1 0 4;a 1 0 7 1 0 4;a 2 1 7 1 0 4;s 2;s 2;s 2;s 2;s 2;s 2;k 0\n\
        units 65,534 and 65,535|a 0 0 7 1 0 65534;a 1 0 7 1 0 65535;a 2 1 7 1 0 65535;s 2;s 2;s 2;s 2;s 2;s 2;k 0\n\
        units 65,535 and none, 0 in hand|a 0 0 7 1 0 65535;a 1 0 7 1;a 2 1 7 1 9 0;s 2;s 2;s 2;s 2;s 2;s 2;k 0\n\
        waiting, units 3 and 4, 4 in hand|a 0 1 7 1 0 3;a 1 1 7 1 0 4;a 2 0 7 1 0 4;s 2;s 2\n",
    );
}

// None that fits.
fn missed(stdout: Stdout) {
    acts::section(
        stdout,
        &UNITS,
        "",
        "unit 3, 4 in hand|a 0 0 7 1 0 3;s 0;s 0;s 0;a 2 1 7 1 0 4;s 2;s 2;q\n\
        no unit, 65,535 in hand|a 0 0 7 1;a 2 1 7 1 0 65535;s 2;s 2\n\
        unit 256, none in hand|a 0 0 7 1 0 256;a 2 1 7 1;s 2;s 2\n\
        unit 4 of another property, 4 in hand|a 0 0 8 1 0 4;a 2 1 7 1 0 4;s 2;s 2\n",
    );
}

// Sender 1 holds message 0, of property 7 and unit 4, when sender 2 looks.
fn claimed(stdout: Stdout) {
    acts::section(
        stdout,
        &UNITS,
        "desk 1 holds item 0|a 0 0 7 1 0 4;a 1 1 7 1 0 4;s 1;s 1;s 1\n",
        "claimed, of the same unit|a 2 1 7 1 0 4;s 2;s 2\n\
        claimed, of another unit|a 2 1 7 1 0 3;s 2;s 2\n\
        claimed, of another property|a 2 1 8 1 0 4;s 2;s 2\n",
    );
}

// Chords that do not want the unit.
fn unasked(stdout: Stdout) {
    acts::section(
        stdout,
        &P,
        "",
        "by property, another unit|a 0 0 7 1 0 3;a 2 1 7 1 0 4;s 2;s 2;s 2;s 2;s 2;s 2;k 0\n\
        by property, older and of another unit|a 0 0 7 1 9 4;a 1 0 7 1 3 3;a 2 1 7 1 5 4;s 2;s 2;s 2;s 2;s 2;s 2;k 0\n\
        by property, the same unit of another property|a 0 0 8 1 0 4;a 2 1 7 1 0 4;s 2;s 2\n\
        by property, claimed, of another unit|a 0 0 7 1 0 4;a 1 1 7 1 0 4;s 1;s 1;s 1;a 2 1 7 1 0 3;s 2;s 2\n",
    );
    acts::section(
        stdout,
        &TWO,
        "",
        "by neither|a 0 0 8 1 0 3;a 2 1 7 1 0 4;s 2;s 2;s 2;s 2;s 2;s 2;k 0\n\
        by neither, claimed|a 0 0 8 1 0 3;a 1 1 7 1 0 4;s 1;s 1;s 1;a 2 1 7 1 0 5;s 2;s 2\n",
    );
}

// Sender 0's own message is of unit 3. It is woken by message 1, of unit 4, and matches with another; then message 1 is
// its subject.
fn waker(stdout: Stdout) {
    acts::section(
        stdout,
        &WAKED,
        "",
        "the waker in hand|a 0 1 7 1 0 3;s 0;s 0;a 1 0 7 1 9 4;s 1;s 1;s 1;s 1;s 1;s 1;s 1\
        ;a 2 0 7 1 3 3;a 3 2 7 1 0 3;a 4 2 7 1 0 4\
        ;s 0;s 0;s 0;s 0;s 0;s 0;s 0;s 0;s 0;s 0;s 0;s 0;s 0;s 0;s 0;k 1;r 0\n",
    );
}

pub fn lines(stdout: Stdout) {
    taken(stdout);
    missed(stdout);
    claimed(stdout);
    unasked(stdout);
    waker(stdout);
}
