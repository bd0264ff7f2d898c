// Which of the fitting messages a look takes: the pending one of the least day, and of equal days the lowest number
// (rule 4.2).
use crate::acts;
use crate::tables::{P, Q, TWO};
use std::io::Stdout;

// Senders 0 and 1 add to one channel, sender 2 to the other, and matches.
fn two(stdout: Stdout) {
    acts::section(
        stdout,
        &TWO,
        "",
        "days 9 and 3|a 0 0 7 1 9;a 1 0 7 1 3;a 2 1 7 1 5;s 2;s 2;s 2;s 2;s 2;s 2;k 0;m 1 0 7 1 3\n\
        days 3 and 9|a 0 0 7 1 3;a 1 0 7 1 9;a 2 1 7 1 5;s 2;s 2;s 2;s 2;s 2;s 2;k 0\n\
        days 5 and 5|a 0 0 7 1 5;a 1 0 7 1 5;a 2 1 7 1 5;s 2;s 2;s 2;s 2;s 2;s 2;k 0\n\
        days 4,294,967,295 and 0|a 0 0 7 1 4294967295;a 1 0 7 1;a 2 1 7 1;s 2;s 2;s 2;s 2;s 2;s 2;k 0\n\
        days 0 and 4,294,967,295|a 0 0 7 1;a 1 0 7 1 4294967295;a 2 1 7 1;s 2;s 2;s 2;s 2;s 2;s 2;k 0\n\
        days 0 and 0|a 0 0 7 1;a 1 0 7 1;a 2 1 7 1;s 2;s 2;s 2;s 2;s 2;s 2;k 0\n\
        days 4,294,967,295, both|a 0 0 7 1 4294967295;a 1 0 7 1 4294967295;a 2 1 7 1;s 2;s 2;s 2;s 2;s 2;s 2;k 0\n\
        day 4,294,967,295 alone|a 0 0 7 1 4294967295;a 2 1 7 1;s 2;s 2;s 2;s 2;s 2;s 2;k 0\n\
        days 2,147,483,648 and 2,147,483,647|a 0 0 7 1 2147483648;a 1 0 7 1 2147483647;a 2 1 7 1;s 2\n\
        days 9, 3 and 3|a 0 0 7 1 9;a 1 0 7 1 3;a 3 0 7 1 3;a 2 1 7 1;s 2\n\
        days 9, 3 and 6, two of them taken|a 0 0 7 1 9;a 1 0 7 1 3;a 3 0 7 1 6;a 2 1 7 1;s 2;s 2;s 2\
        ;a 4 1 7 1;s 4;s 4;s 4;s 4;s 2;s 2;s 2;a 5 1 7 1;s 5\n",
    );
}

// Older messages that are not taken: one of another property, and the subject, which has its member already.
pub fn lines(stdout: Stdout) {
    two(stdout);
    acts::section(
        stdout,
        &P,
        "",
        "older, of another property|a 0 0 7 1 9;a 1 0 8 1 3;a 2 1 7 1 5;s 2;s 2;s 2;s 2;s 2;s 2;k 0\n",
    );
    acts::section(
        stdout,
        &Q,
        "",
        "the oldest in hand|a 0 0 7 1 9;a 1 0 7 1 3;a 2 0 7 1 1;s 2;s 2;s 2;s 2;s 2;s 2;s 2;s 2;k 0\n\
        the newest in hand|a 0 0 7 1 6;a 1 0 7 1 3;a 2 0 7 1 9;s 2;s 2;s 2;s 2;s 2;s 2;s 2;s 2;k 0\n",
    );
}
