// Claims that are lost.
use crate::acts;
use crate::tables::TWO;
use scripts::say;
use std::io::Stdout;

// A first claim lost to a sender that holds it: again, and ended only when that one is done.
fn first(stdout: Stdout) {
    say::text(stdout, "first claim lost\n");
    acts::section(
        stdout,
        &TWO,
        "desk 0|a 0 0 7 1;s 0;s 0;s 0\n\
        desk 1|a 1 1 7 1\n\
        desk 2|a 2 1 7 1\n\
        desk 1|s 1;s 1\n\
        desk 2|s 2;s 2\n\
        desk 1|s 1\n\
        desk 2|s 2;s 2;s 2;s 2;s 2\n\
        desk 1|s 1;s 1;s 1\n\
        desk 2|s 2;s 2;s 2;s 2\n",
        "",
    );
}

// A second claim lost: the first is put back.
fn second(stdout: Stdout) {
    say::text(stdout, "second claim lost\n");
    acts::section(
        stdout,
        &TWO,
        "desk 0|a 0 1 7 1;s 0;s 0\n\
        desk 1|a 1 0 7 1\n\
        desk 2|a 2 0 7 1\n\
        desk 1|s 1;s 1\n\
        desk 2|s 2;s 2\n\
        desk 1|s 1\n\
        desk 2|s 2\n\
        desk 1|s 1\n\
        desk 2|s 2;s 2;s 2;s 2;s 2\n\
        desk 1|s 1;s 1\n\
        desk 2|s 2;s 2;s 2;s 2;s 2\n",
        "",
    );
}

// A claim lost, and the subject consumed before the pass ends (rules 4.5 and 4.9).
fn third(stdout: Stdout) {
    say::text(stdout, "hand consumed by then\n");
    acts::section(
        stdout,
        &TWO,
        "desk 0|a 0 0 7 1;s 0;s 0;s 0\n\
        desk 1|a 1 1 7 1\n\
        desk 2|a 2 1 7 1\n\
        desk 1|s 1;s 1\n\
        desk 2|s 2;s 2\n\
        desk 1|s 1;s 1\n\
        desk 2|s 2\n\
        desk 3|a 3 0 7 1;s 3;s 3;s 3;s 3;s 3;s 3\n\
        desk 2|s 2\n\
        desk 1|s 1;s 1\n",
        "",
    );
}

pub fn lines(stdout: Stdout) {
    first(stdout);
    second(stdout);
    third(stdout);
}
