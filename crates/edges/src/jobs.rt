// Senders at work at places that the steps do not have, each beside one at a place that they have.
use crate::sound;
use std::io::Stdout;

// Subjects; then sender 0 in another phase at chord 0, where the subject wakes.
pub fn lines(stdout: Stdout) {
    sound::lines(
        stdout,
        "at work without own item|d 0 2 0 1;x 0\n\
        waker in hand|d 0 2 6 1;x 0\n\
        another item in hand|d 0 2 6 5;x 0\n\
        own item of the blocked|d 0 2 3 1;x 0\n\
        item 6 in hand|d 0 2 7 1 0 0 6;x 0\n\
        rule 3|d 0 7 3 0 0;x 0\n\
        rule that does not name the tray|d 0 2 5 0 0 0 4 0 0 0;x 0\n\
        chosen item 6|d 0 13 6 6 6 6 6 6 6 6;x 0\n\
        item 6 not yet chosen|d 0 9 0 0 0 0 6 6 6 6 6 6 6 6;x 0\n\
        look 0|d 0 8 0 0 0;x 0\n\
        look 2|d 0 8 0 2 0;x 0\n\
        look 255|d 0 8 0 255 0;x 0\n\
        claim 0|d 0 8 1 0 0;x 0\n\
        claim 1|d 0 8 1 1 0;x 0\n\
        claim 2|d 0 8 1 2 0;x 0\n\
        claim 255|d 0 8 1 255 0;x 0\n\
        revert 0 of 1|d 0 8 2 0 1;x 0\n\
        revert 0 of 0|d 0 8 2 0 0;x 0\n\
        revert 1 of 1|d 0 8 2 1 1;x 0\n\
        revert 0 of 2|d 0 8 2 0 2;x 0\n\
        wake|d 0 8 5 0 0;x 0\n\
        free 0|d 0 8 6 0 0;x 0\n\
        free 1|d 0 8 6 1 0;x 0\n\
        free 255|d 0 8 6 255 0;x 0\n\
        signal|d 0 8 7 0 0;x 0\n\
        consume where it wakes|d 0 8 3 0 1;x 0\n\
        tell where it wakes|d 0 8 4 0 0;x 0\n\
        pass end|d 0 8 8 0 0;x 0\n\
        rest 0|d 0 8 9 0 0;x 0\n\
        rest 255|d 0 8 9 255 0;x 0\n",
    );
    others(stdout);
}

// Sender 0 at chord 1, which names no synchronous channel; sender 2, whose subject is of one; steps
// that no schedule reaches.
fn others(stdout: Stdout) {
    sound::lines(
        stdout,
        "rule 1, claim|d 0 7 1 1 0 0 0 0 0 5;x 0\n\
        rule 1, consume|d 0 7 1 3 1 1 0 0 0 5;x 0\n\
        rule 1, consume 2|d 0 7 1 3 2 1 0 0 0 5;x 0\n\
        rule 1, wake|d 0 7 1 5 0 0 0 0 0 5;x 0\n\
        rule 1, free|d 0 7 1 6 0 0 0 0 0 5;x 0\n\
        rule 1, signal|d 0 7 1 7 0 0 0 0 0 5;x 0\n\
        rule 1, tell|d 0 7 1 4 0 0 0 0 0 5;x 0\n\
        consume 0|d 2 8 3 0 1;x 2\n\
        consume 2|d 2 8 3 2 1;x 2\n\
        consume 3|d 2 8 3 3 1;x 2\n\
        consume without match|d 2 8 3 0 0;x 2\n\
        consume by match 1|d 2 8 3 0 2;x 2\n\
        tell 0|d 2 8 4 0 0;x 2\n\
        tell 1|d 2 8 4 1 0;x 2\n\
        tell with nobody to tell|d 2 7 0 4 0 0 0 0 0 3;x 2\n\
        wake with a waiting item in hand|d 2 8 5 0 0;x 2\n\
        free with a waiting item in hand|d 2 8 6 0 0;x 2\n\
        signal with a waiting item in hand|d 2 8 7 0 0;x 2\n\
        last claim, 1,023 matches|n 1 1023;d 0 7 1 1 1 0 0 0 5 0;s 0\n\
        last claim, 1,024 matches|n 1 1024;d 0 7 1 1 1 0 0 0 5 0;s 0\n\
        again for the 256th time|d 0 8 8 0 0 1 255;s 0;s 0\n\
        signal of nobody's item|d 0 8 7 0 0 0 0 0 1;s 0\n\
        signalled, item woken|d 1 1 1;s 1\n\
        signalled, item consumed|d 1 1 1 2;s 1;s 1;r 1\n\
        signalled, item pending|d 1 1 1 5;s 1;s 1\n",
    );
}
