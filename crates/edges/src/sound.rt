// The sound board that lines alter. Table Q; message 0 is pending, 1 and 5 are consumed in match 0 of chord 0, 2 is
// woken by 0, 3 claimed, 4 pending. Sender 0 looks at place 1 of chord 0, 1 is blocked on message 2, 2 consumes at
// chord 2, with message 3 as its subject and 4 as its waker, 3 is idle with a reply. Their tallies are 1, 1, 1, 3.
//     A sender's numbers: 0 state, 1 signalled, 2 own, 3 waker, 4 reply, 5 matched, 6 subject, 7 chord, 8 phase,
// 9 place, 10 second number, 11 retry, 12 retries, 13 to 20 chosen.
//     Phases: 0 look, 1 claim, 2 revert, 3 consume, 4 tell, 5 wake, 6 free, 7 signal, 8 pass end, 9 rest.
use crate::acts;
use crate::tables::Q;
use std::io::Stdout;

// Lines, each on the sound board.
pub fn lines(stdout: Stdout, text: &str) {
    acts::section(
        stdout,
        &Q,
        "|n 0 6 1\
        ;d 0 0 1 0 1 0 0 0 0 0 0 1 0 0 0 0 3\
        ;d 1 0 2 0 3\
        ;d 2 0 1 0 4 5 0 0 3 2 3 0 1 0 0 3 4\
        ;d 3 0 0 0 2 6 1 1\
        ;b 1 1 1 1 2;b 1025 3 2 1 0 3\
        ;l 1 1 0 0 0 1;l 1026 1;l 2048 5 1\
        ;n 675 1 1 1 3\n",
        text,
    );
}
