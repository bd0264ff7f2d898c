// How many messages each sender has added: tallies that no sound board has, each beside those of one that is sound. The
// add is of sender 31.
use crate::sound;
use std::io::Stdout;

// Sums, which are to be the messages, and are exact; the parts above 16, which are 512 at most; and the same messages
// by other senders, which decide what is left to sender 31.
pub fn lines(stdout: Stdout) {
    sound::lines(
        stdout,
        "an add too many|n 675 2;x 0\n\
        an add too few|n 675 0;x 0\n\
        an add too many, of desk 31|n 706 1;x 0\n\
        no adds|T 0;x 0\n\
        an item more|n 0 7;x 0\n\
        an item and an add more|n 0 7;n 675 2;x 0\n\
        all adds of desk 31|T 0;n 706 6;x 0\n\
        262 adds|n 675 257;x 0\n\
        100 items, 65,636 adds|n 0 100;n 675 65535 101 0 0;x 0\n\
        600 items, 2,032,216 adds|n 0 600;T 65535;n 706 631;x 0\n\
        65,535 adds of each desk|T 65535;x 0\n\
        528 items of desk 0|n 0 528;n 675 528 0 0 0;x 0\n\
        529 items of desk 0|n 0 529;n 675 529 0 0 0;x 0\n\
        528 items of desk 31|n 0 528;T 0;n 706 528;x 0\n\
        544 items, 527 and 17|n 0 544;n 675 527 17 0 0;x 0\n\
        545 items, 528 and 17|n 0 545;n 675 528 17 0 0;x 0\n\
        545 items, 528, 16 and 1|n 0 545;n 675 528 16 1 0;x 0\n\
        1,024 items, 33 and 31, 32 of each other|n 0 1024;T 32;n 675 33 31;x 0\n\
        1,024 items, 49 and 15, 32 of each other|n 0 1024;T 32;n 675 49 15;x 0\n\
        1,024 items, 528 and 16 of each other|n 0 1024;T 16;n 675 528;x 0\n\
        1,024 items, 529 and 15, 16 of each other|n 0 1024;T 16;n 675 529 15;x 0\n\
        543 items, 16 of desk 31, 527 of desk 0|n 0 543;n 675 527 0 0 0;n 706 16;x 0\n\
        544 items, 16 of desk 31, 528 of desk 0|n 0 544;n 675 528 0 0 0;n 706 16;x 0\n\
        544 items, 16 of desk 31, 528 of desk 30|n 0 544;T 0;n 705 528 16;x 0\n\
        544 items, 15 of desk 31, 528 and 1|n 0 544;n 675 528 1 0 0;n 706 15;x 0\n\
        544 items, 16 of desk 31, 527 and 1|n 0 544;n 675 527 1 0 0;n 706 16;x 0\n\
        544 items, 527 of desk 31, 17 of desk 0|n 0 544;n 675 17 0 0 0;n 706 527;x 0\n\
        544 items, 527 of desk 31, 16 and 1|n 0 544;n 675 16 1 0 0;n 706 527;x 0\n\
        1,023 items, 15 of desk 31, 528 of desk 0|n 0 1023;T 16;n 675 528;n 706 15;x 0\n\
        1,023 items, 528 of desk 31, 15 of desk 0|n 0 1023;T 16;n 675 15;n 706 528;x 0\n\
        1,023 items, 31 of desk 31, 32 of each other|n 0 1023;T 32;n 706 31;x 0\n",
    );
}
