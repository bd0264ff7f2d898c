// Backoff tables that are given to openings: 16 bytes, none over 64 and none less than the one before it. Where none is
// given the board has the built-in one, 0 1 1 2 2 4 4 8 8 16 16 16 32 32 32 32. It stands from number 707 on.
ghost use Rattle.std.specs.Prelude.{◌≤◌, ◌<◌};

use crate::tables::P;
use crate::{acts, sound};
use scripts::say;
use scripts::world::World;
use std::io::Stdout;

// Openings of lists that are no board, which are refused.
fn refused(stdout: Stdout) {
    acts::lines(
        stdout,
        &P,
        &World::filled(170),
        "no rests|O\n\
        a rest|O 0\n\
        15 rests|O 0 0 0 0 0 0 0 0 0 0 0 0 0 0 0\n\
        17 rests|O 0 0 0 0 0 0 0 0 0 0 0 0 0 0 0 0 0\n\
        32 rests|O 0 0 0 0 0 0 0 0 0 0 0 0 0 0 0 0 0 0 0 0 0 0 0 0 0 0 0 0 0 0 0 0\n\
        rests of 65|O 65 65 65 65 65 65 65 65 65 65 65 65 65 65 65 65\n\
        a rest of 65 at first|O 65 64 64 64 64 64 64 64 64 64 64 64 64 64 64 64\n\
        rests of 65 from the 8th on|O 0 0 0 0 0 0 0 65 65 65 65 65 65 65 65 65\n\
        a rest of 65 at the 8th|O 0 0 0 0 0 0 0 65 64 64 64 64 64 64 64 64\n\
        a rest of 65 at last|O 64 64 64 64 64 64 64 64 64 64 64 64 64 64 64 65\n\
        a rest of 255 at last|O 0 0 0 0 0 0 0 0 0 0 0 0 0 0 0 255\n\
        rests of 255|O 255 255 255 255 255 255 255 255 255 255 255 255 255 255 255 255\n\
        15 rests and 65|O 0 0 0 0 0 0 0 0 0 0 0 0 0 0 65\n\
        falling at first|O 1 0 0 0 0 0 0 0 0 0 0 0 0 0 0 0\n\
        falling at first, then rising|O 1 0 1 1 1 1 1 1 1 1 1 1 1 1 1 1\n\
        falling in the middle|O 0 0 0 0 0 0 0 2 1 2 2 2 2 2 2 2\n\
        falling at last|O 64 64 64 64 64 64 64 64 64 64 64 64 64 64 64 63\n\
        falling at last to 0|O 1 1 1 1 1 1 1 1 1 1 1 1 1 1 1 0\n\
        falling all along|O 16 15 14 13 12 11 10 9 8 7 6 5 4 3 2 1\n",
    );
}

// Openings that are taken, and then one after it, or with the table put there before it, which changes nothing.
fn taken(stdout: Stdout) {
    acts::lines(
        stdout,
        &P,
        &World::filled(170),
        "rests of 0, then none given|O 0 0 0 0 0 0 0 0 0 0 0 0 0 0 0 0;n 707 0 1 1 2 2 4 4 8 8 16 16 16 32 32 32 32\
        ;o\n\
        the built-in rests, then none given|O 0 1 1 2 2 4 4 8 8 16 16 16 32 32 32 32;o\n\
        none given, then the built-in rests|o;O 0 1 1 2 2 4 4 8 8 16 16 16 32 32 32 32\n\
        none given, then rests of 0|o;n 707 0 0 0 0 0 0 0 0 0 0 0 0 0 0 0 0;O 0 0 0 0 0 0 0 0 0 0 0 0 0 0 0 0\n\
        none given, then rests of 64|o;n 707 64 64 64 64 64 64 64 64 64 64 64 64 64 64 64 64\
        ;O 64 64 64 64 64 64 64 64 64 64 64 64 64 64 64 64\n\
        none given, then a rest of 64 at last|o;n 707 0 0 0 0 0 0 0 0 0 0 0 0 0 0 0 64\
        ;O 0 0 0 0 0 0 0 0 0 0 0 0 0 0 0 64\n\
        none given, then rests from 1 to 16|o;n 707 1 2 3 4 5 6 7 8 9 10 11 12 13 14 15 16\
        ;O 1 2 3 4 5 6 7 8 9 10 11 12 13 14 15 16\n\
        none given, then rests of 63 and 64|o;n 707 63 63 63 63 63 63 63 63 64 64 64 64 64 64 64 64\
        ;O 63 63 63 63 63 63 63 63 64 64 64 64 64 64 64 64\n",
    );
}

// On the sound board, and at other lengths of it.
fn used(stdout: Stdout) {
    sound::lines(
        stdout,
        "15 rests, a board in use|O 0 0 0 0 0 0 0 0 0 0 0 0 0 0 0;x 0\n\
        no rests, a board in use|O;x 0\n\
        a rest of 65 at last, a board in use|O 64 64 64 64 64 64 64 64 64 64 64 64 64 64 64 65;x 0\n\
        no rests, 722 numbers|L 0 722;O\n\
        17 rests, 724 numbers|L 0 724;O 0 0 0 0 0 0 0 0 0 0 0 0 0 0 0 0 0\n\
        a rest of 65 at last, no numbers|L 0 0;O 64 64 64 64 64 64 64 64 64 64 64 64 64 64 64 65\n\
        falling at last, 722 numbers|L 0 722;O 64 64 64 64 64 64 64 64 64 64 64 64 64 64 64 63\n\
        rests of 0, 722 numbers|L 0 722;O 0 0 0 0 0 0 0 0 0 0 0 0 0 0 0 0\n\
        rests of 0, 724 numbers|L 0 724;O 0 0 0 0 0 0 0 0 0 0 0 0 0 0 0 0\n\
        rests of 0, 707 numbers|L 0 707;O 0 0 0 0 0 0 0 0 0 0 0 0 0 0 0 0\n\
        rests of 0, no numbers|L 0 0;O 0 0 0 0 0 0 0 0 0 0 0 0 0 0 0 0\n\
        rests of 0, a board in use|O 0 0 0 0 0 0 0 0 0 0 0 0 0 0 0 0;q;s 0;a 0 0 7 1\n\
        rests of 0, a day closed|z 5;O 0 0 0 0 0 0 0 0 0 0 0 0 0 0 0 0;a 0 0 7 1 5\n\
        falling, then none given|n 707 2;s 0;o;s 0\n\
        falling, then rests of 0|n 707 2;s 0;O 0 0 0 0 0 0 0 0 0 0 0 0 0 0 0 0;s 0\n\
        falling, then no rests|n 707 2;s 0;O;s 0\n",
    );
}

// A table that is refused by a number comes first: the first bytes of table P, with one byte another.
fn damaged(stdout: Stdout, number: u16, len: usize, at: usize, b: u8)
    requires { (len ≤ 20) × (at < 20) }
{
    let mut table = P;
    table[at] = b;
    say::word(stdout, "a table refused", number);
    say::text(stdout, "\n");
    acts::lines(
        stdout,
        &table[0..len],
        &World::opened(stdout, &P, 0),
        "no rests|O\n\
        no rests, 722 numbers|L 0 722;O\n\
        a rest of 65 at last|O 0 0 0 0 0 0 0 0 0 0 0 0 0 0 0 65\n\
        rests of 0|O 0 0 0 0 0 0 0 0 0 0 0 0 0 0 0 0\n\
        rests of 0, 724 numbers|L 0 724;O 0 0 0 0 0 0 0 0 0 0 0 0 0 0 0 0\n\
        falling|n 707 2;y 32\n\
        falling, in rows|n 707 2;w 8 4 2 2\n",
    );
}

pub fn lines(stdout: Stdout) {
    refused(stdout);
    taken(stdout);
    used(stdout);
    damaged(stdout, 1, 11, 0, 2);
    damaged(stdout, 2, 20, 0, 17);
    damaged(stdout, 3, 19, 0, 2);
    damaged(stdout, 4, 20, 12, 2);
    damaged(stdout, 5, 20, 16, 9);
    damaged(stdout, 6, 20, 16, 1);
    damaged(stdout, 7, 20, 18, 2);
}
