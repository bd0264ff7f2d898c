// Lists of every length, and tables that are refused before them.
ghost use Rattle.std.specs.Prelude.{◌≤◌, ◌<◌};

use crate::acts;
use crate::tables::{ONE, P};
use scripts::world::World;
use std::io::Stdout;

// Lines, each on an empty board with other numbers past it.
fn opened(stdout: Stdout, table: &[u8], text: &str) {
    acts::lines(stdout, table, &World::opened(stdout, &ONE, 170), text);
}

// Lines, each on lists that are no board.
fn filled(stdout: Stdout, table: &[u8], text: &str) {
    acts::lines(stdout, table, &World::filled(170), text);
}

// The first bytes of table P, with one byte another.
fn damaged(stdout: Stdout, len: usize, at: usize, b: u8, text: &str)
    requires { (len ≤ 20) × (at < 20) }
{
    let mut table = P;
    table[at] = b;
    filled(stdout, &table[0..len], text);
}

// Tables refused by every call, also where a list is too short and the sender is past the last.
fn tables(stdout: Stdout) {
    damaged(
        stdout,
        11,
        0,
        2,
        "open, 11 bytes|L 0 673;o\n11 bytes|L 0 0;y 32\n",
    );
    damaged(
        stdout,
        20,
        0,
        17,
        "open, 17 trays|L 0 673;o\n17 trays|L 0 0;y 32\n",
    );
    damaged(
        stdout,
        19,
        0,
        2,
        "open, a byte less|L 0 673;o\na byte less|L 0 0;y 32\n",
    );
    damaged(
        stdout,
        20,
        12,
        2,
        "open, tray byte 2|L 0 673;o\ntray byte 2|L 0 0;y 32\n",
    );
    damaged(
        stdout,
        20,
        16,
        9,
        "open, a rule of 9|L 0 673;o\na rule of 9|L 0 0;y 32\n",
    );
    damaged(
        stdout,
        20,
        16,
        1,
        "open, a sum of 1|L 0 673;o\na sum of 1|L 0 0;y 32\n",
    );
    damaged(
        stdout,
        20,
        18,
        2,
        "open, member 2|L 0 673;o\nmember 2|L 0 0;y 32\n",
    );
}

// The same for the last byte of a rule, which is 2 at most.
fn last_bytes(stdout: Stdout) {
    damaged(
        stdout,
        20,
        17,
        3,
        "open, last byte 3|L 0 673;o\nlast byte 3|L 0 0;y 32\n",
    );
    damaged(
        stdout,
        20,
        17,
        255,
        "open, last byte 255|L 0 673;o\nlast byte 255|L 0 0;y 32\n",
    );
}

// Each list at no numbers, one less than a board has, as many, and one more; a board without its backoff table, and
// without tallies, links without units, keys without days, and both lists without what is kept of a close.
fn lists(stdout: Stdout) {
    opened(
        stdout,
        &ONE,
        "board|L 0 0;y 0\n\
        board|L 0 722;y 0\n\
        board|L 0 723;y 0\n\
        board|L 0 724;y 0\n\
        board without rests|L 0 707;y 0\n\
        board without tallies|L 0 675;y 0\n\
        bytes|L 1 0;y 0\n\
        bytes|L 1 3071;y 0\n\
        bytes|L 1 3072;y 0\n\
        bytes|L 1 3073;y 0\n\
        links|L 2 0;y 0\n\
        links|L 2 11263;y 0\n\
        links|L 2 11264;y 0\n\
        links|L 2 11265;y 0\n\
        links without units|L 2 10240;y 0\n\
        keys|L 3 0;y 0\n\
        keys|L 3 2048;y 0\n\
        keys|L 3 2049;y 0\n\
        keys|L 3 2050;y 0\n\
        keys, properties alone|L 3 1024;y 0\n\
        board and keys without close day|L 0 674;L 3 2048;y 0\n\
        cents|L 4 0;y 0\n\
        cents|L 4 1023;y 0\n\
        cents|L 4 1024;y 0\n\
        cents|L 4 1025;y 0\n",
    );
}

// The lists, then the tables, then openings.
pub fn lines(stdout: Stdout) {
    lists(stdout);
    tables(stdout);
    last_bytes(stdout);
    damaged(stdout, 20, 0, 2, "open, P|L 0 673;o\nP|L 0 0;y 32\n");
    damaged(
        stdout,
        20,
        17,
        2,
        "open, last byte 2|L 0 673;o\nlast byte 2|L 0 0;y 32\nopened, last byte 2|o\n",
    );
    filled(
        stdout,
        &P,
        "open, 674 numbers|L 0 674;o\n\
        open, 675 numbers|L 0 675;o\n\
        open, 707 numbers|L 0 707;o\n\
        open, 722 numbers|L 0 722;o\n\
        open, 723 numbers|o\n\
        open, 724 numbers|L 0 724;o\n",
    );
    opened(stdout, &ONE, "30 before 8|L 1 3071;y 32\n");
}
