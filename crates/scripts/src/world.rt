// A board's five lists by value, and a part's call on them.
use crate::script::Part;
use crate::{replays, shown};
use state::Said;
use std::io::Stdout;

// Each list has a number past it, and is lent at a length.
#[derive(Clone, Copy, PartialEq)]
pub struct World {
    pub board: [u16; 724],
    pub bytes: [u8; 3073],
    pub links: [u16; 11265],
    pub keys: [u32; 2050],
    pub cents: [i64; 1025],
    pub lens: [usize; 5],
}

impl World {
    // Lists of one number everywhere.
    pub fn filled(x: u8) -> World {
        World {
            board: [u16::from(x); 724],
            bytes: [x; 3073],
            links: [u16::from(x); 11265],
            keys: [u32::from(x); 2050],
            cents: [i64::from(x); 1025],
            lens: [723, 3072, 11264, 2049, 1024],
        }
    }

    // An empty board, with one number everywhere else.
    pub fn opened(stdout: Stdout, table: &[u8], x: u8) -> World {
        let mut w = World::filled(x);
        w.ask(stdout, table, &Part::ask('o', 0));
        w
    }

    // A part's call; a replay and a read are printed, and what is said of a read is a refusal of number 0.
    pub fn ask(&mut self, stdout: Stdout, table: &[u8], p: &Part) -> Said {
        let lens = self.lens;
        let World {
            board,
            bytes,
            links,
            keys,
            cents,
            ..
        } = self;
        lend(stdout, table, board, bytes, links, keys, cents, lens, p)
    }
}

// The call, with each list at its length.
fn lend(
    stdout: Stdout,
    table: &[u8],
    board: &mut [u16],
    bytes: &mut [u8],
    links: &mut [u16],
    keys: &mut [u32],
    cents: &mut [i64],
    lens: [usize; 5],
    p: &Part,
) -> Said {
    let n0 = lens[0].min(board.len());
    let n1 = lens[1].min(bytes.len());
    let n2 = lens[2].min(links.len());
    let n3 = lens[3].min(keys.len());
    let n4 = lens[4].min(cents.len());
    call(
        stdout,
        table,
        &mut board[..n0],
        &mut bytes[..n1],
        &mut links[..n2],
        &mut keys[..n3],
        &mut cents[..n4],
        p,
    )
}

fn call(
    stdout: Stdout,
    table: &[u8],
    board: &mut [u16],
    bytes: &mut [u8],
    links: &mut [u16],
    keys: &mut [u32],
    cents: &mut [i64],
    p: &Part,
) -> Said {
    let i = p.small(0);
    match p.kind {
        'o' => Said::Refused(calls::open(table, board)),
        'O' => Said::Refused(calls::open_with_rests(table, &p.bytes()[..p.len()], board)),
        's' | 't' => calls::step(table, board, bytes, links, keys, cents, i),
        'a' | 'A' | 'u' => calls::add(table, board, bytes, links, keys, cents, i, p.sent(1)),
        'z' | 'Z' => calls::close(table, board, bytes, links, keys, cents, p.long(0)),
        'w' | 'p' => Said::Refused(replays::replayed(
            stdout, table, board, bytes, links, keys, cents, p,
        )),
        _ => {
            shown::reads(stdout, table, board, bytes, links, keys, cents, p);
            Said::Refused(0)
        }
    }
}
