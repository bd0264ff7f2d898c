// Scripts, played on the lists of a board.
use scripts::say;
use scripts::script::Part;
use scripts::world::World;
use state::Said;
use std::io::Stdout;

// A number at its place in the list of a letter.
fn set(w: &mut World, kind: char, at: usize, x: u16) {
    match kind {
        'n' => w.board[at % 724] = x,
        'b' => w.bytes[at % 3073] = (x & 0xff) as u8,
        'l' => w.links[at % 11265] = x,
        'L' => w.lens[at % 5] = usize::from(x),
        _ => {}
    }
}

// The numbers of a part, from one of them on, to a place and those after it.
fn put(w: &mut World, kind: char, at: u16, p: &Part, from: usize) {
    for (to, k) in (usize::from(at)..).zip(from..p.len()) {
        set(w, kind, to, p.small(k));
    }
}

// Where a sender's number stands on the board.
fn sender_at(p: &Part) -> u16 {
    2 + 21 * (p.small(0) % 32) + p.small(1) % 32
}

// What a part alters by itself.
fn edit(w: &mut World, p: &Part) {
    let at = p.small(0);
    match p.kind {
        'd' => put(w, 'n', sender_at(p), p, 2),
        'c' | 'C' => w.cents[usize::from(at % 1024)] = p.amount(1),
        'K' => w.keys[usize::from(at % 2050)] = p.long(1),
        'T' => w.board[675..707].fill(at),
        kind => put(w, kind, at, p, 1),
    }
}

// What was said: in words, or as the number of a refusal.
fn say_said(stdout: Stdout, kind: char, said: Said) {
    match kind {
        't' | 'u' | 'Z' | 'o' | 'O' => say::refusal(stdout, said),
        _ => say::said(stdout, said),
    }
}

// Closes the day of a close that was accepted.
fn close(w: &mut World, p: &Part, said: Said) {
    if p.is_close() && state::number_of(said) == 0 {
        w.board[674] = 1;
        w.keys[2048] = p.long(0);
    }
}

// A part's call: what was said, and whether all but what it closed is as it was.
fn hear(stdout: Stdout, table: &[u8], w: &mut World, p: &Part) {
    let mut left = *w;
    let said = w.ask(stdout, table, p);
    close(&mut left, p, said);
    if p.is_call() {
        say_said(stdout, p.kind, said);
    }
    if p.is_call() || p.is_replay() {
        say::kept(stdout, left == *w);
    }
}

// A step of sender i, an add of sender j after it, a close of day j, and the reads, as numbers.
fn calls(stdout: Stdout, table: &[u8], w: &mut World, i: u16, j: u16) {
    hear(stdout, table, w, &Part::ask('t', i));
    hear(stdout, table, w, &Part::ask('u', j));
    hear(stdout, table, w, &Part::ask('Z', j));
    hear(stdout, table, w, &Part::ask('v', j));
}

// The same of sender and day i, but the close and the reads on the lists before these.
fn each_call(stdout: Stdout, table: &[u8], w: &mut World, i: u16) {
    let before = *w;
    hear(stdout, table, w, &Part::ask('t', i));
    hear(stdout, table, w, &Part::ask('u', i));
    *w = before;
    hear(stdout, table, w, &Part::ask('Z', i));
    *w = before;
    hear(stdout, table, w, &Part::ask('v', i));
}

// A step of a sender if it rests, with answer 917504; whether it does.
fn rests(stdout: Stdout, table: &[u8], w: &mut World, i: u16) -> bool {
    let mut next = *w;
    let said = next.ask(stdout, table, &Part::ask('s', i));
    let rested = plays::answer_number(said) == 917504;
    if rested {
        *w = next;
    }
    rested
}

// The steps of a sender while it rests: how many, which is 256 at most.
fn rest(stdout: Stdout, table: &[u8], w: &mut World, i: u16) {
    let n = (0..300)
        .find(|_| !rests(stdout, table, w, i))
        .unwrap_or(300);
    say::word(stdout, " rests", n);
}

fn act(stdout: Stdout, table: &[u8], w: &mut World, p: &Part) {
    let i = p.small(0);
    match p.kind {
        'n' | 'd' | 'b' | 'l' | 'c' | 'C' | 'K' | 'L' | 'T' => edit(w, p),
        'x' => calls(stdout, table, w, i, 31),
        'y' => each_call(stdout, table, w, i),
        'R' => rest(stdout, table, w, i),
        _ => hear(stdout, table, w, p),
    }
}

// A line of a script; nothing is printed of one without a label.
fn line(stdout: Stdout, table: &[u8], w: &mut World, text: &str) {
    let Some((label, parts)) = text.split_once('|') else {
        return;
    };
    if !label.is_empty() {
        say::text(stdout, label);
        say::text(stdout, ":");
    }
    for p in parts.split(';').filter_map(Part::read) {
        act(stdout, table, w, &p);
    }
    if !label.is_empty() {
        say::text(stdout, "\n");
    }
}

// The lines of a script, one after another.
pub fn play(stdout: Stdout, table: &[u8], w: &mut World, text: &str) {
    for part in text.lines() {
        line(stdout, table, w, part);
    }
}

// Lines, each on the lists as they are.
pub fn lines(stdout: Stdout, table: &[u8], w: &World, text: &str) {
    for part in text.lines() {
        let mut v = *w;
        line(stdout, table, &mut v, part);
    }
}

// From an empty board: a script, and then lines, each on the board that the script leaves.
pub fn section(stdout: Stdout, table: &[u8], first: &str, text: &str) {
    let mut w = World::opened(stdout, table, 0);
    play(stdout, table, &mut w, first);
    lines(stdout, table, &w, text);
}
