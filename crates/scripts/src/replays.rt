// Replays (rule 6.7): the first calls of the run of table P, and the rows of a part.
use crate::say;
use crate::script::Part;
use std::io::Stdout;

// The lists of twenty calls. A row has the kind, 1 for an add, the sender, the channel and the unit; then the property
// and the day; then the cents.
#[derive(Clone, Copy)]
struct Rows {
    calls: [[u16; 4]; 20],
    numbers: [[u32; 2]; 20],
    amounts: [i64; 20],
}

// The calls of the run. The adds have units 3 and 65,535, which the run does not ask for.
const RUN: [[u16; 4]; 20] = [
    [1, 0, 1, 3],
    [0, 0, 0, 0],
    [0, 0, 0, 0],
    [0, 0, 0, 0],
    [1, 1, 0, 65535],
    [0, 1, 0, 0],
    [0, 1, 0, 0],
    [0, 1, 0, 0],
    [0, 1, 0, 0],
    [0, 1, 0, 0],
    [0, 1, 0, 0],
    [0, 1, 0, 0],
    [0, 0, 0, 0],
    [0, 0, 0, 0],
    [0, 0, 0, 0],
    [0, 0, 0, 0],
    [0, 0, 0, 0],
    [0, 0, 0, 0],
    [0, 0, 0, 0],
    [0, 0, 0, 0],
];

fn run() -> Rows {
    let mut numbers = [[0; 2]; 20];
    let mut amounts = [0; 20];
    numbers[0] = [7, 0];
    numbers[4] = [7, 0];
    amounts[4] = 5000;
    Rows {
        calls: RUN,
        numbers,
        amounts,
    }
}

// The rows of a part, five numbers each: kind, sender, channel, cents and day.
fn own(p: &Part) -> Rows {
    let mut rows = Rows {
        calls: [[0; 4]; 20],
        numbers: [[0; 2]; 20],
        amounts: [0; 20],
    };
    for k in 0..20 {
        let from = 5 * k;
        rows.calls[k] = [p.small(from), p.small(from + 1), p.small(from + 2), 0];
        rows.numbers[k] = [7, p.long(from + 4)];
        rows.amounts[k] = p.amount(from + 3);
    }
    rows
}

fn rows_of(p: &Part) -> Rows {
    if p.kind == 'w' { run() } else { own(p) }
}

// How many numbers are lent: calls, properties and days, amounts, answers.
fn lens(p: &Part) -> [usize; 4] {
    if p.kind == 'w' {
        return [0, 1, 2, 3].map(|k| usize::from(p.small(k)));
    }
    let n = p.len() / 5;
    [4 * n, 2 * n, n, n]
}

// No answer.
const NONE: u32 = u32::MAX;

// The answers that were written; a dash where the last was not, though the replay was taken.
fn say_answers(stdout: Stdout, answers: [u32; 20], number: u8) {
    for a in answers {
        if a != NONE {
            say::answer(stdout, a);
        }
    }
    if number == 0 && answers[19] == NONE {
        say::answer(stdout, NONE);
    }
}

// A part's replay, of the first numbers of its rows.
pub fn replayed(
    stdout: Stdout,
    table: &[u8],
    board: &mut [u16],
    bytes: &mut [u8],
    links: &mut [u16],
    keys: &mut [u32],
    cents: &mut [i64],
    p: &Part,
) -> u8 {
    let rows = rows_of(p);
    let [c, n, a, room] = lens(p);
    let calls = &rows.calls.as_flattened()[..c.min(80)];
    let numbers = &rows.numbers.as_flattened()[..n.min(40)];
    let amounts = &rows.amounts[..a.min(20)];
    let mut answers = [NONE; 20];
    let answered = &mut answers[..room.min(20)];
    let number = calls::replay(
        table, board, bytes, links, keys, cents, calls, numbers, amounts, answered,
    );
    say::next(stdout, number);
    say_answers(stdout, answers, number);
    number
}
