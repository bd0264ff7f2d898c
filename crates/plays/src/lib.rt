// One call, and a list of calls, in place on lists that the first tests accept.
#![tactic(auto)]

ghost use Rattle.std.specs.Prelude.{◌≡◌, true, List, ℕ, ◌+◌, ◌*◌, ◌<◌, ◌≤◌, ℤ, length, get_or};
ghost use Rattle.model.specs.Pools.{closes};
ghost use Rattle.columns.specs.Columns.{Passed};
ghost use Rattle.state.specs.Views.{said_in};
ghost use Rattle.boards.specs.Calls.{call_in};
ghost use Rattle.boards.specs.Layout.{keys_len, lists, statuses_in};
ghost use Rattle.rows.specs.Numbers.{encodes};
ghost use Rattle.refusals.specs.Held.{held_of, Accepted};
ghost use Rattle.plays.specs.Plays.{PlaysIn};
ghost use Rattle.plays.specs.Replays.{call_rows, row_in, call_at, rows_fit, answer_number};
ghost use Rattle.plays.specs.Replays.{Fit, PlaysAll};

use boards::{Call, Sent};
use state::Said;

// What is said to a call, also as one number, and where the messages start that are not all consumed.
#[derive(Clone, Copy)]
pub struct Answer {
    pub said: Said,
    pub number: u32,
    pub start: u16,
}

impl Answer {
    // What is said, with its number.
    fn new(said: Said, start: u16) -> Answer
        ensures { (result.said ≡ said) × (result.number ≡ answer_number (said_in said)) × (result.start ≡ start) }
    {
        Answer {
            said,
            number: answer_number(said),
            start,
        }
    }
}

// An answer as one number.
#[tactic(auto, unfolding(crate::specs::Replays::answer_number))]
pub fn answer_number(said: Said) -> u32
    ensures { result ≡ answer_number (said_in said) }
{
    let word = u32::from(state::word_of(said));
    let value = u32::from(state::value_of(said));
    let number = u32::from(state::number_of(said));
    word * 65536 + (value + number)
}

// A sender's call. The messages below `start` are consumed, so that no look reads them.
#[tactic(auto, using(writes::proofs::Places::board_lengths))]
pub fn play(
    table: &[u8],
    board: &mut [u16],
    bytes: &mut [u8],
    links: &mut [u16],
    keys: &mut [u32],
    cents: &mut [i64],
    call: Call,
    start: u16,
) -> Answer
    requires accepted { Accepted table.now (lists board.old bytes.old links.old keys.old cents.old) }
    requires passed { Passed start (get_or board.old 0 0) (statuses_in bytes.old) }
    ensures plays_in { PlaysIn table.now
        (lists board.old bytes.old links.old keys.old cents.old)
        (call_in call) (said_in result.said)
        (lists board.new bytes.new links.new keys.new cents.new) }
    ensures number_value { result.number ≡ answer_number (said_in result.said) }
    ensures passed_2 { Passed result.start (get_or board.new 0 0) (statuses_in bytes.new) }
{
    let refusal = moves::call_refusal(table, board, keys, call);
    if refusal != 0 {
        return Answer::new(Said::Refused(refusal), start);
    }
    let m = moves::move_of(table, board, bytes, links, keys, cents, call, start);
    let i = moves::caller_of(call) as u8;
    writes::write_move(m, i, board, bytes, links, keys, cents);
    let next = writes::start_after(m.change, start, board[0], bytes);
    Answer::new(m.said, next)
}

// A close of the days up to one.
#[tactic(auto, using(writes::proofs::Places::board_lengths))]
pub fn close(board: &mut [u16], keys: &mut [u32], day: u32) -> Said
    requires { (encodes board.old ≡ true) × (length keys.old ≡ keys_len) }
    ensures by_index { (s bytes links : List ℕ) (cents : List ℤ)
        → Accepted s (lists board.old bytes links keys.old cents)
        → PlaysIn s (lists board.old bytes links keys.old cents) (closes day) (said_in result)
        (lists board.new bytes links keys.new cents) }
    ensures board_unchanged { get_or board.new 0 0 ≡ get_or board.old 0 0 }
{
    let refusal = closes::close_refusal(board[boards::CLOSED], keys[boards::CLOSE_DAY], day);
    if refusal != 0 {
        return Said::Refused(refusal);
    }
    closes::put_close(board, keys, day);
    Said::Closed
}

// A row of the lent calls: a close of the days up to one, or a sender's call.
#[derive(Clone, Copy)]
enum Row {
    Close(u32),
    Of(Call),
}

// A row, played. The messages below `start` are consumed.
fn turn(
    table: &[u8],
    board: &mut [u16],
    bytes: &mut [u8],
    links: &mut [u16],
    keys: &mut [u32],
    cents: &mut [i64],
    row: Row,
    start: u16,
) -> Answer
    requires accepted { Accepted table.now (lists board.old bytes.old links.old keys.old cents.old) }
    requires passed { Passed start (get_or board.old 0 0) (statuses_in bytes.old) }
    ensures plays_in { PlaysIn table.now
        (lists board.old bytes.old links.old keys.old cents.old)
        (row_in row) (said_in result.said)
        (lists board.new bytes.new links.new keys.new cents.new) }
    ensures number_value { result.number ≡ answer_number (said_in result.said) }
    ensures passed_2 { Passed result.start (get_or board.new 0 0) (statuses_in bytes.new) }
{
    match row {
        Row::Close(day) => Answer::new(close(board, keys, day), start),
        Row::Of(call) => play(table, board, bytes, links, keys, cents, call, start),
    }
}

// The row of a call: kind 0 is a step, 2 a close, any other an add.
#[tactic(auto, unfolding(crate::specs::Replays::sender_call))]
fn row_at(calls: &[u16], numbers: &[u32], amounts: &[i64], k: usize) -> Row
    requires { (4 * k + 4 ≤ length calls.now) × (2 * k + 2 ≤ length numbers.now) × (k < length amounts.now) }
    ensures { row_in result ≡ call_at (call_rows calls.now numbers.now amounts.now) k }
{
    let at = 4 * k;
    let i = calls[at + 1];
    let day = numbers[2 * k + 1];
    match calls[at] {
        0 => Row::Of(Call::Step(i)),
        2 => Row::Close(day),
        _ => {
            let x = Sent {
                channel: calls[at + 2],
                property: numbers[2 * k],
                cents: amounts[k],
                day,
                unit: calls[at + 3],
            };
            Row::Of(Call::Add(i, x))
        }
    }
}

// The calls, one after another, with room for each answer; what is said to the last. Single calls come here as well, so
// that a step is compiled into one place.
pub fn replay_core(
    table: &[u8],
    board: &mut [u16],
    bytes: &mut [u8],
    links: &mut [u16],
    keys: &mut [u32],
    cents: &mut [i64],
    calls: &[u16],
    numbers: &[u32],
    amounts: &[i64],
    answers: &mut [u32],
) -> Said
    requires accepted { Accepted table.now (lists board.old bytes.old links.old keys.old cents.old) }
    requires fit { Fit (call_rows calls.now numbers.now amounts.now) (length answers.old) }
    ensures accepted_2 { Accepted table.now
        (lists board.new bytes.new links.new keys.new cents.new) }
    ensures plays_all { PlaysAll table.now
        (held_of (lists board.old bytes.old links.old keys.old
        cents.old))
        (call_rows calls.now numbers.now amounts.now) answers.old
        answers.new
        (held_of (lists board.new bytes.new links.new keys.new
        cents.new)) }
    ensures plays_in { length amounts.now ≡ 1 → PlaysIn table.now
        (lists board.old bytes.old links.old keys.old cents.old)
        (call_at (call_rows calls.now numbers.now amounts.now) 0) (said_in result)
        (lists board.new bytes.new links.new keys.new cents.new) }
{
    let mut said = Said::Ended;
    let mut start = 0;
    for k in 0..amounts.len() {
        let row = row_at(calls, numbers, amounts, k);
        let a = turn(table, board, bytes, links, keys, cents, row, start);
        said = a.said;
        answers[k] = a.number;
        start = a.start;
    }
    said
}

// Whether the lists of calls have as many rows.
#[tactic(auto, unfolding(crate::specs::Replays::rows_fit))]
pub fn rows_fit(calls: &[u16], numbers: &[u32], amounts: &[i64]) -> bool
    ensures { result ≡ rows_fit (call_rows calls.now numbers.now amounts.now) }
{
    calls.len() == 4 * amounts.len() && numbers.len() == 2 * amounts.len()
}
