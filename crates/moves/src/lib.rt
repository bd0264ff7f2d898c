// What a call does: refused by itself, or a move, computed from its sender and the lists.
#![tactic(auto)]

ghost use Rattle.std.specs.Prelude.{◌≡◌, true, ℕ, ◌<◌, length, get_or};
ghost use Rattle.model.specs.Layout.{table_refusal, table_of};
ghost use Rattle.model.specs.Effects.{number_of};
ghost use Rattle.model.specs.Pools.{adds, steps};
ghost use Rattle.columns.specs.Columns.{Passed};
ghost use Rattle.state.specs.Views.{said_in, sender_steps};
ghost use Rattle.boards.specs.Boards.{zero_sender};
ghost use Rattle.boards.specs.Calls.{Held, sent_in, call_in};
ghost use Rattle.boards.specs.Layout.{keys_len, lists, statuses_in};
ghost use Rattle.rows.specs.Numbers.{encodes};
ghost use Rattle.rows.specs.Decoded.{board_from};
ghost use Rattle.refusals.specs.Held.{held_of, Accepted};
ghost use Rattle.refusals.specs.Calls.{refusal_of, caller_of, Plays};
ghost use Rattle.writes.specs.Moves.{moved_held, Fits};
ghost use Rattle.moves.specs.Refused.{call_refusal};

use boards::{Call, Sent};
use state::{Change, Effect, Said};
use writes::Move;

// The number of the sender that calls.
pub fn caller_of(call: Call) -> u16
    ensures { result ≡ caller_of (call_in call) }
{
    match call {
        Call::Add(i, _) | Call::Step(i) => i,
    }
}

// The number that refuses a call by itself; 0 for none.
#[tactic(auto, using(writes::proofs::Places::board_lengths))]
pub fn call_refusal(table: &[u8], board: &[u16], keys: &[u32], call: Call) -> u8
    requires { (table_refusal table.now ≡ 0) × (encodes board.now ≡ true) × (length keys.now ≡ keys_len) }
    ensures { result ≡ call_refusal (table_of table.now) (board_from board.now)
        keys.now (call_in call) }
{
    match call {
        Call::Add(i, _) | Call::Step(i) if i >= 32 => 8,
        Call::Add(i, x) => {
            let place = i as u8;
            let idle = rows::is_idle(board, place);
            let timely = closes::day_open(board[boards::CLOSED], keys[boards::CLOSE_DAY], x.day);
            let room = shares::has_room(boards::tallies(board), place);
            adds::add_refusal(table, i, idle, timely, x, room)
        }
        Call::Step(i) if !rows::may_step(board, i as u8) => 13,
        Call::Step(_) => 0,
    }
}

// The add of x as message n.
fn add_move(table: &[u8], n: u16, x: Sent) -> Move
    requires { (table_refusal table.now ≡ 0) × (x.channel < length (table_of table.now).kinds) × (n < 1024) }
    ensures plays { (h : Held) (i : ℕ) → refusal_of table.now h ≡ 0 → h.board.messages ≡ n
        → call_refusal (table_of table.now) h.board h.columns.keys (adds i (sent_in x)) ≡ 0
        → Plays table.now h (adds i (sent_in x)) (said_in result.said) (moved_held h i result) }
    ensures by_index { ((k : ℕ) → Fits n k result) × (number_of (said_in result.said) ≡ 0) }
{
    Move {
        said: Said::Item(n),
        sender: adds::new_sender(table, n, x.channel as u8),
        added: Some(x),
        change: Change::None,
    }
}

// A step of the sender at a place. The messages below `start` are consumed.
#[tactic(auto, using(writes::proofs::Places::board_lengths))]
fn step_move(
    table: &[u8],
    board: &[u16],
    bytes: &[u8],
    links: &[u16],
    keys: &[u32],
    cents: &[i64],
    i: u8,
    start: u16,
) -> Move
    requires accepted { Accepted table.now (lists board.now bytes.now links.now keys.now cents.now) }
    requires i_bound { (i < 32) × (sender_steps (get_or (board_from board.now).senders i zero_sender) ≡ true) }
    requires passed { Passed start (get_or board.now 0 0) (statuses_in bytes.now) }
    ensures plays { Plays table.now
        (held_of (lists board.now bytes.now links.now keys.now
        cents.now)) (steps i) (said_in result.said)
        (moved_held (held_of (lists board.now bytes.now links.now keys.now
        cents.now)) i result) }
    ensures fits { Fits (get_or board.now 0 0) (get_or board.now 1 0) result
        × (number_of (said_in result.said) ≡ 0) }
{
    let Effect {
        said,
        change,
        sender,
    } = steps::effect_of(
        table,
        rows::sender_at(board, i),
        start,
        board[0],
        board[1],
        boards::channels(bytes),
        keys,
        boards::statuses(bytes),
        links,
        boards::backoffs(board),
    );
    Move {
        said,
        sender,
        added: None,
        change,
    }
}

// What a call does that is not refused, on lists that the first tests accept.
#[tactic(auto, using(writes::proofs::Places::board_lengths))]
pub fn move_of(
    table: &[u8],
    board: &[u16],
    bytes: &[u8],
    links: &[u16],
    keys: &[u32],
    cents: &[i64],
    call: Call,
    start: u16,
) -> Move
    requires accepted { Accepted table.now (lists board.now bytes.now links.now keys.now cents.now) }
    requires call_value { call_refusal (table_of table.now) (board_from board.now) keys.now (call_in call) ≡ 0 }
    requires passed { Passed start (get_or board.now 0 0) (statuses_in bytes.now) }
    ensures plays { Plays table.now
        (held_of (lists board.now bytes.now links.now keys.now
        cents.now)) (call_in call) (said_in result.said)
        (moved_held (held_of (lists board.now bytes.now links.now keys.now
        cents.now)) (caller_of (call_in call)) result) }
    ensures fits { Fits (get_or board.now 0 0) (get_or board.now 1 0) result
        × (number_of (said_in result.said) ≡ 0) }
{
    match call {
        Call::Add(_, x) => add_move(table, board[0], x),
        Call::Step(i) => step_move(table, board, bytes, links, keys, cents, i as u8, start),
    }
}
