// The public calls: any bytes, any lists; each is refused with a plain number, or does what it says.
#![tactic(auto)]

ghost use Rattle.std.specs.Prelude.{◌≡◌, ◌<◌, ◌≤◌, length, get_or, drop, replicate};
ghost use Rattle.model.specs.Tables.{Table};
ghost use Rattle.model.specs.Boards.{no_message, builtin_backoffs};
ghost use Rattle.model.specs.Pools.{no_read, quiet, adds, steps, closes};
ghost use Rattle.columns.specs.Columns.{Columns, columns_of, message_in};
ghost use Rattle.columns.specs.MatchColumns.{MatchColumns};
ghost use Rattle.boards.specs.Boards.{board_in};
ghost use Rattle.boards.specs.Layout.{board_len, bytes_len, links_len, keys_len, cents_len, lists, channels_in};
ghost use Rattle.boards.specs.Layout.{statuses_in, matched_in, wakers_in, units_in};
ghost use Rattle.rows.specs.Decoded.{board_from};
ghost use Rattle.refusals.specs.Held.{held_in};
ghost use Rattle.refusals.specs.Calls.{refusal_of};
ghost use Rattle.reads.specs.Reads.{message_of, read_of};
ghost use Rattle.calls.specs.Opens.{open_number, opened_numbers};
ghost use Rattle.calls.specs.Reads.{quiet_answer, reply_number, reply_answer, message_number, message_answer};
ghost use Rattle.calls.specs.Reads.{match_number, match_answer};
ghost use Rattle.state.specs.Views.{said_in};
ghost use Rattle.boards.specs.Calls.{sent_in};
ghost use Rattle.plays.specs.Replays.{call_rows, call_at, refusal_after};
ghost use Rattle.calls.specs.Calls.{Calls, ReplaysIn};

use boards::Sent;
use reads::{MatchRead, MessageRead};
use state::Said;

#[derive(Clone, Copy)]
pub struct QuietRead {
    pub number: u8,
    pub quiet: bool,
}

// A reply is the match plus 1, 0 for none.
#[derive(Clone, Copy)]
pub struct ReplyRead {
    pub number: u8,
    pub reply: u16,
}

#[derive(Clone, Copy)]
pub struct MessageAnswer {
    pub number: u8,
    pub message: MessageRead,
}

#[derive(Clone, Copy)]
pub struct MatchAnswer {
    pub number: u8,
    pub read: MatchRead,
}

// Opens an empty board with the backoff table given; 0, or the number that refuses it, and then the board is as before.
pub fn open_with_rests(table: &[u8], rests: &[u8], board: &mut [u16]) -> u8
    ensures value { result ≡ open_number table.now rests.now board.old }
    ensures board_after { board.new
        ≡ opened_numbers table.now rests.now board.old }
{
    let number = table::table_refusal(table);
    if number != 0 {
        return number;
    }
    if !backoffs::bytes_pass(rests) {
        return 21;
    }
    if board.len() != boards::BOARD_LEN {
        return 30;
    }
    rows::put_fresh(board, rests);
    0
}

// Opens an empty board with the built-in backoff table.
pub fn open(table: &[u8], board: &mut [u16]) -> u8
    ensures value { result ≡ open_number table.now builtin_backoffs board.old }
    ensures board_after { board.new
        ≡ opened_numbers table.now builtin_backoffs board.old }
{
    let rests = backoffs::builtin();
    open_with_rests(table, &rests, board)
}

// The one call of a row: the refusals that every board call has, then the call.
fn one_call(
    table: &[u8],
    board: &mut [u16],
    bytes: &mut [u8],
    links: &mut [u16],
    keys: &mut [u32],
    cents: &mut [i64],
    calls: &[u16],
    numbers: &[u32],
    amounts: &[i64],
) -> Said
    requires { (length calls.now ≡ 4) × (length numbers.now ≡ 2) × (length amounts.now ≡ 1) }
    ensures { Calls table.now
        (lists board.old bytes.old links.old keys.old cents.old)
        (call_at (call_rows calls.now numbers.now amounts.now) 0) (said_in result)
        (lists board.new bytes.new links.new keys.new cents.new) }
{
    let number = refusals::board_refusal(table, board, bytes, links, keys, cents);
    if number != 0 {
        return Said::Refused(number);
    }
    let mut answers = [0u32; 1];
    plays::replay_core(
        table,
        board,
        bytes,
        links,
        keys,
        cents,
        calls,
        numbers,
        amounts,
        &mut answers,
    )
}

// An add of x by sender i.
pub fn add(
    table: &[u8],
    board: &mut [u16],
    bytes: &mut [u8],
    links: &mut [u16],
    keys: &mut [u32],
    cents: &mut [i64],
    i: u16,
    x: Sent,
) -> Said
    ensures { Calls table.now
        (lists board.old bytes.old links.old keys.old cents.old)
        (adds i (sent_in x)) (said_in result)
        (lists board.new bytes.new links.new keys.new cents.new) }
{
    let amount = x.cents;
    one_call(
        table,
        board,
        bytes,
        links,
        keys,
        cents,
        &[1, i, x.channel, x.unit],
        &[x.property, x.day],
        &[amount],
    )
}

// A step of sender i.
pub fn step(
    table: &[u8],
    board: &mut [u16],
    bytes: &mut [u8],
    links: &mut [u16],
    keys: &mut [u32],
    cents: &mut [i64],
    i: u16,
) -> Said
    ensures { Calls table.now
        (lists board.old bytes.old links.old keys.old cents.old)
        (steps i) (said_in result)
        (lists board.new bytes.new links.new keys.new cents.new) }
{
    one_call(
        table,
        board,
        bytes,
        links,
        keys,
        cents,
        &[0, i, 0, 0],
        &[0, 0],
        &[0],
    )
}

// A close of the days up to one.
pub fn close(
    table: &[u8],
    board: &mut [u16],
    bytes: &[u8],
    links: &[u16],
    keys: &mut [u32],
    cents: &[i64],
    day: u32,
) -> Said
    ensures { Calls table.now
        (lists board.old bytes.now links.now keys.old cents.now)
        (closes day) (said_in result)
        (lists board.new bytes.now links.now keys.new
        cents.now) }
{
    let number = refusals::board_refusal(table, board, bytes, links, keys, cents);
    if number != 0 {
        return Said::Refused(number);
    }
    plays::close(board, keys, day)
}

// The first refusal of a replay: that of every board call, then 30 for lists of calls that have not as many rows, then
// 31 for too few answers; 0 for none.
fn replay_refusal(number: u8, calls: &[u16], numbers: &[u32], amounts: &[i64], room: usize) -> u8
    ensures { result ≡ refusal_after number
        (call_rows calls.now numbers.now amounts.now) room }
{
    if number != 0 {
        return number;
    }
    if !plays::rows_fit(calls, numbers, amounts) {
        return 30;
    }
    if room < amounts.len() {
        return 31;
    }
    0
}

// A list of calls, one after another; each answer goes to its place in a lent list.
pub fn replay(
    table: &[u8],
    board: &mut [u16],
    bytes: &mut [u8],
    links: &mut [u16],
    keys: &mut [u32],
    cents: &mut [i64],
    calls: &[u16],
    numbers: &[u32],
    amounts: &[i64],
    answers: &mut [u32],
) -> u8
    ensures { ReplaysIn table.now
        (lists board.old bytes.old links.old keys.old cents.old)
        (call_rows calls.now numbers.now amounts.now)
        answers.old answers.new result
        (lists board.new bytes.new links.new keys.new cents.new) }
{
    let refusal = refusals::board_refusal(table, board, bytes, links, keys, cents);
    let number = replay_refusal(refusal, calls, numbers, amounts, answers.len());
    if number != 0 {
        return number;
    }
    plays::replay_core(
        table, board, bytes, links, keys, cents, calls, numbers, amounts, answers,
    );
    0
}

// Whether no sender has a step to take.
pub fn is_quiet(board: &[u16]) -> bool
    requires { length board.now ≡ board_len }
    ensures { (t : Table) (c : Columns) (m : MatchColumns)
        → result ≡ quiet (board_in t (board_from board.now) c m) }
{
    let mut i: usize = 0;
    while i < 32 {
        let at = 2 + 21 * i;
        if rows::steps_at(board[at], board[at + 1]) {
            return false;
        }
        i += 1;
    }
    true
}

// Whether no sender has a step to take; false where refused.
pub fn read_quiet(
    table: &[u8],
    board: &[u16],
    bytes: &[u8],
    links: &[u16],
    keys: &[u32],
    cents: &[i64],
) -> QuietRead
    ensures number_value { result.number ≡ refusal_of table.now (held_in (lists board.now
        bytes.now links.now keys.now cents.now)) }
    ensures quiet_value { result.quiet ≡ quiet_answer table.now (held_in (lists board.now
        bytes.now links.now keys.now cents.now)) }
{
    let number = refusals::board_refusal(table, board, bytes, links, keys, cents);
    if number != 0 {
        return QuietRead {
            number: number,
            quiet: false,
        };
    }
    QuietRead {
        number: 0,
        quiet: is_quiet(board),
    }
}

// The reply of sender i; 0 where refused.
pub fn read_reply(
    table: &[u8],
    board: &[u16],
    bytes: &[u8],
    links: &[u16],
    keys: &[u32],
    cents: &[i64],
    i: u16,
) -> ReplyRead
    ensures number_value { result.number ≡ reply_number table.now (held_in (lists board.now
        bytes.now links.now keys.now cents.now)) i }
    ensures reply_value { result.reply ≡ reply_answer table.now (held_in (lists board.now
        bytes.now links.now keys.now cents.now)) i }
{
    let number = refusals::board_refusal(table, board, bytes, links, keys, cents);
    if number != 0 {
        return ReplyRead {
            number: number,
            reply: 0,
        };
    }
    if i >= 32 {
        return ReplyRead {
            number: 8,
            reply: 0,
        };
    }
    let at = 2 + 21 * (i as usize);
    ReplyRead {
        number: 0,
        reply: board[at + 4],
    }
}

// A message of zeros.
fn no_message() -> MessageRead
    ensures { (message_of result ≡ no_message) × (result.status ≤ 3) }
{
    MessageRead {
        channel: 0,
        property: 0,
        cents: 0,
        day: 0,
        unit: 0,
        status: 0,
        matched: 0,
        waker: 0,
    }
}

// Message n of lists of their lengths.
fn message_in(bytes: &[u8], links: &[u16], keys: &[u32], cents: &[i64], n: u16) -> MessageRead
    requires bytes_len { (length bytes.now ≡ bytes_len) × (length links.now ≡ links_len) × (n < 1024) }
    requires keys_len { (length keys.now ≡ keys_len) × (length cents.now ≡ cents_len) }
    ensures result_value { message_of result ≡ message_in (columns_of (channels_in bytes.now)
        keys.now cents.now (statuses_in bytes.now)
        (matched_in links.now) (wakers_in links.now) (units_in links.now)) n }
    ensures status_value { result.status ≡ get_or (statuses_in bytes.now) n 0 }
{
    reads::message_read(
        n,
        boards::channels(bytes),
        keys,
        cents,
        boards::statuses(bytes),
        boards::matched(links),
        boards::wakers(links),
        boards::units(links),
    )
}

// Message n; zeros where refused.
pub fn read_message(
    table: &[u8],
    board: &[u16],
    bytes: &[u8],
    links: &[u16],
    keys: &[u32],
    cents: &[i64],
    n: u16,
) -> MessageAnswer
    ensures number_value { result.number ≡ message_number table.now (held_in (lists board.now
        bytes.now links.now keys.now cents.now)) n }
    ensures message_value { message_of result.message ≡ message_answer table.now (held_in (lists board.now
        bytes.now links.now keys.now cents.now)) n }
    ensures status_bound { result.message.status ≤ 3 }
{
    let number = refusals::board_refusal(table, board, bytes, links, keys, cents);
    if number != 0 {
        return MessageAnswer {
            number: number,
            message: no_message(),
        };
    }
    if n >= board[0] {
        return MessageAnswer {
            number: 14,
            message: no_message(),
        };
    }
    MessageAnswer {
        number: 0,
        message: message_in(bytes, links, keys, cents, n),
    }
}

// A match of zeros.
fn no_match() -> MatchRead
    ensures result_value { read_of result ≡ no_read }
    ensures len_bound { (result.len ≤ 8) × (drop result.len result.messages ≡ drop result.len (replicate 8 0)) }
{
    MatchRead {
        chord: 0,
        len: 0,
        messages: [0; 8],
        cents: 0,
    }
}

// Match k; zeros where refused.
pub fn read_match(
    table: &[u8],
    board: &[u16],
    bytes: &[u8],
    links: &[u16],
    keys: &[u32],
    cents: &[i64],
    k: u16,
) -> MatchAnswer
    ensures number_value { result.number ≡ match_number table.now (held_in (lists board.now
        bytes.now links.now keys.now cents.now)) k }
    ensures read_value { read_of result.read ≡ match_answer table.now (held_in (lists board.now
        bytes.now links.now keys.now cents.now)) k }
    ensures len_bound { (result.read.len ≤ 8)
        × (drop result.read.len result.read.messages ≡ drop result.read.len (replicate 8 0)) }
{
    let number = refusals::board_refusal(table, board, bytes, links, keys, cents);
    if number != 0 {
        return MatchAnswer {
            number: number,
            read: no_match(),
        };
    }
    if k >= board[1] {
        return MatchAnswer {
            number: 15,
            read: no_match(),
        };
    }
    let chords = boards::chords(bytes);
    let members = boards::members(links);
    MatchAnswer {
        number: 0,
        read: reads::match_read(table, k, chords, members, board[0], cents),
    }
}
