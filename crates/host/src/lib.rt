// The calls of a host in another language: the lists that it lends, any bytes and numbers, and plain numbers back.
#![tactic(auto)]

ghost use Rattle.std.specs.Prelude.{◌≡◌, [], ◌∷◌, map, ◌≤◌, pos, length, drop, replicate};
ghost use Rattle.std.proofs.Math.Seq.{paste};
ghost use Rattle.model.specs.Boards.{builtin_backoffs};
ghost use Rattle.model.specs.Layout.{table_refusal};
ghost use Rattle.model.specs.Pools.{adds, steps, closes};
ghost use Rattle.merging.specs.Merges.{merge_write_refusal, merge_written};
ghost use Rattle.boards.specs.Calls.{sent};
ghost use Rattle.boards.specs.Layout.{lists};
ghost use Rattle.refusals.specs.Held.{held_in};
ghost use Rattle.reads.specs.Reads.{message_of, read_of};
ghost use Rattle.plays.specs.Replays.{call_rows};
ghost use Rattle.calls.specs.Opens.{open_number, opened_numbers};
ghost use Rattle.calls.specs.Calls.{ReplaysIn};
ghost use Rattle.host.specs.Answers.{Answers};
ghost use Rattle.host.specs.Reads.{message_numbers, match_numbers, stored_in, of_message, of_match, of_reply, of_quiet};
ghost use Rattle.host.specs.Reads.{read_number, read_after};

use boards::Sent;
use reads::{MatchRead, MessageRead};

// The number that refuses a table, 0 for none.
#[unsafe(no_mangle)]
pub extern "C" fn gv_table_refusal(table: &[u8]) -> u8
    ensures { result ≡ table_refusal table.now }
{
    table::table_refusal(table)
}

// Merges two tables into a lent buffer.
#[unsafe(no_mangle)]
pub extern "C" fn gv_merge_tables(first: &[u8], second: &[u8], map: &[u8], out: &mut [u8]) -> u8
    ensures value { result
        ≡ merge_write_refusal first.now second.now map.now out.old }
    ensures out_after { out.new
        ≡ merge_written first.now second.now map.now out.old }
{
    merger::merge_tables(first, second, map, out)
}

// Opens an empty board with the built-in backoff table.
#[unsafe(no_mangle)]
pub extern "C" fn gv_open(table: &[u8], board: &mut [u16]) -> u8
    ensures value { result ≡ open_number table.now builtin_backoffs board.old }
    ensures board_after { board.new
        ≡ opened_numbers table.now builtin_backoffs board.old }
{
    calls::open(table, board)
}

// Opens an empty board with the backoff table given.
#[unsafe(no_mangle)]
pub extern "C" fn gv_open_with_rests(table: &[u8], rests: &[u8], board: &mut [u16]) -> u8
    ensures value { result ≡ open_number table.now rests.now board.old }
    ensures board_after { board.new
        ≡ opened_numbers table.now rests.now board.old }
{
    calls::open_with_rests(table, rests, board)
}

// A step of a sender.
#[unsafe(no_mangle)]
pub extern "C" fn gv_step(
    table: &[u8],
    board: &mut [u16],
    bytes: &mut [u8],
    links: &mut [u16],
    keys: &mut [u32],
    cents: &mut [i64],
    sender: u16,
) -> u32
    ensures { Answers table.now
        (lists board.old bytes.old links.old keys.old cents.old)
        (steps sender) result
        (lists board.new bytes.new links.new keys.new cents.new) }
{
    let said = calls::step(table, board, bytes, links, keys, cents, sender);
    plays::answer_number(said)
}

// An add by a sender.
#[unsafe(no_mangle)]
pub extern "C" fn gv_add(
    table: &[u8],
    board: &mut [u16],
    bytes: &mut [u8],
    links: &mut [u16],
    keys: &mut [u32],
    cents: &mut [i64],
    sender: u16,
    channel: u16,
    property: u32,
    amount: i64,
    day: u32,
    unit: u16,
) -> u32
    ensures { Answers table.now
        (lists board.old bytes.old links.old keys.old cents.old)
        (adds sender (sent channel property amount day unit)) result
        (lists board.new bytes.new links.new keys.new cents.new) }
{
    let x = Sent {
        channel: channel,
        property: property,
        cents: amount,
        day: day,
        unit: unit,
    };
    let said = calls::add(table, board, bytes, links, keys, cents, sender, x);
    plays::answer_number(said)
}

// A close of the days up to one.
#[unsafe(no_mangle)]
pub extern "C" fn gv_close(
    table: &[u8],
    board: &mut [u16],
    bytes: &[u8],
    links: &[u16],
    keys: &mut [u32],
    cents: &[i64],
    day: u32,
) -> u32
    ensures { Answers table.now
        (lists board.old bytes.now links.now keys.old cents.now)
        (closes day) result
        (lists board.new bytes.now links.now keys.new
        cents.now) }
{
    let said = calls::close(table, board, bytes, links, keys, cents, day);
    plays::answer_number(said)
}

// A list of calls, one after another.
#[unsafe(no_mangle)]
pub extern "C" fn gv_replay(
    table: &[u8],
    board: &mut [u16],
    bytes: &mut [u8],
    links: &mut [u16],
    keys: &mut [u32],
    cents: &mut [i64],
    calls: &[u16],
    numbers: &[u32],
    amounts: &[i64],
    answers: &mut [u32],
) -> u8
    ensures { ReplaysIn table.now
        (lists board.old bytes.old links.old keys.old cents.old)
        (call_rows calls.now numbers.now amounts.now)
        answers.old answers.new result
        (lists board.new bytes.new links.new keys.new cents.new) }
{
    calls::replay(
        table, board, bytes, links, keys, cents, calls, numbers, amounts, answers,
    )
}

// A message's eight numbers.
fn put_message(out: &mut [i64], m: MessageRead)
    requires in_bounds { 8 ≤ length out.old }
    requires status_bound { m.status ≤ 3 }
    ensures { out.new ≡ stored_in (message_numbers (message_of m)) out.old }
{
    let cents = m.cents;
    out[0] = m.channel as i64;
    out[1] = m.property as i64;
    out[2] = cents;
    out[3] = m.status as i64;
    out[4] = m.matched as i64;
    out[5] = m.waker as i64;
    out[6] = m.day as i64;
    out[7] = m.unit as i64;
}

// One number.
fn put_one(out: &mut [i64], n: u16)
    requires { 1 ≤ length out.old }
    ensures { out.new ≡ stored_in (pos n ∷ []) out.old }
{
    out[0] = n as i64;
}

// Eight numbers, from the fourth on.
fn put_eight(out: &mut [i64], messages: &[u16])
    requires { (11 ≤ length out.old) × (length messages.now ≡ 8) }
    ensures { out.new ≡ paste out.old 3 (map pos messages.now) 8 }
{
    let mut i: usize = 0;
    while i < 8 {
        out[3 + i] = messages[i] as i64;
        i += 1;
    }
}

// A match's eleven numbers.
fn put_match(out: &mut [i64], m: MatchRead)
    requires in_bounds { 11 ≤ length out.old }
    requires len_bound { (m.len ≤ 8) × (drop m.len m.messages ≡ drop m.len (replicate 8 0)) }
    ensures { out.new ≡ stored_in (match_numbers (read_of m)) out.old }
{
    let messages = m.messages;
    let cents = m.cents;
    put_eight(out, &messages);
    out[0] = m.chord as i64;
    out[1] = m.len as i64;
    out[2] = cents;
}

// Reads a message: channel, property, cents, status, match plus 1, waker plus 1, day, unit.
#[unsafe(no_mangle)]
pub extern "C" fn gv_read_message(
    table: &[u8],
    board: &[u16],
    bytes: &[u8],
    links: &[u16],
    keys: &[u32],
    cents: &[i64],
    n: u16,
    out: &mut [i64],
) -> u8
    ensures value { result ≡ read_number table.now (held_in (lists board.now
        bytes.now links.now keys.now cents.now))
        (of_message n) out.old }
    ensures out_after { out.new ≡ read_after table.now (held_in (lists board.now
        bytes.now links.now keys.now cents.now))
        (of_message n) out.old }
{
    let read = calls::read_message(table, board, bytes, links, keys, cents, n);
    let number = read.number;
    if number != 0 {
        return number;
    }
    if out.len() < 8 {
        return 31;
    }
    let m = read.message;
    put_message(out, m);
    0
}

// Reads a match: chord, how many messages, cents, and eight messages, 0 past the last.
#[unsafe(no_mangle)]
pub extern "C" fn gv_read_match(
    table: &[u8],
    board: &[u16],
    bytes: &[u8],
    links: &[u16],
    keys: &[u32],
    cents: &[i64],
    k: u16,
    out: &mut [i64],
) -> u8
    ensures value { result ≡ read_number table.now (held_in (lists board.now
        bytes.now links.now keys.now cents.now))
        (of_match k) out.old }
    ensures out_after { out.new ≡ read_after table.now (held_in (lists board.now
        bytes.now links.now keys.now cents.now))
        (of_match k) out.old }
{
    let read = calls::read_match(table, board, bytes, links, keys, cents, k);
    let number = read.number;
    if number != 0 {
        return number;
    }
    if out.len() < 11 {
        return 31;
    }
    let m = read.read;
    put_match(out, m);
    0
}

// Reads a sender's reply: the match plus 1, 0 for none.
#[unsafe(no_mangle)]
pub extern "C" fn gv_read_reply(
    table: &[u8],
    board: &[u16],
    bytes: &[u8],
    links: &[u16],
    keys: &[u32],
    cents: &[i64],
    sender: u16,
    out: &mut [i64],
) -> u8
    ensures value { result ≡ read_number table.now (held_in (lists board.now
        bytes.now links.now keys.now cents.now))
        (of_reply sender) out.old }
    ensures out_after { out.new ≡ read_after table.now (held_in (lists board.now
        bytes.now links.now keys.now cents.now))
        (of_reply sender) out.old }
{
    let read = calls::read_reply(table, board, bytes, links, keys, cents, sender);
    let number = read.number;
    if number != 0 {
        return number;
    }
    if out.len() < 1 {
        return 31;
    }
    put_one(out, read.reply);
    0
}

// Reads whether the board is quiet: 1 or 0.
#[unsafe(no_mangle)]
pub extern "C" fn gv_quiet(
    table: &[u8],
    board: &[u16],
    bytes: &[u8],
    links: &[u16],
    keys: &[u32],
    cents: &[i64],
    out: &mut [i64],
) -> u8
    ensures value { result ≡ read_number table.now (held_in (lists board.now
        bytes.now links.now keys.now cents.now))
        of_quiet out.old }
    ensures out_after { out.new ≡ read_after table.now (held_in (lists board.now
        bytes.now links.now keys.now cents.now))
        of_quiet out.old }
{
    let read = calls::read_quiet(table, board, bytes, links, keys, cents);
    let number = read.number;
    if number != 0 {
        return number;
    }
    if out.len() < 1 {
        return 31;
    }
    put_one(out, read.quiet as u16);
    0
}
