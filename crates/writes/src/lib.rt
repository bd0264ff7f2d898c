// A move, written to the lent lists: a message, a match, a sender, the counts and a signal.
#![tactic(auto)]

ghost use Rattle.std.specs.Prelude.{◌≡◌, Bool, true, IfSome, List, ℕ, ◌+◌, ◌*◌, ◌<◌, ◌≤◌, ℤ, length, get_or, set};
ghost use Rattle.std.proofs.Math.Seq.{paste};
ghost use Rattle.columns.specs.Columns.{Passed};
ghost use Rattle.columns.specs.MatchColumns.{matches_of};
ghost use Rattle.boards.specs.Layout.{tallies_at, bytes_len, links_len, keys_len, cents_len};
ghost use Rattle.boards.specs.Layout.{statuses_in, chords_in, members_in, columns_in, matches_in, lists, Sized};
ghost use Rattle.rows.specs.Numbers.{encodes};
ghost use Rattle.rows.specs.Decoded.{board_from};
ghost use Rattle.refusals.specs.Held.{held_of};
ghost use Rattle.writes.specs.Writes.{status_by, match_by, waker_by, WakerFits, Sure, statuses_by, signalled_board};
ghost use Rattle.writes.specs.Writes.{changed_board};
ghost use Rattle.writes.specs.Moves.{put_if, columns_with, added_board, turned_from, moved_held, Fits};
ghost use Rattle.writes.specs.Written.{ListsHold, columns_after, matches_with};

use boards::Sent;
use state::{Change, Job, Said, Sender, Turn};

// What a call that is not refused says and does: the caller after it, the message that it adds, if any, and what
// changes by a step.
#[derive(Clone, Copy)]
pub struct Move {
    pub said: Said,
    pub sender: Sender,
    pub added: Option<Sent>,
    pub change: Change,
}

// Writes message n: pending, of no match and with no waker.
fn put_message(
    n: u16,
    x: Sent,
    bytes: &mut [u8],
    links: &mut [u16],
    keys: &mut [u32],
    cents: &mut [i64],
)
    requires low { (n < 1024) × (x.channel ≤ 255) }
    requires sized { (length bytes.old ≡ bytes_len) × (length links.old ≡ links_len) × (length keys.old ≡ keys_len)
        × (length cents.old ≡ cents_len) }
    ensures { (board : List ℕ) → let l = lists board bytes.old links.old keys.old cents.old in
        ListsHold (columns_with (Some x) n (columns_in l)) (matches_in l)
        (lists board bytes.new links.new keys.new cents.new) }
{
    let k = usize::from(n);
    bytes[k] = x.channel as u8;
    bytes[boards::STATUSES + k] = 0;
    links[k] = 0;
    links[boards::WAKERS + k] = 0;
    links[boards::UNITS + k] = x.unit;
    keys[k] = x.property;
    keys[columns::DAYS + k] = x.day;
    cents[k] = x.cents;
}

// Writes the message that a move adds, if any: one message more, and the sender at a place has added one more.
#[tactic(auto, using(crate::proofs::Places::board_lengths))]
fn put_added(
    added: Option<Sent>,
    i: u8,
    board: &mut [u16],
    bytes: &mut [u8],
    links: &mut [u16],
    keys: &mut [u32],
    cents: &mut [i64],
)
    requires board { (encodes board.old ≡ true) × (i < 32) × (get_or board.old (tallies_at + i) 0 ≤ 1024) }
    requires room { IfSome added (λ x. (get_or board.old 0 0 < 1024) × (x.channel ≤ 255)) }
    requires sized { Sized (lists board.old bytes.old links.old keys.old cents.old) }
    ensures lists { (b : List ℕ) → let l = lists b bytes.old links.old keys.old cents.old in
        ListsHold (columns_with added (get_or board.old 0 0) (columns_in l)) (matches_in l)
        (lists b bytes.new links.new keys.new cents.new) }
    ensures board { (encodes board.new ≡ true)
        × (board_from board.new ≡ added_board (board_from board.old) i added) }
{
    let Some(x) = added else {
        return;
    };
    put_message(board[0], x, bytes, links, keys, cents);
    board[boards::TALLIES + usize::from(i)] += 1;
    board[0] += 1;
}

// The status that a turn leaves.
fn status_after(u: Turn) -> u8
    ensures { result ≡ status_by u }
{
    match u {
        Turn::Claims => 1,
        Turn::WakesBy(_) => 2,
        Turn::Consumes(_) => 3,
        Turn::Frees | Turn::Resumes => 0,
    }
}

// The match that a message notes after a turn: plus 1, 0 for none, as the lent list has it.
fn match_after(u: Turn, m: u16) -> u16
    ensures { result ≡ match_by u m }
{
    match u {
        Turn::Consumes(k) => k,
        _ => m,
    }
}

// The waker that a message notes after a turn: plus 1, 0 for none, as the lent list has it.
fn waker_after(u: Turn, w: u16) -> u16
    requires { WakerFits u }
    ensures { result ≡ waker_by u w }
{
    match u {
        Turn::WakesBy(h) => h + 1,
        _ => w,
    }
}

// Message n turns.
fn turn_message(n: u16, u: Turn, bytes: &mut [u8], links: &mut [u16])
    requires { (n < 1024) × (length bytes.old ≡ bytes_len) × (length links.old ≡ links_len) × WakerFits u }
    ensures { (board keys : List ℕ) (cents : List ℤ) → let l = lists board bytes.old links.old keys cents in
        ListsHold (columns_after (Change.Turn n u) (columns_in l)) (matches_in l)
        (lists board bytes.new links.new keys cents) }
{
    let k = usize::from(n);
    bytes[boards::STATUSES + k] = status_after(u);
    links[k] = match_after(u, links[k]);
    links[boards::WAKERS + k] = waker_after(u, links[boards::WAKERS + k]);
}

// Match k is recorded: its chord and its eight message numbers.
fn record_match(k: u16, chord: u8, chosen: [u16; 8], bytes: &mut [u8], links: &mut [u16])
    requires { (k < 1024) × (length bytes.old ≡ bytes_len) × (length links.old ≡ links_len) }
    ensures { (board keys : List ℕ) (cents : List ℤ) → let l = lists board bytes.old links.old keys cents in
        ListsHold (columns_in l)
        (matches_of (set (chords_in bytes.old) k chord) (paste (members_in links.old) (8 * k) chosen 8))
        (lists board bytes.new links.new keys cents) }
{
    let n = usize::from(k);
    bytes[boards::CHORDS + n] = chord;
    rows::put_chosen(&mut links[boards::MEMBERS..boards::UNITS], 8 * n, chosen);
}

// Writes what a step changes: one message turns, or match k is recorded with its last claim.
fn write_change(c: Change, k: u16, j: Job, bytes: &mut [u8], links: &mut [u16])
    requires { Sure 1024 k c × (length bytes.old ≡ bytes_len) × (length links.old ≡ links_len) }
    ensures { (board keys : List ℕ) (cents : List ℤ) → let l = lists board bytes.old links.old keys cents in
        ListsHold (columns_after c (columns_in l)) (matches_with c k j (matches_in l))
        (lists board bytes.new links.new keys cents) }
{
    match c {
        Change::Turn(n, u) => turn_message(n, u, bytes, links),
        Change::Record(n) => {
            turn_message(n, Turn::Claims, bytes, links);
            record_match(k, j.chord, j.chosen, bytes, links);
        }
        Change::None | Change::Signal(_) => {}
    }
}

// Sets the signal of each sender, not idle, whose own message is message n.
#[tactic(auto, using(crate::proofs::Places::board_lengths))]
fn put_signal(s: &mut [u16], n: u16)
    requires { (encodes s.old ≡ true) × (n < 1024) }
    ensures { (encodes s.new ≡ true)
        × (board_from s.new ≡ signalled_board n (board_from s.old)) }
{
    for i in 0..32 {
        let at = 2 + 21 * i;
        if s[at] != 0 && s[at + 2] == n + 1 {
            s[at + 1] = 1;
        }
    }
}

// Writes the sender at a place as a step leaves it, with the matches' count or the signal that the step changes.
#[tactic(auto, using(crate::proofs::Places::board_lengths))]
fn put_changed(d: Sender, c: Change, i: u8, s: &mut [u16])
    requires { (encodes s.old ≡ true) × (i < 32) × Sure 1024 (get_or s.old 1 0) c }
    ensures { (encodes s.new ≡ true)
        × (board_from s.new ≡ changed_board (board_from s.old) i d c) }
{
    rows::put_sender(d, s, 2 + 21 * usize::from(i));
    match c {
        Change::Record(_) => s[1] += 1,
        Change::Signal(n) => put_signal(s, n),
        Change::None | Change::Turn(_, _) => {}
    }
}

// Writes the move m of the sender at a place: the message that it adds, its change, then the sender.
#[tactic(auto, using(crate::proofs::Places::board_lengths))]
pub fn write_move(
    m: Move,
    i: u8,
    board: &mut [u16],
    bytes: &mut [u8],
    links: &mut [u16],
    keys: &mut [u32],
    cents: &mut [i64],
)
    requires { (encodes board.old ≡ true) × (i < 32)
        × Sized (lists board.old bytes.old links.old keys.old cents.old)
        × (get_or board.old 0 0 ≤ 1024) × (get_or board.old 1 0 ≤ 1024) × (get_or board.old (tallies_at + i) 0 ≤ 1024)
        × Fits (get_or board.old 0 0) (get_or board.old 1 0) m }
    ensures { (held_of (lists board.new bytes.new links.new keys.new
        cents.new) ≡ moved_held (held_of (lists board.old bytes.old links.old
        keys.old cents.old)) i m)
        × (encodes board.new ≡ true)
        × Sized (lists board.new bytes.new links.new keys.new
        cents.new) }
{
    put_added(m.added, i, board, bytes, links, keys, cents);
    write_change(m.change, board[1], m.sender.job, bytes, links);
    put_changed(m.sender, m.change, i, board);
}

// The message that a change turns; `start` where it turns none.
fn turned_from(c: Change, start: u16) -> u16
    ensures { result ≡ turned_from c start }
{
    match c {
        Change::Turn(n, _) | Change::Record(n) => n,
        _ => start,
    }
}

// Where the messages start that are not all consumed, after a change: at the lesser of `start` and the message that it
// turns, or past that one where it is consumed.
pub fn start_after(c: Change, start: u16, n: u16, bytes: &[u8]) -> u16
    requires { (n ≤ 1024) × (length bytes.now ≡ bytes_len) }
    ensures { (k : ℕ) (adds : Bool) (before : List ℕ) → Passed start k before → k ≤ n
        → statuses_in bytes.now ≡ statuses_by c (put_if adds before k 0)
        → Passed result n (statuses_in bytes.now) }
{
    let low = turned_from(c, start).min(start);
    if low < n && boards::statuses(bytes)[usize::from(low)] == 3 {
        low + 1
    } else {
        low
    }
}
