// What every board call tests first, on any lists: the table, the lists' lengths, and the board.
#![tactic(auto)]

ghost use Rattle.std.specs.Prelude.{◌≡◌, true, ◌&&◌, List, map, ℕ, ◌+◌, ◌≤◌, length, get_or, drop};
ghost use Rattle.model.specs.Boards as MB;
ghost use Rattle.model.specs.Layout.{table_refusal, table_of};
ghost use Rattle.model.specs.Basics.{every};
ghost use Rattle.model.specs.Sound.{state_ok, match_ok, none_shared};
ghost use Rattle.state.specs.Views.{sender_in};
ghost use Rattle.boards.specs.Layout.{board_len, closed_at, bytes_len, links_len, cents_len};
ghost use Rattle.boards.specs.Layout.{lists, lists_ok, columns_in, matches_in};
ghost use Rattle.columns.specs.MatchColumns.{matches_from};
ghost use Rattle.soundness.specs.Tests.{messages_ok};
ghost use Rattle.senders.specs.Seen.{Seen, Known, mark_by};
ghost use Rattle.rows.specs.Numbers.{encodes_phase, encodes_sender};
ghost use Rattle.rows.specs.Decoded.{sender_from};
ghost use Rattle.refusals.specs.Rows.{within, all_within, limits, row_sender, row_ok, rows_ok, senders_in, counts_ok};
ghost use Rattle.refusals.specs.Held.{held_in, sound_in};
ghost use Rattle.refusals.specs.Calls.{refusal_of};

// The largest place of each phase.
const PLACES: [u16; 10] = [255, 255, 255, 255, 255, 0, 255, 0, 0, 255];

// The largest second number of each phase.
const SECONDS: [u16; 10] = [0, 0, 255, 65535, 0, 0, 0, 0, 0, 0];

// Whether the first 16 of a sender's numbers are each at most their limit.
fn within(a: &[u16], most: &[u16; 16]) -> bool
    requires { length a.now ≡ 21 }
    ensures { result ≡ within most.now a.now }
{
    // Without an early exit, as `all` has one: so it is compiled to vectors.
    let mut ok = true;
    for (i, limit) in most.iter().enumerate() {
        ok = ok & (a[i] <= *limit);
    }
    ok
}

// The same of each sender. Not inlined: where the limits are known, the compiler compares most one by one.
#[inline(never)]
fn all_within(s: &[u16], most: &[u16; 16]) -> bool
    requires { length s.now ≡ board_len }
    ensures { result ≡ all_within most.now s.now }
{
    (0..32).all(|i| within(rows::row(s, i), most))
}

// Whether three numbers are those of a phase.
#[tactic(auto, using(crate::proofs::PhaseBy::phase_by))]
fn phase_ok(phase: u16, place: u16, second: u16) -> bool
    requires { phase ≤ 9 }
    ensures { result ≡ encodes_phase phase place second }
{
    let p = usize::from(phase);
    place <= PLACES[p] && second <= SECONDS[p]
}

// Whether the sender, if it is not idle, has its own message, and its job is sound.
fn state_ok(table: &[u8], a: &[u16], n: u16, k: u16, channels: &[u8]) -> bool
    requires table_value { (table_refusal table.now ≡ 0) × Known (table_of table.now) n channels.now }
    requires a_encodes { (length a.now ≡ 21) × (encodes_sender a.now ≡ true) }
    ensures { (b : MB.Board) → Seen b n k channels.now
        → result ≡ state_ok (table_of table.now) b
        (row_sender (table_of table.now) a.now) (row_sender (table_of table.now) a.now).state }
{
    match a[0] {
        0 => true,
        _ if a[2] == 0 => false,
        2 => true,
        _ => senders::job_ok(table, rows::sender_of(a), n, k, channels),
    }
}

// Whether 21 numbers within the limits are those of a sound sender.
fn row_ok(table: &[u8], a: &[u16], n: u16, k: u16, channels: &[u8]) -> bool
    requires table_value { (table_refusal table.now ≡ 0) × Known (table_of table.now) n channels.now }
    requires a_len { (length a.now ≡ 21) × (within (limits n k) a.now ≡ true) }
    ensures { (b : MB.Board) → Seen b n k channels.now → result ≡ row_ok (table_of table.now) b a.now }
{
    phase_ok(a[8], a[9], a[10]) && state_ok(table, a, n, k, channels)
}

// What the first 16 numbers of a sender are at most, on a board of n messages and k matches.
fn limits(n: u16, k: u16) -> [u16; 16]
    ensures { result ≡ limits n k }
{
    [
        2, 1, n, n, k, k, 65535, 255, 9, 255, 65535, 1, 255, 65535, 65535, 65535,
    ]
}

// Whether the numbers from the third on are those of 32 senders, each sound by itself.
fn rows_ok(table: &[u8], s: &[u16], n: u16, k: u16, channels: &[u8]) -> bool
    requires table_value { (table_refusal table.now ≡ 0) × Known (table_of table.now) n channels.now }
    requires s_len { length s.now ≡ board_len }
    ensures { (b : MB.Board) → Seen b n k channels.now
        → result ≡ rows_ok (table_of table.now) b 32 (drop 2 s.now) }
{
    all_within(s, &limits(n, k)) && (0..32).all(|i| row_ok(table, rows::row(s, i), n, k, channels))
}

// What no two senders may have in common: the own message plus 1, 0 for an idle sender.
fn mark_of(a: &[u16]) -> u32
    requires { length a.now ≡ 21 }
    ensures { result ≡ mark_by (sender_from a.now) }
{
    if a[0] == 0 { 0 } else { u32::from(a[2]) + 1 }
}

// Puts the marks of all senders. They are lent, since an array that is answered is copied.
fn put_marks(s: &[u16], marks: &mut [u32; 32])
    requires { length s.now ≡ board_len }
    ensures { marks.new ≡ map mark_by (senders_in s.now) }
{
    for i in 0..32 {
        marks[usize::from(i)] = mark_of(rows::row(s, i));
    }
}

// Whether the numbers from the third on are those of 32 sound senders, no two with the same own message.
pub fn senders_ok(table: &[u8], s: &[u16], n: u16, k: u16, channels: &[u8]) -> bool
    requires table_value { (table_refusal table.now ≡ 0) × Known (table_of table.now) n channels.now }
    requires s_len { length s.now ≡ board_len }
    ensures { (b : MB.Board) → Seen b n k channels.now
        → result ≡ (rows_ok (table_of table.now) b 32 (drop 2 s.now)
        && none_shared (map (sender_in (table_of table.now)) (senders_in s.now))) }
{
    if !rows_ok(table, s, n, k, channels) {
        return false;
    }
    let mut marks = [0; 32];
    put_marks(s, &mut marks);
    senders::none_twice(&marks)
}

// Whether the lists that hold messages and matches are of their lengths.
#[tactic(auto, unfolding(boards::specs::Layout::lists_ok))]
fn lists_ok(bytes: &[u8], links: &[u16], keys: &[u32], cents: &[i64]) -> bool
    ensures { (board : List ℕ) → result ≡ lists_ok (lists board bytes.now links.now
        keys.now cents.now) }
{
    bytes.len() == boards::BYTES_LEN
        && links.len() == boards::LINKS_LEN
        && keys.len() == boards::KEYS_LEN
        && cents.len() == boards::CENTS_LEN
}

// Whether there are at most 1,024 messages and matches, the senders' shares are kept, and the backoff table passes.
fn counts_ok(board: &[u16]) -> bool
    requires { length board.now ≡ board_len }
    ensures { result ≡ counts_ok board.now }
{
    let n = board[0];
    let k = board[1];
    let shared = shares::shares_ok(boards::tallies(board), n);
    let rests = backoffs::passes(boards::backoffs(board));
    n <= 1024 && k <= 1024 && shared && rests
}

// Whether the first n messages and the first k matches are sound, by their columns.
fn columns_ok(table: &[u8], bytes: &[u8], links: &[u16], cents: &[i64], n: u16, k: u16) -> bool
    requires table_value { (table_refusal table.now ≡ 0) × (n ≤ 1024) × (k ≤ 1024) }
    requires bytes_len { (length bytes.now ≡ bytes_len) × (length links.now ≡ links_len)
        × (length cents.now ≡ cents_len) }
    ensures { (s keys : List ℕ) (b : MB.Board) → length b.messages ≡ n → length b.matches ≡ k
        → let l = lists s bytes.now links.now keys cents.now in
        result ≡ (messages_ok (table_of table.now) b (columns_in l) n
        && every (match_ok (table_of table.now) b) (matches_from (table_of table.now) (matches_in l) 0 k)) }
{
    let channels = boards::channels(bytes);
    let statuses = boards::statuses(bytes);
    let matched = boards::matched(links);
    let wakers = boards::wakers(links);
    soundness::messages_ok(table, channels, cents, statuses, matched, wakers, n, k)
        && soundness::matches_ok(table, boards::chords(bytes), boards::members(links), k, n)
}

// Whether the numbers are those of a sound board: the counts, the messages and matches by their columns, and then the
// senders.
fn is_sound(table: &[u8], board: &[u16], bytes: &[u8], links: &[u16], cents: &[i64]) -> bool
    requires table_value { (table_refusal table.now ≡ 0) × (length board.now ≡ board_len)
        × (get_or board.now closed_at 0 ≤ 1) }
    requires bytes_len { (length bytes.now ≡ bytes_len) × (length links.now ≡ links_len)
        × (length cents.now ≡ cents_len) }
    ensures { (keys : List ℕ) → result ≡ sound_in table.now
        (lists board.now bytes.now links.now keys cents.now) }
{
    let n = board[0];
    let k = board[1];
    counts_ok(board)
        && columns_ok(table, bytes, links, cents, n, k)
        && senders_ok(table, board, n, k, boards::channels(bytes))
}

// The first refusal that every board call has: the table's, then 30; 0 for none.
pub fn board_refusal(
    table: &[u8],
    board: &[u16],
    bytes: &[u8],
    links: &[u16],
    keys: &[u32],
    cents: &[i64],
) -> u8
    ensures { result ≡ refusal_of table.now (held_in (lists board.now bytes.now
        links.now keys.now cents.now)) }
{
    let number = table::table_refusal(table);
    if number != 0 {
        return number;
    }
    let sound = lists_ok(bytes, links, keys, cents)
        && board.len() == boards::BOARD_LEN
        && board[boards::CLOSED] <= 1
        && is_sound(table, board, bytes, links, cents);
    if sound { 0 } else { 30 }
}
