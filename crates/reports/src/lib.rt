// The report at the end of the program's run, into a lent buffer that may be too small for all of it: in parts, each
// from the start of the buffer.
#![tactic(auto)]

ghost use Rattle.std.specs.Prelude.{◌≡◌, [], ℕ, ◌+◌, ◌<◌, ◌≤◌, pos, length, get_or, take};
ghost use Rattle.model.specs.Boards as MB;
ghost use Rattle.model.specs.Pools.{read_match};
ghost use Rattle.model.specs.Layout.{table_refusal, table_of};
ghost use Rattle.model.specs.Printing.{match_line};
ghost use Rattle.columns.specs.Columns.{status_of};
ghost use Rattle.columns.specs.MatchColumns.{match_in, matches_of};
ghost use Rattle.boards.specs.Layout.{board_len, bytes_len, links_len, lists, statuses_in, chords_in, members_in};
ghost use Rattle.refusals.specs.Held.{Accepted};
ghost use Rattle.reads.specs.Reads.{Readable};
ghost use Rattle.prints.specs.Printed.{Printed};
ghost use Rattle.reports.specs.Parts.{item_line, lines_on, line_count, all_lines, between};

// The line to go on with, and the end of what was written.
#[derive(Clone, Copy)]
pub struct Part {
    pub next: u16,
    pub at: usize,
}

// The line of match k on a board whose first n messages have these cents.
fn put_match_line(
    table: &[u8],
    bytes: &[u8],
    links: &[u16],
    cents: &[i64],
    n: u16,
    k: u16,
    out: &mut [u8],
    at: usize,
) -> usize
    requires table_value { (table_refusal table.now ≡ 0) × (length bytes.now ≡ bytes_len)
        × (length links.now ≡ links_len) }
    requires readable { Readable (table_of table.now) (matches_of (chords_in bytes.now) (members_in links.now)) k n
        cents.now }
    requires at_in_bounds { at + 104 ≤ length out.old }
    ensures by_index { (b : MB.Board)
        → ((i : ℕ) → i < n → (MB.message_at b i).sent.cents ≡ get_or cents.now i (pos 0))
        → Printed out.old at (match_line k (read_match (table_of table.now) b
        (match_in (table_of table.now)
        (matches_of (chords_in bytes.now) (members_in links.now)) k)))
        result out.new }
    ensures upper_bound { result ≤ at + 104 }
{
    let chords = boards::chords(bytes);
    let members = boards::members(links);
    let read = reads::match_read(table, k, chords, members, n, cents);
    prints::put_match(out, at, k, read)
}

// The line of message n, none if it is consumed.
fn put_open_line(bytes: &[u8], n: u16, out: &mut [u8], at: usize) -> usize
    requires { (length bytes.now ≡ bytes_len) × (n < 1024) × (at + 19 ≤ length out.old) }
    ensures printed { Printed out.old at
        (item_line n (status_of (get_or (statuses_in bytes.now) n 0))) result out.new }
    ensures upper_bound { result ≤ at + 19 }
{
    let status = bytes[boards::STATUSES + usize::from(n)];
    if status >= 3 {
        return at;
    }
    prints::put_open(out, at, n, status)
}

// Line n of the report: of a match, else of a message, else the last.
fn put_line(
    table: &[u8],
    board: &[u16],
    bytes: &[u8],
    links: &[u16],
    keys: &[u32],
    cents: &[i64],
    n: u16,
    out: &mut [u8],
    at: usize,
) -> usize
    requires accepted { Accepted table.now (lists board.now bytes.now links.now keys.now cents.now) }
    requires n_bound { (n < line_count board.now) × (at + 104 ≤ length out.old) }
    ensures printed { Printed out.old at
        (get_or (lines_on table.now
        (lists board.now bytes.now links.now keys.now
        cents.now)) n [])
        result out.new }
    ensures upper_bound { result ≤ at + 104 }
{
    let messages = board[0];
    let matches = board[1];
    if n < matches {
        return put_match_line(table, bytes, links, cents, messages, n, out, at);
    }
    if n - matches < messages {
        return put_open_line(bytes, n - matches, out, at);
    }
    prints::put_quiet(out, at, calls::is_quiet(board))
}

// How many lines the report has.
pub fn line_count(board: &[u16]) -> u16
    requires { (length board.now ≡ board_len) × (line_count board.now ≤ 2049) }
    ensures { result ≡ line_count board.now }
{
    board[1] + board[0] + 1
}

// The report from a line on, as many lines as surely fit.
pub fn report_part(
    table: &[u8],
    board: &[u16],
    bytes: &[u8],
    links: &[u16],
    keys: &[u32],
    cents: &[i64],
    from: u16,
    out: &mut [u8],
) -> Part
    requires accepted { Accepted table.now (lists board.now bytes.now links.now keys.now cents.now) }
    requires from_bound { (from < line_count board.now) × (104 ≤ length out.old) }
    ensures from_lt_next { (from < result.next) × (result.next ≤ line_count board.now) }
    ensures at_in_bounds { result.at ≤ length out.new }
    ensures out_after { take result.at out.new
        ≡ all_lines (between from result.next (lines_on table.now
        (lists board.now bytes.now links.now keys.now
        cents.now))) }
{
    let all = line_count(board);
    let mut at = 0;
    for next in from..all {
        if out.len() - at < 104 {
            return Part { next, at };
        }
        at = put_line(table, board, bytes, links, keys, cents, next, out, at);
    }
    Part { next: all, at }
}
