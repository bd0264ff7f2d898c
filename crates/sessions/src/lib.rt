// What the program does with the bytes of its input: lines are cut at line feeds, read, played and answered. The
// messages below `start` are consumed, so that no look reads them.
#![tactic(auto)]

ghost use Rattle.std.specs.Prelude.{◌≡◌, ◌==◌, ◌++◌, ◌+◌, ◌*◌, ◌<◌, ◌≤◌, length, get_or, take, MatchOption};
ghost use Rattle.std.specs.List.{position_or_len, before_first, after_first};
ghost use Rattle.columns.specs.Columns.{Passed};
ghost use Rattle.boards.specs.Layout.{lists, statuses_in};
ghost use Rattle.refusals.specs.Held.{Accepted};
ghost use Rattle.sessions.specs.Serves.{Serves, ServesChunk, ServesEnd, carry_of};

use state::Said;

// The place after what was printed, and where the messages start that are not all consumed.
#[derive(Clone, Copy)]
pub struct Served {
    pub at: usize,
    pub start: u16,
}

// The bytes since the last line feed; of a line over 80 bytes only the first 81. By hand, as the program has no heap: a
// buffer of fixed size, and how much of it is filled.
#[derive(Clone, Copy)]
pub struct Carry {
    pub bytes: [u8; 81],
    pub len: usize,
}

impl Carry {
    // No bytes yet.
    pub fn new() -> Carry
        ensures { result.len ≡ 0 }
    {
        Carry {
            bytes: [0; 81],
            len: 0,
        }
    }

    // The bytes with those of a slice after them, as many as are kept.
    pub fn with(self, s: &[u8]) -> Carry
        requires { self.len ≤ 81 }
        ensures result_value { carry_of result ≡ take 81 (carry_of self ++ s.now) }
        ensures len_bound { result.len ≤ 81 }
    {
        let mut bytes = self.bytes;
        let len = self.len;
        let more = (81 - len).min(s.len());
        bytes[len..len + more].copy_from_slice(&s[..more]);
        Carry {
            bytes,
            len: len + more,
        }
    }

    // The bytes that are kept.
    pub fn as_slice(&self) -> &[u8]
        requires { self.now.len ≤ 81 }
        ensures { result.now ≡ carry_of self.now }
    {
        &self.bytes[..self.len]
    }
}

// After a chunk of input: the bytes since the last line feed, and as in `Served`.
#[derive(Clone, Copy)]
pub struct Chunk {
    pub carry: Carry,
    pub at: usize,
    pub start: u16,
}

// A line on lists that the first tests accept: its answer is printed at a place.
pub fn serve_line(
    table: &[u8],
    board: &mut [u16],
    bytes: &mut [u8],
    links: &mut [u16],
    keys: &mut [u32],
    cents: &mut [i64],
    line: &[u8],
    out: &mut [u8],
    at: usize,
    start: u16,
) -> Served
    requires accepted { Accepted table.now (lists board.old bytes.old links.old keys.old cents.old) }
    requires passed { Passed start (get_or board.old 0 0) (statuses_in bytes.old) }
    requires at_in_bounds { at + 16 ≤ length out.old }
    ensures serves { Serves table.now
        (lists board.old bytes.old links.old keys.old cents.old)
        line.now out.old at
        (lists board.new bytes.new links.new keys.new cents.new)
        result.at out.new }
    ensures passed_2 { Passed result.start (get_or board.new 0 0) (statuses_in bytes.new) }
{
    let Some(call) = lines::read_line(line) else {
        let at = prints::put_answer(out, at, Said::Refused(16));
        return Served { at, start };
    };
    let played = plays::play(table, board, bytes, links, keys, cents, call, start);
    let at = prints::put_answer(out, at, played.said);
    Served {
        at,
        start: played.start,
    }
}

// The first line that ends in the bytes, and what comes after it; none where no line ends. The rest of a line that is
// `over` 80 bytes already may be long, and `contains` looks at many bytes at a time.
#[tactic(auto, using(crate::proofs::FeedLaws::no_feed))]
fn split_line(s: &[u8], over: bool) -> Option<(&[u8], &[u8])>
    ensures { MatchOption result (length s.now ≤ position_or_len (λ x. x == 10) s.now)
        (λ p. (position_or_len (λ x. x == 10) s.now < length s.now)
        × (p.0.now ≡ before_first (λ x. x == 10) s.now)
        × (p.1.now ≡ after_first (λ x. x == 10) s.now)) }
{
    if over && !s.contains(&b'\n') {
        return None;
    }
    lines::split_once(s, b'\n')
}

// A chunk of input on lists that the first tests accept: each line that ends in it is served.
pub fn serve_chunk(
    table: &[u8],
    board: &mut [u16],
    bytes: &mut [u8],
    links: &mut [u16],
    keys: &mut [u32],
    cents: &mut [i64],
    mut carry: Carry,
    input: &[u8],
    out: &mut [u8],
    start: u16,
) -> Chunk
    requires accepted { Accepted table.now (lists board.old bytes.old links.old keys.old cents.old) }
    requires passed { Passed start (get_or board.old 0 0) (statuses_in bytes.old) }
    requires len_bound { (carry.len ≤ 81) × (16 * length input.now ≤ length out.old) }
    ensures serves_chunk { ServesChunk table.now
        (lists board.old bytes.old links.old keys.old cents.old)
        carry input.now
        (lists board.new bytes.new links.new keys.new cents.new)
        result.carry result.at out.new }
    ensures passed_2 { Passed result.start (get_or board.new 0 0) (statuses_in bytes.new) }
{
    let mut served = Served { at: 0, start };
    let mut left = input;
    while let Some((end, rest)) = split_line(left, carry.len > 80) {
        let line = carry.with(end);
        served = serve_line(
            table,
            board,
            bytes,
            links,
            keys,
            cents,
            line.as_slice(),
            out,
            served.at,
            served.start,
        );
        carry = Carry::new();
        left = rest;
    }
    Chunk {
        carry: carry.with(left),
        at: served.at,
        start: served.start,
    }
}

// The end of input on lists that the first tests accept: bytes after the last line feed are a line.
pub fn serve_end(
    table: &[u8],
    board: &mut [u16],
    bytes: &mut [u8],
    links: &mut [u16],
    keys: &mut [u32],
    cents: &mut [i64],
    carry: Carry,
    out: &mut [u8],
    start: u16,
) -> Served
    requires accepted { Accepted table.now (lists board.old bytes.old links.old keys.old cents.old) }
    requires passed { Passed start (get_or board.old 0 0) (statuses_in bytes.old) }
    requires len_bound { (carry.len ≤ 81) × (16 ≤ length out.old) }
    ensures serves_end { ServesEnd table.now
        (lists board.old bytes.old links.old keys.old cents.old)
        carry
        (lists board.new bytes.new links.new keys.new cents.new)
        result.at out.new }
    ensures passed_2 { Passed result.start (get_or board.new 0 0) (statuses_in bytes.new) }
{
    if carry.len == 0 {
        return Served { at: 0, start };
    }
    serve_line(
        table,
        board,
        bytes,
        links,
        keys,
        cents,
        carry.as_slice(),
        out,
        0,
        start,
    )
}
