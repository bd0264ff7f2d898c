// The program's turns: what it has read is served, then the report is printed in parts, each turn into a lent buffer. A
// program opens a board, begins, and while it is not done reads, has its stage advanced and writes.
#![tactic(auto)]

ghost use Rattle.std.specs.Prelude.{◌≡◌, true, false, List, [], ℕ, ◌*◌, ◌<◌, ◌≤◌, length};
ghost use Rattle.boards.specs.Layout.{board_len, lists};
ghost use Rattle.reports.specs.Parts.{line_count};
ghost use Rattle.printouts.specs.Stages.{Begins, Stands, Advances, done_on};

use sessions::Carry;

// The bytes since the last line feed, where the messages start that are not all consumed, the report's next line, and
// whether the input has ended.
#[derive(Clone, Copy)]
pub struct Stage {
    carry: Carry,
    start: u16,
    next: u16,
    ended: bool,
}

// The stage after a turn, which has the first `at` bytes of its buffer printed.
#[derive(Clone, Copy)]
pub struct Turn {
    pub stage: Stage,
    pub at: usize,
}

// Nothing read, nothing printed.
pub fn begin() -> Stage
    ensures { Begins result }
{
    Stage {
        carry: Carry::new(),
        start: 0,
        next: 0,
        ended: false,
    }
}

// Whether the input has ended, so that nothing more is read.
pub fn is_ended(stage: Stage) -> bool
    ensures { result ≡ stage.ended }
{
    stage.ended
}

// Whether all is printed.
pub fn is_done(board: &[u16], stage: Stage) -> bool
    requires { (length board.now ≡ board_len) × (line_count board.now ≤ 2049) }
    ensures { result ≡ done_on board.now stage }
{
    stage.ended && stage.next == reports::line_count(board)
}

// A chunk of the input.
fn take_chunk(
    table: &[u8],
    board: &mut [u16],
    bytes: &mut [u8],
    links: &mut [u16],
    keys: &mut [u32],
    cents: &mut [i64],
    stage: Stage,
    input: &[u8],
    out: &mut [u8],
) -> Turn
    requires stands { Stands table.now (lists board.old bytes.old links.old keys.old cents.old) stage }
    requires ended_value { (stage.ended ≡ false) × (0 < length input.now) × (16 * length input.now ≤ length out.old) }
    ensures { Advances table.now
        (lists board.old bytes.old links.old keys.old cents.old)
        stage input.now
        (lists board.new bytes.new links.new keys.new cents.new)
        result.stage result.at out.new }
{
    let served = sessions::serve_chunk(
        table,
        board,
        bytes,
        links,
        keys,
        cents,
        stage.carry,
        input,
        out,
        stage.start,
    );
    Turn {
        stage: Stage {
            carry: served.carry,
            start: served.start,
            next: 0,
            ..stage
        },
        at: served.at,
    }
}

// The end of the input: the report comes next, from its first line.
fn end_input(
    table: &[u8],
    board: &mut [u16],
    bytes: &mut [u8],
    links: &mut [u16],
    keys: &mut [u32],
    cents: &mut [i64],
    stage: Stage,
    out: &mut [u8],
) -> Turn
    requires stands { Stands table.now (lists board.old bytes.old links.old keys.old cents.old) stage }
    requires ended_value { (stage.ended ≡ false) × (104 ≤ length out.old) }
    ensures { Advances table.now
        (lists board.old bytes.old links.old keys.old cents.old)
        stage []
        (lists board.new bytes.new links.new keys.new cents.new)
        result.stage result.at out.new }
{
    let served = sessions::serve_end(
        table,
        board,
        bytes,
        links,
        keys,
        cents,
        stage.carry,
        out,
        stage.start,
    );
    Turn {
        stage: Stage {
            start: served.start,
            next: 0,
            ended: true,
            ..stage
        },
        at: served.at,
    }
}

// A part of the report.
fn report_more(
    table: &[u8],
    board: &[u16],
    bytes: &[u8],
    links: &[u16],
    keys: &[u32],
    cents: &[i64],
    stage: Stage,
    out: &mut [u8],
) -> Turn
    requires stands { Stands table.now (lists board.now bytes.now links.now keys.now cents.now) stage }
    requires ended_value { (stage.ended ≡ true) × (done_on board.now stage ≡ false) × (104 ≤ length out.old) }
    ensures { (input : List ℕ) → Advances table.now
        (lists board.now bytes.now links.now keys.now cents.now)
        stage input
        (lists board.now bytes.now links.now keys.now cents.now)
        result.stage result.at out.new }
{
    let part = reports::report_part(table, board, bytes, links, keys, cents, stage.next, out);
    Turn {
        stage: Stage {
            next: part.next,
            ..stage
        },
        at: part.at,
    }
}

// A turn. What was read is the input's end if it is empty; once that was met it is not looked at.
pub fn advance(
    table: &[u8],
    board: &mut [u16],
    bytes: &mut [u8],
    links: &mut [u16],
    keys: &mut [u32],
    cents: &mut [i64],
    stage: Stage,
    input: &[u8],
    out: &mut [u8],
) -> Turn
    requires stands { Stands table.now (lists board.old bytes.old links.old keys.old cents.old) stage }
    requires stage_value { done_on board.old stage ≡ false }
    requires input_in_bounds { (16 * length input.now ≤ length out.old) × (104 ≤ length out.old) }
    ensures { Advances table.now
        (lists board.old bytes.old links.old keys.old cents.old)
        stage input.now
        (lists board.new bytes.new links.new keys.new cents.new)
        result.stage result.at out.new }
{
    if stage.ended {
        return report_more(table, board, bytes, links, keys, cents, stage, out);
    }
    if input.is_empty() {
        return end_input(table, board, bytes, links, keys, cents, stage, out);
    }
    take_chunk(table, board, bytes, links, keys, cents, stage, input, out)
}
