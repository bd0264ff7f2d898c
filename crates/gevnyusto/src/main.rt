// The matching board as a program: it reads `rules.bin`, opens a board and makes the turns of `printouts`. It reads its
// standard input, has what was read served, and writes what is to be printed. What it cannot read or write it says on
// standard error; without its input or its output it stops.
#![tactic(auto)]

ghost use Rattle.std.specs.Prelude.{◌≡◌, false, List, ℕ, IfSome, IfOk, MatchResult};
ghost use Rattle.model.specs.Boards.{builtin_backoffs};
ghost use Rattle.boards.specs.Layout.{lists};
ghost use Rattle.calls.specs.Opens.{open_number, opened_numbers};
ghost use Rattle.schedules.specs.Schedules.{Opened};
ghost use Rattle.printouts.specs.Stages.{Stands, done_on};
ghost use Rattle.printouts.specs.Prints.{Advanced, ServesAll};
ghost use Rattle.gevnyusto.specs.Counts.{IsPrefixLen};

use printouts::Stage;
use state::Said;
use std::io::{Cursor, ErrorKind, Read, Stderr, Stdin, Stdout, Write};
use std::rt::Files;
use std::{fs, io, str};

// The program's three streams.
#[derive(Clone, Copy)]
struct Streams {
    input: Stdin,
    output: Stdout,
    errors: Stderr,
}

// A line on standard error: what could not be read or written, and why, without the number of the error.
fn fail(errors: Stderr, what: &str, error: io::Error) {
    let mut text = Cursor::new([0u8; 256]);
    let _ = write!(text, "{error}");
    let bytes = text.into_inner();
    let all = str::from_utf8(&bytes).unwrap_or("");
    let (said, _) = all.split_once('\0').unwrap_or((all, ""));
    let (why, _) = said.split_once(" (os error ").unwrap_or((said, ""));
    let _ = eprintln!(errors; "{what}: {why}");
}

// Reads until the buffer is full, the file ends or a read fails; how many bytes it put.
fn read_full<F: Read>(file: &mut F, buf: &mut [u8]) -> usize
    ensures { IsPrefixLen result buf.new }
{
    let mut done = 0;
    while let Ok(n @ 1..) = file.read(&mut buf[done..]) {
        done += n;
    }
    done
}

// Whether a read past the bytes of `rules.bin` fails.
fn is_failed<F: Read>(file: &mut F, errors: Stderr) -> bool {
    let mut past = [0u8; 1];
    match file.read(&mut past) {
        Ok(_) => false,
        Err(error) => {
            fail(errors, "rules.bin", error);
            true
        }
    }
}

// The bytes of `rules.bin`, at most 413 of them; none where it cannot be read.
fn load<R: Files>(rt: &R, errors: Stderr, buf: &mut [u8; 413]) -> usize
    ensures { IsPrefixLen result buf.new }
{
    let mut file = match fs::open(rt, "rules.bin") {
        Ok(file) => file,
        Err(error) => {
            if error.kind() != ErrorKind::NotFound {
                fail(errors, "rules.bin", error);
            }
            return 0;
        }
    };
    let n = read_full(&mut file, buf);
    if is_failed(&mut file, errors) {
        return 0;
    }
    n
}

impl Streams {
    // Bytes go to standard output; whether they could.
    fn say(self, text: &[u8]) -> bool {
        match Print::write_all(&self.output, text) {
            Ok(()) => true,
            Err(error) => {
                fail(self.errors, "standard output", error);
                false
            }
        }
    }

    // A table that is refused.
    fn refuse(self, number: u8) {
        let mut out = [0u8; 16];
        let n = prints::put_answer(&mut out, 0, Said::Refused(number));
        self.say(&out[..n]);
    }

    // How many bytes a read of standard input puts, 0 once the input has ended; none where it fails.
    fn read_some(mut self, stage: Stage, input: &mut [u8]) -> Option<usize>
        ensures { IfSome result (λ n. IsPrefixLen n input.new) }
    {
        if printouts::is_ended(stage) {
            return Some(0);
        }
        match self.input.read(input) {
            Ok(n) => Some(n),
            Err(error) => {
                fail(self.errors, "standard input", error);
                None
            }
        }
    }
}

// One turn: what was read is handed over, and what is to be printed is written. The stage after it, as an error where it
// could not read or write.
fn turn(
    streams: Streams,
    table: &[u8],
    board: &mut [u16],
    bytes: &mut [u8],
    links: &mut [u16],
    keys: &mut [u32],
    cents: &mut [i64],
    stage: Stage,
) -> Result<Stage, Stage>
    requires stands { Stands table.now (lists board.old bytes.old links.old keys.old cents.old) stage }
    requires stage_value { done_on board.old stage ≡ false }
    ensures stands_2 { MatchResult result
        (λ g. Stands table.now (lists board.new bytes.new links.new keys.new cents.new) g)
        (λ g. Stands table.now (lists board.new bytes.new links.new keys.new cents.new) g) }
    ensures advanced { IfOk result (λ g. Advanced table.now
        (lists board.old bytes.old links.old keys.old cents.old)
        stage
        (lists board.new bytes.new links.new keys.new cents.new)
        g) }
{
    let mut input = [0u8; 4096];
    let n = streams.read_some(stage, &mut input).ok_or(stage)?;
    let mut out = [0u8; 65536];
    let made = printouts::advance(
        table,
        board,
        bytes,
        links,
        keys,
        cents,
        stage,
        &input[..n],
        &mut out,
    );
    if streams.say(&out[..made.at]) {
        Ok(made.stage)
    } else {
        Err(made.stage)
    }
}

// Turns on an opened board until all is printed; as an error the stage where one of them could not read or write.
fn serve(
    streams: Streams,
    table: &[u8],
    board: &mut [u16],
    bytes: &mut [u8],
    links: &mut [u16],
    keys: &mut [u32],
    cents: &mut [i64],
) -> Result<(), Stage>
    requires { Opened table.now builtin_backoffs
        (lists board.old bytes.old links.old keys.old cents.old) }
    ensures { IfOk result (λ _. (reads : List (List ℕ)) × (text : List ℕ)
        × ServesAll table.now reads text) }
{
    let mut stage = printouts::begin();
    for _ in 0..u64::MAX {
        if printouts::is_done(board, stage) {
            return Ok(());
        }
        stage = turn(streams, table, board, bytes, links, keys, cents, stage)?;
    }
    Err(stage)
}

// The board's other lists, beside an opened board.
fn run(streams: Streams, table: &[u8], board: &mut [u16])
    requires { (before : List ℕ) × (open_number table.now builtin_backoffs before ≡ 0)
        × (board.old ≡ opened_numbers table.now builtin_backoffs before) }
{
    let mut bytes = [0u8; 3072];
    let mut links = [0u16; 11264];
    let mut keys = [0u32; 2049];
    let mut cents = [0i64; 1024];
    let _ = serve(
        streams, table, board, &mut bytes, &mut links, &mut keys, &mut cents,
    );
}

fn main(rt: HostRuntime) {
    let streams = Streams {
        input: rt.stdin(),
        output: rt.stdout(),
        errors: rt.stderr(),
    };
    let mut file = [0u8; 413];
    let n = load(&rt, streams.errors, &mut file);
    let table = &file[..n];
    let mut board = [0u16; 723];
    let number = calls::open(table, &mut board);
    if number != 0 {
        streams.refuse(number);
        return;
    }
    run(streams, table, &mut board);
}
