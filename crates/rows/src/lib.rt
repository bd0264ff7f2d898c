// The board as plain numbers, which a host in another language can hold: read from a lent slice, and written to one.
#![tactic(auto)]

ghost use Rattle.std.specs.Prelude.{◌≡◌, true, ◌+◌, ◌*◌, ◌<◌, ◌≤◌, eqb, length, get_or, take, drop};
ghost use Rattle.std.proofs.Math.Seq.{paste};
ghost use Rattle.state.specs.Views.{steps_in, sender_steps, idle_is};
ghost use Rattle.boards.specs.Boards.{zero_sender};
ghost use Rattle.boards.specs.Layout.{board_len};
ghost use Rattle.rows.specs.Decoded.{state_from, phase_from, board_from};
ghost use Rattle.rows.specs.Numbers.{state_number, kind, place, second};
ghost use Rattle.rows.specs.Numbers.{sender_numbers, board_numbers};
ghost use Rattle.rows.specs.Fresh.{fresh_sender, fresh_board};
ghost use Rattle.rows.specs.Fits.{PhaseFits, SenderFits};
ghost use Rattle.rows.specs.Numbers.{encodes_phase, encodes_sender, encodes};

use state::{Job, Phase, Sender, State};

// A sender's state by its number.
fn state_of(n: u16) -> State
    ensures { result ≡ state_from n }
{
    match n {
        0 => State::Idle,
        1 => State::Working,
        _ => State::Blocked,
    }
}

// The number of a sender's state.
fn state_number(s: State) -> u16
    ensures { result ≡ state_number s }
{
    match s {
        State::Idle => 0,
        State::Working => 1,
        State::Blocked => 2,
    }
}

// Whether a sender may step, by the numbers of its state and signal.
pub fn steps_at(state: u16, signalled: u16) -> bool
    ensures { result ≡ steps_in (state_from state) (eqb signalled 1) }
{
    state == 1 || (state >= 2 && signalled == 1)
}

// The phase by its three numbers.
#[tactic(auto, unfolding(crate::specs::Numbers::encodes_phase))]
fn phase_of(phase: u16, place: u16, second: u16) -> Phase
    requires { encodes_phase phase place second ≡ true }
    ensures { result ≡ phase_from phase place second }
{
    let k = place as u8;
    match phase {
        0 => Phase::Look(k),
        1 => Phase::Claim(k),
        2 => Phase::Revert(k, second as u8),
        3 => Phase::Consume(k, second),
        4 => Phase::Tell(k),
        5 => Phase::Wake,
        6 => Phase::Free(k),
        7 => Phase::Signal,
        8 => Phase::PassEnd,
        _ => Phase::Backoff(k),
    }
}

// Which phase it is.
// One function for each of a phase's three numbers: one that answers all three is compiled to a jump table.
fn phase_kind(p: Phase) -> u16
    ensures { result ≡ kind p }
{
    match p {
        Phase::Look(_) => 0,
        Phase::Claim(_) => 1,
        Phase::Revert(_, _) => 2,
        Phase::Consume(_, _) => 3,
        Phase::Tell(_) => 4,
        Phase::Wake => 5,
        Phase::Free(_) => 6,
        Phase::Signal => 7,
        Phase::PassEnd => 8,
        Phase::Backoff(_) => 9,
    }
}

// The place of a phase; 0 for one that has none.
fn phase_place(p: Phase) -> u16
    ensures { (result ≡ place p) × PhaseFits p }
{
    match p {
        Phase::Look(k)
        | Phase::Claim(k)
        | Phase::Revert(k, _)
        | Phase::Consume(k, _)
        | Phase::Tell(k)
        | Phase::Free(k)
        | Phase::Backoff(k) => u16::from(k),
        Phase::Wake | Phase::Signal | Phase::PassEnd => 0,
    }
}

// The second number of a phase; 0 for one that has none.
fn phase_second(p: Phase) -> u16
    ensures { result ≡ second p }
{
    match p {
        Phase::Revert(_, claims) => u16::from(claims),
        Phase::Consume(_, m) => m,
        _ => 0,
    }
}

// The sender by its 21 numbers.
#[tactic(auto, unfolding(crate::specs::Numbers::encodes_sender))]
pub fn sender_of(a: &[u16]) -> Sender
    requires { (length a.now ≡ 21) × (encodes_sender a.now ≡ true) }
    ensures { (sender_numbers result ≡ a.now) × SenderFits result }
{
    let mut chosen = [0; 8];
    chosen.copy_from_slice(&a[13..21]);
    Sender {
        state: state_of(a[0]),
        signalled: a[1] == 1,
        own: a[2],
        waker: a[3],
        reply: a[4],
        matched: a[5],
        job: Job {
            subject: a[6],
            chord: a[7] as u8,
            phase: phase_of(a[8], a[9], a[10]),
            chosen,
            retry: a[11] == 1,
            retries: a[12] as u8,
        },
    }
}

// Where the numbers of the sender at a place begin.
pub fn row_start(i: u8) -> usize
    ensures { result ≡ 2 + 21 * i }
{
    2 + 21 * usize::from(i)
}

// The 21 numbers of the sender at a place.
pub fn row(s: &[u16], i: u8) -> &[u16]
    requires { (length s.now ≡ board_len) × (i < 32) }
    ensures { (result.now ≡ take 21 (drop (2 + 21 * i) s.now)) × (length result.now ≡ 21) }
{
    let at = row_start(i);
    &s[at..at + 21]
}

// The sender at a place.
#[tactic(auto, unfolding(crate::specs::Numbers::encodes))]
pub fn sender_at(s: &[u16], i: u8) -> Sender
    requires { (encodes s.now ≡ true) × (i < 32) }
    ensures { result ≡ get_or (board_from s.now).senders i zero_sender }
{
    sender_of(row(s, i))
}

// Whether the sender at a place may step.
#[tactic(auto, unfolding(crate::specs::Numbers::encodes))]
pub fn may_step(s: &[u16], i: u8) -> bool
    requires { (encodes s.now ≡ true) × (i < 32) }
    ensures { result ≡ sender_steps (get_or (board_from s.now).senders i zero_sender) }
{
    let a = row(s, i);
    steps_at(a[0], a[1])
}

// Whether the sender at a place is idle.
#[tactic(auto, unfolding(crate::specs::Numbers::encodes))]
pub fn is_idle(s: &[u16], i: u8) -> bool
    requires { (encodes s.now ≡ true) × (i < 32) }
    ensures { result ≡ idle_is (get_or (board_from s.now).senders i zero_sender).state }
{
    row(s, i)[0] == 0
}

// Eight message numbers, from a place on.
pub fn put_chosen(messages: &mut [u16], at: usize, chosen: [u16; 8])
    requires { at + 8 ≤ length messages.old }
    ensures { messages.new ≡ paste messages.old at chosen 8 }
{
    messages[at..at + 8].copy_from_slice(&chosen);
}

// A sender's numbers from a place on.
pub fn put_sender(d: Sender, s: &mut [u16], at: usize)
    requires { at + 21 ≤ length s.old }
    ensures { (s.new ≡ paste s.old at (sender_numbers d) 21)
        × SenderFits d }
{
    let job = d.job;
    let fields = [
        state_number(d.state),
        u16::from(d.signalled),
        d.own,
        d.waker,
        d.reply,
        d.matched,
        job.subject,
        u16::from(job.chord),
        phase_kind(job.phase),
        phase_place(job.phase),
        phase_second(job.phase),
        u16::from(job.retry),
        u16::from(job.retries),
    ];
    s[at..at + 13].copy_from_slice(&fields);
    put_chosen(s, at + 13, job.chosen);
}

// An idle sender as it is opened.
fn fresh_sender() -> Sender
    ensures { result ≡ fresh_sender }
{
    Sender {
        state: State::Idle,
        signalled: false,
        own: 0,
        waker: 0,
        reply: 0,
        matched: 0,
        job: Job {
            subject: 0,
            chord: 0,
            phase: Phase::PassEnd,
            chosen: [0; 8],
            retry: false,
            retries: 0,
        },
    }
}

// A backoff table, as numbers.
fn put_backoffs(table: &mut [u16], rests: &[u8])
    requires { length table.old ≡ length rests.now }
    ensures { table.new ≡ rests.now }
{
    for (i, rest) in rests.iter().enumerate() {
        table[i] = u16::from(*rest);
    }
}

// The numbers of an empty board with a backoff table: no messages, no matches, every sender idle, no day closed, none
// added.
pub fn put_fresh(s: &mut [u16], rests: &[u8])
    requires { (length s.old ≡ board_len) × (length rests.now ≡ 16) }
    ensures { s.new ≡ board_numbers (fresh_board rests.now) }
{
    let idle = fresh_sender();
    s[0] = 0;
    s[1] = 0;
    for i in 0..32 {
        put_sender(idle, s, row_start(i));
    }
    s[boards::CLOSED] = 0;
    s[boards::TALLIES..boards::BACKOFFS].fill(0);
    put_backoffs(&mut s[boards::BACKOFFS..boards::BOARD_LEN], rests);
}
