// The steps of a recorded match: each message of the choice is consumed, then each sender of a synchronous one, other
// than the subject, is told.
#![tactic(auto)]

ghost use Rattle.std.specs.Prelude.{◌≡◌, List, ℕ, suc, ◌+◌, ◌-◌, ◌<◌, ◌≤◌, eqb, length, get_or, take, filter};
ghost use Rattle.std.specs.List.{All};
ghost use Rattle.model.specs.Basics.{pick};
ghost use Rattle.model.specs.Tables.{size, is_sync};
ghost use Rattle.model.specs.Boards.{Message, no_message, message_at, channel_of, is_consumed};
ghost use Rattle.model.specs.Layout.{table_refusal, table_of};
ghost use Rattle.model.specs.Steps as MS;
ghost use Rattle.columns.specs.Columns.{Others, board_by};
ghost use Rattle.state.specs.declared.Phase.TheVariants as P;
ghost use Rattle.state.specs.Views.{job_in, sender_in, effect_in};
ghost use Rattle.consumes.specs.Holds.{Channels, ChoiceLent, Left, is_told, with_match};

use state::{Change, Effect, Phase, Said, Seen, Sender, Turn};

// Whether message x of a match of the subject is to be told of it.
fn is_told(table: &[u8], subject: u16, x: u16, channels: &[u8]) -> bool
    requires { (table_refusal table.now ≡ 0) × (x < length channels.now)
        × (get_or channels.now x 0 < length (table_of table.now).kinds) }
    ensures { result ≡ is_told (table_of table.now) channels.now subject x }
{
    chords::is_sync(table, channels[usize::from(x)]) && x != subject
}

// How many of the chosen messages are to be told of the subject's match.
fn told_len(table: &[u8], subject: u16, chosen: &[u16], n: u16, channels: &[u8]) -> usize
    requires table_value { (table_refusal table.now ≡ 0) × (n ≤ length channels.now) }
    requires below { All (λ x. x < n) chosen.now }
    requires known { (i : ℕ) → i < n → get_or channels.now i 0 < length (table_of table.now).kinds }
    ensures { (result ≡ length (filter (is_told (table_of table.now) channels.now subject) chosen.now))
        × (result ≤ length chosen.now) }
{
    chosen
        .iter()
        .filter(|x| is_told(table, subject, **x, channels))
        .count()
}

// The k-th of the chosen messages that are to be told of the subject's match.
fn told_at(
    table: &[u8],
    subject: u16,
    chosen: &[u16],
    n: u16,
    channels: &[u8],
    k: u8,
) -> Option<u16>
    requires table_value { (table_refusal table.now ≡ 0) × (n ≤ length channels.now) }
    requires below { All (λ x. x < n) chosen.now }
    requires known { (i : ℕ) → i < n → get_or channels.now i 0 < length (table_of table.now).kinds }
    requires there { k < length (filter (is_told (table_of table.now) channels.now subject) chosen.now) }
    ensures { result ≡ Some (get_or (filter (is_told (table_of table.now) channels.now subject) chosen.now) k 0) }
{
    chosen
        .iter()
        .copied()
        .filter(|x| is_told(table, subject, *x, channels))
        .nth(usize::from(k))
}

// The sender after its k-th message is consumed: on to the next, or after the last the telling, or with none to be told
// the end of the job. What was read is as the step leaves it.
#[tactic(auto, using(crate::proofs::Consuming::consumings))]
fn consumed_to(table: &[u8], d: Sender, k: u8, m: u16, n: u16, channels: &[u8], v: Seen) -> Sender
    requires table_value { (table_refusal table.now ≡ 0) × (d.job.chord < length (table_of table.now).chords) }
    requires phase_value { (d.job.phase ≡ P.Consume k m) × (k < size (table_of table.now) d.job.chord)
        × ChoiceLent (table_of table.now) d.job.chosen channels.now
        (size (table_of table.now) d.job.chord) n }
    ensures { (is : List Message) → Channels is channels.now n
        → is_sync (table_of table.now) (get_or is (d.own - 1) no_message).sent.channel ≡ v.sync
        → (get_or is (d.waker - 1) no_message).sent.channel ≡ v.channel
        → is_consumed (get_or is (d.waker - 1) no_message).status ≡ v.consumed
        → sender_in (table_of table.now) result ≡ MS.consumed_to (table_of table.now) is
        (sender_in (table_of table.now) d) (job_in (table_of table.now) d.job) k m
        (eqb (suc k) (length (job_in (table_of table.now) d.job).chosen)) }
{
    let j = d.job;
    let len = table::chord_len(table, j.chord);
    if k + 1 < len {
        return state::in_job(d, state::in_phase(j, Phase::Consume(k + 1, m)));
    }
    if told_len(table, j.subject, &j.chosen[..usize::from(len)], n, channels) > 0 {
        return state::in_job(d, state::in_phase(j, Phase::Tell(0)));
    }
    state::job_end(table, d, j.subject, v)
}

// The sender, which notes the match of its own message.
fn noted(d: Sender, x: u16, m: u16) -> Sender
    requires { x < 65535 }
    ensures { result ≡ with_match d (pick (eqb (x + 1) d.own) m d.matched) }
{
    if x + 1 == d.own {
        Sender { matched: m, ..d }
    } else {
        d
    }
}

// Consumes the k-th message for match m, which is kept plus 1. What was read is as it was before the step.
#[tactic(auto, using(state::proofs::Sizes::chord_few))]
pub fn consume_step(
    table: &[u8],
    d: Sender,
    k: u8,
    m: u16,
    n: u16,
    channels: &[u8],
    v: Seen,
) -> Effect
    requires table_value { (table_refusal table.now ≡ 0) × (d.job.chord < length (table_of table.now).chords) }
    requires phase_value { (d.job.phase ≡ P.Consume k m) × (k < size (table_of table.now) d.job.chord)
        × ChoiceLent (table_of table.now) d.job.chosen channels.now
        (size (table_of table.now) d.job.chord) n }
    ensures { (pr st : List ℕ) (o : Others)
        → is_sync (table_of table.now) (channel_of (board_by channels.now pr st n o) (d.own - 1))
        ≡ v.sync → channel_of (board_by channels.now pr st n o) (d.waker - 1) ≡ v.channel
        → is_consumed (message_at (board_by channels.now pr st n o) (d.waker - 1)).status ≡ v.consumed
        → effect_in (table_of table.now) result
        ≡ MS.consume_step (table_of table.now) (board_by channels.now pr st n o)
        (sender_in (table_of table.now) d) (job_in (table_of table.now) d.job) k m }
{
    let x = d.job.chosen[usize::from(k)];
    let consumed = state::less(d.waker) == x || v.consumed;
    let after = Seen { consumed, ..v };
    let sender = consumed_to(table, noted(d, x, m), k, m, n, channels, after);
    Effect {
        said: Said::Consumed(x),
        change: Change::Turn(x, Turn::Consumes(m)),
        sender,
    }
}

// Tells the sender of the k-th message that is to be told.
#[tactic(auto, using(crate::proofs::Consuming::tellings))]
pub fn tell_step(table: &[u8], d: Sender, k: u8, n: u16, channels: &[u8], v: Seen) -> Effect
    requires table_value { (table_refusal table.now ≡ 0) × (d.job.chord < length (table_of table.now).chords) }
    requires phase_value { (d.job.phase ≡ P.Tell k)
        × ChoiceLent (table_of table.now) d.job.chosen channels.now
        (size (table_of table.now) d.job.chord) n
        × Left (table_of table.now) channels.now n d.job.subject
        (take (size (table_of table.now) d.job.chord) d.job.chosen) k }
    ensures { (pr st : List ℕ) (o : Others)
        → is_sync (table_of table.now) (channel_of (board_by channels.now pr st n o) (d.own - 1))
        ≡ v.sync → channel_of (board_by channels.now pr st n o) (d.waker - 1) ≡ v.channel
        → is_consumed (message_at (board_by channels.now pr st n o) (d.waker - 1)).status ≡ v.consumed
        → effect_in (table_of table.now) result
        ≡ MS.tell_step (table_of table.now) (board_by channels.now pr st n o)
        (sender_in (table_of table.now) d) (job_in (table_of table.now) d.job) k }
{
    let j = d.job;
    let chosen = &j.chosen[..usize::from(table::chord_len(table, j.chord))];
    let len = told_len(table, j.subject, chosen, n, channels);
    let x = told_at(table, j.subject, chosen, n, channels, k).unwrap();
    let sender = if usize::from(k) + 1 < len {
        state::in_job(d, state::in_phase(j, Phase::Tell(k + 1)))
    } else {
        state::job_end(table, d, j.subject, v)
    };
    Effect {
        said: Said::Told(x),
        change: Change::Signal(x),
        sender,
    }
}
