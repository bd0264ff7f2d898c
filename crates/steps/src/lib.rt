// One step of a sender that is at work, or blocked with a signal, as an effect.
#![tactic(auto)]

ghost use Rattle.std.specs.Prelude.{◌≡◌, true, List, ℕ, ◌-◌, ◌<◌, ◌≤◌, eqb, length, get_or};
ghost use Rattle.model.specs.Boards.{Board, message_at, channel_of, is_open, is_consumed, backoffs_pass};
ghost use Rattle.model.specs.Effects.{does};
ghost use Rattle.model.specs.Tables.{is_sync};
ghost use Rattle.model.specs.Layout.{table_refusal, table_of};
ghost use Rattle.model.specs.Steps as MS;
ghost use Rattle.columns.specs.Columns.{Others, board_by, Passed};
ghost use Rattle.state.specs.declared.State.TheVariants as S;
ghost use Rattle.state.specs.Views.{phase_in, job_in, sender_in, effect_in, sender_steps};
ghost use Rattle.boards.specs.Layout.{links_len, matched_in, wakers_in, units_in};
ghost use Rattle.steps.specs.Ready.{Ready, Saw};

use state::{Change, Effect, Phase, Said, Seen, Sender, State};

// What the end of a job reads of the own message and the waker, or of the first message where there is none.
#[tactic(auto, using(crate::proofs::MessageReads::reads))]
fn sees(table: &[u8], d: Sender, n: u16, channels: &[u8], statuses: &[u8]) -> Seen
    requires table_value { (table_refusal table.now ≡ 0) × (1 ≤ n) × (d.own ≤ n) × (d.waker ≤ n) }
    requires n_in_bounds { (n ≤ length channels.now) × (n ≤ length statuses.now) }
    requires by_index { (i : ℕ) → i < n → get_or channels.now i 0 < length (table_of table.now).kinds }
    ensures { (keys : List ℕ) (o : Others) → Saw (table_of table.now)
        channels.now statuses.now n d result keys o }
{
    let own = usize::from(state::less(d.own));
    let waker = usize::from(state::less(d.waker));
    Seen {
        sync: chords::is_sync(table, channels[own]),
        channel: channels[waker],
        consumed: 3 <= statuses[waker],
    }
}

// Whether the k-th chosen message is pending.
fn is_pending(d: Sender, k: u8, statuses: &[u8]) -> bool
    requires { (k < 8) × (get_or d.job.chosen k 0 < length statuses.now) }
    ensures { result ≡ eqb (get_or statuses.now (get_or d.job.chosen k 0) 0) 0 }
{
    let j = d.job;
    let m = j.chosen[k as usize];
    statuses[m as usize] == 0
}

// Ends a pass, by what was read and the rests of one retry more.
fn pass_end(table: &[u8], d: Sender, channel: u8, opened: bool, v: Seen, backoffs: &[u16]) -> Effect
    requires { (table_refusal table.now ≡ 0) × (backoffs_pass backoffs.now ≡ true) }
    ensures { (b : Board) → b.backoffs ≡ backoffs.now → channel_of b d.job.subject ≡ channel
        → is_open (message_at b d.job.subject).status ≡ opened
        → is_sync (table_of table.now) (channel_of b (d.own - 1)) ≡ v.sync
        → channel_of b (d.waker - 1) ≡ v.channel → is_consumed (message_at b (d.waker - 1)).status ≡ v.consumed
        → effect_in (table_of table.now) result
        ≡ MS.pass_end_step (table_of table.now) b (sender_in (table_of table.now) d)
        (job_in (table_of table.now) d.job) }
{
    let j = d.job;
    let rests = backoffs::rests_at(backoffs, state::more(j.retries));
    ends::pass_end_step(table, d, channel, opened, v, rests)
}

// The effect of a step of a sender at work, by its job's phase.
fn job_step(
    table: &[u8],
    d: Sender,
    start: u16,
    n: u16,
    count: u16,
    channels: &[u8],
    keys: &[u32],
    units: &[u16],
    statuses: &[u8],
    backoffs: &[u16],
) -> Effect
    requires table_value { (table_refusal table.now ≡ 0) × (d.state ≡ S.Working) × (backoffs_pass backoffs.now ≡ true) }
    requires ready { Ready (table_of table.now) channels.now keys.now units.now statuses.now n count d }
    requires passed { Passed start n statuses.now }
    ensures { (o : Others) → length o.matches ≡ count → o.backoffs ≡ backoffs.now
        → o.units ≡ units.now → effect_in (table_of table.now) result
        ≡ MS.job_step (table_of table.now)
        (board_by channels.now keys.now statuses.now n o)
        (sender_in (table_of table.now) d) (job_in (table_of table.now) d.job)
        (phase_in d.job.phase) }
{
    let j = d.job;
    let at = j.subject as usize;
    let channel = channels[at];
    let opened = statuses[at] < 2;
    let phase = j.phase;
    match phase {
        Phase::Look(k) => looks::look_step(table, d, k, start, n, channels, keys, units, statuses),
        Phase::Claim(k) => {
            claims::claim_step(table, d, k, channel, count, is_pending(d, k, statuses))
        }
        Phase::Revert(k, m) => ends::revert_step(table, d, k, m, channel),
        Phase::Consume(k, m) => {
            let v = sees(table, d, n, channels, statuses);
            consumes::consume_step(table, d, k, m, n, channels, v)
        }
        Phase::Tell(k) => {
            let v = sees(table, d, n, channels, statuses);
            consumes::tell_step(table, d, k, n, channels, v)
        }
        Phase::Wake => wakes::wake_step(table, d),
        Phase::Free(k) => wakes::free_step(table, d, k),
        Phase::Signal => {
            let v = sees(table, d, n, channels, statuses);
            wakes::signal_step(table, d, v)
        }
        Phase::PassEnd => {
            let v = sees(table, d, n, channels, statuses);
            pass_end(table, d, channel, opened, v, backoffs)
        }
        Phase::Backoff(rests) => ends::backoff_step(table, d, rests, channel),
    }
}

// The effect of a step of a blocked sender with a signal, by its own message.
#[tactic(auto, using(crate::proofs::MessageReads::reads))]
fn blocked_step(
    table: &[u8],
    d: Sender,
    n: u16,
    channels: &[u8],
    statuses: &[u8],
    matched: &[u16],
    wakers: &[u16],
) -> Effect
    requires table_value { (table_refusal table.now ≡ 0) × (1 ≤ d.own) × (d.own ≤ n) }
    requires n_in_bounds { (n ≤ length channels.now) × (n ≤ length statuses.now)
        × (n ≤ length matched.now) × (n ≤ length wakers.now) }
    ensures { (keys : List ℕ) (o : Others) → o.matched ≡ matched.now
        → o.wakers ≡ wakers.now → effect_in (table_of table.now) result
        ≡ MS.resume_step (table_of table.now)
        (board_by channels.now keys statuses.now n o)
        (sender_in (table_of table.now) d) }
{
    let own = state::less(d.own) as usize;
    resumes::resume_step(
        table,
        d,
        statuses[own],
        matched[own],
        wakers[own],
        channels[own],
    )
}

// The effect of a step of a sender that may step.
pub fn effect_of(
    table: &[u8],
    d: Sender,
    start: u16,
    n: u16,
    count: u16,
    channels: &[u8],
    keys: &[u32],
    statuses: &[u8],
    links: &[u16],
    backoffs: &[u16],
) -> Effect
    requires table_value { (table_refusal table.now ≡ 0) × (sender_steps d ≡ true) × (length links.now ≡ links_len)
        × (backoffs_pass backoffs.now ≡ true) }
    requires ready { Ready (table_of table.now) channels.now keys.now (units_in links.now) statuses.now n count
        d }
    requires passed { Passed start n statuses.now }
    ensures { (o : Others) → length o.matches ≡ count → o.backoffs ≡ backoffs.now
        → o.matched ≡ matched_in links.now → o.wakers ≡ wakers_in links.now
        → o.units ≡ units_in links.now → MS.state_step (table_of table.now)
        (board_by channels.now keys.now statuses.now n o)
        (sender_in (table_of table.now) d) (sender_in (table_of table.now) d).state
        ≡ does (effect_in (table_of table.now) result) }
{
    let state = d.state;
    match state {
        State::Idle => Effect {
            said: Said::Refused(13),
            change: Change::None,
            sender: d,
        },
        State::Working => {
            let units = boards::units(links);
            job_step(
                table, d, start, n, count, channels, keys, units, statuses, backoffs,
            )
        }
        State::Blocked => {
            let matched = boards::matched(links);
            blocked_step(
                table,
                d,
                n,
                channels,
                statuses,
                matched,
                boards::wakers(links),
            )
        }
    }
}
