// The steps that read no messages but the subject, the sender's own and its waker: a claim put back, a pass that ends,
// a rest. What was read comes as parameters.
#![tactic(auto)]

ghost use Rattle.std.specs.Prelude.{◌≡◌, ◌-◌, ◌<◌, length};
ghost use Rattle.model.specs.Tables.{size, is_sync};
ghost use Rattle.model.specs.Boards.{Board, message_at, channel_of, is_open, is_consumed, backoff_at};
ghost use Rattle.model.specs.Layout.{table_refusal, table_of};
ghost use Rattle.model.specs.Steps.{more, revert_step, pass_end_step, backoff_step};
ghost use Rattle.state.specs.declared.Phase.TheVariants as P;
ghost use Rattle.state.specs.Views.{job_in, sender_in, effect_in};

use state::{Change, Effect, Phase, Said, Seen, Sender, Turn};

// Puts back the k-th of m claims; after the last, the next chord.
#[tactic(auto, using(state::proofs::Sizes::chord_few))]
pub fn revert_step(table: &[u8], d: Sender, k: u8, m: u8, channel: u8) -> Effect
    requires table_value { (table_refusal table.now ≡ 0) × (d.job.chord < length (table_of table.now).chords) }
    requires phase_value { (d.job.phase ≡ P.Revert k m) × (k < size (table_of table.now) d.job.chord) }
    ensures { (b : Board) → channel_of b d.job.subject ≡ channel
        → effect_in (table_of table.now) result
        ≡ revert_step (table_of table.now) b (sender_in (table_of table.now) d)
        (job_in (table_of table.now) d.job) k m }
{
    let j = d.job;
    let n = j.chosen[usize::from(k)];
    let next = if k + 1 == m {
        state::next_chord(table, j, channel, j.retry)
    } else {
        state::in_phase(j, Phase::Revert(k + 1, m))
    };
    state::works(d, next, Said::Reverted(n), Change::Turn(n, Turn::Frees))
}

// Ends a pass: again, if the job is to be tried again and its subject is open, or else the end of the job. The channel
// is the subject's; the rests are those of one retry more.
#[tactic(auto, unfolding(model::specs::Steps::pass_end_step))]
pub fn pass_end_step(
    table: &[u8],
    d: Sender,
    channel: u8,
    opened: bool,
    v: Seen,
    rests: u8,
) -> Effect
    requires { table_refusal table.now ≡ 0 }
    ensures { (b : Board) → backoff_at b.backoffs (more d.job.retries) ≡ rests
        → channel_of b d.job.subject ≡ channel
        → is_open (message_at b d.job.subject).status ≡ opened
        → is_sync (table_of table.now) (channel_of b (d.own - 1)) ≡ v.sync
        → channel_of b (d.waker - 1) ≡ v.channel → is_consumed (message_at b (d.waker - 1)).status ≡ v.consumed
        → effect_in (table_of table.now) result
        ≡ pass_end_step (table_of table.now) b (sender_in (table_of table.now) d)
        (job_in (table_of table.now) d.job) }
{
    let j = d.job;
    if j.retry && opened {
        let k = state::more(j.retries);
        let next = state::rests_then(table, j.subject, channel, k, rests);
        return state::works(d, next, Said::Again, Change::None);
    }
    let sender = state::job_end(table, d, j.subject, v);
    Effect {
        said: Said::Ended,
        change: Change::None,
        sender,
    }
}

// Rests once, with so many rests still to come; after the last, a new pass.
#[tactic(auto, unfolding(model::specs::Steps::backoff_step))]
pub fn backoff_step(table: &[u8], d: Sender, rests: u8, channel: u8) -> Effect
    requires { table_refusal table.now ≡ 0 }
    ensures { (b : Board) → channel_of b d.job.subject ≡ channel
        → effect_in (table_of table.now) result
        ≡ backoff_step (table_of table.now) b (sender_in (table_of table.now) d)
        (job_in (table_of table.now) d.job) rests }
{
    let j = d.job;
    let next = state::rests_then(table, j.subject, channel, j.retries, rests);
    state::works(d, next, Said::Rested, Change::None)
}
