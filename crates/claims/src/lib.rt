// The step of a sender that claims its chosen messages. What was read of the messages comes as parameters.
#![tactic(auto)]

ghost use Rattle.std.specs.Prelude.{◌≡◌, ◌<◌, ◌≤◌, length, get_or};
ghost use Rattle.model.specs.Tables.{size};
ghost use Rattle.model.specs.Boards.{Board, message_at, channel_of, is_pending};
ghost use Rattle.model.specs.Layout.{table_refusal, table_of};
ghost use Rattle.model.specs.Steps as MS;
ghost use Rattle.state.specs.declared.Phase.TheVariants as P;
ghost use Rattle.state.specs.declared.Said.TheVariants as W;
ghost use Rattle.state.specs.declared.Turn.TheVariants as U;
ghost use Rattle.state.specs.declared.Change.TheVariants as G;
ghost use Rattle.state.specs.Builders.{works_by, job_in_phase};
ghost use Rattle.state.specs.Views.{job_in, sender_in, effect_in};

use state::{Change, Effect, Phase, Said, Sender, Turn};

// The claim of message m is lost, after k claims: these are put back, or where there is none, the next chord.
fn loses(table: &[u8], d: Sender, k: u8, m: u16, channel: u8) -> Effect
    requires table_value { (table_refusal table.now ≡ 0) × (d.job.chord < length (table_of table.now).chords) }
    requires phase_value { d.job.phase ≡ P.Claim k }
    ensures { (b : Board) → channel_of b d.job.subject ≡ channel
        → effect_in (table_of table.now) result
        ≡ MS.loses (table_of table.now) b (sender_in (table_of table.now) d)
        (job_in (table_of table.now) d.job) k m }
{
    let next = if k == 0 {
        state::next_chord(table, d.job, channel, true)
    } else {
        state::with_retry(d.job, Phase::Revert(0, k))
    };
    state::works(d, next, Said::Lost(m), Change::None)
}

// The claim of message m is made, and the job is in another phase.
fn claims_to(d: Sender, m: u16, phase: Phase) -> Effect
    ensures { result ≡ works_by d (job_in_phase d.job phase) (W.Claimed m) (G.Turn m U.Claims) }
{
    let next = state::in_phase(d.job, phase);
    state::works(d, next, Said::Claimed(m), Change::Turn(m, Turn::Claims))
}

// Claims the k-th chosen message, by what was read: the subject's channel, the number of matches, and whether the
// message is pending.
#[tactic(auto, using(state::proofs::Sizes::chord_few), unfolding(model::specs::Steps::claim_step))]
pub fn claim_step(table: &[u8], d: Sender, k: u8, channel: u8, count: u16, pending: bool) -> Effect
    requires table_value { (table_refusal table.now ≡ 0) × (d.job.chord < length (table_of table.now).chords) }
    requires phase_value { (d.job.phase ≡ P.Claim k) × (k < size (table_of table.now) d.job.chord) }
    requires channel_in_bounds { (channel < length (table_of table.now).kinds) × (count ≤ 1024) }
    ensures { (b : Board) → channel_of b d.job.subject ≡ channel
        → is_pending (message_at b (get_or (job_in (table_of table.now) d.job).chosen k 0)).status ≡ pending
        → length b.matches ≡ count → effect_in (table_of table.now) result
        ≡ MS.claim_step (table_of table.now) b (sender_in (table_of table.now) d)
        (job_in (table_of table.now) d.job) k }
{
    let j = d.job;
    let m = j.chosen[usize::from(k)];
    if !pending {
        return loses(table, d, k, m, channel);
    }
    if k + 1 < table::chord_len(table, j.chord) {
        return claims_to(d, m, Phase::Claim(k + 1));
    }
    if chords::wakes(table, j.chord, channel) {
        return claims_to(d, m, Phase::Wake);
    }
    if 1024 <= count {
        return loses(table, d, k, m, channel);
    }
    let next = state::in_phase(j, Phase::Consume(0, count + 1));
    state::works(d, next, Said::Matched(count), Change::Record(m))
}
