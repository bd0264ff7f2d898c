// The steps of a wake: the first synchronous message of the choice is woken, each other one is freed, and the woken
// message's sender is signalled. What was read comes as parameters.
#![tactic(auto)]

ghost use Rattle.std.specs.Prelude.{◌≡◌, ◌+◌, ◌-◌, ◌<◌, length, get_or};
ghost use Rattle.model.specs.Tables.{size, is_sync, first_sync};
ghost use Rattle.model.specs.Boards.{Board, message_at, channel_of, is_consumed};
ghost use Rattle.model.specs.Layout.{table_refusal, table_of};
ghost use Rattle.model.specs.Steps as MS;
ghost use Rattle.state.specs.declared.Phase.TheVariants as P;
ghost use Rattle.state.specs.Views.{chosen_by, job_in, sender_in, effect_in};

use state::{Change, Effect, Job, Phase, Said, Seen, Sender, Turn};

// The message that a job wakes: the one chosen for the chord's first synchronous channel.
#[tactic(auto, using(state::proofs::Sizes::chord_few), unfolding(model::specs::Steps::woken_of))]
fn woken_of(table: &[u8], j: Job) -> u16
    requires table_value { (table_refusal table.now ≡ 0) × (j.chord < length (table_of table.now).chords) }
    requires chord_bound { (first_sync (table_of table.now) j.chord < size (table_of table.now) j.chord)
        × (chosen_by j.phase (size (table_of table.now) j.chord)
        ≡ size (table_of table.now) j.chord) }
    ensures { result ≡ MS.woken_of (table_of table.now) (job_in (table_of table.now) j) }
{
    let f = chords::first_sync(table, j.chord);
    j.chosen[usize::from(f)]
}

// The k-th of the messages that a job frees: those chosen for the chord's other channels.
#[tactic(auto, using(state::proofs::Sizes::chord_few), unfolding(model::specs::Steps::skip))]
fn freed_of(table: &[u8], j: Job, k: u8) -> u16
    requires table_value { (table_refusal table.now ≡ 0) × (j.chord < length (table_of table.now).chords) }
    requires chord_bound { (k + 1 < size (table_of table.now) j.chord)
        × (chosen_by j.phase (size (table_of table.now) j.chord)
        ≡ size (table_of table.now) j.chord) }
    ensures { result ≡ get_or (job_in (table_of table.now) j).chosen
        (MS.skip (first_sync (table_of table.now) j.chord) k) 0 }
{
    let f = chords::first_sync(table, j.chord);
    let place = if k < f { k } else { k + 1 };
    j.chosen[usize::from(place)]
}

// Wakes: the message notes the subject as its waker.
#[tactic(auto, using(state::proofs::Sizes::chord_few), unfolding(model::specs::Steps::wake_step))]
pub fn wake_step(table: &[u8], d: Sender) -> Effect
    requires table_value { (table_refusal table.now ≡ 0) × (d.job.chord < length (table_of table.now).chords) }
    requires phase_value { (d.job.phase ≡ P.Wake)
        × (first_sync (table_of table.now) d.job.chord < size (table_of table.now) d.job.chord) }
    ensures { (b : Board) → effect_in (table_of table.now) result
        ≡ MS.wake_step (table_of table.now) b (sender_in (table_of table.now) d)
        (job_in (table_of table.now) d.job) }
{
    let j = d.job;
    let x = woken_of(table, j);
    let alone = table::chord_len(table, j.chord) < 2;
    let phase = if alone { Phase::Signal } else { Phase::Free(0) };
    let change = Change::Turn(x, Turn::WakesBy(j.subject));
    state::works(d, state::in_phase(j, phase), Said::Woke(x), change)
}

// Frees the k-th of the messages other than the woken one.
#[tactic(auto, using(crate::proofs::Freeing::frees))]
pub fn free_step(table: &[u8], d: Sender, k: u8) -> Effect
    requires table_value { (table_refusal table.now ≡ 0) × (d.job.chord < length (table_of table.now).chords) }
    requires phase_value { (d.job.phase ≡ P.Free k) × (k + 1 < size (table_of table.now) d.job.chord)
        × (first_sync (table_of table.now) d.job.chord < size (table_of table.now) d.job.chord) }
    ensures { (b : Board) → effect_in (table_of table.now) result
        ≡ MS.free_step (table_of table.now) b (sender_in (table_of table.now) d)
        (job_in (table_of table.now) d.job) k }
{
    let j = d.job;
    let x = freed_of(table, j, k);
    let last = k + 2 == table::chord_len(table, j.chord);
    let phase = if last {
        Phase::Signal
    } else {
        Phase::Free(k + 1)
    };
    let change = Change::Turn(x, Turn::Frees);
    state::works(d, state::in_phase(j, phase), Said::Freed(x), change)
}

// Signals the woken message's sender, and ends the job.
#[tactic(auto, unfolding(model::specs::Steps::signal_step))]
pub fn signal_step(table: &[u8], d: Sender, v: Seen) -> Effect
    requires table_value { (table_refusal table.now ≡ 0) × (d.job.chord < length (table_of table.now).chords) }
    requires phase_value { (d.job.phase ≡ P.Signal)
        × (first_sync (table_of table.now) d.job.chord < size (table_of table.now) d.job.chord) }
    ensures { (b : Board) → is_sync (table_of table.now) (channel_of b (d.own - 1)) ≡ v.sync
        → channel_of b (d.waker - 1) ≡ v.channel → is_consumed (message_at b (d.waker - 1)).status ≡ v.consumed
        → effect_in (table_of table.now) result
        ≡ MS.signal_step (table_of table.now) b (sender_in (table_of table.now) d)
        (job_in (table_of table.now) d.job) }
{
    let j = d.job;
    let x = woken_of(table, j);
    let sender = state::job_end(table, d, j.subject, v);
    Effect {
        said: Said::Signalled(x),
        change: Change::Signal(x),
        sender,
    }
}
