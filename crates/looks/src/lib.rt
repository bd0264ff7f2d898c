// The step of a sender that looks for a message for a member of its chord.
#![tactic(auto)]

ghost use Rattle.std.specs.Prelude.{◌≡◌, [], ◌∷◌, ◌++◌, suc, ◌+◌, ◌<◌, ◌≤◌, eqb, length, get_or, set};
ghost use Rattle.model.specs.Basics.{pick};
ghost use Rattle.model.specs.Tables as MT;
ghost use Rattle.model.specs.Boards as MB;
ghost use Rattle.model.specs.Jobs as MJ;
ghost use Rattle.model.specs.Layout.{table_refusal, table_of};
ghost use Rattle.model.specs.Looks as ML;
ghost use Rattle.model.specs.Steps as MS;
ghost use Rattle.columns.specs.Columns.{Others, days_at, board_by, Lent, Passed};
ghost use Rattle.columns.specs.Firsts.{Wants};
ghost use Rattle.state.specs.declared.Phase.TheVariants as P;
ghost use Rattle.state.specs.Views.{phase_in, chosen_by, job_in, sender_in, effect_in};

use columns::Want;
use state::{Change, Effect, Job, Phase, Said, Sender};

// What is sought for the k-th member of the chord, of a status, beside the subject.
fn want_of(
    table: &[u8],
    chord: u8,
    k: u8,
    status: u8,
    keys: &[u32],
    units: &[u16],
    subject: u16,
) -> Want
    requires table_value { (table_refusal table.now ≡ 0) × (chord < length (table_of table.now).chords) }
    requires k_bound { (k < MT.size (table_of table.now) chord) × (days_at + subject < length keys.now)
        × (subject < length units.now) }
    ensures { (result.channel ≡ MT.channel_at (table_of table.now) chord k) × (result.status ≡ status)
        × ((s : MB.Sent) → s.property ≡ get_or keys.now subject 0
        → s.unit ≡ get_or units.now subject 0
        → Wants result (MT.chord_at (table_of table.now) chord) s) }
{
    let at = subject as usize;
    let property = keys[at];
    let unit = units[at];
    let channel = chords::channel_at(table, chord, k);
    let equal = table::chord_equal(table, chord);
    Want {
        channel: channel,
        status: status,
        equal: equal,
        property: property,
        unit: unit,
    }
}

// The message that a look takes for the k-th member: the subject in its own place, or else the oldest that is free; its
// number plus 1, 0 for none.
fn choice(
    table: &[u8],
    j: Job,
    k: u8,
    start: u16,
    n: u16,
    channels: &[u8],
    keys: &[u32],
    units: &[u16],
    statuses: &[u8],
) -> u16
    requires table_value { (table_refusal table.now ≡ 0) × (j.chord < length (table_of table.now).chords) }
    requires phase_value { (j.phase ≡ P.Look k) × (k < MT.size (table_of table.now) j.chord) × (j.subject < n) }
    requires lent { Lent n channels.now keys.now units.now statuses.now }
    requires passed { Passed start n statuses.now }
    ensures { (o : Others) → o.units ≡ units.now → result ≡ ML.choice (table_of table.now)
        (board_by channels.now keys.now statuses.now n o)
        (job_in (table_of table.now) j) k }
{
    let at = j.subject as usize;
    let channel = channels[at];
    if chords::first_of(table, j.chord, channel) == k {
        return j.subject + 1;
    }
    let want = want_of(table, j.chord, k, 0, keys, units, j.subject);
    let chosen = j.chosen;
    columns::oldest(
        channels,
        keys,
        units,
        statuses,
        start,
        n,
        want,
        &chosen[..k as usize],
    )
}

// A look that takes none: the next chord, and the job is to be tried again if a claimed message would fit.
fn missed(
    table: &[u8],
    d: Sender,
    k: u8,
    start: u16,
    n: u16,
    channels: &[u8],
    keys: &[u32],
    units: &[u16],
    statuses: &[u8],
) -> Effect
    requires table_value { (table_refusal table.now ≡ 0) × (d.job.chord < length (table_of table.now).chords) }
    requires k_bound { (k < MT.size (table_of table.now) d.job.chord) × (d.job.subject < n) }
    requires lent { Lent n channels.now keys.now units.now statuses.now }
    requires passed { Passed start n statuses.now }
    ensures { (o : Others) → o.units ≡ units.now → effect_in (table_of table.now) result
        ≡ MS.looked_by (table_of table.now)
        (board_by channels.now keys.now statuses.now n o)
        (sender_in (table_of table.now) d) (job_in (table_of table.now) d.job) k 0 }
{
    let j = d.job;
    let at = j.subject as usize;
    let channel = channels[at];
    let want = want_of(table, j.chord, k, 1, keys, units, j.subject);
    let claimed = columns::some_claimed(channels, keys, units, statuses, start, n, want);
    let next = state::next_chord(table, j, channel, j.retry | claimed);
    state::works(d, next, Said::Missed, Change::None)
}

// The number m in place k, and x in any other place i.
fn pick_at(i: u16, k: u16, m: u16, x: u16) -> u16
    ensures { result ≡ pick (eqb i k) m x }
{
    if i == k {
        return m;
    }
    x
}

// The eight numbers with m in place k, written anew.
fn with_at(c: [u16; 8], k: u8, m: u16) -> [u16; 8]
    requires { k < 8 }
    ensures { result ≡ set c k m }
{
    let mut r = [0u16; 8];
    let mut i: u16 = 0;
    while i < 8 {
        r[i as usize] = pick_at(i, k as u16, m, c[i as usize]);
        i += 1;
    }
    r
}

// The job with message m chosen for the k-th member, in another phase.
fn chose(j: Job, k: u8, m: u16, phase: Phase) -> Job
    requires { (k < 8) × (j.phase ≡ P.Look k) }
    ensures { (t : MT.Table) → chosen_by phase (MT.size t j.chord) ≡ suc k → job_in t result
        ≡ MJ.with_chosen (job_in t j) ((job_in t j).chosen ++ (m ∷ [])) (phase_in phase) }
{
    let old = j.chosen;
    let chosen = with_at(old, k, m);
    Job {
        subject: j.subject,
        chord: j.chord,
        phase: phase,
        chosen: chosen,
        retry: j.retry,
        retries: j.retries,
    }
}

// A look that takes message m for the k-th of size members: after the last, the claims.
fn found(d: Sender, size: u8, k: u8, m: u16) -> Effect
    requires { (k < size) × (size ≤ 8) × (d.job.phase ≡ P.Look k) }
    ensures { (t : MT.Table) (b : MB.Board) → MT.size t d.job.chord ≡ size → effect_in t result
        ≡ MS.looked_by t b (sender_in t d) (job_in t d.job) k (suc m) }
{
    let j = d.job;
    if k + 1 == size {
        let last = chose(j, k, m, Phase::Claim(0));
        return state::works(d, last, Said::Looked(m), Change::None);
    }
    let next = chose(j, k, m, Phase::Look(k + 1));
    state::works(d, next, Said::Looked(m), Change::None)
}

// Looks for a message for the k-th member of the job's chord; the messages below `start` are consumed.
pub fn look_step(
    table: &[u8],
    d: Sender,
    k: u8,
    start: u16,
    n: u16,
    channels: &[u8],
    keys: &[u32],
    units: &[u16],
    statuses: &[u8],
) -> Effect
    requires table_value { (table_refusal table.now ≡ 0) × (d.job.chord < length (table_of table.now).chords) }
    requires phase_value { (d.job.phase ≡ P.Look k) × (k < MT.size (table_of table.now) d.job.chord) }
    requires subject_lt_n { (d.job.subject < n) × Lent n channels.now keys.now units.now statuses.now }
    requires passed { Passed start n statuses.now }
    ensures { (o : Others) → o.units ≡ units.now → effect_in (table_of table.now) result
        ≡ MS.look_step (table_of table.now)
        (board_by channels.now keys.now statuses.now n o)
        (sender_in (table_of table.now) d) (job_in (table_of table.now) d.job) k }
{
    let j = d.job;
    let taken = choice(table, j, k, start, n, channels, keys, units, statuses);
    if taken == 0 {
        return missed(table, d, k, start, n, channels, keys, units, statuses);
    }
    let size = table::chord_len(table, j.chord);
    found(d, size, k, taken - 1)
}
