// Senders, their jobs, and what a step answers.
#![tactic(auto)]

ghost use Rattle.std.specs.Prelude.{◌≡◌, List, ◌-◌, ◌<◌, ◌≤◌, length, get_or};
ghost use Rattle.model.specs.Tables as MT;
ghost use Rattle.model.specs.Boards.{Board, Message, no_message, channel_of, is_consumed};
ghost use Rattle.model.specs.Jobs as MJ;
ghost use Rattle.model.specs.Layout.{table_refusal, table_of};
ghost use Rattle.model.specs.Effects.{word_of, value_of, number_of};
ghost use Rattle.model.specs.Steps as MS;
ghost use Rattle.state.specs.Views.{job_in, sender_in, said_in, idle_is, sender_steps};
ghost use Rattle.state.specs.Builders.{sender_in_job, works_by, job_in_phase, job_with_retry, sender_idle};
ghost use Rattle.state.specs.Builders.{sender_blocked, job_at};

// Where a job is. The first number is the place: the member that the next step is about, or the rests after the next
// one. Revert has the number of claims made beside it, Consume the match plus 1.
#[derive(Clone, Copy)]
pub enum Phase {
    Look(u8),
    Claim(u8),
    Revert(u8, u8),
    Consume(u8, u16),
    Tell(u8),
    Wake,
    Free(u8),
    Signal,
    PassEnd,
    Backoff(u8),
}

#[derive(Clone, Copy)]
pub enum State {
    Idle,
    Working,
    Blocked,
}

// A sender's work on its subject, which is read only while the sender is at work.
#[derive(Clone, Copy)]
pub struct Job {
    pub subject: u16,
    pub chord: u8,
    pub phase: Phase,
    pub chosen: [u16; 8],
    pub retry: bool,
    pub retries: u8,
}

// Own message, waker, reply and the match made of the own message are numbers plus 1, 0 for none.
#[derive(Clone, Copy)]
pub struct Sender {
    pub state: State,
    pub signalled: bool,
    pub own: u16,
    pub waker: u16,
    pub reply: u16,
    pub matched: u16,
    pub job: Job,
}

#[derive(Clone, Copy)]
pub enum Said {
    Item(u16),
    Looked(u16),
    Missed,
    Claimed(u16),
    Lost(u16),
    Reverted(u16),
    Matched(u16),
    Consumed(u16),
    Told(u16),
    Woke(u16),
    Freed(u16),
    Signalled(u16),
    Again,
    Ended,
    Rested,
    Answered(u16),
    Resumed,
    Refused(u8),
    Closed,
}

// How one message turns. Consumes has the match plus 1, WakesBy the waker.
#[derive(Clone, Copy)]
pub enum Turn {
    Claims,
    Frees,
    Consumes(u16),
    WakesBy(u16),
    Resumes,
}

// What a step does beside altering its sender: one message turns; a match of the sender's choice is recorded with its
// last claim; a message's sender is signalled.
#[derive(Clone, Copy)]
pub enum Change {
    None,
    Turn(u16, Turn),
    Record(u16),
    Signal(u16),
}

#[derive(Clone, Copy)]
pub struct Effect {
    pub said: Said,
    pub change: Change,
    pub sender: Sender,
}

// What the end of a job reads: whether the own message's channel is synchronous, the waker's channel, and whether the
// waker is consumed.
#[derive(Clone, Copy)]
pub struct Seen {
    pub sync: bool,
    pub channel: u8,
    pub consumed: bool,
}

// The word by its number.
pub fn word_of(said: Said) -> u8
    ensures { (result ≡ word_of (said_in said)) × (result < 19) }
{
    match said {
        Said::Item(_) => 0,
        Said::Looked(_) => 1,
        Said::Missed => 2,
        Said::Claimed(_) => 3,
        Said::Lost(_) => 4,
        Said::Reverted(_) => 5,
        Said::Matched(_) => 6,
        Said::Consumed(_) => 7,
        Said::Told(_) => 8,
        Said::Woke(_) => 9,
        Said::Freed(_) => 10,
        Said::Signalled(_) => 11,
        Said::Again => 12,
        Said::Ended => 13,
        Said::Rested => 14,
        Said::Answered(_) => 15,
        Said::Resumed => 16,
        Said::Refused(_) => 17,
        Said::Closed => 18,
    }
}

// The message or match number beside the word; 0 where there is none.
pub fn value_of(said: Said) -> u16
    ensures { result ≡ value_of (said_in said) }
{
    match said {
        Said::Item(n)
        | Said::Looked(n)
        | Said::Claimed(n)
        | Said::Lost(n)
        | Said::Reverted(n)
        | Said::Matched(n)
        | Said::Answered(n)
        | Said::Consumed(n)
        | Said::Told(n)
        | Said::Woke(n)
        | Said::Freed(n)
        | Said::Signalled(n) => n,
        _ => 0,
    }
}

// The refusal; 0 where the call was accepted.
pub fn number_of(said: Said) -> u8
    ensures { result ≡ number_of (said_in said) }
{
    match said {
        Said::Refused(n) => n,
        _ => 0,
    }
}

// Whether a sender is idle.
pub fn is_idle(s: State) -> bool
    ensures { result ≡ idle_is s }
{
    matches!(s, State::Idle)
}

// Whether a sender may step.
pub fn can_step(d: Sender) -> bool
    ensures { result ≡ sender_steps d }
{
    match d.state {
        State::Idle => false,
        State::Working => true,
        State::Blocked => d.signalled,
    }
}

// The sender at work on a job.
pub fn in_job(d: Sender, job: Job) -> Sender
    ensures { result ≡ sender_in_job d job }
{
    Sender {
        state: State::Working,
        job,
        ..d
    }
}

// A step that leaves the sender at work on a job.
pub fn works(d: Sender, job: Job, said: Said, change: Change) -> Effect
    ensures { result ≡ works_by d job said change }
{
    Effect {
        said,
        change,
        sender: in_job(d, job),
    }
}

// The job in another phase.
pub fn in_phase(j: Job, phase: Phase) -> Job
    ensures { result ≡ job_in_phase j phase }
{
    Job { phase, ..j }
}

// The job in another phase, to be tried again.
pub fn with_retry(j: Job, phase: Phase) -> Job
    ensures { result ≡ job_with_retry j phase }
{
    Job {
        phase,
        retry: true,
        ..j
    }
}

// The sender idle, with a reply.
pub fn goes_idle(d: Sender, reply: u16) -> Sender
    ensures { result ≡ sender_idle d reply }
{
    Sender {
        state: State::Idle,
        signalled: false,
        reply,
        ..d
    }
}

// The sender blocked, signalled or not.
pub fn stays_blocked(d: Sender, signalled: bool) -> Sender
    ensures { result ≡ sender_blocked d signalled }
{
    Sender {
        state: State::Blocked,
        signalled,
        ..d
    }
}

// A job of a subject at a chord, or past the chords, with nothing chosen.
fn job_at(subject: u16, chord: u8, phase: Phase, retry: bool, retries: u8) -> Job
    ensures { result ≡ job_at subject chord phase retry retries }
{
    Job {
        subject,
        chord,
        phase,
        chosen: [0; 8],
        retry,
        retries,
    }
}

// A pass over the chords that name the subject's channel, from a chord on.
#[tactic(auto, unfolding(model::specs::Jobs::pass_from, chords::specs::Naming::next_naming))]
fn pass_from(table: &[u8], subject: u16, channel: u8, from: u8, retry: bool, retries: u8) -> Job
    requires { table_refusal table.now ≡ 0 }
    ensures { job_in (table_of table.now) result
        ≡ MJ.pass_from (table_of table.now) subject channel from retry retries }
{
    let chord = chords::next_naming(table, channel, from);
    if chord < table::chords_len(table) {
        return job_at(subject, chord, Phase::Look(0), retry, retries);
    }
    job_at(subject, 0, Phase::PassEnd, retry, retries)
}

// The job's pass from its next chord on.
#[tactic(auto, using(crate::proofs::Sizes::chords_few))]
pub fn next_chord(table: &[u8], j: Job, channel: u8, retry: bool) -> Job
    requires { (table_refusal table.now ≡ 0) × (j.chord < length (table_of table.now).chords) }
    ensures { (b : Board) → channel_of b j.subject ≡ channel → job_in (table_of table.now) result
        ≡ MJ.next_chord (table_of table.now) b (job_in (table_of table.now) j) retry }
{
    pass_from(table, j.subject, channel, j.chord + 1, retry, j.retries)
}

// A new pass, over all chords that name the subject's channel.
pub fn new_pass(table: &[u8], subject: u16, channel: u8, retries: u8) -> Job
    requires { table_refusal table.now ≡ 0 }
    ensures { (is : List Message) → (get_or is subject no_message).sent.channel ≡ channel
        → job_in (table_of table.now) result ≡ MJ.new_pass (table_of table.now) is subject retries }
{
    pass_from(table, subject, channel, 0, false, retries)
}

// Rests to be spent and then a new pass, or that pass at once.
pub fn rests_then(table: &[u8], subject: u16, channel: u8, retries: u8, rests: u8) -> Job
    requires { table_refusal table.now ≡ 0 }
    ensures { (b : Board) → channel_of b subject ≡ channel
        → job_in (table_of table.now) result
        ≡ MS.rests_then (table_of table.now) b subject retries rests }
{
    if rests == 0 {
        return new_pass(table, subject, channel, retries);
    }
    job_at(subject, 0, Phase::Backoff(rests - 1), false, retries)
}

// The end of a job that goes on to no waker: idle with the own message's match as reply, or blocked without a match.
fn matched_end(d: Sender) -> Sender
    ensures { (t : MT.Table) → sender_in t result ≡ MJ.matched_end (sender_in t d) d.matched }
{
    if d.matched == 0 {
        return stays_blocked(d, d.signalled);
    }
    goes_idle(d, d.matched)
}

// The end of a job where the own message's channel is synchronous: on to the waker, unless that is consumed or was the
// subject.
fn sync_end(table: &[u8], d: Sender, subject: u16, v: Seen) -> Sender
    requires { table_refusal table.now ≡ 0 }
    ensures { (is : List Message) → (get_or is (d.waker - 1) no_message).sent.channel ≡ v.channel
        → is_consumed (get_or is (d.waker - 1) no_message).status ≡ v.consumed
        → sender_in (table_of table.now) result ≡ MJ.sync_end (table_of table.now) is
        (sender_in (table_of table.now) d) subject d.waker }
{
    match d.waker.checked_sub(1) {
        Some(waker) if !v.consumed && waker != subject => {
            in_job(d, new_pass(table, waker, v.channel, 0))
        }
        _ => matched_end(d),
    }
}

// The end of a job, by what was read.
#[tactic(auto, unfolding(model::specs::Jobs::job_end))]
pub fn job_end(table: &[u8], d: Sender, subject: u16, v: Seen) -> Sender
    requires { table_refusal table.now ≡ 0 }
    ensures { (is : List Message)
        → MT.is_sync (table_of table.now) (get_or is (d.own - 1) no_message).sent.channel ≡ v.sync
        → (get_or is (d.waker - 1) no_message).sent.channel ≡ v.channel
        → is_consumed (get_or is (d.waker - 1) no_message).status ≡ v.consumed
        → sender_in (table_of table.now) result ≡ MJ.job_end (table_of table.now) is
        (sender_in (table_of table.now) d) subject }
{
    if v.sync {
        return sync_end(table, d, subject, v);
    }
    goes_idle(d, 0)
}

// One less, and 0 for 0: the number of what is kept plus 1.
pub fn less(x: u16) -> u16
    ensures { result ≡ x - 1 }
{
    x.saturating_sub(1)
}

// A count of retries goes to 16.
const MOST: u8 = 16;

// The count of retries with one more.
#[tactic(auto, unfolding(model::specs::Steps::more))]
pub fn more(k: u8) -> u8
    ensures { (result ≡ MS.more k) × (1 ≤ result) × (result ≤ 16) }
{
    k.saturating_add(1).min(MOST)
}
