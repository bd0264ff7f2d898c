// The step of a blocked sender that is signalled, by what was read of its own message.
#![tactic(auto)]

ghost use Rattle.std.specs.Prelude.{◌≡◌, ◌-◌};
ghost use Rattle.model.specs.Boards.{Board, message_at, channel_of};
ghost use Rattle.model.specs.Layout.{table_refusal, table_of};
ghost use Rattle.model.specs.Steps as MS;
ghost use Rattle.columns.specs.Columns.{status_of};
ghost use Rattle.state.specs.Views.{sender_in, effect_in};

use state::{Change, Effect, Said, Sender, State, Turn};

// The sender at work on its own message, woken by the waker that the message notes.
fn resumed(table: &[u8], d: Sender, n: u16, waker: u16, channel: u8) -> Sender
    requires { table_refusal table.now ≡ 0 }
    ensures { (b : Board) → (message_at b n).waker ≡ waker → channel_of b n ≡ channel
        → sender_in (table_of table.now) result
        ≡ MS.resumed (table_of table.now) b (sender_in (table_of table.now) d) n }
{
    Sender {
        state: State::Working,
        signalled: false,
        waker,
        job: state::new_pass(table, n, channel, 0),
        ..d
    }
}

// Answers with the match of a consumed message, resumes a woken one, and stays blocked on another.
#[tactic(auto, unfolding(model::specs::Steps::resume_step))]
pub fn resume_step(
    table: &[u8],
    d: Sender,
    status: u8,
    matched: u16,
    waker: u16,
    channel: u8,
) -> Effect
    requires { table_refusal table.now ≡ 0 }
    ensures { (b : Board) → (message_at b (d.own - 1)).status ≡ status_of status
        → (message_at b (d.own - 1)).match ≡ matched → (message_at b (d.own - 1)).waker ≡ waker
        → channel_of b (d.own - 1) ≡ channel
        → effect_in (table_of table.now) result
        ≡ MS.resume_step (table_of table.now) b (sender_in (table_of table.now) d) }
{
    match status {
        0 | 1 => Effect {
            said: Said::Ended,
            change: Change::None,
            sender: state::stays_blocked(d, false),
        },
        2 => {
            let n = state::less(d.own);
            Effect {
                said: Said::Resumed,
                change: Change::Turn(n, Turn::Resumes),
                sender: resumed(table, d, n, waker, channel),
            }
        }
        _ => Effect {
            said: Said::Answered(state::less(matched)),
            change: Change::None,
            sender: state::goes_idle(d, matched),
        },
    }
}
