// An add: its refusals, and its sender.
#![tactic(auto)]

ghost use Rattle.std.specs.Prelude.{◌≡◌, List, ◌<◌, get_or};
ghost use Rattle.model.specs.Boards as MB;
ghost use Rattle.model.specs.Layout.{table_refusal, table_of};
ghost use Rattle.model.specs.Adds.{cents_ok, new_sender};
ghost use Rattle.state.specs.Views.{sender_in};
ghost use Rattle.adds.specs.Refusals.{refusal_by};

use boards::Sent;
use state::{Sender, State};

// Whether an amount is in range.
fn amount_ok(x: i64) -> bool
    ensures { result ≡ cents_ok x }
{
    (-999_999_999_999..=999_999_999_999).contains(&x)
}

// The first refusal of an add of x by sender i, idle or not, timely or of a closed day, with room or not, in the order
// checked, or 0.
pub fn add_refusal(table: &[u8], i: u16, idle: bool, timely: bool, x: Sent, room: bool) -> u8
    requires { table_refusal table.now ≡ 0 }
    ensures { result ≡ refusal_by (table_of table.now) i idle timely x.channel x.cents room }
{
    if i >= 32 {
        return 8;
    }
    if !idle {
        return 9;
    }
    if x.channel >= u16::from(table::channels_len(table)) {
        return 10;
    }
    if !timely {
        return 19;
    }
    if !amount_ok(x.cents) {
        return 11;
    }
    if !room {
        return 26;
    }
    0
}

// The sender of a new message, number n, with a job on it.
pub fn new_sender(table: &[u8], n: u16, channel: u8) -> Sender
    requires { (table_refusal table.now ≡ 0) × (n < 1024) }
    ensures { (is : List MB.Message) → (get_or is n MB.no_message).sent.channel ≡ channel
        → sender_in (table_of table.now) result ≡ new_sender (table_of table.now) is n }
{
    Sender {
        state: State::Working,
        signalled: false,
        own: n + 1,
        waker: 0,
        reply: 0,
        matched: 0,
        job: state::new_pass(table, n, channel, 0),
    }
}
