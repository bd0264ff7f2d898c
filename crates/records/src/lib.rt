// A claim on a lent list of message records.
#![tactic(auto)]

ghost use Rattle.std.specs.Prelude.{◌≡◌};
ghost use Rattle.records.specs.Claims.{claimable, claimed_at};

#[derive(Clone, Copy)]
pub struct Message {
    pub channel: u8,
    pub property: u32,
    pub cents: i64,
    pub day: u32,
    pub unit: u16,
    pub status: u8,
    pub matched: u16,
    pub waker: u16,
}

// The claim of message n: a pending one becomes claimed, and no other record changes. False for one past the end or
// not pending, and then all is left as found.
pub fn claim(messages: &mut [Message], n: usize) -> bool
    ensures { (result ≡ claimable messages.old n)
        × (messages.new ≡ claimed_at messages.old n) }
{
    let pending = n < messages.len() && messages[n].status == 0;
    if pending {
        messages[n].status = 1;
    }
    pending
}
