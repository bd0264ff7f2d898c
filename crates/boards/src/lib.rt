// The board as the lists that a host lends: where its columns stand in them; and the calls.
#![tactic(auto, unfolding(crate::specs::Parts::part))]

ghost use Rattle.std.specs.Prelude.{◌≡◌, length};
ghost use Rattle.boards.specs.Layout.{board_len, bytes_len, links_len, tallies_in, backoffs_in, channels_in};
ghost use Rattle.boards.specs.Layout.{statuses_in, chords_in, matched_in, wakers_in, members_in, units_in};

// Lengths, and the places of columns that are not the first of their list.
pub const BOARD_LEN: usize = 723;

pub const BYTES_LEN: usize = 3072;

pub const LINKS_LEN: usize = 11264;

pub const KEYS_LEN: usize = 2049;

pub const CENTS_LEN: usize = 1024;

pub const STATUSES: usize = 1024;

pub const CHORDS: usize = 2048;

pub const WAKERS: usize = 1024;

pub const MEMBERS: usize = 2048;

pub const UNITS: usize = 10240;

pub const CLOSED: usize = 674;

pub const TALLIES: usize = 675;

pub const BACKOFFS: usize = 707;

pub const CLOSE_DAY: usize = 2048;

// A message as it is added.
#[derive(Clone, Copy)]
pub struct Sent {
    pub channel: u16,
    pub property: u32,
    pub cents: i64,
    pub day: u32,
    pub unit: u16,
}

// A sender's call: an add, or a step. A close is no sender's.
#[derive(Clone, Copy)]
pub enum Call {
    Add(u16, Sent),
    Step(u16),
}

// How many messages each sender has added.
pub fn tallies(board: &[u16]) -> &[u16]
    requires { length board.now ≡ board_len }
    ensures { (result.now ≡ tallies_in board.now) × (length result.now ≡ 32) }
{
    &board[TALLIES..BACKOFFS]
}

// The backoff table that the board was opened with.
pub fn backoffs(board: &[u16]) -> &[u16]
    requires { length board.now ≡ board_len }
    ensures { (result.now ≡ backoffs_in board.now) × (length result.now ≡ 16) }
{
    &board[BACKOFFS..BOARD_LEN]
}

// The messages' channels.
pub fn channels(bytes: &[u8]) -> &[u8]
    requires { length bytes.now ≡ bytes_len }
    ensures { (result.now ≡ channels_in bytes.now) × (length result.now ≡ 1024) }
{
    &bytes[0..STATUSES]
}

// The messages' statuses.
pub fn statuses(bytes: &[u8]) -> &[u8]
    requires { length bytes.now ≡ bytes_len }
    ensures { (result.now ≡ statuses_in bytes.now) × (length result.now ≡ 1024) }
{
    &bytes[STATUSES..CHORDS]
}

// The matches' chords.
pub fn chords(bytes: &[u8]) -> &[u8]
    requires { length bytes.now ≡ bytes_len }
    ensures { (result.now ≡ chords_in bytes.now) × (length result.now ≡ 1024) }
{
    &bytes[CHORDS..BYTES_LEN]
}

// The matches that messages note, plus 1.
pub fn matched(links: &[u16]) -> &[u16]
    requires { length links.now ≡ links_len }
    ensures { (result.now ≡ matched_in links.now) × (length result.now ≡ 1024) }
{
    &links[0..WAKERS]
}

// The wakers that messages note, plus 1.
pub fn wakers(links: &[u16]) -> &[u16]
    requires { length links.now ≡ links_len }
    ensures { (result.now ≡ wakers_in links.now) × (length result.now ≡ 1024) }
{
    &links[WAKERS..MEMBERS]
}

// The matches' messages, eight each.
pub fn members(links: &[u16]) -> &[u16]
    requires { length links.now ≡ links_len }
    ensures { (result.now ≡ members_in links.now) × (length result.now ≡ 8192) }
{
    &links[MEMBERS..UNITS]
}

// The messages' units.
pub fn units(links: &[u16]) -> &[u16]
    requires { length links.now ≡ links_len }
    ensures { (result.now ≡ units_in links.now) × (length result.now ≡ 1024) }
{
    &links[UNITS..LINKS_LEN]
}
