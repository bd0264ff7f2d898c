// A close: whether a day is closed, what refuses it, and the two numbers that it writes.
#![tactic(auto)]

ghost use Rattle.std.specs.Prelude.{◌≡◌, true, suc, eqb, leb, length, set};
ghost use Rattle.model.specs.Basics.{unless};
ghost use Rattle.boards.specs.Boards.{closed_by};
ghost use Rattle.boards.specs.Layout.{keys_len, close_day_at};
ghost use Rattle.rows.specs.Numbers.{encodes};
ghost use Rattle.rows.specs.Decoded.{board_from};
ghost use Rattle.closes.specs.Closed.{closed_board};

// Whether a day is after the last one that is closed, which counts where the flag `closed` is 1.
pub fn day_open(closed: u16, last: u32, day: u32) -> bool
    ensures { result ≡ leb (closed_by (eqb closed 1) last) day }
{
    closed != 1 || last < day
}

// The refusal of a close of the days up to one; 0 for none.
pub fn close_refusal(closed: u16, last: u32, day: u32) -> u8
    ensures { result ≡ unless (leb (closed_by (eqb closed 1) last) (suc day)) 20 0 }
{
    if closed == 1 && day < last { 20 } else { 0 }
}

// Closes the days up to one.
#[tactic(auto, using(crate::proofs::FlagLaws::flag_set), unfolding(rows::specs::Numbers::encodes))]
pub fn put_close(board: &mut [u16], keys: &mut [u32], day: u32)
    requires { (encodes board.old ≡ true) × (length keys.old ≡ keys_len) }
    ensures { (encodes board.new ≡ true)
        × (board_from board.new ≡ closed_board (board_from board.old))
        × (keys.new ≡ set keys.old close_day_at day) }
{
    board[boards::CLOSED] = 1;
    keys[boards::CLOSE_DAY] = day;
}
