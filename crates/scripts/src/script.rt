// The parts of a script's lines. A line is a label, `|`, and parts with `;` between them. A part is a letter, and then
// numbers, each after a space or a comma:
//     n AT x..         the board's numbers from AT on
//     d I K x..        sender I's numbers from its number K on
//     b AT x..         bytes from AT on
//     l AT x..         links from AT on
//     c N x, C N x     the cents of message N: x, or -1 - x
//     K AT x           the key at AT
//     T x              every sender's tally
//     L K n            list K is lent at n numbers
//     a I C P x D U    an add by sender I, to channel C, of property P, x cents, day D and unit U; a day or a unit not
//                      given is 0
//     A I C P x D U    the same, of -1 - x cents
//     s I              a step of sender I
//     z D              a close of the days up to D
//     x I              a step of sender I, an add of the last sender, a close of day 31, and the reads, as numbers
//     y I              a step and an add of sender I, and on the lists before both a close of day I and the reads
//     o                an opening, as a number
//     O x..            an opening given these bytes, none where there are no numbers, as a number
//     R I              the steps of sender I while it rests: how many
//     m N C P x D U, M a read of message N, which is to have these
//     k K, r I, q      reads of match K, of sender I's reply, and whether the board is quiet
//     w C N A R        a replay of C numbers of calls, four a row, N properties and days, two a row, and A amounts,
//                      with room for R answers
//     p K I C x D,..   a replay of rows of these five numbers: kind, sender, channel, cents and day; all have property
//                      7 and unit 0
ghost use Rattle.std.specs.Prelude.{◌<◌, ◌≤◌};

use boards::Sent;

// How many numbers a part has at most.
const MOST: usize = 100;

// A fixed buffer and how many of its numbers are the part's; the others are 0.
#[derive(Clone, Copy)]
pub struct Part {
    pub kind: char,
    len: usize,
    numbers: [u64; MOST],
}

impl Part {
    // The part of a text; none of an empty one.
    pub fn read(text: &str) -> Option<Part> {
        let kind = text.chars().next()?;
        let mut numbers = [0; MOST];
        for (to, digits) in numbers.iter_mut().zip(text.split([' ', ',']).skip(1)) {
            *to = digits.parse().unwrap_or(0);
        }
        let len = text.split([' ', ',']).skip(1).count();
        Some(Part { kind, len, numbers })
    }

    // A part with one number; its message is of property 7, of one cent, and of day and unit 0.
    pub fn ask(kind: char, i: u16) -> Part {
        let mut numbers = [0; MOST];
        numbers[0] = u64::from(i);
        numbers[2] = 7;
        numbers[3] = 1;
        Part {
            kind,
            len: 4,
            numbers,
        }
    }

    pub fn len(&self) -> usize
        ensures { result ≤ 100 }
    {
        self.len.min(MOST)
    }

    // A number; 0 past the last.
    fn number(&self, k: usize) -> u64 {
        self.numbers.get(k).copied().unwrap_or(0)
    }

    pub fn small(&self, k: usize) -> u16 {
        (self.number(k) & 0xffff) as u16
    }

    pub fn long(&self, k: usize) -> u32 {
        (self.number(k) & 0xffff_ffff) as u32
    }

    // The numbers as bytes.
    pub fn bytes(&self) -> [u8; MOST] {
        self.numbers.map(|n| (n & 0xff) as u8)
    }

    // An amount; of a part with a capital letter it is as far below -1 as the number says.
    pub fn amount(&self, k: usize) -> i64 {
        let x = (self.number(k) % 10000000000000) as i64;
        if self.kind.is_ascii_uppercase() {
            !x
        } else {
            x
        }
    }

    // What the part says of a message: channel, property, cents, day and unit, from a number of it on.
    pub fn sent(&self, k: usize) -> Sent
        requires { k < 16 }
    {
        Sent {
            channel: self.small(k),
            property: self.long(k + 1),
            cents: self.amount(k + 2),
            day: self.long(k + 3),
            unit: self.small(k + 4),
        }
    }

    // A step, an add, a close, or an opening.
    pub fn is_call(&self) -> bool {
        self.is_close() || matches!(self.kind, 's' | 'a' | 'A' | 't' | 'u' | 'o' | 'O')
    }

    pub fn is_close(&self) -> bool {
        matches!(self.kind, 'z' | 'Z')
    }

    pub fn is_replay(&self) -> bool {
        matches!(self.kind, 'w' | 'p')
    }
}
