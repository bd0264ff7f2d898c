// The parts of the soundness test that are about lent columns: messages and matches, on any bytes.
#![tactic(auto)]

ghost use Rattle.std.specs.Prelude.{◌≡◌, true, ◌&&◌, ◌||◌, not, List, ℕ, ◌*◌, ◌<◌, ◌≤◌, eqb, leb, ltb, length, fold};
ghost use Rattle.std.specs.List.{zip};
ghost use Rattle.std.specs.Ordering.{partial_lt};
ghost use Rattle.model.specs.Basics.{every};
ghost use Rattle.model.specs.Adds.{cents_ok};
ghost use Rattle.model.specs.Tables.{size};
ghost use Rattle.model.specs.Boards.{Board};
ghost use Rattle.model.specs.Layout.{table_refusal, table_of};
ghost use Rattle.model.specs.Sound.{match_ok};
ghost use Rattle.columns.specs.MatchColumns.{matches_from};
ghost use Rattle.soundness.specs.Tests.{each_below, below, numbers_ok, messages_ok};

// Whether all are below m. A fold here and below, since an early exit would not vectorize.
fn below<T: Copy + PartialOrd>(s: &[T], m: T) -> bool
    ensures { result ≡ fold (λ ok x. ok && partial_lt T.partial_cmp x m) true s.now }
{
    s.iter().fold(true, |ok, x| ok & (*x < m))
}

// Whether a link is at most `most`, and there where the status asks for one.
fn link_ok(link: u16, status: u8, most: u16, asks: u8) -> bool
    ensures { result ≡ (leb link most && (not (eqb status asks) || leb 1 link)) }
{
    (link <= most) & ((status != asks) | (1 <= link))
}

// The same of each link and its status. Not inlined: inlined, a call on a full board took a tenth more or not by where
// the linker placed it.
#[inline(never)]
fn links_ok(links: &[u16], statuses: &[u8], most: u16, asks: u8) -> bool
    ensures { result ≡ fold (λ ok p. ok && (leb p.0 most && (not (eqb p.1 asks) || leb 1 p.0))) true
        (zip links.now statuses.now) }
{
    links
        .iter()
        .zip(statuses)
        .fold(true, |ok, (v, s)| ok & link_ok(*v, *s, most, asks))
}

// Whether an amount is in range.
fn in_range(x: i64) -> bool
    ensures { result ≡ cents_ok x }
{
    (-999_999_999_999..=999_999_999_999).contains(&x)
}

// Whether amounts are in range, however many.
fn all_in_range(cents: &[i64]) -> bool
    ensures { result ≡ fold (λ ok x. ok && cents_ok x) true cents.now }
{
    cents.iter().fold(true, |ok, x| ok & in_range(*x))
}

// The same, eight at a time: the first eight that are not end it, so that a refusal is soon told, and within eight a
// fold vectorizes. Not inlined, as the links.
#[inline(never)]
fn cents_ok(cents: &[i64]) -> bool
    ensures { result ≡ every cents_ok cents.now }
{
    let (eights, rest) = cents.as_chunks::<8>();
    eights.iter().all(|eight| all_in_range(eight)) & all_in_range(rest)
}

// Whether the first n messages are sound on a board of n messages and so many matches.
pub fn messages_ok(
    table: &[u8],
    channels: &[u8],
    cents: &[i64],
    statuses: &[u8],
    matched: &[u16],
    wakers: &[u16],
    n: u16,
    matches: u16,
) -> bool
    requires table_value { table_refusal table.now ≡ 0 }
    requires n_in_bounds { (n ≤ length channels.now) × (n ≤ length cents.now) × (n ≤ length statuses.now) }
    requires n_in_bounds_2 { (n ≤ length matched.now) × (n ≤ length wakers.now) }
    ensures { (keys units : List ℕ) (b : Board) → length b.messages ≡ n → length b.matches ≡ matches →
        result ≡ messages_ok (table_of table.now) b (record {
          channels = channels.entry.now;
          keys = keys;
          cents = cents.now;
          statuses = statuses.now;
          matched = matched.now;
          wakers = wakers.now;
          units = units;
        }) n }
{
    let k = usize::from(n);
    let t = table::channels_len(table);
    let statuses = &statuses[..k];
    below(&channels[..k], t)
        & cents_ok(&cents[..k])
        // a byte over 3 is no status
        & below(statuses, 4)
        & links_ok(&matched[..k], statuses, matches, 3)
        & links_ok(&wakers[..k], statuses, n, 2)
}

// Whether a match's numbers, as many as its chord has channels, are below `count`.
fn match_ok(table: &[u8], chord: u8, numbers: &[u16], count: u16) -> bool
    requires table_value { (table_refusal table.now ≡ 0) × (chord < length (table_of table.now).chords) }
    requires long { 8 ≤ length numbers.now }
    ensures { result ≡ each_below (size (table_of table.now) chord) (below count numbers.now) }
{
    let n = usize::from(table::chord_len(table, chord));
    below(&numbers[..n], count)
}

// The same of each match, eight numbers a match.
#[tactic(auto, using(crate::proofs::Matches::turns))]
fn each_ok(table: &[u8], chords: &[u8], messages: &[u16], count: u16) -> bool
    requires table_value { table_refusal table.now ≡ 0 }
    requires chords_value { every (λ x. ltb x (length (table_of table.now).chords)) chords.now ≡ true }
    requires in_bounds { 8 * length chords.now ≤ length messages.now }
    ensures { result ≡ each_below (length chords.now)
        (numbers_ok (table_of table.now) chords.now messages.now count) }
{
    for (i, chord) in chords.iter().enumerate() {
        if !match_ok(table, *chord, &messages[8 * i..], count) {
            return false;
        }
    }
    true
}

// Whether the first k matches are sound on a board of `count` messages. Numbers that are all below `count`, those past
// the chords' channels too, make a fast yes.
pub fn matches_ok(table: &[u8], chords: &[u8], messages: &[u16], k: u16, count: u16) -> bool
    requires table_value { table_refusal table.now ≡ 0 }
    requires k_in_bounds { (k ≤ length chords.now) × (8 * k ≤ length messages.now) }
    ensures { (b : Board) → length b.messages ≡ count → result ≡ every (match_ok (table_of table.now) b)
        (matches_from (table_of table.now)
        (record { chords = chords.entry.now; messages = messages.now }) 0 k) }
{
    let n = usize::from(k);
    let chords = &chords[..n];
    below(chords, table::chords_len(table))
        && (below(&messages[..8 * n], count) || each_ok(table, chords, messages, count))
}
