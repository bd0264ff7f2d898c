// The map of a merge as text, and a merge that is turned away in words. The text has a word for each tray of the second
// table: the number of the first's tray that it becomes, or `new`. A comment goes from `#` to its line's end.
#![tactic(auto)]

ghost use Rattle.std.specs.Prelude.{◌≡◌, ◌<◌, length, IfSome};
ghost use Rattle.model.specs.Layout.{table_refusal, table_of};
ghost use Rattle.texts.specs.Counts.{IsPrefixLen};

use texts::{complain, complain_number, complain_refused, past, table_refused, word_at};

// From text to bytes.

// The text becomes one line without comments.
pub fn bare_all(text: &mut [u8]) {
    let mut comment = false;
    for b in text {
        comment = (comment || *b == b'#') && *b != b'\n';
        if comment || matches!(*b, b'\n' | b'\r') {
            *b = b' ';
        }
    }
}

// The map's byte for a word: 255 for `new`, at most 254 for a number; none for another word.
fn byte_of(word: &[u8]) -> Option<u8> {
    if matches!(word, b"new") {
        return Some(255);
    }
    let mut n: u8 = 0;
    for b in word {
        if !b.is_ascii_digit() {
            return None;
        }
        n = n.saturating_mul(10).saturating_add(*b - b'0').min(254);
    }
    Some(n)
}

// What follows `the map` in a line about one of its words, which count from 1.
fn complain_word(err: &impl Print, number: usize) {
    complain_number(err, b": word ", number as u64, b": ");
}

fn wrong_word(err: &impl Print, number: usize, word: &[u8]) {
    complain(err, b"the map");
    complain_word(err, number);
    complain(err, b"expected a number or new, not ");
    complain(err, word);
    complain(err, b"\n");
}

// The map's bytes at the start of a buffer, one for each word, as many as it holds; how many they are.
// A wrong word gives none, and is said.
pub fn read_map(err: &impl Print, text: &[u8], map: &mut [u8]) -> Option<usize>
    ensures { IfSome result (λ n. IsPrefixLen n map.new) }
{
    let mut at = 0;
    for (n, place) in map.iter_mut().enumerate() {
        let word = word_at(text, at);
        if word.is_empty() {
            return Some(n);
        }
        let Some(m) = byte_of(word) else {
            wrong_word(err, n + 1, word);
            return None;
        };
        *place = m;
        at = past(text, at);
    }
    Some(map.len())
}

// A merge that is turned away, in words.

fn complain_some(err: &impl Print, ahead: &[u8], n: usize, one: &[u8]) {
    complain_number(err, ahead, n as u64, one);
    if n != 1 {
        complain(err, b"s");
    }
}

fn kind_name(sync: bool) -> &'static [u8] {
    if sync { b"waiting" } else { b"leave" }
}

// The place where a word of the text starts, or the blanks before it.
fn place_of(text: &[u8], i: u8) -> usize {
    (0..i).fold(0, |at, _| past(text, at))
}

fn complain_taken(err: &impl Print, number: usize, m: u8, other: usize) {
    complain_word(err, number);
    complain_number(
        err,
        b"tray ",
        u64::from(m),
        b" of the first is taken already",
    );
    complain_number(err, b" by word ", other as u64, b"");
}

fn complain_kinds(err: &impl Print, number: usize, m: u8, own: bool, i: u8, other: bool) {
    complain_word(err, number);
    complain_number(err, b"tray ", u64::from(m), b" of the first is ");
    complain(err, kind_name(own));
    complain_number(err, b", tray ", u64::from(i), b" of the second ");
    complain(err, kind_name(other));
}

// What is wrong with a word of the map, and whether anything is.
fn complain_at(
    err: &impl Print,
    first: &[u8],
    second: &[u8],
    map: &[u8],
    text: &[u8],
    i: u8,
) -> bool
    requires first_value { (table_refusal first.now ≡ 0) × (table_refusal second.now ≡ 0) }
    requires map_len { length map.now ≡ length (table_of second.now).kinds }
    requires i_in_bounds { i < length (table_of second.now).kinds }
{
    let place = usize::from(i);
    let number = place + 1;
    let m = map[place];
    if m == 255 {
        return false;
    }
    if table::channels_len(first) <= m {
        complain_word(err, number);
        complain(err, b"the first table has no tray ");
        complain(err, word_at(text, place_of(text, i)));
        return true;
    }
    if let Some(j) = map[..place].iter().position(|x| *x == m) {
        complain_taken(err, number, m, j + 1);
        return true;
    }
    let own = chords::is_sync(first, m);
    let other = chords::is_sync(second, i);
    if own == other {
        return false;
    }
    complain_kinds(err, number, m, own, i, other);
    true
}

// What is wrong with the first word that is wrong.
fn complain_words(err: &impl Print, first: &[u8], second: &[u8], map: &[u8], text: &[u8])
    requires first_value { (table_refusal first.now ≡ 0) × (table_refusal second.now ≡ 0) }
    requires map_len { length map.now ≡ length (table_of second.now).kinds }
{
    for i in 0..table::channels_len(second) {
        if complain_at(err, first, second, map, text, i) {
            return;
        }
    }
}

// The ground of 17.
fn complain_map(err: &impl Print, first: &[u8], second: &[u8], map: &[u8], text: &[u8])
    requires { (table_refusal first.now ≡ 0) × (table_refusal second.now ≡ 0) }
{
    complain(err, b"the map");
    let words = map.len();
    let trays = usize::from(table::channels_len(second));
    if words == trays {
        complain_words(err, first, second, map, text);
        return;
    }
    complain_some(err, b" has ", words, b" word");
    complain_some(err, b", the second table ", trays, b" tray");
}

// The ground of 18: the rules, or else the trays.
fn complain_limits(err: &impl Print, first: &[u8], second: &[u8])
    requires { (table_refusal first.now ≡ 0) × (table_refusal second.now ≡ 0) }
{
    let rules = u16::from(table::chords_len(first)) + u16::from(table::chords_len(second));
    let limit = if 32 < rules { b"32 rules" } else { b"16 trays" };
    complain(err, b"the merged table would have more than ");
    complain(err, limit);
}

// The line for a merge that a number turns away.
pub fn explain(err: &impl Print, first: &[u8], second: &[u8], map: &[u8], text: &[u8], number: u8) {
    if table::table_refusal(first) != 0 {
        table_refused(err, number, b"the first table: ");
        return;
    }
    if table::table_refusal(second) != 0 {
        table_refused(err, number, b"the second table: ");
        return;
    }
    complain_refused(err, number);
    if number == 17 {
        complain_map(err, first, second, map, text);
    } else {
        complain_limits(err, first, second);
    }
    complain(err, b"\n");
}
