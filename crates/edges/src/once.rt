// A chord's members, and a claim on records.
use crate::tables::P;
use records::Message;
use scripts::say;
use std::io::Stdout;

// Whether a chord is refused, and the bytes that name its channels.
fn members(stdout: Stdout, label: &str, table: &[u8], chord: u32) {
    say::text(stdout, label);
    say::text(stdout, ":");
    say::next(stdout, table::chord_refusal(table, chord));
    for channel in table::chord_channels(table, chord) {
        say::next(stdout, *channel);
    }
    say::text(stdout, "\n");
}

fn record(status: u8) -> Message {
    Message {
        channel: 1,
        property: 7,
        cents: 1,
        day: 0,
        unit: 0,
        status,
        matched: 0,
        waker: 0,
    }
}

// Whether record n of two is claimed: one that is pending, and one that is claimed.
fn claim(stdout: Stdout, label: &str, n: usize) {
    let mut messages = [record(0), record(1)];
    let claimed = if records::claim(&mut messages, n) {
        ": claimed\n"
    } else {
        ": not claimed\n"
    };
    say::text(stdout, label);
    say::text(stdout, claimed);
}

fn rules(stdout: Stdout) {
    members(stdout, "rule 0", &P, 0);
    members(stdout, "rule 1", &P, 1);
    members(stdout, "rule 256", &P, 256);
    members(stdout, "rule 4,294,967,295", &P, 4294967295);
    members(stdout, "rule 0 of no table", b"", 0);
}

pub fn lines(stdout: Stdout) {
    rules(stdout);
    claim(stdout, "claim of a pending record", 0);
    claim(stdout, "claim of a claimed record", 1);
    claim(stdout, "claim past the records", 2);
}
