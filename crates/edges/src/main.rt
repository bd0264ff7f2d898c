// The board's public calls at their edges. What is printed is held to `oracle.py`, which has the reasons.
#![tactic(auto)]

mod acts;
mod closed;
mod closing;
mod days;
mod full;
mod given;
mod jobs;
mod lengths;
mod lost;
mod numbers;
mod once;
mod order;
mod replays;
mod rests;
mod sound;
mod spent;
mod tables;
mod tallies;
mod units;
mod unsound;

fn main(rt: HostRuntime) {
    let stdout = rt.stdout();
    full::lines(stdout);
    lost::lines(stdout);
    lengths::lines(stdout);
    order::lines(stdout);
    once::lines(stdout);
    unsound::lines(stdout);
    jobs::lines(stdout);
    numbers::lines(stdout);
    replays::lines(stdout);
    days::lines(stdout);
    units::lines(stdout);
    closing::lines(stdout);
    closed::lines(stdout);
    spent::lines(stdout);
    tallies::lines(stdout);
    given::lines(stdout);
    rests::lines(stdout);
}
