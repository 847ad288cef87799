// Replays the oracle's answers that are stored in data/: tokens and places, and the whole sheet. A case that does not open, is not
// whole or differs is bad, and its number is printed.
//
// The list was made in host/ by `cargo run --release --bin vectors write ../crates/vectors/data`; its generated files come
// from seed 1. `vectors check` compares it with the list made anew, and `vectors list` says what each case is about.
#![tactic(auto)]

ghost use Rattle.std.specs.Prelude.{◌<◌, ◌≤◌, ◌^◌};

use compare::Tally;
use std::io;
use std::rt::Files;

mod compare;
mod replayed;
mod stored;

// How many cases are stored.
const CASES: u16 = 455;

// Replays the case of this number. Each of its files is shorter than a buffer, so it is read to its end.
fn replay<R: Files>(rt: &R, number: u16) -> Tally
    requires { number < 1000 }
    ensures { (result.texts ≤ 1) × (result.places < 2 ^ 32) × (result.bad ≤ 1) }
{
    let mut source = [0u8; stored::LONGEST];
    let Ok(n) = stored::load(rt, b'i', number, &mut source) else {
        return compare::bad();
    };
    let mut bytes = [0u8; stored::LONGEST];
    let Ok(m) = stored::load(rt, b't', number, &mut bytes) else {
        return compare::bad();
    };
    let one = compare::compare(&source[..n], &bytes[..m]);
    compare::judge(one, replayed::replay(rt, &source[..n], number))
}

// Says the number of a case that is bad.
fn say<R: Print>(rt: &R, number: u16, one: Tally) -> io::Result<()> {
    if one.bad != 0 {
        println!(rt; "bad {number}")?;
    }
    Ok(())
}

// Replays the cases below this number.
fn replay_all<R: Files + Print>(rt: &R, cases: u16) -> io::Result<Tally>
    requires { cases ≤ 1000 }
{
    let mut all = Tally {
        texts: 0,
        places: 0,
        bad: 0,
    };
    for number in 0..cases {
        let one = replay(rt, number);
        say(rt, number, one)?;
        all = compare::add(all, one);
    }
    Ok(all)
}

fn main(rt: HostRuntime) -> io::Result<()> {
    let all = replay_all(&rt, CASES)?;
    let (texts, places, bad) = (all.texts, all.places, all.bad);
    println!(rt; "vectors {CASES}: {texts} texts, {places} places, {CASES} sheets, {bad} bad")
}
