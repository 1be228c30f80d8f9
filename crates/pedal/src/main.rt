// Reads a chain plan from standard input and says of each line whether it can be placed by its names; then shows the
// effects that the pedal has.
#![tactic(auto)]

ghost use Rattle.std.specs.Prelude.{◌≡◌, ◌+◌, min};

mod bank;

use bank::show_bank;
use banks::one::One;
use banks::pair::Pair;
use effects::delay::Delay;
use effects::tuner::Tuner;
use plan::judge;

// How many lines could be placed, and how many not.
#[derive(Clone, Copy)]
struct Tally {
    placeable: u32,
    refused: u32,
}

// One line of the plan: a path, and the word of a make or an interface's name. An empty line or a comment counts as none.
fn plan_line(rt: &HostRuntime, number: u32, line: &str, tally: &mut Tally) -> anyhow::Result<()> {
    let mut words = line.split_whitespace();
    let Some(path) = words.next() else {
        return Ok(());
    };
    if path.starts_with('#') {
        return Ok(());
    }
    let Some(word) = words.next() else {
        tally.refused = tally.refused.saturating_add(1);
        println!(rt; "line {number}: {path}: no interface is named")?;
        return Ok(());
    };
    match judge(path.as_bytes(), word.as_bytes()) {
        Ok(what) => {
            tally.placeable = tally.placeable.saturating_add(1);
            println!(rt; "line {number}: {path} takes {what}: {word}")?;
        }
        Err(fault) => {
            tally.refused = tally.refused.saturating_add(1);
            println!(rt; "line {number}: {path} cannot take {word}: {fault}")?;
        }
    }
    Ok(())
}

// The number of the line that follows `before` others; the numbers end at 4,294,967,295, which all further lines have.
fn line_number(before: usize) -> u32
    ensures { result ≡ min (before + 1) 4294967295 }
{
    u32::try_from(before).map_or(u32::MAX, |before| before.saturating_add(1))
}

fn run(rt: &HostRuntime) -> anyhow::Result<()> {
    let mut tally = Tally {
        placeable: 0,
        refused: 0,
    };
    for (i, line) in rt.lines(rt.alloc()).enumerate() {
        plan_line(rt, line_number(i), line?.as_str(), &mut tally)?;
    }
    let Tally { placeable, refused } = tally;
    println!(rt; "{placeable} can be placed by their names, {refused} cannot")?;
    let delays = Pair {
        first: One { of: Delay::new() },
        second: One { of: Delay::new() },
    };
    show_bank(
        rt,
        &Pair {
            first: delays,
            second: One { of: Tuner::new() },
        },
    )
}

fn main(rt: HostRuntime) -> anyhow::Result<()> {
    run(&rt)
}
