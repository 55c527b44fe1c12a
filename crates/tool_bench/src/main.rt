//! The rows of the benchmark: the words of the command line name a row and how often it is done, such as `prepared
//! 1000000`. It prints a number into which each turn goes, so that the compiler can leave none out; for `colliding`
//! it prints words. It takes no time itself: bench/run does, around the whole process. It depends on the crates whose
//! calls it makes.
//! Tested: by nothing but its use. Only that it is safe and returns is proved.
//! Side: server.
#![tactic(auto)]

mod additions;
mod collisions;
mod lanes;
mod row;
mod searches;
mod tables;

use row::Row;
use std::process::ExitCode;
use std::{env, io};

/// The status of a run whose words name no row, or no count of turns.
const NO_ROW: u8 = 2;

/// The status of a run that was out of memory, or put a label in twice.
const FAILED: u8 = 1;

/// Does the row that the words name, and prints its sum.
fn main(rt: HostRuntime) -> io::Result<ExitCode> {
    let words: Vec<String> = env::args(&rt)?.skip(1).collect(rt.alloc())?;
    if let Some(count) = colliding_of(&words) {
        collisions::print(rt, count)?;
        return Ok(ExitCode::SUCCESS);
    }
    let Some((row, turns)) = row_of(&words) else {
        print_usage(rt)?;
        return Ok(ExitCode::from(NO_ROW));
    };
    let Ok(sum) = row.run(rt.alloc(), turns) else {
        return Ok(ExitCode::from(FAILED));
    };
    println!(rt; "{sum}")?;
    Ok(ExitCode::SUCCESS)
}

/// Prints what the words may be.
fn print_usage(rt: HostRuntime) -> io::Result<()> {
    print!(rt; "usage: tool_bench ROW TURNS, where ROW is one of:")?;
    for (name, _) in &row::ROWS {
        print!(rt; " {name}")?;
    }
    println!(rt; " colliding")
}

/// The row and the count of turns that the words name.
fn row_of(words: &[String]) -> Option<(Row, u64)> {
    match words {
        [row, turns] => Some((Row::named(row)?, turns.parse().ok()?)),
        _ => None,
    }
}

/// How many colliding words are asked for, where the words of the command line do.
fn colliding_of(words: &[String]) -> Option<u64> {
    match words {
        [row, count] if row.as_str() == "colliding" => count.parse().ok(),
        _ => None,
    }
}
