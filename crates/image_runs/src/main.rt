//! Translates programs, runs each and its image by the two tables of rows, on the same values; prints what differs.
//! Nothing rests on it; it calls `translate` of `translate_core`, `row` of `x64_table` and `row` of `a64_table`.
//! Source: this project's own programs; random numbers: Marsaglia's xorshift (J. of Statistical Software 8(14), 2003).
#![tactic(auto)]

mod assembler;
mod fixed;
mod form_runs;
mod forms;
mod generated;
mod generator;
mod made;
mod program;
mod ran;
mod random;
mod run_code;
mod run_words;
mod subject;
mod tally;

use anyhow::ensure;
use fixed::run_fixed;
use form_runs::run_forms;
use generated::run_generated;
use std::env;

/// How many programs are generated where the command line does not say it.
const PROGRAMS: u32 = 100;

/// Runs the forms of single instructions, the programs by hand and the generated ones, of which the first word of the
/// command line may give the number, and prints a line for each of the three.
fn main(rt: HostRuntime) -> anyhow::Result<()> {
    let word = env::args(&rt)?.nth(1);
    let count = match &word {
        Some(word) => u32::from_str_radix(word.as_str(), 10).unwrap_or(PROGRAMS),
        None => PROGRAMS,
    };
    let forms = run_forms(&rt)?;
    forms.print(&rt, "forms")?;
    let fixed = run_fixed(&rt)?;
    fixed.print(&rt, "by hand")?;
    let generated = run_generated(&rt, count)?;
    generated.print(&rt, "generated")?;
    let differences = forms.differences | fixed.differences | generated.differences;
    ensure!(differences == 0, "runs differ");
    Ok(())
}
