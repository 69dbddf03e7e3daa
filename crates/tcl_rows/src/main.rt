//! Worked rows: scripts whose outputs, ends and costs were worked out by hand. It prints what the interpreter makes of
//! them, at how many calls of devices they can be broken off, and, where that is another thing, what it makes of them in
//! parts of a few units. Behind them stand runs that pause, and what becomes of them. The gate compares.
#![tactic(auto)]

mod breaking;
mod devices;
mod parts;
mod rows;
mod runs;
mod slices;
mod topics;

use std::alloc::{AllocError, Global};
use std::process::ExitCode;
use std::{env, fs, io};

// Runs that pause, and budgets in slices.
fn show_pauses(rt: &HostRuntime) -> io::Result<()> {
    let mut shown = String::new(rt.alloc());
    topics::show(rt.alloc(), &mut shown)?;
    slices::show(rt.alloc(), &mut shown)?;
    print!(rt; "{shown}")
}

// All that is told of a script.
fn told_of(alloc: Global, script: &str) -> Result<String, AllocError> {
    let shown = rows::show(alloc, script)?;
    let breaking = breaking::show_breaking(alloc, script)?;
    let parted = parts::show_parts(alloc, script)?;
    format!(in alloc; "{shown}{breaking}{parted}")
}

// A script of this name.
fn show_script(rt: &HostRuntime, name: &str) -> io::Result<()> {
    let bytes = fs::read(rt, name)?;
    let script = str::from_utf8(&bytes).unwrap_or("not UTF-8");
    let told = told_of(rt.alloc(), script)?;
    println!(rt; "== {name}\n{told}")
}

// Every script that the program's words name, and then what stands in no script.
fn show_all(rt: &HostRuntime) -> io::Result<()> {
    for name in env::args(rt)?.skip(1) {
        show_script(rt, &name)?;
    }
    let shown = rows::show_failing(rt.alloc())?;
    println!(rt; "== an output that fails\n{shown}")?;
    let shown = rows::show_dialects(rt.alloc())?;
    println!(rt; "== numbers in both dialects{shown}")?;
    show_pauses(rt)
}

fn main(rt: HostRuntime) -> ExitCode {
    match show_all(&rt) {
        Ok(()) => ExitCode::SUCCESS,
        Err(_) => ExitCode::FAILURE,
    }
}
