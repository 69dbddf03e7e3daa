//! Calls that change something. Each is made once, and once more where it was refused: what it was called on must then be as it was
//! seen. The program prints what each call came to, which is the same whichever growth is refused; tests/hostile.py refuses them.
#![tactic(auto)]

mod frames;
mod paths;
mod table;
mod twice;
mod values;

use std::alloc::{AllocError, Global};
use std::io;
use std::process::ExitCode;

// What each call came to, a line a call.
fn all_calls(alloc: Global) -> Result<String, AllocError> {
    let mut lines = String::new(alloc);
    for line in [
        values::push(alloc)?,
        values::dict_put(alloc)?,
        paths::dict_put_under(alloc)?,
        paths::dict_remove_under(alloc)?,
        paths::put_item_under(alloc)?,
        values::append_element(alloc)?,
        frames::put(alloc)?,
        frames::link(alloc)?,
        frames::push_call(alloc)?,
        frames::array_set(alloc)?,
        table::define(alloc)?,
        table::rename(alloc)?,
    ] {
        lines.push_str(line.as_str())?;
        lines.push('\n')?;
    }
    Ok(lines)
}

fn show_all(rt: &HostRuntime) -> io::Result<()> {
    let lines = all_calls(rt.alloc())?;
    print!(rt; "{lines}")
}

fn main(rt: HostRuntime) -> ExitCode {
    match show_all(&rt) {
        Ok(()) => ExitCode::SUCCESS,
        Err(_) => {
            let _ = eprintln!(rt; "out of memory");
            ExitCode::from(3)
        }
    }
}
