//! Commands that are defined and renamed.

use crate::twice::{Changed, twice};
use std::alloc::{AllocError, Global};
use tcl_table::Table;

/// What is called.
#[derive(Clone, Copy, Debug)]
enum Call {
    Define,
    Rename,
}

/// A table, of which one call is made.
#[derive(Drop)]
struct Changing {
    table: Table,
    call: Call,
}

// Adds whether there is a command.
fn show_command(table: &Table, name: &str, shown: &mut String) -> Result<(), AllocError> {
    if table.find(name).is_some() {
        write!(shown, ", {name}")?;
    }
    Ok(())
}

// Defines a command that is another one's.
fn define_again(alloc: Global, table: &mut Table) -> Result<(), AllocError> {
    let Some(command) = table.find("set") else {
        return Err(AllocError);
    };
    let command = command.copy()?;
    table.define(alloc, "put", command)
}

impl Changed for Changing {
    fn shown(&self, alloc: Global) -> Result<String, AllocError> {
        let mut shown = format!(in alloc; "{} commands", self.table.names(alloc)?.len())?;
        for name in ["set", "put"] {
            show_command(&self.table, name, &mut shown)?;
        }
        Ok(shown)
    }

    fn change(&mut self, alloc: Global) -> Result<(), AllocError> {
        match self.call {
            Call::Define => define_again(alloc, &mut self.table),
            Call::Rename => self
                .table
                .rename(alloc, "set", "put")
                .map_err(|_| AllocError),
        }
    }
}

fn called(alloc: Global, name: &str, call: Call) -> Result<String, AllocError> {
    let mut changing = Changing {
        table: Table::new(alloc)?,
        call,
    };
    twice(alloc, name, &mut changing)
}

pub(crate) fn define(alloc: Global) -> Result<String, AllocError> {
    called(alloc, "define", Call::Define)
}

pub(crate) fn rename(alloc: Global) -> Result<String, AllocError> {
    called(alloc, "rename", Call::Rename)
}
