//! Commands that change the command table: proc(n), rename(n).
ghost use Rattle.std.specs.Prelude.{◌≡◌, [], ◌∷◌, map as each, IfOk, OnOk, OnErr};
ghost use Rattle.std.specs.FinMap as map;
ghost use Rattle.std.specs.Str.{chars};
ghost use Rattle.tcl_chars.specs.Texts.{text_of};
ghost use Rattle.tcl_frames.specs.Standing.{Standing, store_of};
ghost use Rattle.tcl_meaning.specs.Completions.{nothing};
ghost use Rattle.tcl_meaning.specs.Names.{without_colons};
ghost use Rattle.tcl_meaning.specs.ProcedurePages as spec;
ghost use Rattle.tcl_meaning.specs.State as state;
ghost use Rattle.tcl_procs.specs.Renaming.{delete_page, move_page};
ghost use Rattle.tcl_table.specs.Procedures.{procedure_of};
ghost use Rattle.tcl_steps.specs.Ends.{DoesIn};

use crate::formals::{is_empty, read_procedure};
use std::alloc::{AllocError, Global};
use std::rc::{Rc, RcStr};
use tcl_arguments::all_texts;
use tcl_chars::Fault;
use tcl_frames::without_colons;
use tcl_steps::Completion;
use tcl_table::{Command, Procedure, Table, TableFault};
use tcl_values::Value;

// Gives a name a procedure.
fn define(
    alloc: Global,
    table: &mut Table,
    name: &str,
    procedure: Procedure,
) -> Result<Completion, AllocError>
    ensures done { OnOk result (table.new ≡ map.insert table.old (without_colons (chars name.now)) (state.procedure (procedure_of procedure))) }
    ensures answer { IfOk result (λ c. c ≡ nothing) }
    ensures same { OnErr result (table.new ≡ table.old) }
{
    let answer = Completion::nothing(alloc)?;
    let command = Command::procedure(Rc::new(alloc, procedure)?);
    table.define(alloc, without_colons(name), command)?;
    Ok(answer)
}

// Gives a name a procedure of these formals and this body.
fn set_procedure(
    alloc: Global,
    table: &mut Table,
    name: &str,
    formals: &str,
    body: RcStr,
) -> Result<Completion, AllocError>
    ensures does { (f : Standing) → DoesIn (spec.proc_page (chars name.now ∷ chars formals.now ∷ text_of body ∷ [])) (store_of table.old f) result (store_of table.new f) }
    ensures same { OnErr result (table.new ≡ table.old) }
{
    match read_procedure(alloc, formals, body) {
        Ok(procedure) => define(alloc, table, name, procedure),
        Err(Fault::Error(message)) => Ok(Completion::failure(alloc, message)),
        Err(Fault::Memory) => Err(AllocError),
    }
}

// The same, of words as texts.
fn proc_texts(alloc: Global, table: &mut Table, texts: &[RcStr]) -> Result<Completion, AllocError>
    ensures does { (f : Standing) → DoesIn (spec.proc_page (each text_of texts.now)) (store_of table.old f) result (store_of table.new f) }
    ensures same { OnErr result (table.new ≡ table.old) }
{
    if texts.len() != 3 {
        return Completion::wrong_words(alloc, "proc name args body");
    }
    match texts {
        [name, formals, body] => {
            set_procedure(alloc, table, name.as_str(), formals.as_str(), body.clone()?)
        }
        _ => unreachable!(),
    }
}

/// `proc name args body`: gives a name a procedure.
///
/// # Errors
///
/// `AllocError` where a growth was refused; the table is then as it was.
pub fn proc_page(
    alloc: Global,
    table: &mut Table,
    words: &mut [Value],
) -> Result<Completion, AllocError>
    ensures does { (f : Standing) → DoesIn (spec.proc_page words.old) (store_of table.old f) result (store_of table.new f) }
    ensures same { OnErr result (table.new ≡ table.old) }
{
    let texts = all_texts(alloc, words)?;
    proc_texts(alloc, table, &texts)
}

// Takes the command of a name away.
fn delete_command(alloc: Global, table: &mut Table, name: &str) -> Result<Completion, AllocError>
    ensures does { (f : Standing) → DoesIn (delete_page (chars name.now)) (store_of table.old f) result (store_of table.new f) }
    ensures same { OnErr result (table.new ≡ table.old) }
{
    let answer = Completion::nothing(alloc)?;
    let name_there = without_colons(name);
    if table.find(name_there).is_none() {
        return Completion::about(alloc, "can't delete", name, ": command doesn't exist");
    }
    table.delete(name_there);
    Ok(answer)
}

// Moves the command of a name to another name.
fn move_command(
    alloc: Global,
    table: &mut Table,
    old: &str,
    new: &str,
) -> Result<Completion, AllocError>
    ensures does { (f : Standing) → DoesIn (move_page (chars old.now) (chars new.now)) (store_of table.old f) result (store_of table.new f) }
    ensures same { OnErr result (table.new ≡ table.old) }
{
    let answer = Completion::nothing(alloc)?;
    match table.rename(alloc, without_colons(old), without_colons(new)) {
        Ok(()) => Ok(answer),
        Err(TableFault::Unknown) => {
            Completion::about(alloc, "can't rename", old, ": command doesn't exist")
        }
        Err(TableFault::TargetExists) => {
            Completion::about(alloc, "can't rename to", new, ": command already exists")
        }
        Err(TableFault::Memory) => Err(AllocError),
    }
}

// Moves a command to another name, or takes it away where that is empty.
fn rename_command(
    alloc: Global,
    table: &mut Table,
    old: &str,
    new: &str,
) -> Result<Completion, AllocError>
    ensures does { (f : Standing) → DoesIn (spec.rename_page (chars old.now ∷ chars new.now ∷ [])) (store_of table.old f) result (store_of table.new f) }
    ensures same { OnErr result (table.new ≡ table.old) }
{
    if is_empty(new) {
        return delete_command(alloc, table, old);
    }
    move_command(alloc, table, old, new)
}

// The same, of words as texts.
fn rename_texts(alloc: Global, table: &mut Table, texts: &[RcStr]) -> Result<Completion, AllocError>
    ensures does { (f : Standing) → DoesIn (spec.rename_page (each text_of texts.now)) (store_of table.old f) result (store_of table.new f) }
    ensures same { OnErr result (table.new ≡ table.old) }
{
    if texts.len() != 2 {
        return Completion::wrong_words(alloc, "rename oldName newName");
    }
    match texts {
        [old, new] => rename_command(alloc, table, old.as_str(), new.as_str()),
        _ => unreachable!(),
    }
}

/// `rename oldName newName`: moves a command to another name, or takes it away where the new name is empty.
///
/// # Errors
///
/// `AllocError` where a growth was refused; the table is then as it was.
pub fn rename_page(
    alloc: Global,
    table: &mut Table,
    words: &mut [Value],
) -> Result<Completion, AllocError>
    ensures does { (f : Standing) → DoesIn (spec.rename_page words.old) (store_of table.old f) result (store_of table.new f) }
    ensures same { OnErr result (table.new ≡ table.old) }
{
    let texts = all_texts(alloc, words)?;
    rename_texts(alloc, table, &texts)
}
