//! Commands that look at the command table: info(n), args, body, commands, procs.
ghost use Rattle.std.specs.Prelude.{◌≡◌, Some, map as each, IfOk};
ghost use Rattle.std.specs.FinMap as map;
ghost use Rattle.std.specs.Str.{chars};
ghost use Rattle.tcl_chars.specs.Answers.{Answers};
ghost use Rattle.tcl_chars.specs.Texts.{text_of};
ghost use Rattle.tcl_frames.specs.Standing.{Standing, store_of};
ghost use Rattle.tcl_list.specs.Written.{written};
ghost use Rattle.tcl_meaning.specs.Names.{without_colons};
ghost use Rattle.tcl_meaning.specs.SeenPages as pages;
ghost use Rattle.tcl_meaning.specs.VariablePages.{seen_page};
ghost use Rattle.tcl_procs.specs.Looking.{LooksAtCommands};
ghost use Rattle.tcl_table.specs.Procedures.{formal_of, procedure_of};
ghost use Rattle.tcl_steps.specs.Ends.{DoesIn};

use crate::choosing::command_names;
use std::alloc::{AllocError, Global};
use std::rc::{Rc, RcStr};
use tcl_arguments::{one_text, up_to_one_text};
use tcl_chars::{Fault, push_text};
use tcl_frames::without_colons;
use tcl_meaning::SeenPage;
use tcl_steps::Completion;
use tcl_table::{Command, Formal, Meaning, Procedure, Table};
use tcl_values::Value;

// What is said of a name that stands for no procedure.
fn no_procedure(alloc: Global, name: &str) -> Result<RcStr, AllocError>
    ensures { IfOk result (λ said. text_of said ≡ pages.no_procedure (chars name.now)) }
{
    let mut text = String::new(alloc);
    push_text(&mut text, "\"")?;
    push_text(&mut text, name)?;
    push_text(&mut text, "\" isn't a procedure")?;
    RcStr::from_string(text)
}

// The procedure that a command is; the command has this name.
fn as_procedure<'a>(
    alloc: Global,
    name: &str,
    command: &'a Command,
) -> Result<&'a Rc<Procedure>, Fault>
    ensures { Answers (λ p. procedure_of p.now.value) result (pages.as_procedure (chars name.now) (Some command.now)) }
{
    match command.meaning() {
        Meaning::Procedure(procedure) => Ok(procedure),
        Meaning::BuiltIn(_) => Err(Fault::Error(no_procedure(alloc, name)?)),
    }
}

// The procedure of a name.
fn procedure_named<'a>(
    alloc: Global,
    table: &'a Table,
    name: &str,
) -> Result<&'a Rc<Procedure>, Fault>
    ensures { Answers (λ p. procedure_of p.now.value) result (pages.as_procedure (chars name.now) (map.get table.now (without_colons (chars name.now)))) }
{
    match table.find(without_colons(name)) {
        Some(command) => as_procedure(alloc, name, command),
        None => Err(Fault::Error(no_procedure(alloc, name)?)),
    }
}

// The list of the names of some formals.
fn formal_names(alloc: Global, formals: &[Formal]) -> Result<Value, AllocError>
    ensures { IfOk result (λ value. value ≡ written (each (λ f. f.name) (each formal_of formals.now))) }
{
    let mut names = Vec::new(alloc);
    for formal in formals {
        names.push(Value::of_text(formal.name.clone()?))?;
    }
    Value::of_list(alloc, names)
}

// `info args procname`: the names of the formals of a procedure, in their order.
#[tactic(auto, using(crate::proofs::LookingLemmas::args_is))]
fn info_args(alloc: Global, table: &Table, words: &mut [Value]) -> Result<Value, Fault>
    ensures answer { (f : Standing) → Answers (λ v. v) result (pages.info_args (store_of table.now f) words.old) }
    ensures same { words.new ≡ words.old }
{
    let name = one_text(alloc, words, "info args procname")?;
    let procedure = procedure_named(alloc, table, name.as_str())?;
    Ok(formal_names(alloc, &procedure.formals)?)
}

// `info body procname`: the body of a procedure.
#[tactic(auto, using(crate::proofs::LookingLemmas::body_is))]
fn info_body(alloc: Global, table: &Table, words: &mut [Value]) -> Result<Value, Fault>
    ensures answer { (f : Standing) → Answers (λ v. v) result (pages.info_body (store_of table.now f) words.old) }
    ensures same { words.new ≡ words.old }
{
    let name = one_text(alloc, words, "info body procname")?;
    let procedure = procedure_named(alloc, table, name.as_str())?;
    Ok(Value::of_text(procedure.body.clone()?))
}

// `info commands ?pattern?`: the names of the commands, in the order of code points, or those that match.
#[tactic(auto, using(crate::proofs::LookingLemmas::commands_is))]
fn info_commands(alloc: Global, table: &Table, words: &mut [Value]) -> Result<Value, Fault>
    ensures answer { (f : Standing) → Answers (λ v. v) result (pages.info_commands (store_of table.now f) words.old) }
    ensures same { words.new ≡ words.old }
{
    let pattern = up_to_one_text(alloc, words, "info commands ?pattern?")?;
    Ok(command_names(alloc, table, false, &pattern)?)
}

// `info procs ?pattern?`: the names of the procedures, in the order of code points, or those that match.
#[tactic(auto, using(crate::proofs::LookingLemmas::procs_is))]
fn info_procs(alloc: Global, table: &Table, words: &mut [Value]) -> Result<Value, Fault>
    ensures answer { (f : Standing) → Answers (λ v. v) result (pages.info_procs (store_of table.now f) words.old) }
    ensures same { words.new ≡ words.old }
{
    let pattern = up_to_one_text(alloc, words, "info procs ?pattern?")?;
    Ok(command_names(alloc, table, true, &pattern)?)
}

// What a command answers that looks at the command table.
#[tactic(auto, unfolding(tcl_meaning::specs::SeenPages::seen_answer))]
fn answer(alloc: Global, table: &Table, page: SeenPage, words: &mut [Value]) -> Result<Value, Fault>
    requires { LooksAtCommands page }
    ensures answer { (f : Standing) → Answers (λ v. v) result (pages.seen_answer page (store_of table.now f) words.old) }
    ensures same { words.new ≡ words.old }
{
    match page {
        SeenPage::InfoArgs => info_args(alloc, table, words),
        SeenPage::InfoBody => info_body(alloc, table, words),
        SeenPage::InfoCommands => info_commands(alloc, table, words),
        SeenPage::InfoProcs => info_procs(alloc, table, words),
        SeenPage::ArrayExists => unreachable!(),
        SeenPage::ArrayGet => unreachable!(),
        SeenPage::ArrayNames => unreachable!(),
        SeenPage::ArraySize => unreachable!(),
        SeenPage::InfoExists => unreachable!(),
        SeenPage::InfoLevel => unreachable!(),
        SeenPage::InfoVars => unreachable!(),
    }
}

/// A command that looks at the command table and at nothing else: `info args`, `body`, `commands` and `procs`. Names are listed in
/// the order of code points.
///
/// # Errors
///
/// `AllocError` where a growth was refused.
pub fn seen_commands(
    alloc: Global,
    table: &Table,
    page: SeenPage,
    words: &mut [Value],
) -> Result<Completion, AllocError>
    requires { LooksAtCommands page }
    ensures does { (f : Standing) → DoesIn (seen_page page words.old) (store_of table.now f) result (store_of table.now f) }
    ensures words { words.new ≡ words.old }
{
    match answer(alloc, table, page, words) {
        Ok(value) => Ok(Completion::normal(alloc, value)),
        Err(Fault::Error(message)) => Ok(Completion::failure(alloc, message)),
        Err(Fault::Memory) => Err(AllocError),
    }
}
