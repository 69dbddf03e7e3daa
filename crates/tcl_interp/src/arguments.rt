//! The variables of the arguments: tclsh(1), VARIABLES.
ghost use Rattle.std.specs.Prelude.{◌≡◌, IfOk, map as each};
ghost use Rattle.std.specs.Str.{chars};
ghost use Rattle.tcl_list.specs.Written.{written};
ghost use Rattle.tcl_meaning.specs.Run.{args_put, argument_variables};

use std::alloc::{AllocError, Global};
use std::rc::RcStr;
use tcl_frames::Variable;
use tcl_names::NameMap;
use tcl_values::Value;

/// The value of a text.
pub(crate) fn value_of(alloc: Global, text: &str) -> Result<Value, AllocError>
    ensures { IfOk result (λ value. value ≡ chars text.now) }
{
    Ok(Value::of_text(RcStr::from_str(alloc, text)?))
}

// The list of some texts.
fn list_of(alloc: Global, texts: &[&str]) -> Result<Value, AllocError>
    ensures { IfOk result (λ value. value ≡ written (each (λ text. chars text.now) texts.now)) }
{
    let mut items = Vec::new(alloc);
    for text in texts {
        items.push(value_of(alloc, text)?)?;
    }
    Value::of_list(alloc, items)
}

// The name of the script, the list of the others, and their count.
fn args_put(alloc: Global, name: &str, others: &[&str]) -> Result<NameMap<Variable>, AllocError>
    ensures { IfOk result (λ variables. variables ≡ args_put (chars name.now) (each (λ arg. chars arg.now) others.now)) }
{
    let name = value_of(alloc, name)?;
    let list = list_of(alloc, others)?;
    let count = Value::of_count(alloc, others.len() as u64)?;
    let mut variables = NameMap::new(alloc);
    variables.insert(alloc, "argv0", Variable::of_text(name))?;
    variables.insert(alloc, "argv", Variable::of_text(list))?;
    variables.insert(alloc, "argc", Variable::of_text(count))?;
    Ok(variables)
}

/// `argv0` is the first of the arguments, or empty where there is none, `argv` the list of the others, and `argc` their count.
pub(crate) fn argument_variables(
    alloc: Global,
    args: &[&str],
) -> Result<NameMap<Variable>, AllocError>
    ensures { IfOk result (λ variables. variables ≡ argument_variables (each (λ arg. chars arg.now) args.now)) }
{
    match args {
        [] => args_put(alloc, "", &[]),
        [name, others @ ..] => args_put(alloc, name, others),
    }
}
