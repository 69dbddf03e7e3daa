//! The words of commands that change variables, by their count.
ghost use Rattle.std.specs.Prelude.{◌≡◌, ◌≤◌, ◌-◌, true, false, length, [], ◌∷◌, drop, ◌++◌, IfOk};
ghost use Rattle.std.specs.Str.{chars};
ghost use Rattle.tcl_chars.specs.Texts.{literal};
ghost use Rattle.tcl_vars.specs.Updating.{usage_of, AddsOne, Fits};

use std::alloc::AllocError;
use tcl_pages::UpdatePage;
use tcl_values::Value;

/// Does a command take `count` words?
pub(crate) fn fits(page: UpdatePage, count: usize) -> bool
    ensures yes { result ≡ true → Fits page count }
    ensures no { result ≡ false → Fits page count → ⊥ }
{
    match page {
        UpdatePage::Append | UpdatePage::Lappend => 1 <= count,
        UpdatePage::Incr => 1 <= count && count <= 2,
        UpdatePage::DictIncr => 2 <= count && count <= 3,
        UpdatePage::DictSet => 3 <= count,
        _ => 2 <= count,
    }
}

/// Is no increment among the words, if there are `count` of them?
pub(crate) fn adds_one(page: UpdatePage, count: usize) -> bool
    ensures yes { result ≡ true → AddsOne page count }
    ensures no { result ≡ false → AddsOne page count → ⊥ }
{
    match page {
        UpdatePage::Incr => count == 1,
        UpdatePage::DictIncr => count == 2,
        _ => false,
    }
}

/// The usage of a command.
pub(crate) fn usage_of(page: UpdatePage) -> &'static str
    ensures { chars result.now ≡ usage_of page }
{
    match page {
        UpdatePage::Append => "append varName ?value ...?",
        UpdatePage::Incr => "incr varName ?increment?",
        UpdatePage::Lappend => "lappend varName ?value ...?",
        UpdatePage::Lset => "lset varName ?index ...? newValue",
        UpdatePage::DictAppend => "dict append dictVarName key ?value ...?",
        UpdatePage::DictIncr => "dict incr dictVarName key ?increment?",
        UpdatePage::DictLappend => "dict lappend dictVarName key ?value ...?",
        UpdatePage::DictSet => "dict set dictVarName key ?key ...? value",
        UpdatePage::DictUnset => "dict unset dictVarName key ?key ...?",
    }
}

/// The words behind a name, of which there is at most one, and the increment 1 behind them: they stand at the array's end.
pub(crate) fn and_one(behind: &[Value]) -> Result<[Value; 2], AllocError>
    requires { length behind.now ≤ 1 }
    ensures { IfOk result (λ given. drop (1 - length behind.now) given ≡ behind.now ++ literal "1" ∷ []) }
{
    let first = match behind {
        [] => Value::of_int(1),
        [key, ..] => key.copy()?,
    };
    Ok([first, Value::of_int(1)])
}
