//! Codes of whole texts.

ghost use Rattle.std.specs.Prelude.{◌≡◌, [], IfOk};
ghost use Rattle.std.specs.Str.{chars};
ghost use Rattle.tcl_code.specs.Means.{Means, MeansExpr};
ghost use Rattle.tcl_code.specs.Shown.{shown_by};
ghost use Rattle.tcl_code.specs.Valid.{Valid};
ghost use Rattle.tcl_compile.specs.Whiles.{HasTurns};

use crate::context::Context;
use crate::script::emit_script;
use crate::tree::emit_expression;
use std::alloc::{AllocError, Global};
use tcl_chars::Dialect;
use tcl_code::{Code, CodeBuilder, CodeFault, Instr};
use tcl_names::Layout;

/// The code of a script. It ends exactly as the script does, with any layout. Among its instructions
/// are at least as many turns back as the script has commands `while {..} {..}`.
pub fn compile_script(
    alloc: Global,
    text: &str,
    dialect: Dialect,
    _layout: &Layout,
) -> Result<Code, AllocError>
    ensures means { IfOk result (λ code. Means dialect (shown_by code) (chars text.now)) }
    ensures turns { IfOk result (λ code. HasTurns (chars text.now) (shown_by code)) }
{
    script_behind(CodeBuilder::new(alloc), alloc, text, dialect)
}

/// The same, for a script that is run once.
pub(crate) fn compile_once(alloc: Global, text: &str, dialect: Dialect) -> Result<Code, AllocError>
    ensures { IfOk result (λ code. Means dialect (shown_by code) (chars text.now)) }
{
    script_behind(CodeBuilder::for_one_run(alloc), alloc, text, dialect)
}

// The code of a script, emitted into a builder that has no instruction yet.
fn script_behind(
    empty: CodeBuilder,
    alloc: Global,
    text: &str,
    dialect: Dialect,
) -> Result<Code, AllocError>
    requires { empty ≡ [] }
    ensures means { IfOk result (λ code. Means dialect (shown_by code) (chars text.now)) }
    ensures turns { IfOk result (λ code. HasTurns (chars text.now) (shown_by code)) }
{
    let mut code = empty;
    emit_script(&mut code, Context::new(alloc, dialect), text)?;
    finished(code)
}

/// The code of an expression. It ends exactly as the expression's value does, as a completion; a fault of the expression
/// is raised before anything is evaluated.
pub fn compile_expr(
    alloc: Global,
    text: &str,
    dialect: Dialect,
    _layout: &Layout,
) -> Result<Code, AllocError>
    ensures { IfOk result (λ code. MeansExpr dialect (shown_by code) (chars text.now)) }
{
    let mut code = CodeBuilder::new(alloc);
    emit_expression(&mut code, Context::new(alloc, dialect), text)?;
    code.emit(Instr::Answer)?;
    finished(code)
}

// Instructions that are valid, as a code.
fn finished(code: CodeBuilder) -> Result<Code, AllocError>
    requires { Valid code }
    ensures { IfOk result (λ done. shown_by done ≡ code) }
{
    match code.finish() {
        Ok(done) => Ok(done),
        Err(CodeFault::Memory) => Err(AllocError),
        Err(CodeFault::Invalid) => unreachable!(),
    }
}
