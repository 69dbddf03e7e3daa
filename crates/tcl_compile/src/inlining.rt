//! The commands of literal words that are inlined.

ghost use Rattle.std.specs.Prelude.{◌≡◌, true, IfOk, IfSome, IsSome, Some, length, map};
ghost use Rattle.std.specs.Str.{chars};
ghost use Rattle.tcl_code.specs.Guards.{name_of};
ghost use Rattle.tcl_code.specs.declared.inlined.Inlined.TheVariants as inlined;
ghost use Rattle.tcl_words.specs.Parts.{shape_of};
ghost use Rattle.tcl_compile.specs.Forms as forms;
ghost use Rattle.tcl_compile.specs.Forms.{HasClause, IsFormOf, IsJoint, IsNamed};
ghost use Rattle.tcl_compile.specs.Literals.{text_of};
ghost use Rattle.tcl_compile.specs.Whiles.{IsWhile};

use crate::context::Context;
use crate::literals::{Literal, stretch, views};
use std::alloc::{AllocError, Global};
use tcl_chars::is_text;
use tcl_code::Inlined;
use tcl_words::Word;

/// A condition, and the body that is run where it holds.
#[derive(Clone, Copy)]
pub(crate) struct Clause<'a> {
    pub(crate) test: &'a str,
    pub(crate) body: &'a str,
}

/// What a `for` runs first, its condition, what it runs between turns, and its body.
#[derive(Clone, Copy)]
pub(crate) struct ForTexts<'a> {
    pub(crate) start: &'a str,
    pub(crate) test: &'a str,
    pub(crate) next: &'a str,
    pub(crate) body: &'a str,
}

/// A command that is inlined, with the texts of its words.
#[derive(Drop)]
pub(crate) enum Form<'a> {
    Break,
    Continue,
    /// `incr` of a variable by one.
    Increment(&'a str),
    Expr(&'a str),
    /// The clauses, and the body behind `else`.
    If(Vec<Clause<'a>>, Option<&'a str>),
    /// The condition, and the body.
    While(&'a str, &'a str),
    For(ForTexts<'a>),
}

// An `if` of more clauses is called.
const MOST_CLAUSES: usize = 64;

// What stands behind a clause of an `if`.
enum Joint {
    Nothing,
    Else,
    Elseif,
    Other,
}

// The command of a form.
pub(crate) fn command_of(form: &Form<'_>) -> Inlined
    ensures { result ≡ forms.command_of form.now }
{
    match form {
        Form::Break => Inlined::Break,
        Form::Continue => Inlined::Continue,
        Form::Increment(_) => Inlined::Incr,
        Form::Expr(_) => Inlined::Expr,
        Form::If(_, _) => Inlined::If,
        Form::While(_, _) => Inlined::While,
        Form::For(_) => Inlined::For,
    }
}

// An expression of more bytes isn't inlined: the calls that emit it stand in one another as deep as its parts do.
const LONGEST_EXPRESSION: usize = 1000;

// Are the conditions of all clauses short?
fn are_short(clauses: &[Clause<'_>]) -> bool {
    'clauses: for clause in clauses {
        if clause.test.len() > LONGEST_EXPRESSION {
            return false;
        }
    }
    true
}

// Is a loop with this condition inlined? Each one among a text's own commands is.
fn inlines_loop(context: Context, test: &str) -> bool
    ensures { context.outermost ≡ true → result ≡ true }
{
    context.outermost || context.inlines() && test.len() <= LONGEST_EXPRESSION
}

// Is a form inlined?
fn is_inlined(context: Context, form: &Form<'_>) -> bool
    ensures { context.outermost ≡ true → forms.command_of form.now ≡ inlined.While → result ≡ true }
{
    match form {
        Form::Expr(text) => context.inlines() && text.len() <= LONGEST_EXPRESSION,
        Form::If(clauses, _) => context.inlines() && are_short(clauses),
        Form::While(test, _) => inlines_loop(context, *test),
        Form::For(texts) => inlines_loop(context, texts.test),
        _ => true,
    }
}

// The command of a name, but for `while`.
fn other_named(name: &str) -> Option<Inlined>
    ensures { IfSome result (λ p. chars name.now ≡ name_of p) }
{
    if name == "incr" {
        Some(Inlined::Incr)
    } else if name == "expr" {
        Some(Inlined::Expr)
    } else if name == "if" {
        Some(Inlined::If)
    } else if name == "for" {
        Some(Inlined::For)
    } else if name == "break" {
        Some(Inlined::Break)
    } else if name == "continue" {
        Some(Inlined::Continue)
    } else {
        None
    }
}

// The command of a name.
fn command_named(name: &str) -> Option<Inlined>
    ensures named { IfSome result (λ p. chars name.now ≡ name_of p) }
    ensures whiles { chars name.now ≡ name_of inlined.While → result ≡ Some inlined.While }
{
    if is_text(name, "while") {
        Some(Inlined::While)
    } else {
        other_named(name)
    }
}

// Does a clause stand in front, with no `then` between?
fn has_clause(texts: &[&str]) -> bool
    ensures { result ≡ true → HasClause (map (λ t. chars t.now) texts.now) }
{
    texts.len() > 1 && !is_text(texts[1], "then")
}

// What stands behind a clause.
fn joint_of(texts: &[&str]) -> Joint
    ensures { IsJoint result (map (λ t. chars t.now) texts.now) }
{
    if texts.is_empty() {
        return Joint::Nothing;
    }
    if is_text(texts[0], "elseif") {
        return Joint::Elseif;
    }
    if texts.len() == 2 && is_text(texts[0], "else") {
        return Joint::Else;
    }
    Joint::Other
}

// An `if` whose clauses and last body have nothing but `elseif` and `else` between them.
fn if_by<'a>(alloc: Global, texts: &[&'a str]) -> Result<Option<Form<'a>>, AllocError>
    ensures { IfOk result (λ form. IfSome form (λ f. IsFormOf inlined.If f (map (λ t. chars t.now) texts.now))) }
{
    let mut clauses = Vec::new(alloc);
    let mut rest = texts;
    'clauses: while clauses.len() < MOST_CLAUSES && has_clause(rest) {
        let (test, body) = (rest[0], rest[1]);
        clauses.push(Clause { test, body })?;
        match joint_of(&rest[2..]) {
            Joint::Nothing => return Ok(Some(Form::If(clauses, None))),
            Joint::Else => return Ok(Some(Form::If(clauses, Some(rest[3])))),
            Joint::Elseif => rest = &rest[3..],
            Joint::Other => return Ok(None),
        }
    }
    Ok(None)
}

// The form of a command, from the texts behind its name.
fn form_by<'a>(
    alloc: Global,
    command: Inlined,
    texts: &[&'a str],
) -> Result<Option<Form<'a>>, AllocError>
    ensures form { IfOk result (λ form. IfSome form (λ f. IsFormOf command f (map (λ t. chars t.now) texts.now))) }
    ensures whiles { IfOk result (λ form. command ≡ inlined.While → length texts.now ≡ 2 → IsSome form) }
{
    match (command, texts) {
        (Inlined::Break, []) => Ok(Some(Form::Break)),
        (Inlined::Continue, []) => Ok(Some(Form::Continue)),
        (Inlined::Incr, [name]) => Ok(Some(Form::Increment(*name))),
        (Inlined::Expr, [text]) => Ok(Some(Form::Expr(*text))),
        (Inlined::While, [test, body]) => Ok(Some(Form::While(*test, *body))),
        (Inlined::For, [start, test, next, body]) => Ok(Some(Form::For(ForTexts {
            start: *start,
            test: *test,
            next: *next,
            body: *body,
        }))),
        (Inlined::If, _) => if_by(alloc, texts),
        _ => Ok(None),
    }
}

// The form of a command of this name, from the literal words behind it, if it is inlined.
pub(crate) fn form_of<'b>(
    context: Context,
    command: Inlined,
    literals: &'b [Literal<'_>],
) -> Result<Option<Form<'b>>, AllocError>
    ensures form { IfOk result (λ form. IfSome form (λ f. IsFormOf command f (map text_of literals.now))) }
    ensures whiles { IfOk result (λ form. context.outermost ≡ true → command ≡ inlined.While → length literals.now ≡ 2 → IsSome form) }
{
    let texts = views(context.alloc, literals)?;
    match form_by(context.alloc, command, texts.as_slice())? {
        Some(form) if is_inlined(context, &form) => Ok(Some(form)),
        _ => Ok(None),
    }
}

// The command that is inlined, of words that begin with its name.
pub(crate) fn inlined_by(words: &[Word<'_>]) -> Option<Inlined>
    ensures named { IfSome result (λ p. IsNamed p (map shape_of words.now)) }
    ensures whiles { IsWhile (map shape_of words.now) → result ≡ Some inlined.While }
{
    if words.is_empty() {
        return None;
    }
    let name = stretch(&words[0])?;
    command_named(name)
}
