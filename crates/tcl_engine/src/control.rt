//! Commands that ask at once.
ghost use Rattle.tcl_steps.specs.Asked.{IsAsked};
ghost use Rattle.tcl_engine.specs.Kinds.{IsAtOnce};
ghost use Rattle.tcl_meaning.specs.Pages.{page_asks};

use std::alloc::{AllocError, Global};
use tcl_chars::Dialect;
use tcl_control::{
    break_page, catch_page, continue_page, error_page, eval_page, expr_page, for_page, if_page,
    return_page, switch_page, throw_page, try_page, while_page,
};
use tcl_each::{dict_for_page, foreach_page, lmap_page};
use tcl_meaning::Page;
use tcl_procs::apply_page;
use tcl_pure::pure_done;
use tcl_steps::{Loop, Owes, Scope, Step};
use tcl_values::Value;

/// A command that asks at once, whatever scripts keep.
#[tactic(auto, unfolding(tcl_meaning::specs::Pages::page_asks))]
pub(crate) fn at_once(
    alloc: Global,
    dialect: Dialect,
    page: Page,
    words: &mut [Value],
) -> Result<Step<Scope, Owes, Loop>, AllocError>
    requires { IsAtOnce page }
    ensures { IsAsked result (page_asks dialect page words.old) }
{
    match page {
        Page::Pure(pure) => pure_done(alloc, dialect, pure, words),
        Page::Apply => apply_page(alloc, words),
        Page::If => if_page(alloc, words),
        Page::While => while_page(alloc, dialect, words),
        Page::For => for_page(alloc, words),
        Page::Foreach => foreach_page(alloc, words),
        Page::Lmap => lmap_page(alloc, words),
        Page::DictFor => dict_for_page(alloc, words),
        Page::Switch => switch_page(alloc, words),
        Page::Eval => eval_page(alloc, words),
        Page::Expr => expr_page(alloc, words),
        Page::Catch => catch_page(alloc, words),
        Page::Return => return_page(alloc, dialect, words),
        Page::Error => error_page(alloc, words),
        Page::Break => break_page(alloc, words),
        Page::Continue => continue_page(alloc, words),
        Page::Throw => throw_page(alloc, words),
        Page::Try => try_page(alloc, dialect, words),
        _ => unreachable!(),
    }
}
