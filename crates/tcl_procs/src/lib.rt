//! Procedures that are defined, called and renamed: proc(n), rename(n). What each comes to is its page in
//! `tcl_meaning/specs/ProcedurePages`. Lambdas that are applied: apply(n). What is told of commands: info(n), whose pages are in
//! `tcl_meaning/specs/SeenPages`.
#![tactic(auto)]

mod apply;
mod binding;
mod calls;
mod choosing;
mod definitions;
mod formals;
mod levels;
mod links;
mod looking;
mod quick_links;
mod uplevel;
mod usages;

pub use apply::apply_page;
pub use calls::{after_body, call_procedure};
pub use definitions::{proc_page, rename_page};
pub use links::{global_page, upvar_page};
pub use looking::seen_commands;
pub use quick_links::{quick_global, quick_upvar};
pub use uplevel::uplevel_page;
