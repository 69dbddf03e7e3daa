//! Commands that decide what is run: if(n), while(n), for(n), switch(n), eval(n), expr(n), catch(n), return(n), error(n),
//! break(n), continue(n), exit(n), throw(n), try(n). Each is a function from the words behind its name to what it asks for, or from what it owed
//! to what it asks for then.
#![tactic(auto)]

mod answers;
mod arms;
mod choices;
mod codes;
mod conditions;
mod evaluation;
mod exiting;
mod handlers;
mod loops;
mod numbers;
mod returning;
mod subject;
mod switching;
mod trying;

pub use choices::if_page;
pub use codes::{break_page, catch_page, continue_page, error_page};
pub use conditions::{after_if_test, next_clause};
pub use evaluation::{eval_page, expr_page};
pub use exiting::exit_page;
pub use loops::{
    after_for_body, after_for_next, after_for_start, after_for_test, after_while_body,
    after_while_test, for_page, while_page,
};
pub use returning::return_page;
pub use switching::switch_page;
pub use trying::{after_finally, after_try, finish, throw_page, try_page};
