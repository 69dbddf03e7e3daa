//! Loops over the elements of lists and dictionaries: foreach(n), lmap(n), `dict for` of dict(n).
#![tactic(auto)]

mod answers;
mod dealing;
mod moving;
mod next;
mod pages;
mod rows;
mod setting;
mod turning;

pub use dealing::dealt;
pub use next::after_each;
pub use pages::{dict_for_page, foreach_page, lmap_page};
pub use turning::turned;
