//! Commands that are functions of texts: lists, strings, dictionaries, arithmetic. The definitions stand in `specs/`; the
//! code here is the enums that they share with the crates above.
#![tactic(auto)]

mod classes;
mod formats;
pub mod laws;
mod lists;
mod pages;

pub use classes::{CharacterClass, StringClass};
pub use formats::{
    Conversion, Field, FormatPart, FormatStage, FormatStep, Layout, NumberForm, Size,
};
pub use lists::{ListPage, SearchOptions, SortOptions};
pub use pages::{DictPage, PurePage, StringPage, UpdatePage};
