//! The order in which the rows of a query are printed.
//!
//! `order_rows` brings output rows into the printed order and takes the first of them where there is a limit. Its promise is
//! `IsPrinted`, which `sql_bound` defines; the printed list is the same for every order of the rows (`one_printed_list`).
//! `cut_back` leaves of collected rows those that can still be printed: they stay enough (`IsEnough`), and what is printed of
//! rows that are enough is what is printed of all (`enough_is_printed`).
#![tactic(auto)]

mod compare;
mod cutting;
mod laws;
mod printing;

pub use cutting::cut_back;
pub use laws::{enough_is_printed, one_printed_list};
pub use printing::order_rows;
