//! The verdict on a folder: whether its files reopen to a database, and what is the first that keeps them from it.
//!
//! The definition is `IsVerdict` of `specs/Verdicts.antt`: the files that the catalogue lists come first, each of them its spelling
//! (`specs/Listed.antt`), then the stored rows, each of which fits its columns (`specs/Rows.antt`), then the projections of each table,
//! which hold the same rows (`specs/Pairs.antt`). The laws say that the verdict is Yes exactly where the folder reopens. There is no
//! code but the types of a verdict and of why there is none; `specs/Judging.antt` says what each of the three passes over a folder finds.
#![tactic(auto)]

mod laws;
mod verdict;

pub use laws::{a_folder_passes_where_it_reopens, yes_is_said_where_a_folder_reopens};
pub use verdict::{AuditFault, Verdict};
