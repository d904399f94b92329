//! The store: its data files and its keydir, as one value. Each of its events is one step of a history.
#![tactic(auto)]

mod appending;
mod counting;
mod errors;
mod folds;
mod gets;
mod laws;
mod loans;
mod prepared;
mod puts;
mod store;
mod sweeps;
mod writing;

pub use bk_keydir::{FullFolds, Swept};
pub use errors::{FoldError, LocateError, NoFold, PrepareError, PutError, ReadError};
pub use folds::{Fold, Row2};
pub use loans::Loan;
pub use prepared::Prepared;
pub use puts::Stored;
pub use store::{Detached, Store};
pub use sweeps::Stat;
