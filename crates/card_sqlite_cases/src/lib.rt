//! What is shown over rows in a database: the top call has the clause that it has over any rows, also
//! over readers and writers of std; with ample memory rows that
//! are kept are loaded again, and an append that is stopped leaves all of its rows or none.
#![tactic(auto)]

mod adapted;
#[cfg(test)]
mod cases;
mod stored;

pub use adapted::billctl_over_std;
pub use stored::billctl_over_store;
