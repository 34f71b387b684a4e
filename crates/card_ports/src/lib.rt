//! The outside: what is read from, what is written to, what keeps the rows of a ledger, and where connections come from. Each
//! form counts how often the outside failed.
#![tactic(auto)]

mod calls;
mod door;
mod failing_keeper;
mod keeper;
mod link;
mod memory;
mod memory_door;
mod memory_keeper;
mod memory_link;
mod real;
mod replies;
mod row;
mod rows;
mod source;
mod tcp;
mod write;

pub use calls::Calls;
pub use door::Door;
pub use failing_keeper::FailingKeeper;
pub use keeper::{Keeper, KeeperFault};
pub use link::Link;
pub use memory::{MemorySink, MemorySource};
pub use memory_door::MemoryDoor;
pub use memory_keeper::MemoryKeeper;
pub use memory_link::MemoryLink;
pub use real::{StdSink, StdSource};
pub use replies::{Asking, Lent, Replies};
pub use row::{Body, Row};
pub use rows::Rows;
pub use source::{Failed, Sink, SinkFault, Source};
pub use tcp::{TcpDoor, TcpLink};
pub use write::write_all;
