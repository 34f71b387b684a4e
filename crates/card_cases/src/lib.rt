//! Public calls on days, posts, rows, books and accounts that want memory, and forms in memory, once with ample memory, beside a
//! value from outside: no contract rules out want of memory. What the program's own input and the scripts reach, as what posts do
//! on their day and the fold of an account, isn't called here; steps are, since no run tells them.
#![tactic(auto)]

#[cfg(test)]
mod account;
#[cfg(test)]
mod desks;
#[cfg(test)]
mod forms;
#[cfg(test)]
mod posts;
#[cfg(test)]
mod replays;
#[cfg(test)]
mod rows;
#[cfg(test)]
mod ticks;
#[cfg(test)]
mod values;
