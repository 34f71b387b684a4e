// Runs, servers, files and connections over rows in a database, with ample memory.
mod commands;
mod connections;
mod faults;
mod files;
mod network;
mod stores;
