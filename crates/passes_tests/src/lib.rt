//! What `doslink` does before a link: searching libraries, reading modules, ordering, stacks and communal variables.
#![tactic(auto)]

mod communal;
mod order;
mod plain;
mod search;
mod stack;
