// Call lists: what a line asks for, and the nodes that are open after some lines.
#![tactic(auto)]

pub mod line;
pub mod nodes;
mod values;
pub mod verbs;
