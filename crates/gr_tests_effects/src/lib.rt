//! Tests of what no row of a table can show: values that count their drops, adapters, real files and sockets. Nothing
//! but tests stands here, since a crate with tests is proved twice.
#![tactic(auto)]

#[cfg(test)]
mod adapters;
#[cfg(test)]
mod gap;
#[cfg(test)]
mod sock;
