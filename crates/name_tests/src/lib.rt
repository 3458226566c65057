//! Tests of `server_names`: calls on the names of a domain one after the other with what each answers, remote links that hang in
//! directories and those that are refused, and a directory that is full; and of `sprite_paths`: texts that are paths, and those
//! that are none.
#![tactic(auto)]

#[cfg(test)]
mod names;
#[cfg(test)]
mod paths;
