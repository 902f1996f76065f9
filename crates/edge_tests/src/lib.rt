//! What only a test in Rattle can show: a reader and a writer that give and take little or fail, memory that
//! is refused, and the calls of the system. These tests, and nothing else: a crate with tests is proved once more
//! for them, and they stand on no more than they try. All other worked rows stand in the tables of `rows`.
#![tactic(auto)]

#[cfg(test)]
mod monitors;
#[cfg(test)]
mod os_world;
#[cfg(test)]
mod policies;
#[cfg(test)]
mod readers;
