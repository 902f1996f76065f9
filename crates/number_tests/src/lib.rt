//! Worked rows of awk_numbers: what IEEE 754's operations, C's `strtod` and its `printf` give, which gawk prints too.
#![tactic(auto)]

#[cfg(test)]
mod formats;
#[cfg(test)]
mod functions;
#[cfg(test)]
mod numerals;
#[cfg(test)]
mod operators;
#[cfg(test)]
mod powers;
