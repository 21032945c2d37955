//! Tests of a sheet that is read from lines of text, and of its record.
#![tactic(auto)]

#[cfg(test)]
mod painted;
#[cfg(test)]
mod records;
#[cfg(test)]
mod refused;
#[cfg(test)]
mod sheet;
