//! Tests of look-ups in rows: two levels, short lists, rows past the end, rows that lead in a ring.
#![tactic(auto)]

#[cfg(test)]
mod tests;
