mod piles;
mod plain;
mod waits;
