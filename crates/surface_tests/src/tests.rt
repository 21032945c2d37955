mod bytes;
mod every;
mod planes;
