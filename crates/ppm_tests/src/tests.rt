mod heads;
mod rows;
