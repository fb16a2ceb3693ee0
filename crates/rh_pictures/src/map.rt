//! The map of a script: its artist, its parts, and what is written line by line.

pub mod artist;
pub mod figure;
pub mod letters;
pub mod mapper;
pub mod modules;
pub mod pool;
pub mod running;
pub mod slots;
pub mod steps;
pub mod transfers;
