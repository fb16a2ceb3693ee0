//! The sheet of a script: its artist, its parts, and what is written line by line.

pub mod areas;
pub mod arrows;
pub mod artist;
pub mod aside;
pub mod bands;
pub mod chart;
pub mod figure;
pub mod form;
pub mod letters;
pub mod modules;
pub mod notes;
pub mod numbers;
pub mod painter;
pub mod pool;
pub mod progress;
pub mod rows;
pub mod running;
pub mod slots;
pub mod steps;
pub mod transfers;
pub mod ways;
