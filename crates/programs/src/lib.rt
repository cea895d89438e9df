// What the programs are made of: rows of a file, printed lines, a card that is run row by row, and both runners on a file of calls.
#![tactic(auto)]

pub mod agree;
pub mod blocks;
pub mod feed;
pub mod file;
pub mod flat;
pub mod line;
pub mod same;
