//! Vectors from outside, and each public call once.

mod devices;
mod lists;
mod numbers;
mod pieces;
mod texts;
