//! Objects in little room: a package's object as it is kept between builds.
//!
//! An object is written as tokens: a tag before each instruction, numbers, texts and names
//! (`specs/Spelling.antt`). Most tokens are one byte. A name stands once, and its number in its
//! place; larger numbers, numbers of cells and texts lie beside the bytes (`specs/Tokens.antt`).
//! What is read from the tokens is the object (`specs/Reading.antt`, `proofs/Back.antt`).
#![tactic(auto)]

mod joined;
mod names;
pub mod packed;
mod piece;
mod reading;
mod sink;
mod source;
mod writing;
