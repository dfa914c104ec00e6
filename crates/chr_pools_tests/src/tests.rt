//! Stores and calls at random, under programs that are given as texts.
mod beside;
mod calls;
mod drawing;
mod ends;
mod programs;
mod steps;
mod tally;
