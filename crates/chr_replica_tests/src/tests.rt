//! Replicas of programs that are given as texts. Where memory runs out a test ends.
mod books;
mod gates;
mod model;
mod random;
mod said;
mod seats;
mod texts;
mod workers;
mod worlds;
