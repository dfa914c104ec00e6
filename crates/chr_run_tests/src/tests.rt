//! Reading by portions, threads that are kept, and a machine that answers each line by its length, run and served.
//! Where memory runs out a test ends.

mod crews;
mod dots;
mod lengths;
mod manners;
mod reading;
mod running;
mod serving;
mod wires;

/// Lines of 3, 0 and 2 bytes, and one of 4 that has not ended.
const INPUT: &[u8] = b"abc\n\nde\nwxyz";

/// Their lengths.
const OUTPUT: &[u8] = b"3\n0\n2\n4\n";

/// The second line ends the answers.
const STOPS: &[u8] = b"abc\n.\nde\nwxyz";

/// The lengths up to there.
const STOPPED: &[u8] = b"3\n1\n";
