//! Workers rest boards in parts, which come to the store of one worker; and the pools of boards.
mod joining;
mod making;
mod resting;
