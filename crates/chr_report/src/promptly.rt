//! Threads that begin at once.

use std::thread::{Threads, join_mut};

/// Does what begins other threads, after one has begun that does nothing. A system may leave the first of several new
/// threads to wait behind the thread that began it, until that thread waits itself. Threads after the first more often
/// find processors of their own at once.
pub(crate) fn promptly<R: Threads, F: FnMut() -> T, T>(rt: &R, work: &mut F) -> T
    requires { F.pre work.old }
    ensures { F.step work.old result work.new }
{
    let ((), result) = join_mut(rt, &mut || (), work);
    result
}
