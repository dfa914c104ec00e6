//! Channels of messages of which something holds, and threads that are kept.
use chr_crew::{Desk, Inbox, Known, beside_crew, open};
use crossbeam_channel::{Receiver, bounded};
use std::alloc::{AllocError, Global};
use std::marker::Brand;
use std::sync::Wait;
use std::thread::Threads;

/// The squares of the digits.
const SQUARES: [u64; 10] = [0, 1, 4, 9, 16, 25, 36, 49, 64, 81];

/// Each message is a digit.
struct Digits;

impl Known<u64> for Digits {
    ghost use Rattle.std.specs.Prelude.{◌<◌};

    ghost holds = { λ n. n < 10 };
}

/// That a digit is in the table is known of the message alone.
fn square_that_comes(rt: &impl Wait, digits: &mut Inbox<u64, Digits>) -> Option<u64> {
    let digit = digits.recv(rt)?;
    Some(SQUARES[digit as usize])
}

#[test]
fn what_holds_of_messages_is_known_where_they_come(rt: HostRuntime) -> Result<(), AllocError> {
    let (mut desk, mut inbox) = open::<u64, Digits>(rt.alloc(), 4)?;
    let mut other = desk.another()?;
    assert!(rt; desk.send(&rt, 3));
    assert!(rt; other.send(&rt, 9));
    assert!(rt; square_that_comes(&rt, &mut inbox) == Some(9));
    assert!(rt; square_that_comes(&rt, &mut inbox) == Some(81));
    assert!(rt; inbox.try_recv(&rt).is_none());
    drop(inbox);
    assert!(rt; !desk.send(&rt, 3));
    Ok(())
}

/// A number that is to be squared, and where its square goes.
#[derive(Drop)]
struct ToSquare {
    number: u64,
    desk: Desk<u64, Brand>,
}

/// Squares a number.
fn square(rt: &impl Wait, task: ToSquare) {
    let ToSquare { number, desk } = task;
    let mut desk = desk;
    desk.send(rt, number.wrapping_mul(number));
}

/// The square that comes. Until it is there, numbers that no thread has begun to square are squared here.
fn wait_for(rt: &impl Wait, left: &Receiver<ToSquare>, inbox: Inbox<u64, Brand>) -> u64 {
    let mut inbox = inbox;
    for _task in rt.forever() {
        let Ok(task) = left.try_recv(rt) else {
            break;
        };
        square(rt, task);
    }
    inbox.recv(rt).unwrap_or(0)
}

/// The sum of the squares of the first 16 numbers, for each of which there is room as a task, by `threads` threads
/// beside this one.
fn sum_of_squares<R: Threads + Wait + Sync>(
    rt: &R,
    alloc: Global,
    threads: usize,
) -> Result<u64, AllocError> {
    let (tasks, left) = bounded(alloc, 16)?;
    let task = |task: ToSquare| square(rt, task);
    let mut free = Some(tasks);
    let mut here = || -> Result<u64, AllocError> {
        let mut inboxes = Vec::new(alloc);
        if let Some(tasks) = free.take() {
            for number in 0..16u64 {
                let (desk, inbox) = open(alloc, 1)?;
                let _full = tasks.send(rt, ToSquare { number, desk });
                inboxes.push(inbox)?;
            }
        }
        let mut sum = 0u64;
        for inbox in inboxes {
            sum = sum.wrapping_add(wait_for(rt, &left, inbox));
        }
        Ok(sum)
    };
    beside_crew(rt, alloc, threads, &left, &task, &mut here)
}

/// Threads of a crew, or the one that asks where there is none, square the numbers.
#[test]
fn a_crew_squares_numbers(rt: HostRuntime) -> Result<(), AllocError> {
    for threads in [0, 3] {
        assert!(rt; sum_of_squares(&rt, rt.alloc(), threads)? == 1240);
    }
    Ok(())
}
