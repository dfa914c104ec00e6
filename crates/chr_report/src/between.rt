//! Replicas that are rested between two blocks of lines.
ghost use Rattle.std.specs.Prelude.{◌≡◌, ◌≤◌, OnOk};
ghost use Rattle.std.specs.Thread.{IsSync};
ghost use Rattle.chr_answers.specs.Services.{held, IsBetweenLines};

use crate::promptly::promptly;
use chr_answers::Service;
use std::alloc::{AllocError, Global};
use std::sync::Wait;
use std::thread::Threads;

/// Rests a replica's pool by workers, where enough waits in it that they may save time.
fn rest_waiting<R: Threads + Wait + Sync>(
    rt: &R,
    alloc: Global,
    service: &mut Service,
    replica: u64,
) -> Result<(), AllocError>
    requires { IsBetweenLines service.old }
    ensures ready { OnOk result (IsBetweenLines service.new) }
    ensures program { service.new.world.accepted ≡ service.old.world.accepted }
    ensures operations { OnOk result (held service.new ≡ held service.old) }
{
    if !service.is_waiting(replica) {
        return Ok(());
    }
    let mut resting = || -> Result<(), AllocError>
        requires ready { IsBetweenLines service.now }
        requires threads { IsSync R.row }
        ensures ready { OnOk result (IsBetweenLines service.exit.now) }
        ensures program { service.exit.now.world.accepted ≡ service.entry.now.world.accepted }
        ensures operations { OnOk result (held service.exit.now ≡ held service.entry.now) }
    { service.rest_between(rt, alloc, replica) };
    promptly(rt, &mut resting)
}

/// Rests the pools of all replicas by workers, where these may save time.
fn rest_all<R: Threads + Wait + Sync>(
    rt: &R,
    alloc: Global,
    service: &mut Service,
) -> Result<(), AllocError>
    requires { IsBetweenLines service.old }
    ensures ready { OnOk result (IsBetweenLines service.new) }
    ensures program { service.new.world.accepted ≡ service.old.world.accepted }
    ensures operations { OnOk result (held service.new ≡ held service.old) }
{
    for replica in 1..=service.replicas() {
        rest_waiting(rt, alloc, service, replica)?;
    }
    Ok(())
}

/// Rests what was told, where enough atoms wait for workers to rest them. Threads that read lines go on meanwhile.
pub(crate) fn rest_told<R: Threads + Wait + Sync>(
    rt: &R,
    alloc: Global,
    service: &mut Service,
) -> Result<(), AllocError>
    requires { IsBetweenLines service.old }
    ensures ready { OnOk result (IsBetweenLines service.new) }
    ensures program { service.new.world.accepted ≡ service.old.world.accepted }
    ensures operations { OnOk result (held service.new ≡ held service.old) }
{
    if !service.is_to_rest() {
        return Ok(());
    }
    rest_all(rt, alloc, service)
}
