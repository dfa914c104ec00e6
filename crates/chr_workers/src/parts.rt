//! Parts that are claimed by workers, and rested.
ghost use Rattle.std.specs.Prelude.{◌≡◌, ◌≤◌, vec_len, All, IfOk};
ghost use Rattle.chr_base.specs.declared.limits.TheConstants.{MAX_PARTS, MAX_WORKERS};
ghost use Rattle.chr_workers.specs.ClaimSeats.{IsOf};

use crate::claims::{ClaimSeat, Claims};
use crate::gate::{Gate, Passed};
use crate::rested::Rested;
use chr_base::limits::{MAX_PARTS, MAX_WORKERS};
use chr_join::{Accepted, Lease};
use std::alloc::{AllocError, Global};
use std::sync::{Mutex, Wait};
use std::thread;
use std::thread::Threads;

/// A place for each part: the lease that waits there, and what came of it, each under a lock of its own. Workers claim
/// parts by their numbers.
#[derive(Drop)]
struct Places {
    // Which parts were claimed.
    claims: Claims,
    // The lease of each part, until a worker takes it.
    waiting: Vec<Mutex<Option<Lease>>>,
    // What came of each part, once it was rested.
    results: Vec<Mutex<Option<Rested>>>,
    ghost all_wait: { vec_len waiting ≡ claims.parts },
    ghost all_result: { vec_len results ≡ claims.parts },
    ghost few: { claims.parts ≤ MAX_PARTS },
}

/// Room for parts that workers will rest, with a seat for each worker.
#[derive(Drop)]
pub struct Parts {
    places: Places,
    seats: Vec<ClaimSeat>,
    ghost seated: { All (λ s. IsOf places.claims s) seats.items },
}

impl Places {
    /// Empty places for `parts` parts, and the seats of `workers` workers.
    fn open(alloc: Global, parts: u32, workers: u32) -> Result<(Places, Vec<ClaimSeat>), AllocError>
        requires workers { 1 ≤ workers }
        requires parts { parts ≤ MAX_PARTS }
        ensures { IfOk result (λ r. All (λ s. IsOf r.0.claims s) r.1.items) }
    {
        let mut waiting = Vec::with_capacity(alloc, parts as usize)?;
        let mut results = Vec::with_capacity(alloc, parts as usize)?;
        for _ in 0..parts {
            waiting.push_reserved(Mutex::new(None));
            results.push_reserved(Mutex::new(None));
        }
        let (claims, seats) = Claims::open(alloc, parts, workers)?;
        let places = Places {
            claims,
            waiting,
            results,
        };
        Ok((places, seats))
    }

    /// Puts each lease down at its place, where there is that place.
    fn put_down<R: Wait>(&self, rt: &R, leases: Vec<Lease>) {
        let mut leases = leases;
        while let Some(lease) = leases.pop() {
            if let Some(place) = self.waiting.get(leases.len()) {
                *place.lock(rt) = Some(lease);
            }
        }
    }
}

impl Parts {
    /// Room for `parts` parts and `workers` workers. After it, memory is needed for the resting alone.
    pub fn open(alloc: Global, parts: u32, workers: u32) -> Result<Parts, AllocError>
        requires workers { (1 ≤ workers) × (workers ≤ MAX_WORKERS) }
        requires parts { parts ≤ MAX_PARTS }
    {
        let (places, seats) = Places::open(alloc, parts, workers)?;
        Ok(Parts { places, seats })
    }
}

/// The work of one worker, as long as there are parts: it claims one, passes the gate with it, rests it outside any
/// lock, and puts down what came of it. A part whose resting is refused memory is left out.
fn work<R: Wait, G: Gate>(
    rt: &R,
    alloc: Global,
    accepted: &Accepted,
    places: &Places,
    seat: ClaimSeat,
    gate: &G,
)
    requires { IsOf places.now.claims seat }
{
    let mut seat = seat;
    for _ in 0..places.waiting.len() {
        let Some(claim) = places.claims.next(&mut seat) else {
            return;
        };
        let part = places.waiting[claim as usize].lock(rt).take();
        if let Some(lease) = part {
            let passed = Passed::by(gate, claim + 1, lease);
            let rested = Rested::of(alloc, accepted, passed);
            *places.results[claim as usize].lock(rt) = rested;
        }
    }
}

/// Starts a worker for each seat but the last, which is that of the caller's thread, and works until all are done. A
/// worker that cannot be started is left out: the others claim its parts.
fn start<R: Threads + Wait + Sync, G: Gate>(
    rt: &R,
    alloc: Global,
    accepted: &Accepted,
    places: &Places,
    seats: Vec<ClaimSeat>,
    gate: &G,
)
    requires { All (λ s. IsOf places.now.claims s) seats.items }
{
    let mut seats = seats;
    let Some(mine) = seats.pop() else {
        return;
    };
    thread::scope(
        thread::scope_env(),
        rt,
        move |scope|
            requires { All (λ s. IsOf places.now.claims s) seats.items × IsOf places.now.claims mine }
        {
            let mut seats = seats;
            while let Some(seat) = seats.pop() {
                let _ = scope.spawn(
                    move ||
                        requires { IsOf places.now.claims seat }
                    { work(rt, alloc, accepted, places, seat, gate) },
                );
            }
            work(rt, alloc, accepted, places, mine, gate);
        },
    );
}

/// Rests leases by workers, of which the caller is the first, and answers what came of them. Leases whose resting is
/// refused memory, and those for which there is no room, are left out.
pub fn rest_parts<R: Threads + Wait + Sync, G: Gate>(
    rt: &R,
    alloc: Global,
    accepted: &Accepted,
    parts: Parts,
    leases: Vec<Lease>,
    gate: &G,
) -> Vec<Mutex<Option<Rested>>> {
    let Parts { places, seats } = parts;
    places.put_down(rt, leases);
    start(rt, alloc, accepted, &places, seats, gate);
    let Places { results, .. } = places;
    results
}
