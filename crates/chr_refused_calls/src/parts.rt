//! Calls on leases. A lease of which nothing came is handed back.
use crate::printing::{answer, call, print_done, print_lease};
use crate::texts::accepted_of;
use chr_join::{Accepted, Lease, StepFault};
use chr_replica::Refusal;
use chr_testing::atoms::bag_of_values;
use chr_testing::texts::{MINIMUM, step_of};
use std::alloc::Global;
use std::thread::Threads;

#[derive(Clone, Copy)]
pub enum PartCall {
    Rest,
    Step,
}

fn rest(rt: &impl Print, alloc: Global, accepted: &Accepted, lease: Lease) {
    call(rt);
    match accepted.rest_part(alloc, lease) {
        Ok(done) => {
            answer(rt, None);
            print_done(rt, alloc, accepted.program(), &done);
        }
        Err(refused) => {
            answer(rt, Some(Refusal::Memory));
            print_lease(rt, alloc, accepted.program(), &refused.value);
        }
    }
}

/// Why steps were not taken, as a refusal of a board.
fn refusal_of(fault: StepFault) -> Refusal {
    match fault {
        StepFault::Memory => Refusal::Memory,
        StepFault::NotThere(_) => Refusal::NotThere,
    }
}

fn step(rt: &impl Print, alloc: Global, accepted: &Accepted, lease: Lease) {
    let Some(step) = step_of(alloc, MINIMUM, 1, "min(3), min(5)") else {
        return;
    };
    call(rt);
    match accepted.step_part(alloc, lease, &[step]) {
        Ok(done) => {
            answer(rt, None);
            print_done(rt, alloc, accepted.program(), &done);
        }
        Err(not_stepped) => {
            answer(rt, Some(refusal_of(not_stepped.fault)));
            print_lease(rt, alloc, accepted.program(), &not_stepped.lease);
        }
    }
}

pub fn make(rt: &(impl Print + Threads + Sync), alloc: Global, made: PartCall) -> Option<()> {
    let part = bag_of_values(alloc, &[5, 3, 9]).ok()?;
    let accepted = accepted_of(rt, alloc, MINIMUM)?;
    let lease = Lease { number: 4, part };
    print_lease(rt, alloc, accepted.program(), &lease);
    match made {
        PartCall::Rest => rest(rt, alloc, &accepted, lease),
        PartCall::Step => step(rt, alloc, &accepted, lease),
    }
    Some(())
}
