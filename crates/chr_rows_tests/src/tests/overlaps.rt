//! Overlaps whose sides are found to be equal as patterns, so that no case of them is made.
ghost use Rattle.std.specs.Prelude.{IfOk};
ghost use Rattle.chr_weights.specs.WeighedPrograms.{rules_in};
ghost use Rattle.chr_overlaps.specs.OverlapLists.{IsOverlapOf};

use crate::tests::texts::weighed;
use chr_overlaps::cases::{sorted_unified, unified};
use chr_overlaps::{Overlap, has_equal_sides, overlaps};
use chr_weights::Weighed;
use std::alloc::{AllocError, Global};
use std::process::Abort;

const RULES: &str = ":- chr_constraint p/1. \
    p(X) \\ p(Y) <=> X =:= Y | true. p(X) <=> X =:= 1 | true. p(X) <=> X =:= 2 | true.";

/// The overlap at a place, where there is memory for all.
fn found_at(
    rt: &impl Abort,
    alloc: Global,
    weighed: &Weighed,
    place: usize,
) -> Result<Overlap, AllocError>
    ensures { IfOk result (IsOverlapOf (rules_in weighed.now)) }
{
    let found = overlaps(alloc, weighed)?;
    assert!(rt; place < found.len());
    Ok(found[place].copy())
}

/// The overlap at a place, counted from 0.
pub fn overlap_at(rt: &impl Abort, alloc: Global, weighed: &Weighed, place: usize) -> Overlap
    ensures { IsOverlapOf (rules_in weighed.now) result }
{
    found_at(rt, alloc, weighed, place).expect(rt, "memory")
}

/// Whether both sides of an overlap are equal as patterns, once matched heads are made one.
fn are_equal(weighed: &Weighed, overlap: &Overlap) -> bool
    requires { IsOverlapOf (rules_in weighed.now) overlap.now }
{
    match unified(weighed, overlap) {
        Some(unified) => has_equal_sides(weighed, overlap, &unified),
        None => false,
    }
}

/// Whether both sides of an overlap are equal as patterns, once matched heads are made one and the `=:=` of both guards
/// are solved.
fn are_equal_joined(weighed: &Weighed, overlap: &Overlap) -> bool
    requires { IsOverlapOf (rules_in weighed.now) overlap.now }
{
    match sorted_unified(weighed, overlap) {
        Some(unified) => has_equal_sides(weighed, overlap, &unified),
        None => false,
    }
}

/// Whether the sides of each of the first overlaps are equal, or not, with heads made one, as is expected of it. With
/// guards solved too, the sides of all are equal.
fn expect_sides(rt: &impl Abort, alloc: Global, weighed: &Weighed, expected: &[bool]) {
    for (place, matched) in expected.iter().enumerate() {
        let overlap = overlap_at(rt, alloc, weighed, place);
        assert!(rt; are_equal(weighed, &overlap) == *matched, "at {place}");
        assert!(rt; are_equal_joined(weighed, &overlap), "at {place}");
    }
}

const SIDES: [bool; 5] = [false, true, true, false, false];

/// The matchings of the first rule with its copy are (0,1), (0,2), (1,2), (2,0) and (2,1). Both steps remove one atom
/// where removed heads are matched, and where the guards make all atoms one.
#[test]
fn sides_are_equal(rt: HostRuntime) {
    let alloc = rt.alloc();
    expect_sides(&rt, alloc, &weighed(&rt, alloc, RULES), &SIDES);
}
