//! Numbers that seats claim.
use chr_workers::claims::Claims;
use std::alloc::AllocError;

#[test]
fn two_seats_claim_three_numbers_in_turn(rt: HostRuntime) -> Result<(), AllocError> {
    let (claims, mut seats) = Claims::open(rt.alloc(), 3, 2)?;
    let mut second = seats.pop().expect(&rt, "the second of two seats");
    let mut first = seats.pop().expect(&rt, "the first of two seats");
    assert!(rt; claims.next(&mut first) == Some(0));
    assert!(rt; claims.next(&mut second) == Some(1));
    assert!(rt; claims.next(&mut first) == Some(2));
    assert!(rt; claims.next(&mut second) == None);
    assert!(rt; claims.next(&mut first) == None);
    assert!(rt; claims.next(&mut second) == None);
    claims.close(vec![in rt.alloc(); first, second]?);
    Ok(())
}
