//! Replicas that are told operations which were rested by the thread that read them.
ghost use Rattle.std.specs.Prelude.{◌≡◌, ◌<◌, IfNone, IfOk, IfSome, length, vec_len};
ghost use Rattle.chr_base.specs.FinBag as bag;
ghost use Rattle.chr_base.specs.Stores.{store_of};
ghost use Rattle.chr_ops.specs.Operations.{sum_of};
ghost use Rattle.chr_worlds.specs.Sharing.{shared_program};
ghost use Rattle.chr_answers.specs.Gathered.{AreRested};
ghost use Rattle.chr_answers.specs.Services.{AreBetweenLines};
ghost use Rattle.chr_answers.specs.working.Resting.{TellsAt};

use crate::tells::Tells;
use chr_base::atom::Atom;
use chr_base::bag::Bag;
use chr_base::lists::push_copies;
use chr_ops::Op;
use chr_replica::{Destination, LeasedPart, Placed, RestedOps};
use chr_worlds::World;
use std::alloc::{AllocError, Global};

/// The most parts that are known by their numbers. What a thread that reads lines carries is one of the last of them.
const MOST_PARTS: usize = 64;

/// The atoms of all these operations.
fn atoms_of(alloc: Global, ops: &[Op]) -> Result<Vec<Atom>, AllocError>
    ensures { IfOk result (λ atoms. store_of atoms.items ≡ sum_of ops.now) }
{
    let mut atoms = Vec::new(alloc);
    for op in ops {
        push_copies(&mut atoms, op.bag().atoms())?;
    }
    Ok(atoms)
}

/// The place, in the list of known parts, of the number under which the carried part is still leased out, if it is.
fn place_of(world: &World, parts: &[u64], tells: &Tells) -> Option<usize>
    ensures { IfSome result (λ place. place < length parts.now) }
{
    let board = world.board(tells.replica)?;
    for (place, number) in parts.iter().enumerate() {
        if board.has_leased(*number, &tells.carried.part) {
            return Some(place);
        }
    }
    None
}

/// Where what was rested goes: it is leased out if it may be carried on.
fn destination(tells: &Tells) -> Destination {
    if tells.goes_on {
        Destination::Lease
    } else {
        Destination::Pool
    }
}

/// Keeps the number of a part that was leased out. Where [`MOST_PARTS`] are kept already, the first of them is dropped.
fn push_part(parts: &mut Vec<u64>, placed: Placed) -> Result<(), AllocError> {
    let Placed::Leased(number) = placed else {
        return Ok(());
    };
    if parts.len() >= MOST_PARTS {
        parts.remove(0);
    }
    parts.push(number)?;
    Ok(())
}

/// Keeps the number of a part that was leased out in the place of the part that it was made of, if it is carried on.
/// Else the number in that place is dropped.
fn put_part(parts: &mut Vec<u64>, place: usize, placed: Placed, goes_on: bool)
    requires { place < vec_len parts.old }
{
    match placed {
        Placed::Leased(number) if goes_on => parts[place] = number,
        _ => {
            parts.remove(place);
        }
    }
}

/// How many of these atoms wait in the pool after they were placed.
fn waiting(atoms: &Bag, placed: Placed) -> u64 {
    match placed {
        Placed::InPool => atoms.len() as u64,
        Placed::Leased(_) => 0,
    }
}

/// Tells a replica operations to which nothing was carried.
fn tell_alone(
    alloc: Global,
    world: &mut World,
    parts: &mut Vec<u64>,
    tells: &Tells,
) -> Result<Option<u64>, AllocError>
    requires between { AreBetweenLines (shared_program world.old) world.old.replicas }
    requires rested { AreRested (shared_program world.old) tells.now }
    requires none { tells.now.carried.part ≡ bag.empty }
    ensures program { world.new.accepted ≡ world.old.accepted }
    ensures told { IfOk result (λ found. IfSome found (λ _. TellsAt (shared_program world.old) world.old.replicas
        tells.now.replica tells.now.ops.items world.new.replicas)) }
    ensures same { IfOk result (λ found. IfNone found (world.new.replicas ≡ world.old.replicas)) }
{
    let told = RestedOps {
        ops: &tells.ops,
        carried: None,
        rested: &tells.rested,
    };
    let found = world.tell_rested(alloc, tells.replica, &told, destination(tells))?;
    let Some(placed) = found else {
        return Ok(None);
    };
    push_part(parts, placed)?;
    Ok(Some(waiting(&tells.rested, placed)))
}

/// Tells a replica operations with the carried part, whose number is at `place`. What becomes of both is leased out
/// even where it is not carried on: it comes back with all other parts before the replica is shown.
fn tell_carried(
    alloc: Global,
    world: &mut World,
    parts: &mut Vec<u64>,
    place: usize,
    tells: &Tells,
) -> Result<Option<u64>, AllocError>
    requires place { place < vec_len parts.old }
    requires between { AreBetweenLines (shared_program world.old) world.old.replicas }
    requires rested { AreRested (shared_program world.old) tells.now }
    ensures program { world.new.accepted ≡ world.old.accepted }
    ensures told { IfOk result (λ found. IfSome found (λ _. TellsAt (shared_program world.old) world.old.replicas
        tells.now.replica tells.now.ops.items world.new.replicas)) }
    ensures same { IfOk result (λ found. IfNone found (world.new.replicas ≡ world.old.replicas)) }
{
    let told = RestedOps {
        ops: &tells.ops,
        carried: Some(LeasedPart {
            number: parts[place],
            part: &tells.carried.part,
        }),
        rested: &tells.rested,
    };
    let found = world.tell_rested(alloc, tells.replica, &told, Destination::Lease)?;
    let Some(placed) = found else {
        return Ok(None);
    };
    put_part(parts, place, placed, tells.goes_on);
    Ok(Some(0))
}

/// Tells a replica operations, whose atoms are `atoms`, without what was made of these.
fn tell_atoms<'a>(
    alloc: Global,
    world: &mut World,
    tells: &'a Tells,
    atoms: &'a Bag,
) -> Result<Option<u64>, AllocError>
    requires between { AreBetweenLines (shared_program world.old) world.old.replicas }
    requires rested { AreRested (shared_program world.old) tells.now }
    requires atoms { atoms.now ≡ sum_of tells.now.ops.items }
    ensures program { world.new.accepted ≡ world.old.accepted }
    ensures told { IfOk result (λ found. IfSome found (λ _. TellsAt (shared_program world.old) world.old.replicas
        tells.now.replica tells.now.ops.items world.new.replicas)) }
    ensures same { IfOk result (λ found. IfNone found (world.new.replicas ≡ world.old.replicas)) }
{
    let told = RestedOps {
        ops: &tells.ops,
        carried: None,
        rested: atoms,
    };
    let found = world.tell_rested(alloc, tells.replica, &told, Destination::Pool)?;
    let Some(placed) = found else {
        return Ok(None);
    };
    Ok(Some(waiting(atoms, placed)))
}

/// Tells a replica operations without what was made of their atoms, where the part that was carried to them is leased
/// out no more.
fn tell_unrested(alloc: Global, world: &mut World, tells: &Tells) -> Result<Option<u64>, AllocError>
    requires between { AreBetweenLines (shared_program world.old) world.old.replicas }
    requires rested { AreRested (shared_program world.old) tells.now }
    ensures program { world.new.accepted ≡ world.old.accepted }
    ensures told { IfOk result (λ found. IfSome found (λ _. TellsAt (shared_program world.old) world.old.replicas
        tells.now.replica tells.now.ops.items world.new.replicas)) }
    ensures same { IfOk result (λ found. IfNone found (world.new.replicas ≡ world.old.replicas)) }
{
    let atoms = Bag::of(atoms_of(alloc, &tells.ops)?)?;
    tell_atoms(alloc, world, tells, &atoms)
}

/// Tells a replica operations that were rested, where there is that replica and they are all new, and answers how many
/// more atoms wait in its pool. Else nothing is answered, and nothing changes. `parts` has the numbers of the parts
/// that may be carried on.
pub(crate) fn tell_replica(
    alloc: Global,
    world: &mut World,
    parts: &mut Vec<u64>,
    tells: &Tells,
) -> Result<Option<u64>, AllocError>
    requires between { AreBetweenLines (shared_program world.old) world.old.replicas }
    requires rested { AreRested (shared_program world.old) tells.now }
    ensures program { world.new.accepted ≡ world.old.accepted }
    ensures told { IfOk result (λ found. IfSome found (λ _. TellsAt (shared_program world.old) world.old.replicas
        tells.now.replica tells.now.ops.items world.new.replicas)) }
    ensures same { IfOk result (λ found. IfNone found (world.new.replicas ≡ world.old.replicas)) }
{
    if tells.carried.part.is_empty() {
        return tell_alone(alloc, world, parts, tells);
    }
    match place_of(world, parts, tells) {
        Some(place) => tell_carried(alloc, world, parts, place, tells),
        None => tell_unrested(alloc, world, tells),
    }
}
