//! Parts that are leased out, seen as a finite map. How they are kept is known in this file alone.
ghost use Rattle.std.specs.Prelude.{◌≡◌, ◌+◌, ◌<◌, ◌^◌, ◌↔◌, length, OnOk, OnErr, IfSome, IfNone, IsSome, IsTrue};
ghost use Rattle.std.specs.Prelude.{option_copied, Some};
ghost use Rattle.std.specs.FinMap as map;
ghost use Rattle.chr_replica.specs.Leases.{with_parts, parts_in, AreBelow};
ghost use Rattle.chr_replica.specs.LeastOut.{AreFrom};
ghost use Rattle.chr_replica.specs.RestedOps.{IsOut};
ghost use Rattle.chr_replica.specs.working.Joining.{left_out};

use crate::rested::LeasedPart;
use chr_base::bag::Bag;
use chr_join::Lease;
use std::alloc::{AllocError, Global};
use std::collections::BTreeMap;
use std::marker::Model;

/// The parts that are out, by their lease numbers.
#[derive(Drop)]
pub(crate) struct Leases {
    parts: BTreeMap<u64, Bag>,
}

impl Model for Leases {
    ghost use Rattle.std.specs.FinMap as map;
    ghost use Rattle.chr_replica.specs.Leases.{Leases};
    ghost use Rattle.chr_replica.specs.working.Codes.{coded_leases};

    ghost Value = { Leases };

    ghost coded = { coded_leases };

    ghost view = { λ l. map.from_entries l.parts.entries };
}

impl Leases {
    /// Nothing is out.
    pub(crate) fn new(alloc: Global) -> Leases
        ensures { result ≡ map.empty }
    {
        Leases {
            parts: BTreeMap::new(alloc),
        }
    }

    /// The part that is out under a number. It takes no memory.
    pub(crate) fn get(&self, number: u64) -> Option<&Bag>
        ensures { option_copied result ≡ map.get self.now number }
    {
        self.parts.get(&number)
    }

    /// Whether this is the part that is out under a number. It takes no memory.
    pub(crate) fn has(&self, number: u64, part: &Bag) -> bool
        ensures { IsTrue result ↔ (map.get self.now number ≡ Some part.now) }
    {
        match self.get(number) {
            Some(out) => out.is_same(part),
            None => false,
        }
    }

    /// Whether the part that is carried, if any, is out under its number. It takes no memory.
    pub(crate) fn have(&self, carried: Option<LeasedPart<'_>>) -> bool
        ensures { IsTrue result ↔ IsOut self.now carried.entry }
    {
        match carried {
            Some(leased) => self.has(leased.number, leased.part),
            None => true,
        }
    }

    /// Puts a part under a number.
    pub(crate) fn insert(&mut self, number: u64, part: Bag) -> Result<(), AllocError>
        ensures ok { OnOk result (self.new ≡ map.insert self.old number part) }
        ensures err { OnErr result (self.new ≡ self.old) }
    {
        self.parts.insert(number, part)?;
        Ok(())
    }

    /// Puts copies of the parts of leases under rising numbers from a first one on, which is above those that are out:
    /// all of them, or none where memory is refused.
    pub(crate) fn insert_all(
        &mut self,
        alloc: Global,
        first: u64,
        leases: &[Lease],
    ) -> Result<(), AllocError>
        requires above { AreBelow self.old first }
        requires fits { first + length leases.now < 2 ^ 64 }
        ensures ok { OnOk result (self.new ≡ with_parts self.old first (parts_in leases.now)) }
        ensures err { OnErr result (self.new ≡ self.old) }
    {
        let [lease, rest @ ..] = leases else {
            return Ok(());
        };
        self.insert(first, lease.part.copy(alloc)?)?;
        if self.insert_all(alloc, first + 1, rest).is_err() {
            self.remove(first);
            return Err(AllocError);
        }
        Ok(())
    }

    /// Takes out the part of a number, where there is one. It takes no memory.
    pub(crate) fn remove(&mut self, number: u64)
        ensures { self.new ≡ map.remove self.old number }
    {
        self.parts.remove(&number);
    }

    /// Takes out the part that is carried, if any. It takes no memory.
    pub(crate) fn leave_out(&mut self, carried: Option<LeasedPart<'_>>)
        ensures { self.new ≡ left_out self.old carried.entry }
    {
        if let Some(leased) = carried {
            self.remove(leased.number);
        }
    }

    /// How many parts are out. It takes no memory.
    pub(crate) fn len(&self) -> usize
        ensures count { result ≡ map.len self.now }
        ensures none { result ≡ 0 → self.now ≡ map.empty }
    {
        self.parts.len()
    }

    /// The least number that is out. It takes no memory.
    pub(crate) fn least(&self) -> Option<u64>
        ensures some { IfSome result (λ k. IsSome (map.get self.now k)) }
        ensures least { IfSome result (AreFrom self.now) }
        ensures none { IfNone result (self.now ≡ map.empty) }
    {
        match self.parts.first_key_value() {
            Some((number, _)) => Some(*number),
            None => None,
        }
    }
}
