//! What is answered to a call, as a row tells it.
use chr_acts::Reply;
use chr_base::bag::Bag;
use chr_ops::Added;

#[derive(Clone, Copy)]
pub enum Said {
    New,
    Again,
    /// A part is leased out under this number.
    Leased(u64),
    WasPut,
    Settled(u64),
    /// A store of this one value is shown.
    Shown(i64),
    /// The number of the refusal.
    Refused(u8),
    /// There is no such replica.
    Nobody,
}

/// Whether this is the value of the only atom of a store.
fn is_only(store: &Bag, value: i64) -> bool {
    match store.atoms() {
        [atom] => atom.args.as_slice() == [value].as_slice(),
        _ => false,
    }
}

/// Whether a reply says this.
pub fn says(reply: &Reply, said: Said) -> bool {
    match (said, reply) {
        (Said::New, Reply::Told(Added::New)) | (Said::Again, Reply::Told(Added::Again)) => true,
        (Said::Leased(number), Reply::Leased(lease)) => lease.number == number,
        (Said::WasPut, Reply::WasPut) => true,
        (Said::Settled(steps), Reply::Settled(count)) => *count == steps,
        (Said::Shown(value), Reply::Shown(store)) => is_only(store, value),
        (Said::Refused(number), Reply::Refused(refusal)) => refusal.number() == number,
        _ => false,
    }
}
