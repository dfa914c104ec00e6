//! The law by which receipts are handed in. It takes nothing and computes nothing: its contract is the law.
ghost use Rattle.chr_shared.specs.Laws.{ListedAreReceipts, ListedStay, ReceivedAreListed};

/// What a seat received is in its list, and stays there in each later call; and what is in the list of one of the seats
/// is a receipt of these seats, with which their book can be closed.
pub fn receipts_are_listed()
    ensures received { ReceivedAreListed }
    ensures stay { ListedStay }
    ensures receipts { ListedAreReceipts }
{}
