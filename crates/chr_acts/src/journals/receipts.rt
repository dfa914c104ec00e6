//! What receipts of closed books show.
ghost use Rattle.std.specs.Prelude.{◌≡◌, ◌⊎◌, None, Some, IfSome, IsNone, option_copied};
ghost use Rattle.std.specs.List.{Contains};
ghost use Rattle.chr_base.specs.Sameness.{AreSame};
ghost use Rattle.chr_replica.specs.Boards.{program_on};
ghost use Rattle.chr_acts.specs.Receipts.{held_at, store_in, IsAnswerAt, IsPlaced};

use crate::journals::books::{shown_stores_agree, shown_stores_are_answers};
use crate::{Book, Entry, Reply};
use chr_base::bag::Bag;

/// The store that a receipt of the book shows, if it shows one: the one normal form of the operations that are held at
/// the receipt's place in the journal. It takes no memory.
pub fn store_of_receipt<'a>(book: &Book, receipt: &'a Entry) -> Option<&'a Bag>
    requires { Contains book.now.entries receipt.now }
    ensures place { IsPlaced book.now.entries receipt.now }
    ensures store { option_copied result ≡ store_in receipt.now.reply }
    ensures answer { IfSome result (λ store.
        IsAnswerAt (program_on book.now.board) book.now.entries receipt.now store.now) }
{
    book.is_legal();
    shown_stores_are_answers(book);
    store_of_reply(&receipt.reply)
}

/// The store that a reply shows.
fn store_of_reply(reply: &Reply) -> Option<&Bag>
    ensures { option_copied result ≡ store_in reply.now }
{
    match reply {
        Reply::Shown(store) => Some(store),
        _ => None,
    }
}

/// The stores that two receipts show, of one book or of two books of one program, if both show one. They are equal
/// where equal operations are held at both places. It takes no memory.
pub fn stores_of_receipts<'a, 'b>(
    left: &Book,
    receipt: &'a Entry,
    right: &Book,
    other: &'b Entry,
) -> Option<(&'a Bag, &'b Bag)>
    requires program { AreSame (program_on left.now.board) (program_on right.now.board) }
    requires left { Contains left.now.entries receipt.now }
    requires right { Contains right.now.entries other.now }
    ensures none { IsNone result → (store_in receipt.now.reply ≡ None) ⊎ (store_in other.now.reply ≡ None) }
    ensures left { IfSome result (λ stores. (store_in receipt.now.reply ≡ Some stores.0.now)
        × IsAnswerAt (program_on left.now.board) left.now.entries receipt.now stores.0.now) }
    ensures right { IfSome result (λ stores. (store_in other.now.reply ≡ Some stores.1.now)
        × IsAnswerAt (program_on right.now.board) right.now.entries other.now stores.1.now) }
    ensures agree { IfSome result (λ stores. held_at receipt.now left.now.entries ≡ held_at other.now right.now.entries
        → stores.0.now ≡ stores.1.now) }
{
    shown_stores_agree(left, right);
    let store = store_of_receipt(left, receipt)?;
    let other_store = store_of_receipt(right, other)?;
    Some((store, other_store))
}
