//! What the laws of journals say of books, whose journals are legal and whose programs are confluent.
ghost use Rattle.std.specs.Prelude.{◌≡◌};
ghost use Rattle.chr_base.specs.Sameness.{AreSame};
ghost use Rattle.chr_replica.specs.Boards.{program_on};
ghost use Rattle.chr_acts.specs.JournalLaws.{held_in, ShowsAnswers, ShowsAgree};

use crate::Book;
use crate::journals::laws::journals_tell;

/// A book holds the operations that its journal tells, and each store that it ever showed is the one normal form of
/// the operations that were held then.
pub fn shown_stores_are_answers(book: &Book)
    ensures held { book.now.board.replica.operations ≡ held_in book.now.entries }
    ensures answers { ShowsAnswers (program_on book.now.board) book.now.entries }
{
    journals_tell();
    book.is_legal();
    book.board().is_sound();
    book.board().program().weighed();
}

/// Stores that two books of one program showed are equal where the same operations were held.
pub fn shown_stores_agree(left: &Book, right: &Book)
    requires { AreSame (program_on left.now.board) (program_on right.now.board) }
    ensures { ShowsAgree left.now.entries right.now.entries }
{
    journals_tell();
    left.is_legal();
    right.is_legal();
    left.board().is_sound();
    right.board().is_sound();
    left.board().program().weighed();
}
