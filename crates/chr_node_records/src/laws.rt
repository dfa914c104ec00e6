//! The law of records: a function that takes nothing and computes nothing, whose contract is the law.
ghost use Rattle.chr_node_records.specs.Texts.{OperationTextsAreRead};

use chr_exchange::messages_are_read_back;

/// The text of an operation of the program's atoms has just this operation.
pub fn operation_texts_are_read()
    ensures { OperationTextsAreRead }
{
    messages_are_read_back();
}
