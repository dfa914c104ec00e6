//! The laws of a run's output being one text. Each is a function that takes nothing: its contract is the law.
ghost use Rattle.chr_report.specs.OneOutput.{OutputsAreOne, OutputsExist};

use chr_answers::{answers_are_one, answers_exist};
use chr_join::{accepted_are_confluent, verdict_is_one};
use chr_read::texts_have_one_answer;

/// Outputs exist. Whatever the bytes of an input are, and for any number of replicas, some status and some text are its
/// output: its program text is read or has a fault, a program that is read lowers or has a first rule that doesn't, one
/// that lowers is accepted or has a first cause that it is refused for, and one that is accepted answers each command
/// line.
pub fn outputs_exist()
    ensures { OutputsExist }
{
    texts_have_one_answer();
    answers_exist();
}

/// Outputs are one text. The bytes of an input and the number of replicas determine the status and all that is written:
/// the verdict, and for an accepted program every answer, whichever normal form each `show` reaches.
pub fn outputs_are_one()
    ensures { OutputsAreOne }
{
    texts_have_one_answer();
    accepted_are_confluent();
    verdict_is_one();
    answers_are_one();
}
