//! The laws of answers being one text. Each is a function that takes nothing: its contract is the law.
ghost use Rattle.chr_answers.specs.OneText.{AnswersAreOne, AnswersExist, FirstAnswersAreOne};

use chr_confluence::laws::newman;
use chr_ops::summaries_are_one;

/// Command lines have answers: for a program that lowers there is one to each line, whatever the replicas were told
/// before.
pub fn answers_exist()
    ensures { AnswersExist }
{
    newman();
    summaries_are_one();
}

/// Answers are one text. For a confluent program two texts that both answer the same command lines are equal, where all
/// that the replicas were told before them are 64-bit values, and so where they were told nothing.
pub fn answers_are_one()
    ensures answers { AnswersAreOne }
    ensures first { FirstAnswersAreOne }
{
    summaries_are_one();
}
