//! By which cases a program was judged, as text.

use crate::prose::Prose;
use chr_diagnosis::{Diagnosis, Judged};
use chr_join::Coverage;

/// What stands behind a verdict's first words: the option by which a check has the same verdict.
pub(crate) fn by_option(coverage: Coverage) -> &'static str {
    match coverage {
        Coverage::Joint => "",
        Coverage::Sorted => " with --wide",
    }
}

/// Tells that there were too many joint cases, where that is why the sorted ones were looked at, and what to do.
pub(crate) fn push_judged(out: &mut Prose, judged: &Judged) {
    if judged.crowd.is_none() {
        return;
    }
    out.push_str(match judged.diagnosis {
        Diagnosis::TooManyCombinations(_) => "Without --wide there are too many cases too.\n",
        _ =>
            "Without --wide it is refused 22, for too many cases: judge it with --wide, by the columns that rules compare.\n",
    })
}
