//! What is to be told of a text, as text.

use crate::prose::Prose;
use crate::sentences::beside_text::push_beside;
use crate::sentences::crowd_text::push_throng;
use crate::sentences::judged_text::{by_option, push_judged};
use crate::sentences::limits::MAX_TOLD_PAIRS;
use crate::sentences::pairs::{ToldPair, pairs_of, push_numbers};
use crate::sentences::peak_text::{advice_of, push_peak};
use crate::sentences::proposal_text::{kept_of, push_proposals};
use crate::sentences::told::Told;
use crate::sentences::weighing_text::{push_cycle, push_found};
use crate::sentences::weight_text::{can_lower, push_lowering, push_weights};
use chr_base::program::Program;
use chr_diagnosis::{
    Census, Diagnosis, Judged, NamedProgram, Peak, Proposal, Throng, ToldRule, Unlowered, told_rule,
};
use chr_faults::{Names, TextFaults, column_faults, faults_told, notes_of, push_column_faults};
use chr_join::Coverage;
use chr_overlaps::cases::MAX_TYPES;
use chr_weighing::{MAX_SEARCH_STEPS, Weighing};
use chr_weights::NotLowered;
use std::alloc::{AllocError, Global};

/// Tells of a rule that does not lower the weight.
fn push_unlowered(alloc: Global, out: &mut Prose, names: &Names, told: &Unlowered) {
    let number = told.fault.rule;
    let source = NamedProgram {
        program: &told.program,
        names,
    };
    out.push_number(
        "refused 20: rule ",
        number as u64,
        " does not lower the weight\n",
    );
    let Some(rule) = told_rule(source, number) else {
        return;
    };
    out.push_str("  ");
    out.push_clause(alloc, rule);
    out.push_str("\n");
    let paired = told.program.has_pairs();
    push_weights(alloc, out, rule, "removed", &rule.rule.removed, paired);
    out.push_str("; together ");
    out.push_weight(told.fault.before, paired);
    out.push_str("\n");
    push_weights(alloc, out, rule, "body", &rule.rule.body, paired);
    out.push_str("; together ");
    out.push_weight(told.fault.after, paired);
    out.push_str(
        "\nThe removed heads have to weigh more than the body, so that the rules come to an end.\n",
    );
    push_remedy(alloc, out, source, rule, told)
}

/// Adds what would lower the weight.
fn push_remedy(
    alloc: Global,
    out: &mut Prose,
    source: NamedProgram<'_>,
    rule: ToldRule<'_>,
    told: &Unlowered,
) {
    if !can_lower(rule.rule) {
        return out.push_str(
            "No weights do that: the body has each removed symbol at least as often. Remove more heads, or write a smaller body.\n",
        );
    }
    match &told.weighing {
        Weighing::Weights(weighed) => push_found(out, weighed.program()),
        Weighing::Cycle(cycle) => push_cycle(alloc, out, source, cycle),
        Weighing::Unknown => push_unknown(out, rule, &told.fault),
    }
}

/// Adds what is known where nothing was found of all rules together.
fn push_unknown(out: &mut Prose, rule: ToldRule<'_>, fault: &NotLowered) {
    out.push_number(
        "A search of at most ",
        MAX_SEARCH_STEPS as u64,
        " steps found neither weights for all rules, nor rules that have none.\n",
    );
    push_lowering(out, rule, fault);
    out.push_str(
        "Where other rules leave no single number that does it, a weight can be a pair, of which the first number counts for more, as in `:- chr_weight a/0 = 1,0.`\n",
    )
}

/// Tells the numbers of an accepted program.
fn push_numbers_of(out: &mut Prose, census: &Census) {
    let rules = census.accepted.program().rules().len();
    let overlaps = census.counts.len();
    let cases = census.accepted.cases();
    let by = by_option(census.accepted.coverage());
    out.push_text("accepted", by, ": rules ");
    out.push_number("", rules as u64, ", overlaps ");
    out.push_number("", overlaps as u64, ", cases ");
    out.push_number("", cases as u64, "\n")
}

/// Tells what an accepted program is.
fn push_census(
    alloc: Global,
    out: &mut Prose,
    names: &Names,
    census: &Census,
    all: bool,
) -> Result<(), AllocError> {
    out.push_str("Every store comes to one end, in whatever order the rules are applied.\n");
    push_beside(alloc, out, names, census.accepted.weighed())?;
    let pairs = pairs_of(alloc, &census.counts)?;
    if !all && MAX_TOLD_PAIRS < pairs.len() {
        let behind = " pairs of rules overlap; `--all` tells each.\n";
        out.push_number("", pairs.len() as u64, behind);
    } else {
        push_pairs(out, &pairs, census.accepted.coverage());
    }
    Ok(())
}

/// Tells of all overlaps, by pairs of rules.
fn push_pairs(out: &mut Prose, pairs: &[ToldPair], coverage: Coverage) {
    out.push_str(if pairs.is_empty() {
        ""
    } else {
        "Rules whose heads overlap:\n"
    });
    for pair in pairs {
        push_pair(out, pair, coverage);
    }
}

/// Tells of the overlaps of two rules.
fn push_pair(out: &mut Prose, pair: &ToldPair, coverage: Coverage) {
    out.push_number("  rules ", u64::from(pair.first), " ");
    out.push_number("", u64::from(pair.second), ": ");
    push_numbers(out, pair, coverage);
    out.push_str("\n")
}

/// Tells of an overlap with too many combinations of values.
fn push_throng_of(
    alloc: Global,
    out: &mut Prose,
    names: &Names,
    judged: &Judged,
    throng: &Throng,
) -> Result<(), AllocError> {
    let by = by_option(judged.coverage);
    out.push_text("refused 22", by, "");
    out.push_number(
        ": an overlap has more than ",
        MAX_TYPES as u64,
        " combinations of values\n",
    );
    push_judged(out, judged);
    push_throng(alloc, out, names, throng)
}

/// Tells of a program none of whose cases is known to fail, of all pairs of rules where `all`.
fn push_program(
    alloc: Global,
    out: &mut Prose,
    names: &Names,
    judged: &Judged,
    all: bool,
) -> Result<(), AllocError> {
    match &judged.diagnosis {
        Diagnosis::Text(_) | Diagnosis::Fails(_) => Ok(()),
        Diagnosis::NotLowered(told) => {
            push_unlowered(alloc, out, names, told);
            Ok(())
        }
        Diagnosis::TooManyCombinations(throng) => push_throng_of(alloc, out, names, judged, throng),
        Diagnosis::Accepted(census) => {
            push_numbers_of(out, census);
            push_judged(out, judged);
            push_census(alloc, out, names, census, all)
        }
    }
}

/// What is told of a program none of whose cases is known to fail, of all pairs of rules where `all`.
fn program_words(
    alloc: Global,
    names: &Names,
    judged: &Judged,
    all: bool,
) -> Result<String, AllocError> {
    let mut out = Prose::new(alloc);
    push_program(alloc, &mut out, names, judged, all)?;
    out.finish()
}

/// What is to be told of a program none of whose cases is known to fail, of all pairs of rules where `all`.
fn program_told(
    alloc: Global,
    text: &[u8],
    program: &Program,
    judged: &Judged,
    all: bool,
) -> Result<Told, AllocError> {
    let names = Names::of(alloc, text, program)?;
    let mut told = Told::nothing(alloc);
    told.text = program_words(alloc, &names, judged, all)?;
    tell_misnamed(alloc, &mut told, text, program)?;
    Ok(told)
}

/// Tells of comments that name columns as the program has none.
fn tell_misnamed(
    alloc: Global,
    told: &mut Told,
    text: &[u8],
    program: &Program,
) -> Result<(), AllocError> {
    told.misnamed = column_faults(alloc, text, program)?;
    push_column_faults(&mut told.text, text, &told.misnamed)
}

/// Tells of a case that fails, and of what can be done but for what is proposed.
fn push_failing(
    alloc: Global,
    out: &mut Prose,
    names: &Names,
    judged: &Judged,
    peak: &Peak,
    advice: &[&'static str],
) {
    let by = by_option(judged.coverage);
    out.push_text("refused 21", by, ": one store comes to two ends\n");
    push_judged(out, judged);
    push_peak(alloc, out, names, peak);
    for sentence in advice {
        out.push_text("", sentence, "\n");
    }
}

/// What is told of a program of which a case fails: why, what can be done, and what is proposed.
fn failing_words(
    alloc: Global,
    names: &Names,
    judged: &Judged,
    peak: &Peak,
    proposals: &[Proposal],
    told: &Told,
) -> Result<String, AllocError> {
    let mut out = Prose::new(alloc);
    push_failing(alloc, &mut out, names, judged, peak, &told.advice);
    push_proposals(&mut out, judged.coverage, proposals, &told.kept);
    out.finish()
}

/// Tells of a program of which a case fails.
fn tell_peak(
    alloc: Global,
    told: &mut Told,
    names: &Names,
    judged: &Judged,
    peak: &Peak,
    proposals: &[Proposal],
) -> Result<(), AllocError> {
    told.advice = advice_of(alloc, names, peak, proposals)?;
    told.kept = kept_of(alloc, names, peak, proposals)?;
    told.text = failing_words(alloc, names, judged, peak, proposals, told)?;
    Ok(())
}

/// What is to be told of a program of which a case fails.
fn peak_told(
    alloc: Global,
    text: &[u8],
    judged: &Judged,
    peak: &Peak,
    proposals: &[Proposal],
) -> Result<Told, AllocError> {
    let program = peak.weighed.program();
    let names = Names::of(alloc, text, program)?;
    let mut told = Told::nothing(alloc);
    tell_peak(alloc, &mut told, &names, judged, peak, proposals)?;
    tell_misnamed(alloc, &mut told, text, program)?;
    Ok(told)
}

/// What is to be told of a text that is no program.
fn faulty_told(alloc: Global, text: &[u8], faults: &TextFaults) -> Result<Told, AllocError> {
    let mut told = Told::nothing(alloc);
    told.notes = notes_of(alloc, text, faults)?;
    told.text = faults_told(alloc, text, faults, &told.notes)?;
    Ok(told)
}

/// What is to be told of a text, of all pairs of rules where `all`.
pub(crate) fn told_text(
    alloc: Global,
    text: &[u8],
    judged: &Judged,
    proposals: &[Proposal],
    all: bool,
) -> Result<Told, AllocError> {
    match &judged.diagnosis {
        Diagnosis::Text(faults) => faulty_told(alloc, text, faults),
        Diagnosis::Fails(peak) => peak_told(alloc, text, judged, peak, proposals),
        Diagnosis::NotLowered(told) => program_told(alloc, text, &told.program, judged, all),
        Diagnosis::TooManyCombinations(throng) => {
            program_told(alloc, text, throng.weighed.program(), judged, all)
        }
        Diagnosis::Accepted(census) => {
            program_told(alloc, text, census.accepted.program(), judged, all)
        }
    }
}
