//! Both ways of a case that fails, step by step.

use crate::prose::Prose;
use chr_base::bag::Bag;
use chr_base::derivation::{Derivation, Step};
use chr_diagnosis::{NamedProgram, Peak, told_rule};
use chr_faults::Names;
use std::alloc::{AllocError, Global};

/// A step, and the store that it leaves.
#[derive(Drop)]
pub(crate) struct Card {
    pub step: String,
    pub store: String,
    /// Whether no step is left.
    pub is_end: bool,
}

/// A store, and the steps of both ways from it.
pub(crate) struct Cards {
    pub start: String,
    pub left: Vec<Card>,
    pub right: Vec<Card>,
}

/// What is derived would be proved again at each end of a function that lets them go.
impl Drop for Cards {
    fn drop(self) {
        let Cards {
            start: _start,
            left: _left,
            right: _right,
        } = self;
    }
}

/// What a step does.
fn step_text(alloc: Global, source: NamedProgram<'_>, step: &Step) -> Result<String, AllocError> {
    let mut text = Prose::new(alloc);
    if let Some(rule) = told_rule(source, step.rule as usize) {
        text.push_step(rule, &step.heads);
    }
    text.finish()
}

/// The card of an end after so many steps that are not told.
fn last_card(
    alloc: Global,
    source: NamedProgram<'_>,
    more: usize,
    end: &Bag,
) -> Result<Card, AllocError> {
    let mut step = Prose::new(alloc);
    step.push_number("", more as u64, " steps more");
    Ok(Card {
        step: step.finish()?,
        store: source.store_text(alloc, end)?,
        is_end: true,
    })
}

/// The cards of one way whose first stores are these.
fn way_cards(
    alloc: Global,
    source: NamedProgram<'_>,
    way: &Derivation,
    stores: &[Bag],
    end: &Bag,
) -> Result<Vec<Card>, AllocError> {
    let mut cards = Vec::new(alloc);
    for (i, (step, store)) in way.steps.iter().zip(stores.iter()).enumerate() {
        let step = step_text(alloc, source, step)?;
        let store = source.store_text(alloc, store)?;
        let is_end = usize::saturating_add(i, 1) == way.steps.len();
        cards.push(Card {
            step,
            store,
            is_end,
        })?;
    }
    let more = way.steps.len().saturating_sub(stores.len());
    if 0 < more {
        cards.push(last_card(alloc, source, more, end)?)?;
    }
    Ok(cards)
}

/// Both ways of the case that is shown.
pub(crate) fn cards_of(alloc: Global, names: &Names, peak: &Peak) -> Result<Cards, AllocError> {
    let program = peak.weighed.program();
    let source = NamedProgram { program, names };
    let ways = peak.shown();
    let failure = &ways.failure;
    let start = source.store_text(alloc, &failure.left.start)?;
    let left = way_cards(alloc, source, &failure.left, &ways.left, &failure.left_end)?;
    let right = way_cards(
        alloc,
        source,
        &failure.right,
        &ways.right,
        &failure.right_end,
    )?;
    Ok(Cards { start, left, right })
}
