//! What is wrong with a bad clause, and where.

use crate::cause::{Cause, Over, WeightFault};
use crate::foreign::{foreign_byte, foreign_token};
use crate::rule::{PlacedAtom, atoms_of, before, first_of, from, without_label};
use crate::syntax::stuck_in;
use crate::token::{first_place, is_comparison, is_name, is_number, is_sign, is_variable};
use crate::word::{ToldArity, ToldSymbol};
use chr_base::limits::{
    MAX_ARITY, MAX_BODY, MAX_COMPARISONS, MAX_HEADS, MAX_NAME, MAX_RULES, MAX_SYMBOLS, MAX_WEIGHT,
};
use chr_base::program::Program;
use chr_read::Fault;
use chr_syntax::{PlacedToken, Sign, placed_tokens};
use std::alloc::{AllocError, Global};

/// What is wrong with a clause, and how many of its bytes stand before the place where it is.
#[derive(Clone, Copy)]
pub(crate) struct Finding<'a> {
    pub cause: Cause<'a>,
    pub at: usize,
}

fn is_text_byte(byte: u8) -> bool {
    byte == b'\t' || byte == b'\n' || byte == b'\r' || (b' ' <= byte && byte <= b'~')
}

/// The first byte that may not stand in a clause.
fn bad_byte(clause: &[u8]) -> Option<Finding<'_>> {
    for (at, byte) in clause.iter().enumerate() {
        if !is_text_byte(*byte) {
            return Some(Finding {
                cause: Cause::Byte(*byte),
                at,
            });
        }
    }
    None
}

/// Why the clause has no form.
fn no_form<'a>(clause: &'a [u8], tokens: &[PlacedToken<'a>]) -> Option<Finding<'a>> {
    if tokens.is_empty() {
        return Some(Finding {
            cause: Cause::Empty,
            at: clause.len(),
        });
    }
    let unknown = tokens
        .iter()
        .take_while(|token| token.token.is_some())
        .count();
    if let Some(token) = tokens.get(unknown) {
        return Some(Finding {
            cause: Cause::NoToken(token.word, foreign_byte(tokens, unknown)),
            at: token.at,
        });
    }
    let stuck = stuck_in(tokens)?;
    Some(Finding {
        cause: Cause::Form(stuck, foreign_token(tokens, stuck)),
        at: match stuck.found {
            Some(token) => token.at,
            None => clause.len(),
        },
    })
}

fn propagation<'a>(tokens: &[PlacedToken<'a>]) -> Option<Finding<'a>> {
    let token = tokens.get(first_of(tokens, Sign::Propagate))?;
    Some(Finding {
        cause: Cause::Propagation,
        at: token.at,
    })
}

/// Whether the program declares a symbol of this name and number of arguments.
fn is_declared(program: &Program, name: &[u8], arity: usize) -> bool {
    match str::from_utf8(name) {
        Ok(name) => program.symbol(name, arity).is_some(),
        Err(_) => false,
    }
}

/// The first atom of no declared symbol.
fn undeclared<'a>(program: &Program, atoms: &[PlacedAtom<'a>]) -> Option<Finding<'a>> {
    for atom in atoms {
        if !is_declared(program, atom.name, atom.arity) {
            return Some(Finding {
                cause: Cause::Undeclared(ToldSymbol {
                    name: atom.name,
                    arity: ToldArity::Number(atom.arity),
                }),
                at: atom.at,
            });
        }
    }
    None
}

/// A symbol of a directive.
#[derive(Clone, Copy)]
struct PlacedSymbol<'a> {
    name: &'a [u8],
    digits: &'a [u8],
    at: usize,
}

impl<'a> PlacedSymbol<'a> {
    fn symbol(&self) -> ToldSymbol<'a> {
        ToldSymbol {
            name: self.name,
            arity: ToldArity::Digits(self.digits),
        }
    }
}

/// The symbols of a directive: each is a name, a slash and digits.
fn symbols_of<'a>(
    alloc: Global,
    tokens: &[PlacedToken<'a>],
) -> Result<Vec<PlacedSymbol<'a>>, AllocError> {
    let mut symbols = Vec::new(alloc);
    for (i, token) in tokens.iter().enumerate() {
        if let [slash, digits, ..] = &tokens[i + 1..] {
            if is_name(token) && is_sign(slash, Sign::Slash) {
                symbols.push(PlacedSymbol {
                    name: token.word,
                    digits: digits.word,
                    at: token.at,
                })?;
            }
        }
    }
    Ok(symbols)
}

/// The value of digits, which may have a minus before them, where 64 bits hold it.
fn number_of(digits: &[u8]) -> Option<i64> {
    let text = str::from_utf8(digits).ok()?;
    text.parse::<i64>().ok()
}

/// The number of arguments that these digits name, where it is at most `MAX_ARITY`.
fn arity_of(digits: &[u8]) -> Option<usize> {
    let arity = usize::try_from(number_of(digits)?).ok()?;
    if arity <= MAX_ARITY {
        Some(arity)
    } else {
        None
    }
}

fn is_declared_already(program: &Program, symbol: &PlacedSymbol<'_>) -> bool {
    match arity_of(symbol.digits) {
        Some(arity) => is_declared(program, symbol.name, arity),
        None => false,
    }
}

fn without_zeros(digits: &[u8]) -> &[u8] {
    let zeros = digits.iter().take_while(|digit| **digit == b'0').count();
    &digits[zeros.min(digits.len())..]
}

fn is_same(left: &PlacedSymbol<'_>, right: &PlacedSymbol<'_>) -> bool {
    left.name == right.name && without_zeros(left.digits) == without_zeros(right.digits)
}

/// The first symbol that is declared already, by an earlier clause or before it in its own.
fn declared_twice<'a>(program: &Program, symbols: &[PlacedSymbol<'a>]) -> Option<Finding<'a>> {
    for (i, symbol) in symbols.iter().enumerate() {
        if is_declared_already(program, symbol)
            || symbols[..i].iter().any(|other| is_same(other, symbol))
        {
            return Some(Finding {
                cause: Cause::DeclaredTwice(symbol.symbol()),
                at: symbol.at,
            });
        }
    }
    None
}

/// The first name or variable that is too long.
fn long_word<'a>(tokens: &[PlacedToken<'a>]) -> Option<Finding<'a>> {
    for token in tokens {
        if MAX_NAME < token.word.len() && (is_name(token) || is_variable(token)) {
            return Some(Finding {
                cause: Cause::Over(Over::Word(token.word)),
                at: token.at,
            });
        }
    }
    None
}

/// The first symbol with too many arguments, or for which there is no room in the program.
fn symbols_over<'a>(program: &Program, symbols: &[PlacedSymbol<'a>]) -> Option<Finding<'a>> {
    for (i, symbol) in symbols.iter().enumerate() {
        let over = if arity_of(symbol.digits).is_none() {
            Over::Arity(symbol.symbol())
        } else if MAX_SYMBOLS <= program.symbols().saturating_add(i) {
            Over::Symbols
        } else {
            continue;
        };
        return Some(Finding {
            cause: Cause::Over(over),
            at: symbol.at,
        });
    }
    None
}

/// The head after the last one that is allowed, or the atom of a body.
fn one_too_many<'a>(atoms: &[PlacedAtom<'a>], most: usize, over: Over<'a>) -> Option<Finding<'a>> {
    let atom = atoms.get(most)?;
    Some(Finding {
        cause: Cause::Over(over),
        at: atom.at,
    })
}

/// The first comparison that is too many.
fn comparisons_over<'a>(tokens: &[PlacedToken<'a>]) -> Option<Finding<'a>> {
    let mut number = 0;
    let mut found = None;
    for token in tokens {
        if is_comparison(token) {
            if number == MAX_COMPARISONS {
                found = Some(token.at);
            }
            number = usize::saturating_add(number, 1);
        }
    }
    Some(Finding {
        cause: Cause::Over(Over::Comparisons(number)),
        at: found?,
    })
}

/// A rule's atoms and tokens, parted at its sign.
#[derive(Drop)]
struct Parts<'t, 'a> {
    heads: Vec<PlacedAtom<'a>>,
    body: Vec<PlacedAtom<'a>>,
    left: &'t [PlacedToken<'a>],
    right: &'t [PlacedToken<'a>],
}

fn parts_of<'t, 'a>(
    alloc: Global,
    tokens: &'t [PlacedToken<'a>],
) -> Result<Parts<'t, 'a>, AllocError> {
    let rule = without_label(tokens);
    let left = before(rule, Sign::Simplify);
    let right = from(rule, Sign::Simplify);
    Ok(Parts {
        heads: atoms_of(alloc, left)?,
        body: atoms_of(alloc, right)?,
        left,
        right,
    })
}

/// What of a rule is over a limit. The rule is told as the one too many where nothing else is.
fn rule_over<'a>(
    program: &Program,
    tokens: &[PlacedToken<'a>],
    parts: &Parts<'_, 'a>,
) -> Option<Finding<'a>> {
    let heads = one_too_many(&parts.heads, MAX_HEADS, Over::Heads(parts.heads.len()));
    let body = one_too_many(&parts.body, MAX_BODY, Over::Body(parts.body.len()));
    let rules = if MAX_RULES <= program.rules().len() {
        tokens.first().map(|token| Finding {
            cause: Cause::Over(Over::Rules),
            at: token.at,
        })
    } else {
        None
    };
    heads
        .or(comparisons_over(parts.right))
        .or(body)
        .or(long_word(tokens))
        .or(rules)
}

/// Whether some token is this variable.
fn has_variable(tokens: &[PlacedToken<'_>], name: &[u8]) -> bool {
    tokens
        .iter()
        .any(|token| is_variable(token) && token.word == name)
}

/// Why a token of guard or body has no value.
fn unbound_cause<'a>(left: &[PlacedToken<'_>], token: &PlacedToken<'a>) -> Option<Cause<'a>> {
    if !is_variable(token) {
        None
    } else if token.word == b"_".as_slice() {
        Some(Cause::Anonymous)
    } else if has_variable(left, token.word) {
        None
    } else {
        Some(Cause::Unbound(token.word))
    }
}

/// The first variable of guard or body that no head has, or `_` there.
fn unbound<'a>(parts: &Parts<'_, 'a>) -> Option<Finding<'a>> {
    for token in parts.right {
        if let Some(cause) = unbound_cause(parts.left, token) {
            return Some(Finding {
                cause,
                at: token.at,
            });
        }
    }
    None
}

/// The first number that 64 bits do not hold.
fn number_outside<'a>(tokens: &[PlacedToken<'a>]) -> Option<Finding<'a>> {
    for token in tokens {
        if is_number(token) && number_of(token.word).is_none() {
            return Some(Finding {
                cause: Cause::Number(token.word),
                at: token.at,
            });
        }
    }
    None
}

/// Whether this is a number that no weight has.
fn is_no_weight(digits: &[u8]) -> bool {
    match number_of(digits) {
        Some(value) => match u64::try_from(value) {
            Ok(value) => MAX_WEIGHT < value,
            Err(_) => true,
        },
        None => true,
    }
}

/// The first number of these that no weight has.
fn weight_outside<'a>(numbers: &[PlacedToken<'a>]) -> Option<Finding<'a>> {
    for token in numbers {
        if is_number(token) && is_no_weight(token.word) {
            return Some(Finding {
                cause: Cause::Weight(WeightFault::Number(token.word)),
                at: token.at,
            });
        }
    }
    None
}

/// Whether each number of these is 0.
fn are_zeros(numbers: &[PlacedToken<'_>]) -> bool {
    numbers.iter().all(|token| !is_number(token) || number_of(token.word) == Some(0))
}

/// What is wrong with the weight of a symbol that is declared, whose numbers 64 bits hold.
fn weight_fault<'a>(
    symbols: &[PlacedSymbol<'a>],
    numbers: &[PlacedToken<'a>],
) -> Option<Finding<'a>> {
    let symbol = symbols.first()?;
    let fault = if are_zeros(numbers) {
        WeightFault::Zero
    } else {
        WeightFault::Second(symbol.symbol())
    };
    weight_outside(numbers).or(Some(Finding {
        cause: Cause::Weight(fault),
        at: symbol.at,
    }))
}

/// A weight's symbol, which is not declared.
fn symbol_undeclared<'a>(symbols: &[PlacedSymbol<'a>]) -> Option<Finding<'a>> {
    let symbol = symbols.first()?;
    Some(Finding {
        cause: Cause::Undeclared(symbol.symbol()),
        at: symbol.at,
    })
}

/// What is wrong with a directive.
fn in_directive<'a>(
    alloc: Global,
    tokens: &[PlacedToken<'a>],
    fault: Fault,
    program: &Program,
) -> Result<Option<Finding<'a>>, AllocError> {
    let symbols = symbols_of(alloc, tokens)?;
    let numbers = from(tokens, Sign::Equals);
    Ok(match fault {
        Fault::Undeclared => symbol_undeclared(&symbols),
        Fault::DeclaredTwice => declared_twice(program, &symbols),
        Fault::Limit => symbols_over(program, &symbols).or(long_word(tokens)),
        Fault::NumberRange => number_outside(numbers),
        Fault::WeightFault => weight_fault(&symbols, numbers),
        _ => None,
    })
}

/// What is wrong with a rule.
fn in_rule<'a>(
    alloc: Global,
    tokens: &[PlacedToken<'a>],
    fault: Fault,
    program: &Program,
) -> Result<Option<Finding<'a>>, AllocError> {
    let parts = parts_of(alloc, tokens)?;
    Ok(match fault {
        Fault::Undeclared => undeclared(program, &parts.heads).or(undeclared(program, &parts.body)),
        Fault::Limit => rule_over(program, tokens, &parts),
        Fault::Unbound => unbound(&parts),
        Fault::NumberRange => number_outside(tokens),
        _ => None,
    })
}

fn is_directive(tokens: &[PlacedToken<'_>]) -> bool {
    match tokens {
        [first, ..] => is_sign(first, Sign::Directive),
        [] => false,
    }
}

/// What is wrong with a clause that has a form.
fn in_form<'a>(
    alloc: Global,
    tokens: &[PlacedToken<'a>],
    fault: Fault,
    program: &Program,
) -> Result<Option<Finding<'a>>, AllocError> {
    if is_directive(tokens) {
        in_directive(alloc, tokens, fault, program)
    } else {
        in_rule(alloc, tokens, fault, program)
    }
}

/// What is wrong with a clause without comments that has this fault after the clauses of the program.
pub(crate) fn finding_in<'a>(
    alloc: Global,
    clause: &'a [u8],
    fault: Fault,
    program: &Program,
) -> Result<Finding<'a>, AllocError> {
    let tokens = placed_tokens(alloc, clause)?;
    let found = match fault {
        Fault::BadByte => bad_byte(clause),
        Fault::Syntax => no_form(clause, &tokens),
        Fault::Propagation => propagation(&tokens),
        Fault::Unended => Some(Finding {
            cause: Cause::Unended,
            at: first_place(clause),
        }),
        _ => in_form(alloc, &tokens, fault, program)?,
    };
    Ok(found.unwrap_or(Finding {
        cause: Cause::Fault(fault),
        at: first_place(clause),
    }))
}
