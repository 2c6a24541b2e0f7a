// Sums of terms.
use frac128::Sum;
use std::alloc::{AllocError, Global};

/// Adds the terms one by one; the faults, the terms of the sum, and its coefficient at 8.
pub fn answer(alloc: Global, text: &str) -> Result<String, AllocError> {
    let mut line = String::new(alloc);
    let mut sum = Sum::new(alloc);
    for word in text.split(' ') {
        if let Some((at, coef)) = word.split_once(':') {
            let (at, coef) = (at.parse::<u32>(), coef.parse::<i64>());
            if let Err(fault) = sum.add_term(at.unwrap_or(0), coef.unwrap_or(0)) {
                let told = format!(in alloc; "{fault:?} ")?;
                line.push_str(told.as_str())?;
            }
        }
    }
    for (at, coef) in sum.terms() {
        let term = format!(in alloc; "{at}:{coef} ")?;
        line.push_str(term.as_str())?;
    }
    format!(in alloc; "{line}and {} at 8", sum.coefficient(8))
}
