// Numbers in words.
use std::alloc::{AllocError, Global};

/// Numbers, each behind a blank.
pub fn shown(alloc: Global, numbers: &[i128]) -> Result<String, AllocError> {
    let mut line = String::new(alloc);
    for number in numbers {
        let word = format!(in alloc; " {number}")?;
        line.push_str(word.as_str())?;
    }
    Ok(line)
}
