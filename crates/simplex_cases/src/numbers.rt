// Rows of numbers, as a line has them.
use std::alloc::{AllocError, Global};

pub fn numbers_of(alloc: Global, text: &str) -> Result<Vec<i128>, AllocError> {
    let mut numbers = Vec::new(alloc);
    for word in text.split(' ') {
        if let Ok(number) = word.parse::<i128>() {
            numbers.push(number)?;
        }
    }
    Ok(numbers)
}

pub fn shown(alloc: Global, numbers: &[i128]) -> Result<String, AllocError> {
    let mut line = String::new(alloc);
    for number in numbers {
        let word = format!(in alloc; "{number} ")?;
        line.push_str(word.as_str())?;
    }
    let text = line.as_str().trim_end();
    String::from_str(alloc, text)
}
