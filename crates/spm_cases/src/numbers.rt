// Rows of numbers, as a line has them.
use std::alloc::Global;
use wcc_base::Memory;

/// The numbers of a text; other words are passed over.
pub fn numbers_of(alloc: Global, text: &str) -> Result<Vec<u32>, Memory> {
    let mut numbers = Vec::new(alloc);
    for word in text.split(' ') {
        if let Ok(number) = word.parse::<u32>() {
            numbers.push(number)?;
        }
    }
    Ok(numbers)
}

/// Numbers with a blank between two, or `none`.
pub fn shown(alloc: Global, numbers: &[u32]) -> Result<String, Memory> {
    if numbers.is_empty() {
        return Ok(String::from_str(alloc, "none")?);
    }
    let mut line = String::new(alloc);
    for number in numbers {
        let word = format!(in alloc; "{number} ")?;
        line.push_str(word.as_str())?;
    }
    Ok(String::from_str(alloc, line.as_str().trim_end())?)
}
