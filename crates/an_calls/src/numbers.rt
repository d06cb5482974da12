use crate::rows::RowError;
use std::str::FromStr;

/// The number that a text is.
pub fn number<T: FromStr>(text: &str) -> Result<T, RowError>
where
    T::Err: Drop,
{
    text.parse::<T>().map_err(|_| RowError::Form)
}

/// Adds the numbers that stand between spaces.
pub fn add_numbers<T: FromStr + Drop>(numbers: &mut Vec<T>, text: &str) -> Result<(), RowError>
where
    T::Err: Drop,
{
    for word in text.split_ascii_whitespace() {
        numbers.push(number(word)?)?;
    }
    Ok(())
}
