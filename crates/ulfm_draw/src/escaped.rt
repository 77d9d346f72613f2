//! Text as markup has it.

use std::alloc::AllocError;

/// Puts a text into markup: a drawing, or a page. What stands for the signs that markup has of its own is put in their place.
///
/// # Errors
///
/// `AllocError` where a growth was refused.
pub fn push_escaped(markup: &mut String, text: &str) -> Result<(), AllocError> {
    for letter in text.chars() {
        match letter {
            '<' => markup.push_str("&lt;")?,
            '>' => markup.push_str("&gt;")?,
            '&' => markup.push_str("&amp;")?,
            '"' => markup.push_str("&quot;")?,
            _ => markup.push(letter)?,
        }
    }
    Ok(())
}
