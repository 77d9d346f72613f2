//! Forms of a picture.

/// The form in which a picture is written.
#[derive(Clone, Copy, Debug, PartialEq, Eq)]
pub enum Style {
    /// A drawing: plain SVG, without scripts and without fonts of its own.
    Svg,
    /// A Mermaid sequence diagram, which code hosts draw.
    Mermaid,
    /// A column for each rank and a row for each move, for terminals.
    Text,
}
