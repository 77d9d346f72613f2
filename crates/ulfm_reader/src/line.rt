//! A step as it is written out.
ghost use Rattle.std.specs.Prelude.{◌≡◌, map, IfOk};
ghost use Rattle.toml.specs.View.{view};
ghost use Rattle.ulfm_reader.specs.Line.{line_view, steps_of};

use std::alloc::{AllocError, Global};
use toml::Value;

/// A step as it is written out, and the number that the item it comes from has in the file.
#[derive(Drop)]
pub struct Line {
    pub place: u16,
    pub step: Value,
}

/// The steps of lines.
pub fn steps_of(alloc: Global, lines: &[Line]) -> Result<Vec<Value>, AllocError>
    ensures { IfOk result (λ steps. map view steps.items ≡ steps_of (map line_view lines.now)) }
{
    let mut steps = Vec::new(alloc);
    for line in lines {
        steps.push(line.step.clone()?)?;
    }
    Ok(steps)
}
