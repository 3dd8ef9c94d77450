//! The script of `cells BRANCH PATH FROM TO`.
#![tactic(auto)]

ghost use Rattle.std.specs.Prelude.{◌≡◌, IfOk, string_bytes};
ghost use Rattle.cells_script.specs.Script.{cells_text};

use std::alloc::{AllocError, Global};

/// The script that shows the numbers of a box of cells of an array: one task, which reads at a branch, with one line.
pub fn cells_script(
    alloc: Global,
    branch: &str,
    path: &str,
    from: &str,
    to: &str,
) -> Result<String, AllocError>
    ensures { IfOk result (λ text. string_bytes text ≡ cells_text branch.now path.now from.now
        to.now) }
{
    let mut text = String::from_str(alloc, "task cells read branch ")?;
    text.push_str(branch)?;
    text.push_str("\ncells ")?;
    text.push_str(path)?;
    text.push_str(" ")?;
    text.push_str(from)?;
    text.push_str(" ")?;
    text.push_str(to)?;
    text.push_str("\n")?;
    Ok(text)
}
