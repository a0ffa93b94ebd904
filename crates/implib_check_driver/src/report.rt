//! What is said of what is found: each finding on a line, as text or as JSON.

ghost use Rattle.std.specs.Prelude.{◌≡◌, ◌++◌, IfOk, OnOk};
ghost use Rattle.std.specs.String.{string_bytes};
ghost use Rattle.implib_check_driver.specs.Json.{finding_view};
ghost use Rattle.implib_check_driver.specs.Text.{line_in};

use crate::finding::Finding;
use crate::json::line_of;
use std::alloc::{AllocError, Global};

/// In which form findings are said.
#[derive(Clone, Copy)]
pub struct Form {
    pub alloc: Global,
    /// Whether as JSON objects, else as text.
    pub is_json: bool,
}

// The line of a finding.
#[tactic(auto, unfolding(crate::specs::Text::line_in))]
fn line_in(form: Form, finding: &Finding) -> Result<String, AllocError>
    ensures { IfOk result
        (λ line. string_bytes line ≡ line_in form.is_json (finding_view finding.now)) }
{
    if form.is_json {
        return line_of(form.alloc, finding);
    }
    format!(in form.alloc; "{finding}\n")
}

/// Adds a finding on a line of its own.
pub fn tell(form: Form, out: &mut Vec<u8>, finding: &Finding) -> Result<(), AllocError>
    ensures { OnOk result (out.new.items
        ≡ out.old.items ++ line_in form.is_json (finding_view finding.now)) }
{
    let line = line_in(form, finding)?;
    out.extend_from_slice(line.as_bytes())
}
