// The text of a report: every line, and a line feed after it.
ghost use Rattle.std.specs.Prelude.{◌≡◌, map, IfOk, string_bytes};
ghost use Rattle.std.proofs.Math.Utf8.{encodes};
ghost use Rattle.report.specs.Lines.{line_text};
ghost use Rattle.wazrelin.specs.Texts.{text_of, report_bytes};

use report::{Line, report};
use std::alloc::{AllocError, Global};

// The text of these lines.
fn text_of(heap: Global, lines: &[Line]) -> Result<String, AllocError>
    ensures { IfOk result (λ s. string_bytes s ≡ encodes (text_of (map line_text lines.now))) }
{
    let mut text = String::new(heap);
    for line in lines {
        writeln!(text, "{line}")?;
    }
    Ok(text)
}

// The text of a plan's report.
pub fn report_text(heap: Global, plan: &[u8]) -> Result<String, AllocError>
    ensures { IfOk result (λ s. string_bytes s ≡ report_bytes plan.now) }
{
    let lines = report(heap, plan)?;
    text_of(heap, lines.as_slice())
}
