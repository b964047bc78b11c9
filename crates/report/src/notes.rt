// The observer that keeps the lines of a run.
ghost use Rattle.std.specs.Prelude.{◌≡◌, [], ◌∷◌, ◌++◌, map, IfOk, IsOkAnd};
ghost use Rattle.report.specs.Lines.{line_text};
ghost use Rattle.report.specs.Reports.{is_refused, is_printed, told_lines};

use crate::line::Line;
use engine::Observer;
use rules::{Answer, Call};
use std::alloc::{AllocError, Global};

// The lines so far, or that memory failed.
#[derive(Drop)]
pub struct Notes {
    pub lines: Result<Vec<Line>, AllocError>,
}

impl Notes {
    pub fn new(heap: Global) -> Notes
        ensures { IsOkAnd result.lines (λ v. v.items ≡ []) }
    {
        Notes {
            lines: Ok(Vec::new(heap)),
        }
    }

    // One line more, unless memory fails or has failed before.
    fn note(&mut self, line: Line)
        ensures { IfOk self.new.lines (λ v. IsOkAnd self.old.lines (λ u. v.items ≡ u.items ++ line ∷ [])) }
    {
        if let Ok(lines) = &mut self.lines
            && lines.push(line).is_err()
        {
            self.lines = Err(AllocError);
        }
    }
}

fn is_refused(answer: Answer) -> bool
    ensures { result ≡ is_refused answer }
{
    matches!(answer, Answer::Refused(_))
}

// Whether a call has a line.
fn is_printed(call: Call, answer: Answer) -> bool
    ensures { result ≡ is_printed call answer }
{
    match call {
        Call::Deal => is_refused(answer),
        Call::Settle(_) => false,
        _ => true,
    }
}

impl Observer for Notes {
    ghost shows = { λ o l. IfOk o.lines (λ v. map line_text v.items ≡ told_lines l) };

    fn said(&mut self, tick: u32, call: Call, answer: Answer) {
        if is_printed(call, answer) {
            self.note(Line::Said { tick, call, answer });
        }
    }

    fn dealt(&mut self, _names: &[Option<u32>]) {}
}
