// The function that a static library exports.
ghost use Rattle.std.specs.Prelude.{◌≡◌};
ghost use Rattle.wazrelin.specs.Fills.{say, Filled, Answered};
ghost use Rattle.wazrelin.specs.Texts.{report_bytes};

use crate::text::report_text;
use std::alloc::Global;

// How a call ended: the report is in the buffer, the buffer is too short, memory failed.
#[derive(Clone, Copy)]
enum Status {
    Whole,
    Short,
    NoMemory,
}

// What a call says: how many bytes the report has, and the number of its status, since C takes a struct of numbers.
#[repr(C)]
#[derive(Clone, Copy, PartialEq, Eq, Debug)]
pub struct Written {
    pub length: usize,
    pub status: u32,
}

impl Written {
    fn new(length: usize, status: Status) -> Written
        ensures { result ≡ say length status }
    {
        Written {
            length,
            status: status as u32,
        }
    }
}

// Writes the bytes to the front of the caller's buffer, where they fit.
fn fill(bytes: &[u8], out: &mut [u8]) -> Written
    ensures { Filled bytes.now out.old result out.new }
{
    let length = bytes.len();
    if length > out.len() {
        return Written::new(length, Status::Short);
    }
    out[0..length].copy_from_slice(bytes);
    Written::new(length, Status::Whole)
}

// Writes the report of the plan to the front of the buffer. Status 0: it is there, and the rest of the buffer is as it was; 1: the buffer is too
// short, and is as it was; 2: memory failed, and the buffer is as it was. The length is the report's, or 0 under status 2.
#[unsafe(no_mangle)]
pub extern "C" fn wazrelin_report(heap: Global, plan: &[u8], out: &mut [u8]) -> Written
    ensures { Answered (report_bytes plan.now) out.old result out.new }
{
    match report_text(heap, plan) {
        Ok(text) => fill(text.as_bytes(), out),
        // An answer of its own.
        Err(_) => Written::new(0, Status::NoMemory),
    }
}
