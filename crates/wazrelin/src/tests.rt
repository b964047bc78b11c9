// The sample plan and a damaged one, through the exported function.
use crate::export::{Written, wazrelin_report};
use std::test::Fail;

// Two cores at 1,000; admit 5 10 twice, wake 1, wake 2, leave 1 after a gap of 5, admit 2 4, wake 3, admit 5 10 after a gap of 5, end.
const SAMPLE: [u8; 82] = *b"\xCB\x51\x20\x00\x00\x00\x00\xFA\x3E\x80\
    \x10\x00\x00\x00\x00\x50\x00\x0A\
    \x10\x00\x00\x00\x00\x50\x00\x0A\
    \x20\x00\x00\x00\x00\x10\x00\x00\
    \x20\x00\x00\x00\x00\x20\x00\x00\
    \x40\x00\x05\x00\x00\x10\x00\x00\
    \x10\x00\x00\x00\x00\x20\x00\x04\
    \x20\x00\x00\x00\x00\x30\x00\x00\
    \x10\x00\x05\x00\x00\x50\x00\x0A\
    \x60\x00\x00\x00\x00\x00\x00\x00";

const REPORT: &str = "0 admit 5 10 = 1 on 0
0 admit 5 10 = 2 on 0
0 wake 1 = ready 10
0 wake 2 = ready 10
5 leave 1 = until 10
5 admit 2 4 = 3 on 1
5 wake 3 = ready 9
10 admit 5 10 = 4 on 0
10 end
core 0 1048576 0
core 1 524288 0
res 2 ran 5
res 3 ran 3
res 4 ran 0
";

// What every byte of a buffer holds before a call.
const BEFORE: u8 = 0xAA;

#[test]
fn the_report_and_then_what_was_there(rt: HostRuntime) {
    let mut out = [BEFORE; 300];
    let length = REPORT.len();
    assert_eq!(rt;
        wazrelin_report(rt.alloc(), &SAMPLE, &mut out),
        Written { length, status: 0 }
    );
    assert!(rt; length <= 300);
    assert_eq!(rt; &out[0..length], REPORT.as_bytes());
    assert_eq!(rt; &out[length..300], &[BEFORE; 300][length..300]);
}

#[test]
fn just_enough_room(rt: HostRuntime) -> Result<(), Fail> {
    let mut out = vec![in rt.alloc(); BEFORE; REPORT.len()]?;
    let w = wazrelin_report(rt.alloc(), &SAMPLE, out.as_mut_slice());
    assert_eq!(rt;
        w,
        Written {
            length: REPORT.len(),
            status: 0,
        }
    );
    assert_eq!(rt; out.as_slice(), REPORT.as_bytes());
    Ok(())
}

#[test]
fn one_byte_too_short(rt: HostRuntime) -> Result<(), Fail> {
    let length = REPORT.len();
    assert!(rt; length > 0);
    let mut out = vec![in rt.alloc(); BEFORE; length - 1]?;
    let before = out.clone()?;
    let w = wazrelin_report(rt.alloc(), &SAMPLE, out.as_mut_slice());
    assert_eq!(rt; w, Written { length, status: 1 });
    assert_eq!(rt; out, before);
    Ok(())
}

#[test]
fn the_fault_of_a_damaged_plan(rt: HostRuntime) {
    let line = "plan fault 31 at 79 record 9 in bits\n";
    let mut out = [BEFORE; 64];
    let w = wazrelin_report(rt.alloc(), &SAMPLE[0..81], &mut out);
    assert_eq!(rt;
        w,
        Written {
            length: line.len(),
            status: 0,
        }
    );
    assert!(rt; line.len() <= 64);
    assert_eq!(rt; &out[0..line.len()], line.as_bytes());
}
