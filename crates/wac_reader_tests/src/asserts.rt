// What each test asserts of the rows of its table.
use std::alloc::Global;
use std::process::Abort;
use wac_component::{Parts, ReadError, ReadReason};
use wac_reader_parts::parts;

/// The parts of a component. Where memory was refused, they are read once more.
pub fn read<'a>(alloc: Global, bytes: &'a [u8]) -> Result<Parts<'a>, ReadError> {
    match parts(alloc, bytes) {
        Err(
            ReadError {
                reason: ReadReason::OutOfMemory,
                ..
            },
        ) => parts(alloc, bytes),
        read => read,
    }
}

/// The bytes of hexadecimal digits in lines.
pub fn bytes_of(rt: &(impl Abort + AllocGlobal), text: &str) -> Vec<u8> {
    let alloc = rt.alloc();
    let mut bytes = Vec::new(alloc);
    for line in text.lines() {
        let more = hex::decode(alloc, line).expect(rt, "hexadecimal digits");
        bytes.extend_from_slice(&more).expect(rt, "bytes");
    }
    bytes
}

/// The bytes have parts, which are listed so after the end of a line.
pub fn assert_listed(rt: &(impl Abort + AllocGlobal), bytes: &[u8], lines: &str) {
    let parts = read(rt.alloc(), bytes).expect(rt, "parts");
    let text = format!(in rt.alloc(); "\n{parts}").expect(rt, "a text");
    assert!(rt; text.as_str() == lines, "{text}");
}

/// The bytes are refused so.
pub fn assert_refused(rt: &(impl Abort + AllocGlobal), bytes: &[u8], want: ReadError) {
    match read(rt.alloc(), bytes) {
        Ok(_) => assert!(rt; false, "{want}"),
        Err(error) => assert!(rt; error == want, "{error} for {want}"),
    }
}

/// The bytes have parts, or are refused at a place among them.
pub fn assert_answered(rt: &(impl Abort + AllocGlobal), bytes: &[u8]) -> bool {
    match read(rt.alloc(), bytes) {
        Ok(_) => true,
        Err(error) => {
            assert!(rt; error.at <= bytes.len(), "{error}");
            assert!(rt; error.reason != ReadReason::OutOfMemory, "{error}");
            false
        }
    }
}
