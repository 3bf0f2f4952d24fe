// What is refused, with the place and the reason.
use crate::asserts::{assert_refused, bytes_of};
use std::process::Abort;
use wac_component::Feature::*;
use wac_component::TextFault::*;
use wac_component::{ReadError, ReadReason, TextFault};

// Bytes, and where they are refused and why.
const FAULTS: &[(&str, usize, TextFault)] = &[
    // The preamble.
    ("", 0, NoPreamble),
    ("0061736d0d0001", 0, NoPreamble),
    ("0061736d0d000200", 0, NoPreamble),
    (
        "0061736d010000000503010001070a01066d656d6f72790200",
        0,
        Unsupported(CoreModule),
    ),
    // A size: missing, cut, larger than what is left, in six bytes, past 32 bits.
    ("0061736d0d00010007", 9, Short),
    ("0061736d0d0001000780", 9, Short),
    ("0061736d0d00010007ffffffff0f", 9, Short),
    ("0061736d0d00010007808080808000", 9, LongNumber),
    ("0061736d0d00010007ffffffff10", 9, LongNumber),
    // A count that is larger than what is left.
    ("0061736d0d0001000705ffffffff0f", 15, Short),
    // A section that is not known, one that is longer than its contents, and one that ends early.
    ("0061736d0d0001000d00", 8, UnknownByte),
    ("0061736d0d000100070301007f", 11, UnknownByte),
    ("0061736d0d0001000703017f7f", 12, Leftover),
    ("0061736d0d0001000701017f", 11, Short),
    ("0061736d0d00010007840001400001", 15, Short),
    // A name that is not UTF-8, and one that is longer than its section.
    ("0061736d0d0001000a06010001ff0100", 12, NotUtf8),
    ("0061736d0d0001000a060100ff610301", 12, Short),
    // A type index that is negative, and a resource type in a component type.
    ("0061736d0d0001000703017040", 12, UnknownByte),
    ("0061736d0d0001000705014101013f", 14, Misplaced),
    // What the standard has and is not read.
    ("0061736d0d0001000903000000", 8, Unsupported(Values)),
    ("0061736d0d0001000c0100", 8, Unsupported(Values)),
    (
        "0061736d0d0001000a060100016102017f",
        14,
        Unsupported(Values),
    ),
    ("0061736d0d000100070401637373", 11, Unsupported(MapType)),
    (
        "0061736d0d00010007080140000101016179",
        13,
        Unsupported(NamedResults),
    ),
    (
        "0061736d0d0001000a06010201610301",
        11,
        Unsupported(NameForm),
    ),
    (
        "0061736d0d000100070e01420201400001000400016601000a140102077072696d617279010005613a622f630500",
        27,
        Unsupported(NameForm),
    ),
    (
        "0061736d0d00010008020150",
        11,
        Unsupported(CanonicalFunction),
    ),
    ("0061736d0d0001000302015f", 11, Unsupported(CoreType)),
];

#[test]
fn faults_are_told_with_their_place(rt: HostRuntime) {
    for (text, at, fault) in FAULTS {
        let bytes = bytes_of(&rt, *text);
        let reason = ReadReason::Text(*fault);
        assert_refused(&rt, &bytes, ReadError { at: *at, reason });
    }
}
