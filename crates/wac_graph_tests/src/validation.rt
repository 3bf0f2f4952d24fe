// Names of exports that may stand together, and others.
use super::bench::Call::{Encode, Export, Instantiate, Refusal, Register};
use super::bench::{How, Rows, assert_tables};

const INVALID: &str = "encoding produced a component that failed validation";

// An instance of a package.
const INSTANCE: Rows = &[
    (Register("my:package", &[], &[]), ""),
    (Instantiate(0), "0"),
];

// Names of exports. Of those that clash the earliest second is named, and for it the earliest first.
const TABLES: &[(Rows, Rows)] = &[
    (
        INSTANCE,
        &[
            (Export(0, "a"), ""),
            (Export(0, "A"), ""),
            (Encode(How::Plain), INVALID),
            (Refusal, "Clash `a`, `A`"),
            // Names are not looked at unless it is asked.
            (
                Encode(How::Unchecked),
                "0061736d0d00010004080061736d0d0001000504010000000b0d02000161050000000141050000",
            ),
        ],
    ),
    (
        INSTANCE,
        &[
            (Export(0, "A"), ""),
            (Export(0, "a"), ""),
            (Encode(How::Plain), INVALID),
            (Refusal, "Clash `A`, `a`"),
        ],
    ),
    (
        INSTANCE,
        &[
            (Export(0, "[method]a.b"), ""),
            (Export(0, "[static]a.b"), ""),
            (Encode(How::Plain), INVALID),
            (Refusal, "Clash `[method]a.b`, `[static]a.b`"),
        ],
    ),
    (
        INSTANCE,
        &[
            (Export(0, "a"), ""),
            (Export(0, "[constructor]A"), ""),
            (Encode(How::Plain), INVALID),
            (Refusal, "Clash `a`, `[constructor]A`"),
        ],
    ),
    (
        INSTANCE,
        &[
            (Export(0, "a"), ""),
            (Export(0, "b"), ""),
            (Export(0, "B"), ""),
            (Export(0, "A"), ""),
            (Encode(How::Plain), INVALID),
            (Refusal, "Clash `b`, `B`"),
        ],
    ),
    (
        INSTANCE,
        &[
            (Export(0, "[constructor]a"), ""),
            (Export(0, "a"), ""),
            (Export(0, "A"), ""),
            (Encode(How::Plain), INVALID),
            (Refusal, "Clash `[constructor]a`, `A`"),
        ],
    ),
    (
        INSTANCE,
        &[
            (Export(0, "a"), ""),
            (Export(0, "b"), ""),
            (
                Encode(How::Plain),
                "0061736d0d00010004080061736d0d0001000504010000000b0d02000161050000000162050000",
            ),
            (Refusal, ""),
        ],
    ),
    (
        INSTANCE,
        &[
            (Export(0, "a"), ""),
            (Export(0, "[constructor]a"), ""),
            (
                Encode(How::Plain),
                "0061736d0d00010004080061736d0d0001000504010000000b1a02000161050000000e5b636f6e7374727563746f725d61050000",
            ),
            (Refusal, ""),
        ],
    ),
];

#[test]
fn names_of_exports_are_validated(rt: HostRuntime) {
    assert_tables(&rt, TABLES);
}
