// Packages that are unregistered, and what goes with them.
use super::bench::Call::{
    Alias, Asked, Encode, Export, Exported, Has, Instantiate, Packages, Register, Registered,
    Satisfied, Set, Unregister,
};
use super::bench::Item::Plain;
use super::bench::{How, Rows, assert_tables};

// The nodes of the package go, and their exports; its id is not valid any more, and its key is free.
const PACKAGE: Rows = &[
    (Register("test:pkg", &[("f", Plain)], &[("g", Plain)]), ""),
    (Instantiate(0), "0"),
    (Alias(0, "g"), "1"),
    (Alias(0, "g"), "1"),
    (Export(1, "g"), ""),
    (Exported("g"), "1"),
    (Unregister(0), ""),
    (Exported("g"), "none"),
    (Has(0), "false"),
    (Has(1), "false"),
    (Registered(0), "false"),
    (Register("test:pkg", &[("f", Plain)], &[("g", Plain)]), ""),
    (Registered(0), "false"),
    (Registered(1), "true"),
    (
        Register("test:pkg", &[], &[]),
        "package `test:pkg` has already been registered in the graph",
    ),
    (Instantiate(1), "1"),
    (Instantiate(1), "0"),
    (Instantiate(1), "2"),
];

// The third package takes the slot of the first.
const SLOTS: Rows = &[
    (Register("my:first", &[], &[]), ""),
    (Register("my:second", &[], &[]), ""),
    (Unregister(0), ""),
    (Register("my:third", &[], &[]), ""),
    (Registered(0), "false"),
    (Registered(1), "true"),
    (Registered(2), "true"),
    (Packages, "0: my:third; 1: my:second; "),
];

// The slot that was freed last is used first.
const LAST: Rows = &[
    (Register("my:first", &[], &[]), ""),
    (Register("my:second", &[], &[]), ""),
    (Unregister(1), ""),
    (Unregister(0), ""),
    (Register("my:third", &[], &[]), ""),
    (Register("my:fourth", &[], &[]), ""),
    (Register("my:fifth", &[], &[]), ""),
    (Unregister(3), ""),
    (Register("my:sixth", &[], &[]), ""),
    (Registered(3), "false"),
    (Packages, "0: my:third; 1: my:sixth; 2: my:fifth; "),
];

// The exports of another package's nodes keep their order.
const EXPORTS: Rows = &[
    (Register("my:package1", &[], &[]), ""),
    (Register("my:package2", &[], &[]), ""),
    (Instantiate(0), "0"),
    (Instantiate(1), "1"),
    (Instantiate(1), "2"),
    (Export(0, "a"), ""),
    (Export(1, "b"), ""),
    (Export(0, "c"), ""),
    (Export(2, "d"), ""),
    (Unregister(0), ""),
    (Exported("a"), "none"),
    (Exported("d"), "2"),
];

// An instance of a package stands between two of another; then a third package takes the slot of that one.
const BETWEEN: Rows = &[
    (Register("my:first", &[], &[]), ""),
    (Register("my:second", &[], &[]), ""),
    (Instantiate(0), "0"),
    (Instantiate(1), "1"),
    (Instantiate(0), "2"),
    (
        Encode(How::Plain),
        "0061736d0d00010004080061736d0d00010005040100000004080061736d0d000100050702000100000000",
    ),
    (Unregister(0), ""),
    (Register("my:third", &[], &[]), ""),
    (Instantiate(2), "2"),
    (Instantiate(1), "0"),
];

// An alias of the package was an argument of another package's instance.
const ARGUMENT: Rows = &[
    (Register("my:package1", &[], &[("a", Plain)]), ""),
    (Register("my:package2", &[("b", Plain)], &[]), ""),
    (Instantiate(0), "0"),
    (Alias(0, "a"), "1"),
    (Instantiate(1), "2"),
    (Set(2, "b", 1), ""),
    (Satisfied(2), "1"),
    (Unregister(0), ""),
    (Has(2), "true"),
    (Satisfied(2), "0"),
];

// The nodes and exports of a package go with it, and a freed slot is used again, that which was freed last first.
const TABLES: &[(Rows, Rows)] = &[
    (PACKAGE, &[]),
    (SLOTS, &[]),
    (LAST, &[]),
    (
        EXPORTS,
        &[(
            Encode(How::Plain),
            "0061736d0d00010004080061736d0d0001000507020000000000000b0d02000162050000000164050100",
        )],
    ),
    // The components are in the order in which they are written first, whatever their slots.
    (
        BETWEEN,
        &[(
            Encode(How::Plain),
            "0061736d0d00010004080061736d0d00010005070200000000000004080061736d0d000100050401000100",
        )],
    ),
    // An argument of the package is asked for.
    (ARGUMENT, &[(Asked, "b: function; ")]),
];

#[test]
fn packages_are_unregistered(rt: HostRuntime) {
    assert_tables(&rt, TABLES);
}
