// What each test asserts of the rows of its table.
use std::fmt::Display;
use std::process::Abort;

/// The row of a text, or of two, is answered as it says.
pub fn assert_row(rt: &impl Abort, holds: bool, text: &str, with: &str) {
    assert!(rt; holds, "at {text} {with}");
}

/// A value is displayed as this text.
pub fn assert_displayed<T: Display>(rt: &(impl Abort + AllocGlobal), value: &T, want: &str) {
    let text = format!(in rt.alloc(); "{value}").expect(rt, want);
    assert_row(rt, text.as_str() == want, want, "");
}
