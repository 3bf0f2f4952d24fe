// What each test asserts of the rows of its table.
use crate::types::adding::Refusal;
use std::fmt::{Debug, Display};
use std::process::Abort;

/// What is told is true. It is told twice, since the first time memory may be refused.
pub fn assert_told(
    rt: &impl Abort,
    first: Result<bool, Refusal>,
    second: Result<bool, Refusal>,
    what: &str,
) {
    let told = match first {
        Err(Refusal::Memory) => second,
        _ => first,
    };
    assert!(rt; told == Ok(true), "{what}");
}

/// A value is displayed as this text.
pub fn assert_displayed<T: Display>(rt: &(impl Abort + AllocGlobal), value: &T, want: &str) {
    let text = format!(in rt.alloc(); "{value}").expect(rt, want);
    assert!(rt; text.as_str() == want, "{want}");
}

/// A value is shown as this text to who debugs.
pub fn assert_shown<T: Debug>(rt: &(impl Abort + AllocGlobal), value: &T, want: &str) {
    let text = format!(in rt.alloc(); "{value:?}").expect(rt, want);
    assert!(rt; text.as_str() == want, "{want}");
}
