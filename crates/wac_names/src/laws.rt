//! Laws of names: functions that do nothing, and whose contracts proofs cite.

pub use crate::clashes::clash_is_symmetric;
pub use crate::name::one_answer;
pub use crate::tracks::{keys_tell_tracks, one_track_laws, reading_laws, version_laws};
