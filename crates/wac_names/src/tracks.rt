// Tracks of names, and the order of their versions.

ghost use Rattle.std.specs.Prelude.{◌≡◌, ◌↔◌, Option, IfOk, IsOk, IsTrue, false, string_bytes};
ghost use Rattle.std.specs.Option.{option_cmp, option_map};
ghost use Rattle.semver.specs.Identifiers.{parts_of};
ghost use Rattle.semver.specs.Parse.{Parts};
ghost use Rattle.wac_names.specs.Plain.{IsPlainText, IsPlainVersion};
ghost use Rattle.wac_names.specs.Reading.{read_version, track_at};
ghost use Rattle.wac_names.specs.ReadingLaws.{ReadingLaws};
ghost use Rattle.wac_names.specs.Text.{after, has};
ghost use Rattle.wac_names.specs.Track.{HasTrack, HasVersion, KeysTellTracks, OneTrack, OneTrackLaws, key_text, VersionLaws, series, version_cmp};
ghost use Rattle.wac_names.specs.Views.{track_view};

use crate::reading::{is_interface_name, parse_version};
use crate::text::versioned;
use semver::Version;
use std::alloc::{AllocError, Global};
use std::cmp::Ordering;

/// The track of a name. By semver, names with equal tracks can be used for each other.
///
/// A track can be the key of a map.
#[derive(Clone, Copy, Debug, PartialEq, Eq, Hash)]
pub enum Track<'a> {
    /// The whole text, if it is not an interface with a released version.
    Text(&'a str),
    /// An interface without its version, and a major number of at least 1.
    Major {
        /// The text before the `@`.
        name: &'a str,
        /// The major number.
        major: u64,
    },
    /// An interface without its version, with major number 0 and a minor number of at least 1.
    Minor {
        /// The text before the `@`.
        name: &'a str,
        /// The minor number.
        minor: u64,
    },
    /// An interface without its version, with major and minor number 0, and its patch number.
    Patch {
        /// The text before the `@`.
        name: &'a str,
        /// The patch number.
        patch: u64,
    },
}

/// Returns the version of an interface name that has one.
#[tactic(auto, unfolding(crate::specs::Reading::read_version, crate::specs::Reading::version_piece))]
fn version(alloc: Global, text: &str) -> Result<Option<Version>, AllocError>
    ensures value { IfOk result (λ v. option_map parts_of v ≡ read_version text.now) }
    ensures memory { has 64 text.now ≡ false → IsOk result }
    ensures plain { IsPlainVersion (after 64 text.now) → IsOk result }
{
    let (name, version) = versioned(text);
    if is_interface_name(name) {
        parse_version(alloc, version)
    } else {
        Ok(None)
    }
}

/// Returns the track of an interface with a released version.
#[tactic(auto, unfolding(crate::specs::Track::series))]
fn series<'a>(name: &'a str, version: &Version) -> Track<'a>
    ensures { track_view result ≡ series name.now (parts_of version.now) }
{
    if version.major > 0 {
        Track::Major {
            name,
            major: version.major,
        }
    } else if version.minor > 0 {
        Track::Minor {
            name,
            minor: version.minor,
        }
    } else {
        Track::Patch {
            name,
            patch: version.patch,
        }
    }
}

/// Returns the track of a text, whose part before the `@` is `name`.
fn track_at<'a>(text: &'a str, name: &'a str, version: &Option<Version>) -> Track<'a>
    ensures { track_view result ≡ track_at text.now name.now (option_map parts_of version.now) }
{
    match version {
        Some(version) if version.pre.is_empty() => series(name, version),
        _ => Track::Text(text),
    }
}

impl<'a> Track<'a> {
    /// Returns the track of a text.
    ///
    /// An interface name with a version that is not a pre-release has the track of its release; build metadata does not
    /// count. The track of any other text is the whole text.
    ///
    /// # Errors
    /// - `AllocError` if out of memory. Only the pre-release and the build metadata of a version take memory.
    pub fn new(alloc: Global, text: &'a str) -> Result<Self, AllocError>
        ensures value { IfOk result (λ t. HasTrack text.now (track_view t)) }
        ensures memory { has 64 text.now ≡ false → IsOk result }
        ensures plain { IsPlainVersion (after 64 text.now) → IsOk result }
    {
        let version = version(alloc, text)?;
        let (name, _) = versioned(text);
        Ok(track_at(text, name, &version))
    }

    /// Returns the track as a text, for the keys of a map. Keys are equal if and only if the tracks are.
    ///
    /// # Errors
    /// - `AllocError` if out of memory.
    #[tactic(auto, unfolding(crate::specs::Track::key_text))]
    pub fn to_key(&self, alloc: Global) -> Result<String, AllocError>
        ensures { IfOk result (λ key. string_bytes key ≡ key_text (track_view self.now)) }
    {
        match self {
            Track::Text(text) => format!(in alloc; "={text}"),
            Track::Major { name, major } => format!(in alloc; "1{major}@{name}"),
            Track::Minor { name, minor } => format!(in alloc; "2{minor}@{name}"),
            Track::Patch { name, patch } => format!(in alloc; "3{patch}@{name}"),
        }
    }
}

/// Whether two names have the same track.
///
/// # Errors
/// - `AllocError` if out of memory. Only the pre-release and the build metadata of a version take memory.
pub fn are_semver_compatible(alloc: Global, a: &str, b: &str) -> Result<bool, AllocError>
    ensures value { IfOk result (λ r. IsTrue r ↔ OneTrack a.now b.now) }
    ensures plain { IsPlainText a.now → IsPlainText b.now → IsOk result }
{
    let a = Track::new(alloc, a)?;
    let b = Track::new(alloc, b)?;
    Ok(a == b)
}

/// Compares two interface names by their versions: by number, then by pre-release, then by build metadata.
///
/// A name without a version comes before each that has one.
///
/// # Errors
/// - `AllocError` if out of memory. Only the pre-release and the build metadata of a version take memory.
pub fn compare_versions(alloc: Global, a: &str, b: &str) -> Result<Ordering, AllocError>
    ensures value { IfOk result (λ o. (x : Option Parts) × (y : Option Parts) × HasVersion a.now x × HasVersion b.now y
        × (o ≡ option_cmp version_cmp x y)) }
    ensures plain { IsPlainText a.now → IsPlainText b.now → IsOk result }
{
    let a = version(alloc, a)?;
    let b = version(alloc, b)?;
    Ok(a.cmp(&b))
}

/// Proof only: each text has exactly one track, and having the same track is an equivalence (docs/PROOFS.md, 'Laws').
pub fn one_track_laws()
    ensures { OneTrackLaws }
{}

/// Proof only: the keys of two names are equal if and only if their tracks are (docs/PROOFS.md, 'Laws').
pub fn keys_tell_tracks()
    ensures { KeysTellTracks }
{}

/// Proof only: each text has at most one version, and the order of versions is total (docs/PROOFS.md, 'Laws').
pub fn version_laws()
    ensures { VersionLaws }
{}

/// Proof only: the track and the version that are read from a text are its own (docs/PROOFS.md, 'Laws').
pub fn reading_laws()
    ensures { ReadingLaws }
{}
