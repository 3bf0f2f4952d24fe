//! Packages, and plugging them.
ghost use Rattle.std.specs.Prelude.{◌≢◌, ◌⊎◌, IfOk, MatchResult};
ghost use Rattle.std.specs.Option.{option_copied, option_map};
ghost use Rattle.semver.specs.Identifiers.{parts_of};
ghost use Rattle.semver.specs.Parse.{memory_error};
ghost use Rattle.wac_script.specs.lines.Words.{spelled};
ghost use Rattle.wac_script.specs.declared.lines.calls.Call.TheVariants as said;
ghost use Rattle.wac_script.specs.declared.lines.calls.Change.TheVariants as change;
ghost use Rattle.wac_script.specs.labels.Things.{things_of, cores_of, SayNone, IsWordMemory};
ghost use Rattle.wac_script.specs.labels.There.{IsPackage, ArePackages, IsWorldThere};
ghost use Rattle.wac_script.specs.private.Unread.{IsUnread, Reads};
ghost use Rattle.wac_script.specs.Steps.{AreBytes, IsVersion};
ghost use Rattle.wac_script.specs.Refusals.{Answers, Changes};
ghost use Rattle.wac_script.specs.Files.{NamesFile, SayFile};

use crate::labels::{Thing, Things, WordError, WordFault, refused};
use crate::lines::{PackageWords, after_prefix, optional, words_of};
use crate::refusal::Refusal;
use hex::FromHexError;
use semver::Version;
use std::alloc::{AllocError, Global};
use wac_graph::types::{Type, WorldId};
use wac_graph::{CompositionGraph, PackageId, plug};

/// Returns the file whose bytes a line needs: that of a package whose bytes are not in the line.
///
/// # Errors
/// - `AllocError` if out of memory.
pub fn package_file(alloc: Global, line: &str) -> Result<Option<&str>, AllocError>
    ensures { IfOk result (λ file. NamesFile line.now (option_copied file)) }
{
    let words = words_of(alloc, line)?;
    Ok(file_of_words(&words))
}

/// Returns the package of a label.
pub(crate) fn package_of(
    alloc: Global,
    labels: &Things,
    graph: &CompositionGraph,
    label: &str,
) -> Result<PackageId, WordError>
    ensures { Reads (IsPackage (things_of labels.now) graph.now label.now) result }
{
    let id = labels.package_of(label)?;
    if !graph.has_package(id) {
        return Err(refused(alloc, WordFault::NotPackage, label));
    }
    Ok(id)
}

/// Returns the world of a label.
fn world_of(
    alloc: Global,
    labels: &Things,
    graph: &CompositionGraph,
    label: &str,
) -> Result<WorldId, WordError>
    ensures { Reads (IsWorldThere (things_of labels.now) graph.now label.now) result }
{
    let id = labels.world_of(label)?;
    if !graph.types().contains(Type::World(id)) {
        return Err(refused(alloc, WordFault::NotWorld, label));
    }
    Ok(id)
}

/// Returns the version of a word, or none for `_`.
fn version_of(alloc: Global, word: &str) -> Result<Option<Version>, WordError>
    ensures { MatchResult result (λ v. IsVersion word.now (option_map parts_of v)) (IsUnread (SayNone (IsVersion word.now))) }
{
    let Some(text) = optional(word) else {
        return Ok(None);
    };
    match Version::parse(alloc, text) {
        Ok(version) => Ok(Some(version)),
        Err(e) => Err(version_error(alloc, word, e)),
    }
}

/// Returns the error of a word that was not read as a version.
fn version_error(alloc: Global, word: &str, error: semver::Error) -> WordError
    ensures { IsWordMemory result ⊎ (error ≢ memory_error) }
{
    if error == semver::Error::from(AllocError) {
        return WordError::OutOfMemory;
    }
    refused(alloc, WordFault::NotVersion, word)
}

/// Returns the bytes of a package: those in the word, or else those of its file.
fn package_bytes(alloc: Global, file: &str, bytes: Vec<u8>) -> Result<Vec<u8>, WordError>
    ensures { MatchResult result (λ b. AreBytes file.now bytes.items b.items) (IsUnread (SayNone (AreBytes file.now bytes.items))) }
{
    let Some(digits) = after_prefix(file, "hex:") else {
        return Ok(bytes);
    };
    match hex::decode(alloc, digits) {
        Ok(bytes) => Ok(bytes),
        Err(FromHexError::OutOfMemory) => Err(WordError::OutOfMemory),
        Err(_) => Err(refused(alloc, WordFault::NotHex, digits)),
    }
}

/// Registers a package.
pub(crate) fn register(
    alloc: Global,
    labels: &Things,
    graph: &mut CompositionGraph,
    words: PackageWords<'_>,
    bytes: Vec<u8>,
) -> Result<Thing, Refusal>
    ensures { Answers (things_of labels.now) (cores_of labels.now) bytes.items graph.old (said.Package words.entry) result graph.new }
{
    let bytes = package_bytes(alloc, words.file, bytes)?;
    let number = version_of(alloc, words.version)?;
    let world = world_of(alloc, labels, graph, words.world)?;
    let parts = graph.new_package(words.name, number.as_ref(), bytes, world)?;
    match graph.register_package(parts) {
        Ok(id) => Ok(Thing::Package(id)),
        Err(source) => Err(Refusal::Register(source)),
    }
}

/// Returns the packages of labels.
fn packages_of(
    alloc: Global,
    labels: &Things,
    graph: &CompositionGraph,
    words: &[&str],
) -> Result<Vec<PackageId>, WordError>
    ensures { MatchResult result (λ ids. ArePackages (things_of labels.now) graph.now (spelled words.now) ids.items) (IsUnread (SayNone (ArePackages (things_of labels.now) graph.now (spelled words.now)))) }
{
    let mut packages = Vec::new(alloc);
    for word in words {
        let id = package_of(alloc, labels, graph, word)?;
        packages.push(id)?;
    }
    Ok(packages)
}

/// Plugs packages into a socket. The matches that are passed over are dropped.
pub(crate) fn plug_in(
    alloc: Global,
    labels: &Things,
    graph: &mut CompositionGraph,
    socket: &str,
    plugs: &[&str],
) -> Result<(), Refusal>
    ensures { Changes (things_of labels.now) graph.old (change.Plug socket.entry plugs.entry) result graph.new }
{
    let socket = package_of(alloc, labels, graph, socket)?;
    let plugs = packages_of(alloc, labels, graph, plugs)?;
    match plug(graph, plugs, socket) {
        Ok(_) => Ok(()),
        Err(source) => Err(Refusal::Plug(source)),
    }
}

/// Returns the file that the words of a line name, if its bytes are needed.
fn file_of_words<'a>(words: &[&'a str]) -> Option<&'a str>
    ensures { SayFile (spelled words.now) (option_copied result) }
{
    let [_, "=", "package", _, _, file, _] = words else {
        return None;
    };
    match after_prefix(file, "hex:") {
        Some(_) => None,
        None => Some(*file),
    }
}
