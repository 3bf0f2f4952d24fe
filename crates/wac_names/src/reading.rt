// Reading of names: a text is split once, from the left.

ghost use Rattle.std.specs.Prelude.{◌≡◌, ◌≢◌, IfErr, IfOk, IfSome, IsOk, None, false};
ghost use Rattle.wac_names.specs.Text.{has};
ghost use Rattle.semver.specs.Identifiers.{parts_of};
ghost use Rattle.std.specs.Option.{option_copied, option_map};
ghost use Rattle.wac_names.specs.Track.{parts_piece};
ghost use Rattle.wac_names.specs.Grammar.{is_version};
ghost use Rattle.wac_names.specs.Plain.{AnswersPlain, IsPlainKind, IsPlainRange, IsPlainVersion};
ghost use Rattle.wac_names.specs.Kind.{method};
ghost use Rattle.wac_names.specs.Reading.{Gives, GivesOrMemory, Passes, PassesOrMemory, is_interface_name, is_label, is_package, is_version_piece, named_package, package_of, read, read_bracketed, read_from, read_hash, read_interface, read_locked, read_marked, read_path, read_placed, read_plain, read_range, read_range_piece, read_tail, read_unlocked, read_url};
ghost use Rattle.wac_names.specs.Views.{kind_view, dependency_view, interface_view, package_view, range_view, url_view};

use crate::fault::NameFault;
use crate::hash::is_hash;
use crate::kind::{
    ComponentNameKind, DependencyName, HashName, InterfaceName, PackageName, UrlName, VersionRange,
};
use crate::label::{is_label, is_lower_label};
use crate::text::{cut, halves, strip, strip_end, versioned};
use semver::Version;
use std::alloc::{AllocError, Global};

/// Checks that the text is a version. Its fault is `fault`.
#[tactic(auto, unfolding(crate::specs::Track::parts_piece))]
fn check_version(alloc: Global, text: &str, fault: NameFault) -> Result<(), NameFault>
    ensures value { PassesOrMemory (is_version text.now) fault result (λ _. Unit {0}) }
    ensures plain { IsPlainVersion text.now → IsOk result }
{
    match parse_version(alloc, Some(text)) {
        Ok(Some(_)) => Ok(()),
        Ok(None) => Err(fault),
        Err(_) => Err(NameFault::OutOfMemory),
    }
}

/// Returns the package of two lower-case labels.
#[tactic(auto, unfolding(crate::specs::Reading::is_package))]
fn package<'a>(namespace: &'a str, name: &'a str) -> Result<PackageName<'a>, NameFault>
    ensures { Passes (is_package (package_of namespace.now name.now)) NameFault.BadPackage result
        (λ p. package_view p ≡ package_of namespace.now name.now) }
{
    if is_lower_label(namespace) && is_lower_label(name) {
        Ok(PackageName { namespace, name })
    } else {
        Err(NameFault::BadPackage)
    }
}

/// Reads `namespace:name`.
fn named_package(text: &str) -> Result<PackageName<'_>, NameFault>
    ensures { Passes (is_package (named_package text.now)) NameFault.BadPackage result
        (λ p. package_view p ≡ named_package text.now) }
{
    let (namespace, name) = halves(text, ':');
    package(namespace, name)
}

/// Checks that the text is a label, and returns it.
fn label(text: &str) -> Result<&str, NameFault>
    ensures { Passes (is_label text.now) NameFault.BadLabel result (λ l. l.now ≡ text.now) }
{
    if is_label(text) {
        Ok(text)
    } else {
        Err(NameFault::BadLabel)
    }
}

/// Reads a resource and a name, split at the first `.`.
fn path(text: &str) -> Result<(&str, &str), NameFault>
    ensures value { Gives (λ p. method p.0.now p.1.now) result (read_path method text.now) }
    ensures memory { IfErr result (λ f. f ≢ NameFault.OutOfMemory) }
{
    let (resource, name) = halves(text, '.');
    Ok((label(resource)?, label(name)?))
}

/// Reads the text after `integrity=<`.
#[tactic(auto, unfolding(crate::specs::Reading::read_hash))]
fn hash(text: &str) -> Result<&str, NameFault>
    ensures value { Gives (λ h. h.now) result (read_hash text.now) }
    ensures memory { IfErr result (λ f. f ≢ NameFault.OutOfMemory) }
{
    let Some((integrity, rest)) = cut(text, '>') else {
        return Err(NameFault::Unclosed);
    };
    if !is_hash(integrity) {
        return Err(NameFault::BadHash);
    }
    if !rest.is_empty() {
        return Err(NameFault::Trailing);
    }
    Ok(integrity)
}

/// Reads the end of a name: nothing, or `,integrity=<` and a hash.
#[tactic(auto, unfolding(crate::specs::Reading::read_tail))]
fn tail(text: &str) -> Result<Option<&str>, NameFault>
    ensures value { Gives option_copied result (read_tail text.now) }
    ensures memory { IfErr result (λ f. f ≢ NameFault.OutOfMemory) }
{
    if text.is_empty() {
        return Ok(None);
    }
    match strip(text, ",integrity=<") {
        Some(rest) => Ok(Some(hash(rest)?)),
        None => Err(NameFault::Trailing),
    }
}

/// Reads the bounds of `{>=low}` or `{>=low <high}`, without the braces and the `>=`.
#[tactic(auto, unfolding(crate::specs::Reading::read_from))]
fn range_from(alloc: Global, text: &str) -> Result<VersionRange<'_>, NameFault>
    ensures value { GivesOrMemory range_view result (read_from text.now) }
    ensures plain { AnswersPlain IsPlainRange (read_from text.now) result }
{
    let Some((low, rest)) = cut(text, ' ') else {
        check_version(alloc, text, NameFault::BadRange)?;
        return Ok(VersionRange::AtLeast(text));
    };
    let Some(high) = strip(rest, "<") else {
        return Err(NameFault::BadRange);
    };
    check_version(alloc, low, NameFault::BadRange)?;
    check_version(alloc, high, NameFault::BadRange)?;
    Ok(VersionRange::Between { low, high })
}

/// Reads a range of versions.
#[tactic(auto, unfolding(crate::specs::Reading::read_range))]
fn range(alloc: Global, text: &str) -> Result<VersionRange<'_>, NameFault>
    ensures value { GivesOrMemory range_view result (read_range text.now) }
    ensures plain { AnswersPlain IsPlainRange (read_range text.now) result }
{
    if let Some(rest) = strip(text, "{>=") {
        let Some(bounds) = strip_end(rest, '}') else {
            return Err(NameFault::BadRange);
        };
        return range_from(alloc, bounds);
    }
    if let Some(rest) = strip(text, "{<") {
        let Some(high) = strip_end(rest, '}') else {
            return Err(NameFault::BadRange);
        };
        check_version(alloc, high, NameFault::BadRange)?;
        return Ok(VersionRange::Below(high));
    }
    match strip(text, "*") {
        Some("") => Ok(VersionRange::Any),
        _ => Err(NameFault::BadRange),
    }
}

/// Reads a range of versions, if there is one.
fn range_piece(alloc: Global, text: Option<&str>) -> Result<Option<VersionRange<'_>>, NameFault>
    ensures value { GivesOrMemory (option_map range_view) result (read_range_piece (option_copied text.entry)) }
    ensures none { option_copied text.entry ≡ None → IsOk result }
    ensures plain { AnswersPlain (λ r. IfSome r IsPlainRange) (read_range_piece (option_copied text.entry)) result }
{
    match text {
        Some(text) => Ok(Some(range(alloc, text)?)),
        None => Ok(None),
    }
}

/// Checks that a text, if there is one, is a version.
#[tactic(auto, unfolding(crate::specs::Reading::is_version_piece))]
fn check_version_piece(alloc: Global, text: Option<&str>) -> Result<(), NameFault>
    ensures value { PassesOrMemory (is_version_piece (option_copied text.entry)) NameFault.BadVersion result (λ _. Unit {0}) }
    ensures none { option_copied text.entry ≡ None → IsOk result }
    ensures plain { IfSome (option_copied text.entry) IsPlainVersion → IsOk result }
{
    match text {
        Some(text) => check_version(alloc, text, NameFault::BadVersion),
        None => Ok(()),
    }
}

/// Reads the text after `unlocked-dep=<`.
#[tactic(auto, using(crate::proofs::MemoryFacts::has_front, crate::proofs::MemoryFacts::no_piece), unfolding(crate::specs::Reading::read_unlocked, crate::specs::Reading::read_unlocked_inside))]
fn unlocked(alloc: Global, text: &str) -> Result<DependencyName<'_>, NameFault>
    ensures value { GivesOrMemory dependency_view result (read_unlocked text.now) }
    ensures plain { AnswersPlain IsPlainKind (read_unlocked text.now) result }
    ensures memory { has 64 text.now ≡ false → IfErr result (λ f. f ≢ NameFault.OutOfMemory) }
{
    let Some(inside) = strip_end(text, '>') else {
        return Err(NameFault::Unclosed);
    };
    let (name, range) = versioned(inside);
    let package = named_package(name)?;
    let range = range_piece(alloc, range)?;
    Ok(DependencyName::Unlocked { package, range })
}

/// Reads the text after `locked-dep=<`.
#[tactic(auto, using(crate::proofs::MemoryFacts::has_part, crate::proofs::MemoryFacts::no_piece), unfolding(crate::specs::Reading::read_locked, crate::specs::Reading::read_locked_inside))]
fn locked(alloc: Global, text: &str) -> Result<DependencyName<'_>, NameFault>
    ensures value { GivesOrMemory dependency_view result (read_locked text.now) }
    ensures plain { AnswersPlain IsPlainKind (read_locked text.now) result }
    ensures memory { has 64 text.now ≡ false → IfErr result (λ f. f ≢ NameFault.OutOfMemory) }
{
    let Some((inside, rest)) = cut(text, '>') else {
        return Err(NameFault::Unclosed);
    };
    let (name, version) = versioned(inside);
    let package = named_package(name)?;
    check_version_piece(alloc, version)?;
    let integrity = tail(rest)?;
    Ok(DependencyName::Locked {
        package,
        version,
        integrity,
    })
}

/// Reads the text after `url=<`.
#[tactic(auto, unfolding(crate::specs::Reading::read_url))]
fn url(text: &str) -> Result<UrlName<'_>, NameFault>
    ensures value { Gives url_view result (read_url text.now) }
    ensures memory { IfErr result (λ f. f ≢ NameFault.OutOfMemory) }
{
    let Some((url, rest)) = cut(text, '>') else {
        return Err(NameFault::Unclosed);
    };
    if cut(url, '<').is_some() {
        return Err(NameFault::Unclosed);
    }
    let integrity = tail(rest)?;
    Ok(UrlName { url, integrity })
}

/// Reads an interface.
#[tactic(auto, using(crate::proofs::MemoryFacts::no_piece), unfolding(crate::specs::Reading::read_interface))]
fn interface(alloc: Global, text: &str) -> Result<InterfaceName<'_>, NameFault>
    ensures value { GivesOrMemory interface_view result (read_interface text.now) }
    ensures plain { AnswersPlain IsPlainKind (read_interface text.now) result }
    ensures memory { has 64 text.now ≡ false → IfErr result (λ f. f ≢ NameFault.OutOfMemory) }
{
    let (name, version) = versioned(text);
    let (namespace, rest) = halves(name, ':');
    let (name, interface) = halves(rest, '/');
    let package = package(namespace, name)?;
    let interface = label(interface)?;
    check_version_piece(alloc, version)?;
    Ok(InterfaceName {
        package,
        interface,
        version,
    })
}

/// Reads a text that begins with `[`.
#[tactic(auto, unfolding(crate::specs::Reading::read_bracketed))]
fn bracketed(text: &str) -> Result<ComponentNameKind<'_>, NameFault>
    ensures value { Gives kind_view result (read_bracketed text.now) }
    ensures memory { IfErr result (λ f. f ≢ NameFault.OutOfMemory) }
{
    if let Some(resource) = strip(text, "[constructor]") {
        return Ok(ComponentNameKind::Constructor(label(resource)?));
    }
    if let Some(rest) = strip(text, "[method]") {
        let (resource, name) = path(rest)?;
        return Ok(ComponentNameKind::Method { resource, name });
    }
    if let Some(rest) = strip(text, "[static]") {
        let (resource, name) = path(rest)?;
        return Ok(ComponentNameKind::Static { resource, name });
    }
    Err(NameFault::BadLabel)
}

/// Reads an interface if there is a `:`, else a label.
#[tactic(auto, unfolding(crate::specs::Reading::read_plain))]
fn plain(alloc: Global, text: &str) -> Result<ComponentNameKind<'_>, NameFault>
    ensures value { GivesOrMemory kind_view result (read_plain text.now) }
    ensures plain { AnswersPlain IsPlainKind (read_plain text.now) result }
    ensures memory { has 64 text.now ≡ false → IfErr result (λ f. f ≢ NameFault.OutOfMemory) }
{
    match cut(text, ':') {
        Some(_) => Ok(ComponentNameKind::Interface(interface(alloc, text)?)),
        None => Ok(ComponentNameKind::Label(label(text)?)),
    }
}

/// Reads a URL, a hash, an interface or a label.
#[tactic(auto, using(crate::proofs::MemoryFacts::has_behind), unfolding(crate::specs::Reading::read_placed))]
fn placed(alloc: Global, text: &str) -> Result<ComponentNameKind<'_>, NameFault>
    ensures value { GivesOrMemory kind_view result (read_placed text.now) }
    ensures plain { AnswersPlain IsPlainKind (read_placed text.now) result }
    ensures memory { has 64 text.now ≡ false → IfErr result (λ f. f ≢ NameFault.OutOfMemory) }
{
    if let Some(rest) = strip(text, "url=<") {
        return Ok(ComponentNameKind::Url(url(rest)?));
    }
    if let Some(rest) = strip(text, "integrity=<") {
        let text = hash(rest)?;
        return Ok(ComponentNameKind::Hash(HashName { text }));
    }
    plain(alloc, text)
}

/// Reads any text that does not begin with `[`.
#[tactic(auto, using(crate::proofs::MemoryFacts::has_behind), unfolding(crate::specs::Reading::read_marked))]
fn marked(alloc: Global, text: &str) -> Result<ComponentNameKind<'_>, NameFault>
    ensures value { GivesOrMemory kind_view result (read_marked text.now) }
    ensures plain { AnswersPlain IsPlainKind (read_marked text.now) result }
    ensures memory { has 64 text.now ≡ false → IfErr result (λ f. f ≢ NameFault.OutOfMemory) }
{
    if let Some(rest) = strip(text, "unlocked-dep=<") {
        return Ok(ComponentNameKind::Dependency(unlocked(alloc, rest)?));
    }
    if let Some(rest) = strip(text, "locked-dep=<") {
        return Ok(ComponentNameKind::Dependency(locked(alloc, rest)?));
    }
    placed(alloc, text)
}

/// Reads a text as a name, and returns its kind.
#[tactic(auto, unfolding(crate::specs::Reading::read))]
pub(crate) fn kind(alloc: Global, text: &str) -> Result<ComponentNameKind<'_>, NameFault>
    ensures value { GivesOrMemory kind_view result (read text.now) }
    ensures plain { AnswersPlain IsPlainKind (read text.now) result }
    ensures memory { has 64 text.now ≡ false → IfErr result (λ f. f ≢ NameFault.OutOfMemory) }
{
    if text.is_empty() {
        return Err(NameFault::Empty);
    }
    match strip(text, "[") {
        Some(_) => bracketed(text),
        None => marked(alloc, text),
    }
}

/// Whether the text is an interface without a version.
#[tactic(auto, unfolding(crate::specs::Reading::is_interface_name))]
pub(crate) fn is_interface_name(name: &str) -> bool
    ensures { result ≡ is_interface_name name.now }
{
    let (namespace, rest) = halves(name, ':');
    let (name, interface) = halves(rest, '/');
    package(namespace, name).is_ok() && is_label(interface)
}

/// Parses a version, if there is one. Returns `None` for a text that is not a version.
#[tactic(auto, unfolding(crate::specs::Track::parts_piece))]
pub(crate) fn parse_version(
    alloc: Global,
    text: Option<&str>,
) -> Result<Option<Version>, AllocError>
    ensures value { IfOk result (λ v. option_map parts_of v ≡ parts_piece (option_copied text.entry)) }
    ensures none { option_copied text.entry ≡ None → IsOk result }
    ensures plain { IfSome (option_copied text.entry) IsPlainVersion → IsOk result }
{
    let Some(text) = text else {
        return Ok(None);
    };
    match Version::parse(alloc, text) {
        Ok(version) => Ok(Some(version)),
        Err(error) => {
            if error == semver::Error::from(AllocError) {
                Err(AllocError)
            } else {
                Ok(None)
            }
        }
    }
}
