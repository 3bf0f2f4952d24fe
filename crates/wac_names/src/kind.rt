ghost use Rattle.std.specs.Prelude.{◌≡◌, ◌↔◌, IfOk, IfSome, IsOk, IsTrue, None};
ghost use Rattle.std.specs.Option.{option_copied, option_map};
ghost use Rattle.semver.specs.Identifiers.{parts_of};
ghost use Rattle.wac_names.specs.Track.{parts_piece};
ghost use Rattle.wac_names.specs.Kind.{IsExportable};
ghost use Rattle.wac_names.specs.Plain.{IsPlainVersion};
ghost use Rattle.wac_names.specs.Views.{interface_name, interface_package, interface_version, kind_view, package_view, hash_text, url_integrity, url_text};

use crate::reading::parse_version;
use semver::Version;
use std::alloc::{AllocError, Global};

/// The kind of a component name, with the pieces of its text.
#[derive(Clone, Copy, Debug)]
pub enum ComponentNameKind<'a> {
    /// A label: `read-file`.
    Label(&'a str),
    /// The constructor of a resource: `[constructor]file`.
    Constructor(&'a str),
    /// A method of a resource: `[method]file.read`.
    Method {
        /// The resource: `file`.
        resource: &'a str,
        /// The method: `read`.
        name: &'a str,
    },
    /// A static function of a resource: `[static]file.open`.
    Static {
        /// The resource: `file`.
        resource: &'a str,
        /// The function: `open`.
        name: &'a str,
    },
    /// An interface of a package: `wasi:io/streams@0.2.0`.
    Interface(InterfaceName<'a>),
    /// A package that a component depends on: `unlocked-dep=<a:b@{>=1.0.0}>`.
    Dependency(DependencyName<'a>),
    /// The location of a component: `url=<https://example.com>`.
    Url(UrlName<'a>),
    /// The hash of a component: `integrity=<sha256-AAAA>`.
    Hash(HashName<'a>),
}

/// A package: two lower-case labels, `wasi:io`.
#[derive(Clone, Copy, Debug)]
pub struct PackageName<'a> {
    pub(crate) namespace: &'a str,
    pub(crate) name: &'a str,
}

/// An interface of a package, with or without a version.
#[derive(Clone, Copy, Debug)]
pub struct InterfaceName<'a> {
    pub(crate) package: PackageName<'a>,
    pub(crate) interface: &'a str,
    pub(crate) version: Option<&'a str>,
}

/// A range of versions, with its bounds as texts.
#[derive(Clone, Copy, Debug)]
pub enum VersionRange<'a> {
    /// `*`
    Any,
    /// `{>=low}`
    AtLeast(&'a str),
    /// `{<high}`
    Below(&'a str),
    /// `{>=low <high}`
    Between {
        /// The lowest version.
        low: &'a str,
        /// The version that is above all of the range.
        high: &'a str,
    },
}

/// A package that a component depends on.
#[derive(Clone, Copy, Debug)]
pub enum DependencyName<'a> {
    /// A package in a range of versions.
    Unlocked {
        /// The package.
        package: PackageName<'a>,
        /// The versions that are allowed; any version if there is no range.
        range: Option<VersionRange<'a>>,
    },
    /// A package at one version.
    Locked {
        /// The package.
        package: PackageName<'a>,
        /// The version, if there is one.
        version: Option<&'a str>,
        /// The hash, if there is one.
        integrity: Option<&'a str>,
    },
}

/// The location of a component, with or without its hash.
#[derive(Clone, Copy, Debug)]
pub struct UrlName<'a> {
    pub(crate) url: &'a str,
    pub(crate) integrity: Option<&'a str>,
}

/// The hash of a component.
#[derive(Clone, Copy, Debug)]
pub struct HashName<'a> {
    pub(crate) text: &'a str,
}

impl ComponentNameKind<'_> {
    /// Whether a name of this kind can be exported: it is not a hash, a URL or a dependency.
    pub fn is_exportable(&self) -> bool
        ensures { IsTrue result ↔ IsExportable (kind_view self.now) }
    {
        match self {
            ComponentNameKind::Label(_)
            | ComponentNameKind::Constructor(_)
            | ComponentNameKind::Method { .. }
            | ComponentNameKind::Static { .. }
            | ComponentNameKind::Interface(_) => true,
            ComponentNameKind::Dependency(_)
            | ComponentNameKind::Url(_)
            | ComponentNameKind::Hash(_) => false,
        }
    }
}

impl<'a> PackageName<'a> {
    /// The namespace: `wasi` of `wasi:io`.
    pub fn namespace(&self) -> &'a str
        ensures { result.now ≡ (package_view self.now).namespace }
    {
        self.namespace
    }

    /// The name: `io` of `wasi:io`.
    pub fn name(&self) -> &'a str
        ensures { result.now ≡ (package_view self.now).name }
    {
        self.name
    }
}

impl<'a> InterfaceName<'a> {
    /// The namespace: `wasi` of `wasi:io/streams@0.2.0`.
    pub fn namespace(&self) -> &'a str
        ensures { result.now ≡ (interface_package self.now).namespace }
    {
        self.package.namespace()
    }

    /// The name of the package: `io` of `wasi:io/streams@0.2.0`.
    pub fn package(&self) -> &'a str
        ensures { result.now ≡ (interface_package self.now).name }
    {
        self.package.name()
    }

    /// The name of the interface: `streams` of `wasi:io/streams@0.2.0`.
    pub fn interface(&self) -> &'a str
        ensures { result.now ≡ interface_name self.now }
    {
        self.interface
    }

    /// The text of the version, if there is one: `0.2.0` of `wasi:io/streams@0.2.0`.
    pub fn version_text(&self) -> Option<&'a str>
        ensures { option_copied result ≡ interface_version self.now }
    {
        self.version
    }

    /// Returns the version, if there is one.
    ///
    /// # Errors
    /// - `AllocError` if out of memory. A version without pre-release and build metadata takes no memory.
    pub fn version(&self, alloc: Global) -> Result<Option<Version>, AllocError>
        ensures value { IfOk result (λ v. option_map parts_of v ≡ parts_piece (interface_version self.now)) }
        ensures none { interface_version self.now ≡ None → IsOk result }
        ensures plain { IfSome (interface_version self.now) IsPlainVersion → IsOk result }
    {
        parse_version(alloc, self.version)
    }
}

impl<'a> UrlName<'a> {
    /// The location of the component.
    pub fn url(&self) -> &'a str
        ensures { result.now ≡ url_text self.now }
    {
        self.url
    }

    /// The hash of the component, if there is one.
    pub fn integrity(&self) -> Option<&'a str>
        ensures { option_copied result ≡ url_integrity self.now }
    {
        self.integrity
    }
}

impl<'a> HashName<'a> {
    /// The hash of the component: items separated by one space.
    pub fn integrity(&self) -> &'a str
        ensures { result.now ≡ hash_text self.now }
    {
        self.text
    }
}
