//! The options of encoding.

/// The tool that a component names as its processor, in the `producers` custom section.
#[derive(Clone, Copy, Debug, PartialEq, Eq)]
pub struct Processor<'a> {
    /// The processor's name.
    pub name: &'a str,
    /// The processor's version.
    pub version: &'a str,
}

/// The options of encoding. By default components are defined, names are validated, and no processor is named.
#[derive(Clone, Copy, Debug, PartialEq, Eq)]
pub struct EncodeOptions<'a> {
    /// Whether the bytes of packages are included. If not, each package is imported as a component.
    pub define_components: bool,
    /// Whether the names of the component's imports and exports are validated.
    pub validate: bool,
    /// The processor to name in the `producers` section, if any.
    pub processor: Option<Processor<'a>>,
}

impl Default for EncodeOptions<'_> {
    ghost use Rattle.std.specs.Prelude.{◌≡◌};
    ghost use Rattle.wac_graph_model.specs.nodes.Options.{default_options};

    ghost is_default = { λ options. options ≡ default_options };

    fn default() -> Self {
        EncodeOptions {
            define_components: true,
            validate: true,
            processor: None,
        }
    }
}
