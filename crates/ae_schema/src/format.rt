// The formats of the state files.
ghost use Rattle.std.specs.Prelude.{◌≡◌};
ghost use Rattle.ae_schema.specs.Formats.{format_number};

/// A format of the state files. In the first a row of a change's history has no reason.
#[derive(Clone, Copy, Debug, PartialEq, Eq)]
pub enum Format {
    One,
    Two,
}

impl Format {
    /// The number with which `project` begins.
    pub(crate) fn number(self) -> u64
        ensures { result ≡ format_number self }
    {
        match self {
            Format::One => 1,
            Format::Two => 2,
        }
    }
}

/// A format as a type, so that the types of a record's fields can be by it.
pub(crate) trait FormatType: Drop {
    ghost use Rattle.ae_schema.specs.declared.format.Format.{Format};

    // Which one it is.
    ghost format: { Format };

    /// Which one it is.
    fn value() -> Format
        ensures { result ≡ format };
}

/// The first format.
#[derive(Clone, Copy, Drop)]
pub(crate) struct FormatOne;

/// The second format.
#[derive(Clone, Copy, Drop)]
pub(crate) struct FormatTwo;

impl FormatType for FormatOne {
    ghost use Rattle.ae_schema.specs.declared.format.Format.TheVariants.{One};

    ghost format = { One };

    fn value() -> Format {
        Format::One
    }
}

impl FormatType for FormatTwo {
    ghost use Rattle.ae_schema.specs.declared.format.Format.TheVariants.{Two};

    ghost format = { Two };

    fn value() -> Format {
        Format::Two
    }
}
