//! The rules of names, and the first of them that a name breaks.

ghost use Rattle.std.specs.Prelude.{◌≡◌, Some};

use sx_base::NoMemory;

/// A rule of names.
#[derive(Clone, Copy, Debug, PartialEq, Eq)]
pub enum NameRule {
    /// A part is UTF-8.
    Utf8,
    /// A part is not empty.
    Empty,
    /// A part has no character below 32, none equal to 127 and none of `"`, `*`, `/`, `:`, `<`, `>`, `?`, `\` and
    /// `|`. A share name has lower-case letters, digits and hyphens alone.
    Char,
    /// A part isn't `.` or `..`.
    Dot,
    /// A part doesn't end in a dot or a space.
    Tail,
    /// A part has at most 255 characters, a share name at most 63 bytes.
    Long,
    /// A share name has at least 3 bytes.
    Short,
    /// A share name begins and ends with a letter or digit.
    Edge,
    /// A share name has no two hyphens in a row.
    Hyphens,
    /// A path has at most 250 parts.
    Deep,
    /// A path has at most 2,048 characters, the slashes between its parts counted.
    PathLong,
}

/// The first rule that is broken.
#[derive(Clone, Copy, Debug, PartialEq, Eq)]
pub struct NameFault {
    /// The rule.
    pub rule: NameRule,
    /// The part that breaks it, counted from 1; the count stands still at 4,294,967,295. It is 0 for a share name,
    /// and for a path as a whole.
    pub part: u32,
    /// The byte place within the name of the first character that breaks it, and 0 where no byte is to blame.
    pub at: u64,
}

impl NameFault {
    /// A fault where this rule is broken, at this place of this part.
    pub(crate) fn found(rule: NameRule, part: u32, at: usize) -> Option<NameFault>
        ensures { result ≡ Some (record { rule = rule; part = part; at = at }) }
    {
        Some(NameFault {
            rule,
            part,
            at: at as u64,
        })
    }
}

/// Why a name was not read.
#[derive(Clone, Copy, Debug, PartialEq, Eq)]
pub enum Unnamed {
    /// A rule of names is broken.
    Fault(NameFault),
    /// No memory was left to keep the name.
    NoMemory,
}

impl From<NoMemory> for Unnamed {
    ghost use Rattle.std.specs.Prelude.{◌≡◌};
    ghost use Rattle.sx_names.specs.declared.fault.Unnamed.TheVariants.{NoMemory};

    ghost from_gives = { λ _ e. e ≡ NoMemory };

    fn from(_error: NoMemory) -> Unnamed {
        Unnamed::NoMemory
    }
}
