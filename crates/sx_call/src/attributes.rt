//! The attributes that a call gives a directory or a file.
ghost use Rattle.std.specs.Prelude.{◌≡◌, true, false};

use std::marker::Model;
use sx_names::Attributes;

/// The attributes of a directory, which always have the one that says so. Contracts see the attributes.
#[derive(Clone, Copy, Debug, PartialEq, Eq)]
pub struct DirectoryAttributes {
    attributes: Attributes,
}

impl Model for DirectoryAttributes {
    ghost use Rattle.std.specs.Prelude.{◌≡◌, true};
    ghost use Rattle.sx_names.specs.declared.attributes.Attributes.{Attributes};

    ghost Value = { Attributes };

    ghost view = { λ d. d.attributes };

    ghost invariant = { λ d. d.attributes.directory ≡ true };

    ghost inverse = { λ a. record { attributes = a } };
}

impl DirectoryAttributes {
    /// These attributes, with that of a directory.
    pub fn of(attributes: Attributes) -> DirectoryAttributes
        ensures { result ≡ record attributes { directory = true } }
    {
        DirectoryAttributes {
            attributes: Attributes {
                directory: true,
                ..attributes
            },
        }
    }

    /// The attributes.
    pub fn attributes(self) -> Attributes
        ensures value { result ≡ self }
        ensures directory { self.directory ≡ true }
    {
        self.attributes
    }
}

/// The attributes of a file, which never have that of a directory. Contracts see the attributes.
#[derive(Clone, Copy, Debug, PartialEq, Eq)]
pub struct FileAttributes {
    attributes: Attributes,
}

impl Model for FileAttributes {
    ghost use Rattle.std.specs.Prelude.{◌≡◌, false};
    ghost use Rattle.sx_names.specs.declared.attributes.Attributes.{Attributes};

    ghost Value = { Attributes };

    ghost view = { λ f. f.attributes };

    ghost invariant = { λ f. f.attributes.directory ≡ false };

    ghost inverse = { λ a. record { attributes = a } };
}

impl FileAttributes {
    /// These attributes, without that of a directory.
    pub fn of(attributes: Attributes) -> FileAttributes
        ensures { result ≡ record attributes { directory = false } }
    {
        FileAttributes {
            attributes: Attributes {
                directory: false,
                ..attributes
            },
        }
    }

    /// The attributes.
    pub fn attributes(self) -> Attributes
        ensures value { result ≡ self }
        ensures file { self.directory ≡ false }
    {
        self.attributes
    }
}
