//! The rights that an open asks for, and those that it leaves to others.
ghost use Rattle.std.specs.Prelude.{◌≡◌};
ghost use Rattle.sx_guard.specs.Access.{exceeds, has_no_right};

/// The rights that an open asks for: any set of read, write and delete.
#[derive(Clone, Copy, Debug, PartialEq, Eq)]
pub struct Access {
    /// It may read the file.
    pub read: bool,
    /// It may write the file.
    pub write: bool,
    /// It may delete or rename the file.
    pub delete: bool,
}

/// The share mode of an open: the rights that it leaves to others, any set of read, write and delete.
#[derive(Clone, Copy, Debug, PartialEq, Eq)]
pub struct Mode {
    /// Others may read the file.
    pub read: bool,
    /// Others may write the file.
    pub write: bool,
    /// Others may delete or rename the file.
    pub delete: bool,
}

impl Access {
    /// Whether no right is asked for.
    pub fn is_empty(self) -> bool
        ensures { result ≡ has_no_right self }
    {
        !self.read && !self.write && !self.delete
    }

    /// Whether there is a right here that the share mode leaves to nobody else.
    pub fn exceeds(self, mode: Mode) -> bool
        ensures { result ≡ exceeds self mode }
    {
        self.read && !mode.read || self.write && !mode.write || self.delete && !mode.delete
    }
}
