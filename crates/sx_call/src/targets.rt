//! What a call on a file or directory names: a share and a path in it.
ghost use Rattle.std.specs.Prelude.{◌≡◌, ◌<◌, IfOk, length};
ghost use Rattle.sx_call.specs.Limits.{if_within};
ghost use Rattle.sx_call.specs.Targets.{is_below_root, has_part};

use std::marker::Model;
use sx_memory::NoMemory;
use sx_names::{Path, ShareName};

/// A share and a path in it. The empty path is the share's root directory.
#[derive(Debug, Drop)]
pub struct Target {
    /// The name of the share.
    pub share: ShareName,
    /// The parts from the root on.
    pub path: Path,
}

impl Target {
    /// An equal target of its own.
    pub fn copy(&self) -> Result<Target, NoMemory>
        ensures { IfOk result (λ t. t ≡ self.now) }
    {
        Ok(Target {
            share: self.share.copy()?,
            path: self.path.copy()?,
        })
    }
}

/// A path of at least one part, so of a name. Contracts see the path.
#[derive(Debug, Drop)]
pub struct NamedPath {
    path: Path,
}

impl Model for NamedPath {
    ghost use Rattle.std.specs.Prelude.{◌≡◌, List, ℕ, true};
    ghost use Rattle.sx_call.specs.Targets.{has_part};

    ghost Value = { List (List ℕ) };

    ghost view = { λ p. p.path };

    ghost invariant = { λ p. has_part p.path ≡ true };
}

impl NamedPath {
    /// The same path, where it has a part.
    pub fn of(path: Path) -> Option<NamedPath>
        ensures { result ≡ if_within has_part path }
    {
        if path.parts().is_empty() {
            None
        } else {
            Some(NamedPath { path })
        }
    }

    /// The path.
    pub fn path(&self) -> &Path
        ensures value { result.now ≡ self.now }
        ensures named { 0 < length self.now }
    {
        &self.path
    }

    /// An equal path of its own.
    pub fn copy(&self) -> Result<NamedPath, NoMemory>
        ensures { IfOk result (λ p. p ≡ self.now) }
    {
        Ok(NamedPath {
            path: self.path.copy()?,
        })
    }
}

/// A target below the root of its share: its path has at least one part. Contracts see the target.
#[derive(Debug, Drop)]
pub struct NamedTarget {
    target: Target,
}

impl Model for NamedTarget {
    ghost use Rattle.std.specs.Prelude.{◌≡◌, true};
    ghost use Rattle.sx_call.specs.declared.targets.Target.{Target};
    ghost use Rattle.sx_call.specs.Targets.{is_below_root};

    ghost Value = { Target };

    ghost view = { λ t. t.target };

    ghost invariant = { λ t. is_below_root t.target ≡ true };
}

impl NamedTarget {
    /// The same target, where it lies below the root.
    pub fn of(target: Target) -> Option<NamedTarget>
        ensures { result ≡ if_within is_below_root target }
    {
        if target.path.parts().is_empty() {
            None
        } else {
            Some(NamedTarget { target })
        }
    }

    /// The target.
    pub fn target(&self) -> &Target
        ensures value { result.now ≡ self.now }
        ensures named { 0 < length self.now.path }
    {
        &self.target
    }

    /// An equal target of its own.
    pub fn copy(&self) -> Result<NamedTarget, NoMemory>
        ensures { IfOk result (λ t. t ≡ self.now) }
    {
        Ok(NamedTarget {
            target: self.target.copy()?,
        })
    }
}
