//! Texts of fragments.
ghost use Rattle.std.specs.Prelude.{◌≡◌, IfOk};
ghost use Rattle.std.specs.List.{flat_map};

use std::alloc::{AllocError, Global};

/// Fragments, one behind another.
pub(crate) fn joined(alloc: Global, fragments: &[&[u8]]) -> Result<Vec<u8>, AllocError>
    ensures { IfOk result (λ text. text.items ≡ flat_map (λ f. f.now) fragments.now) }
{
    let mut text = Vec::new(alloc);
    for fragment in fragments {
        text.extend_from_slice(fragment)?;
    }
    Ok(text)
}
