//! Values of tests, made with ample memory.

use std::alloc::Global;
use std::process::Abort;
use sx_names::Text;

/// A text of these pieces.
pub fn joined(rt: &impl Abort, alloc: Global, pieces: &[&str]) -> Text {
    let mut text = Text::new(alloc);
    for piece in pieces.iter() {
        if text.append(*piece).is_err() {
            panic!(rt; "no memory");
        }
    }
    text
}
