//! Names of shares, parts and paths, with their case folding, and the limits of plain fields.
#![tactic(auto)]

mod attributes;
mod content;
mod fault;
mod header;
mod meta;
mod meta_pair;
mod page;
mod part;
mod path;
mod quota;
mod share;
mod text;

pub use attributes::Attributes;
pub use content::{Content, ContentMd5};
pub use fault::{NameFault, NameRule, Unnamed};
pub use header::{ContentText, HeaderText, MAX_CONTENT_BYTES};
pub use meta::{MAX_META_BYTES, MAX_META_NAMES, Meta};
pub use meta_pair::{MAX_META_NAME_BYTES, MetaName, MetaPair};
pub use page::{MAX_RESULTS, NameItem, NamesPage, PageSize};
pub use part::{Folded, MAX_PART_CHARS, Part};
pub use path::{MAX_PARTS, MAX_PATH_CHARS, Path};
pub use quota::{MAX_QUOTA, Quota};
pub use share::{MAX_SHARE_BYTES, MIN_SHARE_BYTES, ShareName};
pub use text::Text;
