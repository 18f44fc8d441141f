//! The calls that give a file its properties.

ghost use Rattle.std.specs.Prelude.{◌≡◌, IfOk, OnOk};
ghost use Rattle.sx_heads.specs.Fields.{with_fields};
ghost use Rattle.sx_heads.specs.Spellings.{request_of};
ghost use Rattle.sx_heads.specs.FileSpellings.{create_file, set_file_properties, new_facts, set_facts};

use crate::fields::{
    put, put_attributes, put_attributes_if, put_content, put_id_if, put_length_if, put_metas,
    put_moment_if, put_number, put_time, request_with,
};
use crate::targets::target_text;
use http::Method;
use std::alloc::Global;
use sx_base::Items;
use sx_call::{CreateFile, SetFileProperties};
use sx_decode::forms::{Comp, Restype};
use sx_http::{Header, Request};
use sx_memory::NoMemory;

/// The attributes, times, metadata and lease id of a new file.
fn put_new_facts(
    alloc: Global,
    headers: &mut Items<Header>,
    call: &CreateFile,
) -> Result<(), NoMemory>
    ensures { OnOk result (headers.new ≡ with_fields headers.old (new_facts call.now)) }
{
    put_attributes(alloc, headers, &call.attributes.attributes())?;
    put_moment_if(alloc, headers, "x-ms-file-creation-time", call.created)?;
    put_moment_if(alloc, headers, "x-ms-file-last-write-time", call.written)?;
    put_metas(alloc, headers, call.meta.pairs())?;
    put_id_if(alloc, headers, "x-ms-lease-id", call.lease)
}

/// Create File.
#[tactic(auto, unfolding(crate::specs::Spellings::request_of, crate::specs::Spellings::headers_spelled, crate::specs::FileSpellings::create_file))]
pub(crate) fn create_file(alloc: Global, call: &CreateFile) -> Result<Request, NoMemory>
    ensures { IfOk result (λ r. r ≡ request_of (create_file call.now)) }
{
    let at = call.at.target();
    let target = target_text(
        alloc,
        &at.share,
        at.path.parts(),
        Restype::Absent,
        Comp::Absent,
        None,
    )?;
    let mut headers = Items::new(alloc);
    put(alloc, &mut headers, "x-ms-type", b"file")?;
    put_number(
        alloc,
        &mut headers,
        "x-ms-content-length",
        call.length.bytes(),
    )?;
    put_content(alloc, &mut headers, &call.content)?;
    put_new_facts(alloc, &mut headers, call)?;
    request_with(alloc, Method::PUT, target, headers, Items::new(alloc))
}

/// The attributes, times and lease id that are set.
fn put_set_facts(
    alloc: Global,
    headers: &mut Items<Header>,
    call: &SetFileProperties,
) -> Result<(), NoMemory>
    ensures { OnOk result (headers.new ≡ with_fields headers.old (set_facts call.now)) }
{
    put_attributes_if(alloc, headers, &call.attributes)?;
    put_time(alloc, headers, "x-ms-file-creation-time", &call.created)?;
    put_time(alloc, headers, "x-ms-file-last-write-time", &call.written)?;
    put_id_if(alloc, headers, "x-ms-lease-id", call.lease)
}

/// Set File Properties.
#[tactic(auto, unfolding(crate::specs::Spellings::request_of, crate::specs::Spellings::headers_spelled, crate::specs::FileSpellings::set_file_properties))]
pub(crate) fn set_file_properties(
    alloc: Global,
    call: &SetFileProperties,
) -> Result<Request, NoMemory>
    ensures { IfOk result (λ r. r ≡ request_of (set_file_properties call.now)) }
{
    let at = call.at.target();
    let target = target_text(
        alloc,
        &at.share,
        at.path.parts(),
        Restype::Absent,
        Comp::Properties,
        None,
    )?;
    let mut headers = Items::new(alloc);
    put_length_if(alloc, &mut headers, call.length)?;
    put_content(alloc, &mut headers, &call.content)?;
    put_set_facts(alloc, &mut headers, call)?;
    request_with(alloc, Method::PUT, target, headers, Items::new(alloc))
}
