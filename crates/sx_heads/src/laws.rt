//! The law of spelling.

ghost use Rattle.std.specs.Prelude.{◌≡◌, Some};
ghost use Rattle.sx_call.specs.Calls.{door_of};
ghost use Rattle.sx_call.specs.declared.doors.Door.TheVariants as Door;
ghost use Rattle.sx_heads.specs.Digests.{IsReadDigest, HasReadDigest};
ghost use Rattle.sx_heads.specs.Heads.{head_of, IsReadAs};

use sx_call::Call;
use sx_names::ContentMd5;

/// That a digest is read from its base64. It does nothing.
#[tactic(auto, unfolding(crate::specs::Values::digest_text))]
fn digest_is_read(digest: &ContentMd5)
    ensures { IsReadDigest (Some digest.now) }
{
    let _text = digest.text();
}

fn digest_is_read_if_given(digest: &Option<ContentMd5>)
    ensures { IsReadDigest digest.now }
{
    match digest {
        Some(digest) => digest_is_read(digest),
        None => {}
    }
}

/// That the digest of a call is read from its base64. It does nothing.
fn digests_are_read(call: &Call)
    ensures { HasReadDigest call.now }
{
    match call {
        Call::CreateFile(call) => digest_is_read_if_given(&call.content.md5),
        Call::SetFileProperties(call) => digest_is_read_if_given(&call.content.md5),
        _ => {}
    }
}

/// The law of spelling: the one request that is written for a call of REST is read as exactly that call. It does
/// nothing.
pub fn calls_are_read_back(call: &Call)
    requires { door_of call.now ≡ Door.Rest }
    ensures back { IsReadAs call.now (head_of call.now) }
{
    call.keeps_limits();
    digests_are_read(call);
}
