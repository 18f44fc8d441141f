//! The call that opens a file or directory, and makes it where that is asked for.
ghost use Rattle.std.specs.Prelude.{◌≡◌, ◌+◌, ◌<◌, ◌≤◌, ◌^◌, if◌then◌else◌, IfOk, OnErr, OnOk, false, true};
ghost use Rattle.sx_spec.specs.Changes.{make_node, put_open};
ghost use Rattle.sx_spec.specs.Facts.{new_file};
ghost use Rattle.sx_spec.specs.SessionCalls.{empty_node, file_attributes, lease_of, new_open, no_content};
ghost use Rattle.sx_spec.specs.SessionCalls.{open_checks, open_reply, smb_open, spot_for};
ghost use Rattle.sx_call.specs.declared.replies.Reply.TheVariants.{Smb};
ghost use Rattle.sx_call.specs.declared.replies.SmbReply.TheVariants.{Opened};
ghost use Rattle.sx_spec.specs.Step.{outcome};
ghost use Rattle.sx_state.specs.Ids.{CanGrant, IsFresh};
ghost use Rattle.sx_tree.specs.Node.{directory_attributes};
ghost use Rattle.sx_tree.specs.declared.node.Kind.TheVariants.{Directory, File};

use std::alloc::Global;
use sx_call::{Entry, How, Open, Refusal, Reply, SmbOpen, SmbReply, Stamp};
use sx_extent::Ranges;
use sx_guard::{HandleId, HandleIndex};
use sx_lease::LeaseState;
use sx_memory::NoMemory;
use sx_names::{Attributes, Content, Meta, Part};
use sx_spec::{Asks, Checks, LeaseAsk, Limit, OpenAsk};
use sx_state::{
    Spot, State, Where, asks_nothing, may_make, new_facts, of_kind, read_only_check, unchecked,
};
use sx_tree::{FileBody, Kind, Node, Tree};

/// The most opens of a file or directory.
const MOST_OPENS: u64 = 2000;

/// The spot that an open wants: a node that is there, a name that is free and may be made, or either.
fn spot_for<'a, 'p>(how: How, tree: &Tree, spot: Spot<'a, 'p>) -> Result<Spot<'a, 'p>, Refusal>
    ensures { result ≡ spot_for how tree.now spot.entry }
{
    match how {
        How::Existing => match &spot.at {
            Where::Taken(_) => Ok(spot),
            Where::Free(_, _) => Err(Refusal::NameAbsent),
        },
        How::Create => match may_make(tree, spot) {
            Ok(spot) => match &spot.at {
                Where::Taken(node) => Err(Refusal::NameThere { id: node.id }),
                Where::Free(_, _) => Ok(spot),
            },
            Err(refusal) => Err(refusal),
        },
        How::Either => may_make(tree, spot),
    }
}

/// The lease of a file; a directory has none that is held.
fn lease_of(node: &Node) -> LeaseState
    ensures { result ≡ lease_of node.now }
{
    if node.kind.is_directory() {
        return LeaseState::Available;
    }
    node.facts.lease
}

/// What an open of a node that is there is checked for: the ReadOnly attribute, the file's lease, the other opens, and
/// how many they are.
fn open_checks(state: &State, entry: &Entry, call: &SmbOpen, node: &Node) -> Checks
    ensures { result
        ≡ open_checks state.now entry.now.call node.now call.now.access.access call.now.mode }
{
    let opens = state.count_on(node.id);
    let mut limits = None;
    if opens >= MOST_OPENS {
        limits = Some(Limit::TooManyOpens { n: opens });
    }
    let access = call.access.access;
    let mode = call.mode;
    Checks {
        read_only: read_only_check(&entry.call, node),
        asks: Asks {
            lease: LeaseAsk::Unleased {
                state: lease_of(node),
                access,
            },
            opens: OpenAsk::Beside {
                id: node.id,
                access,
                mode,
            },
            ..asks_nothing()
        },
        limits,
        ..unchecked()
    }
}

/// The open that the session is granted next, on a node of a share.
fn new_open(
    state: &State,
    now: &Stamp,
    entry: &Entry,
    call: &SmbOpen,
    number: u32,
    node: u64,
) -> Open
    requires granted { CanGrant state.now }
    requires session { 1 ≤ entry.now.session }
    ensures { result ≡ new_open state.now now.now entry.now.session number node call.now.access.access call.now.mode
        call.now.access.on_close }
{
    let index = state.granted_to(entry.session) + 1;
    Open {
        handle: HandleId {
            session: entry.session,
            index,
        },
        share: number,
        node,
        access: call.access.access,
        mode: call.mode,
        on_close: call.access.on_close,
        at: now.changed,
    }
}

/// The reply to an open.
fn opened(held: &Open, made: bool, id: u64, length: u64) -> Reply
    ensures { result ≡ Smb (Opened held.now.handle.index made id length) }
{
    Reply::Smb(SmbReply::Opened {
        index: HandleIndex::of(held.handle.index),
        made,
        id,
        length,
    })
}

/// Opens a node that is there.
fn open_there(
    state: &mut State,
    now: &Stamp,
    entry: &Entry,
    call: &SmbOpen,
    number: u32,
    id: u64,
    length: u64,
) -> Result<Reply, NoMemory>
    requires granted { CanGrant state.old }
    requires session { 1 ≤ entry.now.session }
    ensures ok { OnOk result (state.new ≡ put_open (new_open state.old now.now entry.now.session number id
        call.now.access.access call.now.mode call.now.access.on_close) state.old) }
    ensures reply { IfOk result (λ reply. reply ≡ Smb (Opened (new_open state.old now.now entry.now.session number id
        call.now.access.access call.now.mode call.now.access.on_close).handle.index false id length)) }
    ensures err { OnErr result (state.new ≡ state.old) }
{
    let added = new_open(state, now, entry, call, number, id);
    let reply = opened(&added, false, id, length);
    state.put_open(added)?;
    Ok(reply)
}

/// The attributes of a directory or file that an open makes.
fn attributes_of(dir: bool) -> Attributes
    ensures { result ≡ (if dir then directory_attributes else file_attributes) }
{
    Attributes {
        read_only: false,
        hidden: false,
        system: false,
        archive: !dir,
        temporary: false,
        offline: false,
        not_content_indexed: false,
        no_scrub_data: false,
        directory: dir,
    }
}

/// No content header.
fn no_content() -> Content
    ensures { result ≡ no_content }
{
    Content {
        kind: None,
        encoding: None,
        language: None,
        cache_control: None,
        disposition: None,
        md5: None,
    }
}

/// A directory, or else a file with no bytes.
fn empty_kind(alloc: Global, dir: bool) -> Kind
    ensures { result ≡ (if dir then Directory else File (new_file 0 no_content)) }
{
    if dir {
        return Kind::Directory;
    }
    Kind::File(FileBody {
        ranges: Ranges::new(alloc, 0),
        content: no_content(),
    })
}

/// The directory or empty file that an open makes.
fn empty_node(state: &State, now: &Stamp, dir: bool, parent: u64) -> Node
    ensures { result ≡ empty_node state.now now.now dir parent }
{
    let alloc = state.allocator();
    Node {
        id: state.next_id(),
        parent,
        facts: new_facts(*now, attributes_of(dir), None, None, Meta::new(alloc)),
        kind: empty_kind(alloc, dir),
    }
}

/// Makes a directory or empty file, and opens it.
fn open_made(
    state: &mut State,
    now: &Stamp,
    entry: &Entry,
    call: &SmbOpen,
    number: u32,
    parent: u64,
    name: &Part,
) -> Result<Reply, NoMemory>
    requires granted { CanGrant state.old }
    requires fresh { IsFresh state.old }
    requires ids { state.old.next_id + 1 < 2 ^ 64 }
    requires session { 1 ≤ entry.now.session }
    ensures ok { OnOk result (state.new ≡ put_open (new_open state.old now.now entry.now.session number
        state.old.next_id call.now.access.access call.now.mode call.now.access.on_close)
        (make_node number name.now (empty_node state.old now.now call.now.dir parent) state.old)) }
    ensures reply { IfOk result (λ reply. reply ≡ open_reply (new_open state.old now.now entry.now.session number
        state.old.next_id call.now.access.access call.now.mode call.now.access.on_close) true
        (empty_node state.old now.now call.now.dir parent)) }
    ensures err { OnErr result (state.new ≡ state.old) }
{
    let node = empty_node(state, now, call.dir, parent);
    let added = new_open(state, now, entry, call, number, node.id);
    let reply = opened(&added, true, node.id, node.kind.length());
    let name = name.copy()?;
    state.make_open(number, name, node, added)?;
    Ok(reply)
}

/// Open: it opens the file or directory of a path, and makes it where it is absent and the call makes names. What is
/// made has the attribute Directory or Archive.
#[tactic(auto, using(crate::proofs::Passed::unchecked_passes))]
pub fn smb_open(
    state: &mut State,
    now: &Stamp,
    entry: &Entry,
    call: &SmbOpen,
) -> Result<Reply, NoMemory>
    requires granted { CanGrant state.old }
    requires fresh { IsFresh state.old }
    requires ids { state.old.next_id + 1 < 2 ^ 64 }
    requires session { 1 ≤ entry.now.session }
    ensures ok { IfOk result (λ reply. (state.new, reply) ≡ outcome state.old (smb_open state.old now.now
        entry.now.session entry.now.call call.now.share call.now.path call.now.access.access call.now.mode
        call.now.how call.now.dir call.now.access.on_close)) }
    ensures err { OnErr result (state.new ≡ state.old) }
{
    let volume = match state.volume_at(&call.share, None) {
        Ok(volume) => volume,
        Err(refusal) => return Ok(Reply::Refused(refusal)),
    };
    let spot = match volume.spot(call.path.path()) {
        Ok(spot) => spot,
        Err(refusal) => return Ok(Reply::Refused(refusal)),
    };
    let spot = match spot_for(call.how, volume.tree, spot) {
        Ok(spot) => spot,
        Err(refusal) => return Ok(Reply::Refused(refusal)),
    };
    let number = volume.number();
    match spot.at {
        Where::Free(parent, name) => open_made(state, now, entry, call, number, parent, name),
        Where::Taken(node) => {
            if let Some(refusal) = of_kind(call.dir, node) {
                return Ok(Reply::Refused(refusal));
            }
            if node.facts.pending {
                return Ok(Reply::Refused(Refusal::Pending { id: node.id }));
            }
            if let Some(refusal) = state.first_check(&open_checks(state, entry, call, node)) {
                return Ok(Reply::Refused(refusal));
            }
            let (id, length) = (node.id, node.kind.length());
            open_there(state, now, entry, call, number, id, length)
        }
    }
}
