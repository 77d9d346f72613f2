//! The table of requests and messages beside the matcher: what posts, letters and notices do to both.
ghost use Rattle.std.specs.Prelude.{◌≡◌, ◌+◌, ◌<◌, ◌≤◌, ◌^◌, IsTrue, IfNone, IfSome, Some, false, nat_eq, not};
ghost use Rattle.indexmap.specs.IndexMap.{get, index_map_len, spare};
ghost use Rattle.ulfm_match.specs.State.{is_cleared};
ghost use Rattle.ulfm_rank.specs.declared.request.Request.{Request};
ghost use Rattle.ulfm_rank.specs.Fates.{over_named, over_context};
ghost use Rattle.ulfm_rank.specs.inside.Requests.{Adds, changed, Changes, IsOpenFor, TracksAdmit, TracksDelivery, TracksRevocation, TracksItem};
ghost use Rattle.ulfm_rank.specs.Standing.{is_found};

use crate::request::{Fate, Request, fate_of, is_found, over_context, over_named};
use indexmap::IndexMap;
use ulfm_base::{Context, Item, Letter, Pattern, RequestId, WorldRank};
use ulfm_match::{Arrived, Matcher};

/// The message of a number where `found`, else the request of it, if it isn't released.
pub(crate) fn find(requests: &IndexMap<u64, Request>, number: u64, found: bool) -> Option<&Request>
    ensures there { IfSome result (λ request. (get nat_eq requests.now number ≡ Some request.now) × (is_found request.now.fate ≡ found)) }
    ensures none { IfNone result ((request : Request) → get nat_eq requests.now number ≡ Some request → is_found request.fate ≡ not found) }
{
    let request = requests.get(&number)?;
    if is_found(&request.fate) == found {
        return Some(request);
    }
    None
}

/// Puts a request into a table that has a place for one more.
pub(crate) fn put(requests: &mut IndexMap<u64, Request>, number: u64, request: Request)
    requires { 0 < spare requests.old }
    ensures adds { Adds number request (get nat_eq requests.old) (get nat_eq requests.new) }
    ensures len { index_map_len requests.new ≤ index_map_len requests.old + 1 }
{
    match requests.insert(number, request) {
        Ok(_) => {}
        Err(_) => unreachable!(),
    }
}

/// Posts a receive. Where its source is known to have failed and no kept letter is for it, it is over at once.
pub(crate) fn admit(matcher: &mut Matcher, gone: bool, pattern: Pattern) -> (RequestId, Fate)
    requires prepared { IsTrue matcher.old.prepared }
    requires countable { matcher.old.count + 1 < 2 ^ 64 }
    requires open { is_cleared matcher.old pattern.context.number ≡ false }
    ensures number { result.0.number ≡ matcher.old.count }
    ensures tracks { TracksAdmit gone pattern matcher.old result.1 matcher.new }
{
    let (id, letter) = matcher.post(pattern);
    if gone {
        // Where a letter was kept for it, it doesn't wait.
        let _ = matcher.withdraw(id);
    }
    (id, fate_of(letter, gone))
}

/// Notes what became of a receive.
fn set_fate(requests: &mut IndexMap<u64, Request>, id: u64, fate: Fate)
    ensures change { Changes (changed id fate) (get nat_eq requests.old) (get nat_eq requests.new) }
    ensures len { index_map_len requests.new ≡ index_map_len requests.old }
{
    if let Some(request) = requests.get_mut(&id) {
        request.fate = fate;
    }
}

/// Gives a letter that came to the earliest receive that takes it, or keeps it.
fn deliver(matcher: &mut Matcher, requests: &mut IndexMap<u64, Request>, letter: Letter)
    requires prepared { IsTrue matcher.old.prepared }
    requires countable { matcher.old.count + 1 < 2 ^ 64 }
    requires open { is_cleared matcher.old letter.envelope.context.number ≡ false }
    ensures len { index_map_len requests.new ≡ index_map_len requests.old }
    ensures tracks { TracksDelivery letter matcher.old (get nat_eq requests.old) matcher.new (get nat_eq requests.new) }
{
    match matcher.arrive(letter) {
        Arrived::Kept => {}
        Arrived::Paired(id, paired) => set_fate(requests, id.number, Fate::Paired(paired)),
    }
}

/// The receives that wait for a rank that failed are over.
fn fail_named(requests: &mut IndexMap<u64, Request>, rank: WorldRank)
    ensures change { Changes (λ k. over_named rank.number) (get nat_eq requests.old) (get nat_eq requests.new) }
    ensures len { index_map_len requests.new ≡ index_map_len requests.old }
{
    for i in 0..requests.len() {
        if let Some(request) = requests.get_index_mut(i) {
            over_named(request, rank);
        }
    }
}

/// The receives that wait on a revoked context are over.
fn fail_context(requests: &mut IndexMap<u64, Request>, context: Context)
    ensures change { Changes (λ k. over_context context.number) (get nat_eq requests.old) (get nat_eq requests.new) }
    ensures len { index_map_len requests.new ≡ index_map_len requests.old }
{
    for i in 0..requests.len() {
        if let Some(request) = requests.get_index_mut(i) {
            over_context(request, context);
        }
    }
}

/// Ends what waits on a context and drops what is kept of it, at its first revocation.
pub(crate) fn clear(matcher: &mut Matcher, requests: &mut IndexMap<u64, Request>, context: Context)
    requires { IsTrue matcher.old.prepared }
    ensures len { index_map_len requests.new ≡ index_map_len requests.old }
    ensures count { matcher.new.count ≡ matcher.old.count }
    ensures tracks { TracksRevocation context.number matcher.old (get nat_eq requests.old) matcher.new (get nat_eq requests.new) }
{
    matcher.clear(context);
    fail_context(requests, context);
}

/// Does to receives and letters what a taken item asks for. `revoked` says whether its context was revoked before.
pub(crate) fn settle(
    matcher: &mut Matcher,
    requests: &mut IndexMap<u64, Request>,
    revoked: bool,
    source: WorldRank,
    item: Item,
)
    requires prepared { IsTrue matcher.old.prepared }
    requires countable { matcher.old.count + 1 < 2 ^ 64 }
    requires open { IsOpenFor revoked matcher.old item }
    ensures len { index_map_len requests.new ≡ index_map_len requests.old }
    ensures tracks { TracksItem revoked source.number item matcher.old (get nat_eq requests.old) matcher.new (get nat_eq requests.new) }
{
    match item {
        Item::Letter(letter) => {
            if revoked {
                return;
            }
            deliver(matcher, requests, letter);
        }
        Item::Gone => {
            matcher.end_named(source);
            fail_named(requests, source);
        }
        Item::Revoke(context) => {
            if revoked {
                return;
            }
            clear(matcher, requests, context);
        }
        Item::Enter { .. } => {}
    }
}
