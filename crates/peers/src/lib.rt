// What a keeper holds of its peers, as a mask of those that wait and an array each of tags and tick counts, and whether it is in order.
#![tactic(auto)]

ghost use Rattle.std.specs.Prelude.{◌≡◌, true, ℕ, ◌<◌};
ghost use Rattle.bits.specs.Bits.{bit_of};
ghost use Rattle.bits.specs.Below.{updated};
ghost use Rattle.peers.specs.Peers.{waiter_kept, idle_kept, peers_kept};
ghost use Rattle.peers.specs.Parts.{others_idle, tag_alone, tags_alone, waiters_kept};

use bits::bit_of;
use places::Places;

pub const PEERS: u8 = 16;

// A waiting peer has a tag that was given and a tick count that was reached.
fn waiter_kept(requests: u32, ticks: u64, tag: u32, sent: u64) -> bool
    ensures { result ≡ waiter_kept requests ticks tag sent }
{
    1 <= tag && tag <= requests && sent <= ticks
}

// Another peer holds 0 for both. Both are tested at once, by their bits: the test of a keeper asks this of up to fifteen peers.
fn idle_kept(tag: u32, sent: u64) -> bool
    ensures { result ≡ idle_kept tag sent }
{
    u64::from(tag) | sent == 0
}

// Every peer holds 0 for both. No peer ends the search, so that the compiler takes several places at once.
fn all_idle<'a>(tags: &'a [u32; 16], sent_at: &'a [u64; 16]) -> bool
    ensures { result ≡ others_idle 0 tags.now sent_at.now }
{
    let held = tags
        .iter()
        .zip(sent_at)
        .fold(0, |held, (tag, sent)| held | u64::from(*tag) | *sent);
    held == 0
}

// Each peer with none waiting holds 0 for both. A keeper in which no peer waits is tested without its mask.
fn others_idle<'a>(waiting: u16, tags: &'a [u32; 16], sent_at: &'a [u64; 16]) -> bool
    ensures { result ≡ others_idle waiting tags.now sent_at.now }
{
    if waiting == 0 {
        return all_idle(tags, sent_at);
    }
    for p in 0..PEERS {
        let place = usize::from(p);
        if !(bit_of(waiting, p) || idle_kept(tags[place], sent_at[place])) {
            return false;
        }
    }
    true
}

// Exactly one of the sixteen places has the tag. The places are counted without a branch, so that several are compared at once.
fn tag_alone(tag: u32, tags: &[u32; 16]) -> bool
    ensures { result ≡ tag_alone tag tags.now }
{
    let mut times: u32 = 0;
    for other in tags {
        times += u32::from(*other == tag);
    }
    times == 1
}

// Each waiting peer's tag is in one place only.
fn tags_alone(waiting: u16, tags: &[u32; 16]) -> bool
    ensures { result ≡ tags_alone waiting tags.now }
{
    for p in Places::of(waiting) {
        if !tag_alone(tags[p], tags) {
            return false;
        }
    }
    true
}

// Whether a number below 64 is marked, by its bit.
fn marked(seen: u64, place: u32) -> bool
    requires { place < 64 }
    ensures { result ≡ bit_of seen place }
{
    (seen >> place) % 2 == 1
}

// The mask with one more number marked.
fn mark(seen: u64, place: u32) -> u64
    requires { place < 64 }
    ensures { (q : ℕ) → bit_of result q ≡ updated (bit_of seen) place true q }
{
    seen | (1u64 << place)
}

// Each waiting peer is in order, and no two have one tag. Tags whose remainders by 64 differ are different, so each remainder is marked, and only
// where two tags share one is each tag looked for in all places: those of the others hold 0, which is no tag.
fn waiters_kept<'a>(
    waiting: u16,
    requests: u32,
    ticks: u64,
    tags: &'a [u32; 16],
    sent_at: &'a [u64; 16],
) -> bool
    requires { others_idle waiting tags.now sent_at.now ≡ true }
    ensures { result ≡ waiters_kept waiting requests ticks tags.now sent_at.now }
{
    let mut seen: u64 = 0;
    let mut shared = false;
    for p in Places::of(waiting) {
        let tag = tags[p];
        if !waiter_kept(requests, ticks, tag, sent_at[p]) {
            return false;
        }
        let place = tag % 64;
        shared = shared | marked(seen, place);
        seen = mark(seen, place);
    }
    !shared || tags_alone(waiting, tags)
}

// Whether every peer is in order: first those with none waiting, then those that wait.
pub fn peers_kept<'a>(
    waiting: u16,
    requests: u32,
    ticks: u64,
    tags: &'a [u32; 16],
    sent_at: &'a [u64; 16],
) -> bool
    ensures { result ≡ peers_kept waiting requests ticks tags.now sent_at.now }
{
    others_idle(waiting, tags, sent_at) && waiters_kept(waiting, requests, ticks, tags, sent_at)
}
