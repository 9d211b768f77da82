// What one command changes in an image, put into it; every other byte is left as it was. The image of a keeper becomes the image of the
// changed keeper (`passed_image_lem`, `asked_image_lem`, `ended_image_lem`, `flight_image_lem`), with fewer stores than the whole keeper takes.
#![tactic(auto)]

ghost use Rattle.std.specs.Prelude.{◌≡◌, ◌≤◌, length};
ghost use Rattle.image.specs.Layout.{image_length};
ghost use Rattle.changes.specs.Changes.{has_peer, peer_stored, passed_image, asked_image, ended_image, flight_image};

use image::bytes::store_number;
use image::is_image;
use image::store::store_edges;
use moment::Interval;

// Whether the buffer has the length of an image, and the image places for the peer.
#[tactic(auto, unfolding(crate::specs::Changes::has_peer))]
fn has_peer(image: &[u8], peer: u8) -> bool
    ensures { result ≡ has_peer image.now peer }
{
    is_image(image) && peer <= 15
}

// The mask of the waiting peers, and one peer's tag and tick count.
#[tactic(auto, unfolding(crate::specs::Changes::peer_stored))]
fn store_peer(image: &mut [u8], waiting: u16, peer: u8, tag: u32, ticks: u64)
    requires image_len { length image.old ≡ image_length }
    requires peer_bound { peer ≤ 15 }
    ensures { image.new ≡ peer_stored image.old waiting peer tag ticks }
{
    let place = peer as usize;
    store_number(image, 6, waiting);
    store_number(image, 40 + 4 * place, tag);
    store_number(image, 104 + 8 * place, ticks);
}

// After a pass. A buffer of another length is left as it was.
#[tactic(auto, unfolding(crate::specs::Changes::passed_image))]
pub fn store_passed(image: &mut [u8], edges: Interval, ticks: u64)
    ensures { image.new ≡ passed_image image.old edges ticks }
{
    if !is_image(image) {
        return;
    }
    store_edges(image, edges);
    store_number(image, 24, ticks);
}

// After a request, whose tag is the number of requests sent. A buffer of another length is left as it was; for a peer above 15, any buffer.
#[tactic(auto, using(crate::proofs::ChangeLaws::peer_read), unfolding(crate::specs::Changes::asked_image))]
pub fn store_asked(image: &mut [u8], waiting: u16, requests: u32, peer: u8, ticks: u64)
    ensures { image.new ≡ asked_image image.old waiting requests peer ticks }
{
    if !has_peer(image, peer) {
        return;
    }
    store_number(image, 32, requests);
    store_peer(image, waiting, peer, requests, ticks);
}

// After a reply or a drop. A buffer of another length is left as it was; for a peer above 15, any buffer.
#[tactic(auto, using(crate::proofs::ChangeLaws::peer_read), unfolding(crate::specs::Changes::ended_image))]
pub fn store_ended(image: &mut [u8], waiting: u16, edges: Interval, conflicts: u32, peer: u8)
    ensures { image.new ≡ ended_image image.old waiting edges conflicts peer }
{
    if !has_peer(image, peer) {
        return;
    }
    store_edges(image, edges);
    store_number(image, 36, conflicts);
    store_peer(image, waiting, peer, 0, 0);
}

// After a flight: the peer's two times. A buffer of another length is left as it was; for a peer above 15, any buffer.
#[tactic(auto, using(crate::proofs::ChangeLaws::peer_read), unfolding(crate::specs::Changes::flight_image))]
pub fn store_flight<'a>(image: &mut [u8], peer: u8, out: &'a [u32; 16], back: &'a [u32; 16])
    ensures { image.new ≡ flight_image image.old peer out.now back.now }
{
    if !has_peer(image, peer) {
        return;
    }
    let place = peer as usize;
    store_number(image, 232 + 4 * place, out[place]);
    store_number(image, 296 + 4 * place, back[place]);
}
