//! What is asked of ends in a row, lent in any way, and how they move on.
ghost use Rattle.std.specs.Prelude.{◌≡◌, ℕ, ◌<◌, false, map, length, IfSome, if◌then◌else◌};
ghost use Rattle.cell.specs.Payload.{zeroed};
ghost use Rattle.model.specs.Ends.{worn_out, worn_at, moved_to, advanced};
ghost use Rattle.hops.specs.Views.{rules, end_seen};
ghost use Rattle.rows.specs.Rows.{advanced_to, can_advance, Before, place_of, found_at, seek_left};

use cell::PAYLOAD_SIZE;
use crypto::cipher::Cipher;
use crypto::digest::Digest;
use hops::{End, check_is_zero};

/// Whether an end up to place d is worn out. The ends past it are not looked at.
#[tactic(auto, using(crate::proofs::Walks::worn_near))]
pub fn worn_out<C: Cipher, D: Digest + Drop>(ends: &[End<C, D>], d: usize) -> bool
    ensures { result ≡ worn_out (map (end_seen D.Digest) ends.now) d }
{
    worn_at(&ends[..ends.len().min(d.saturating_add(1))]).is_some()
}

/// The first end that is worn out.
pub fn worn_at<C: Cipher, D: Digest + Drop>(ends: &[End<C, D>]) -> Option<usize>
    ensures first { result ≡ worn_at (map (end_seen D.Digest) ends.now) }
    ensures in_row { Before (length ends.now) result }
{
    ends.iter().position(|end| end.is_worn())
}

/// Removes layers outward up to the first end whose test passes, and answers its place with its digest as it is once the payload
/// is accepted.
pub fn seek<C: Cipher, D: Digest + Drop>(
    ends: &[End<C, D>],
    payload: &mut [u8],
) -> Option<(usize, D)>
    ensures place { place_of result ≡ found_at (rules C.Cipher D.Digest) (map (end_seen D.Digest) ends.now) payload.old }
    ensures layers { payload.new ≡ seek_left (rules C.Cipher D.Digest) (map (end_seen D.Digest) ends.now) payload.old }
    ensures in_row { Before (length ends.now) (place_of result) }
    ensures taken { IfSome result (λ x. advanced_to (map (end_seen D.Digest) ends.now) x.0 (D.Digest.state x.1) ≡ advanced (rules C.Cipher D.Digest) (map (end_seen D.Digest) ends.now) x.0 (zeroed payload.new)) }
{
    if payload.len() != PAYLOAD_SIZE {
        return None;
    }
    // By breaks out of two blocks, and not by `find_map`: a form that the project fixed.
    let found = 'hops: {
        for (j, end) in ends.iter().enumerate() {
            end.remove_layer(payload);
            let passed = 'test: {
                // Almost every end that a payload passes fails here, before anything is hashed.
                if !check_is_zero(payload) {
                    break 'test None;
                }
                end.match_tag(payload)
            };
            if let Some(taken) = passed {
                break 'hops Some((j, taken));
            }
        }
        None
    };
    found
}

/// The ends once a payload of the end at place d was sent or accepted: each up to it used a layer, and its digest is the one given.
/// Where there is no such end, or one of them is worn out, nothing changes.
pub fn advance<C: Cipher, D: Digest + Drop>(ends: &mut [End<C, D>], d: usize, taken: D)
    ensures { map (end_seen D.Digest) ends.new ≡ (if can_advance (map (end_seen D.Digest) ends.old) d then advanced_to (map (end_seen D.Digest) ends.old) d (D.Digest.state taken) else map (end_seen D.Digest) ends.old) }
{
    if d >= ends.len() || worn_out(ends, d) {
        return;
    }
    move_up_to(ends, d);
    ends[d].take_on(taken);
}

// The ends before place d used a layer.
fn move_up_to<C: Cipher, D: Digest + Drop>(ends: &mut [End<C, D>], d: usize)
    requires in_row { d < length ends.old }
    requires none_worn { worn_out (map (end_seen D.Digest) ends.old) d ≡ false }
    ensures { map (end_seen D.Digest) ends.new ≡ moved_to d (map (end_seen D.Digest) ends.old) }
{
    for end in &mut ends[..d] {
        end.move_on();
    }
}
