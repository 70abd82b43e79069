//! Wrapping for one end of a row.
ghost use Rattle.std.specs.Prelude.{◌≡◌, ℕ, ◌+◌, ◌-◌, ◌<◌, ◌&&◌, map, length, drop, IfErr, Some, None, MatchResult, ◌==◌};
ghost use Rattle.model.specs.Ends.{advanced, recognises};
ghost use Rattle.hops.specs.Views.{rules, end_seen};
ghost use Rattle.rows.specs.Rows.{advanced_to, Before};
ghost use Rattle.wraps.specs.Wraps.{from, Nearer, layered, taken_at, wrap_refusal, wrap_left};

use crate::error::WrapError;
use crypto::cipher::Cipher;
use crypto::digest::Digest;
use hops::End;

/// Seals a payload whose tag is zero for the end at place d, and adds the layers of the ends d to 0. The answer is the digest of
/// that end as it is once the payload is sent. A payload that a nearer end would take for its own is refused.
pub fn wrap<C: Cipher, D: Digest + Drop>(
    ends: &[End<C, D>],
    d: usize,
    payload: &mut [u8],
) -> Result<D, WrapError>
    ensures answer { MatchResult result
        (λ t. (wrap_refusal (rules C.Cipher D.Digest) (map (end_seen D.Digest) ends.now) d payload.old ≡ None)
        × (advanced_to (map (end_seen D.Digest) ends.now) d (D.Digest.state t) ≡ advanced (rules C.Cipher D.Digest) (map (end_seen D.Digest) ends.now) d payload.old))
        (λ e. wrap_refusal (rules C.Cipher D.Digest) (map (end_seen D.Digest) ends.now) d payload.old ≡ Some e) }
    ensures nearer { IfErr result (λ e. Nearer d e) }
    ensures layers { payload.new ≡ wrap_left (rules C.Cipher D.Digest) (map (end_seen D.Digest) ends.now) d payload.old }
{
    let end = ends.get(d).ok_or(WrapError::NoSuchHop)?;
    // No `From<CellError>`: of a cell's three refusals sealing gives the length alone.
    let taken = end.seal(payload).map_err(|_| WrapError::Length)?;
    match add_layers(ends, d, payload) {
        None => Ok(taken),
        Some(j) => Err(WrapError::Coincidence(j)),
    }
}

// Adds the layers of the ends d to 0, and after each asks the next nearer end. The first that would take the payload is the
// farthest, and no layer is ever removed again.
fn add_layers<C: Cipher, D: Digest + Drop>(
    ends: &[End<C, D>],
    d: usize,
    payload: &mut [u8],
) -> Option<usize>
    requires in_row { d < length ends.now }
    requires is_payload { length payload.old ≡ 509 }
    ensures place { result ≡ taken_at (rules C.Cipher D.Digest) (map (end_seen D.Digest) ends.now) d payload.old }
    ensures layers { payload.new ≡ layered (rules C.Cipher D.Digest) (drop (from result) (map (end_seen D.Digest) ends.now)) (d + 1 - from result) payload.old }
    ensures before { Before d result }
{
    // By place: tried over `ends[..=d].windows(2).enumerate().rev()`, where the proof has to follow that iterator's own state.
    for i in (0..d).rev() {
        let nearer = &ends[i];
        if add_and_ask(&ends[i + 1], nearer, payload) {
            return Some(i);
        }
    }
    ends[0].add_layer(payload);
    None
}

// Adds an end's layer, and asks the next nearer end whether it would take the payload for its own then.
fn add_and_ask<C: Cipher, D: Digest + Drop>(
    end: &End<C, D>,
    nearer: &End<C, D>,
    payload: &mut [u8],
) -> bool
    ensures layer { payload.new ≡ C.Cipher.added end.now.cipher end.now.layer payload.old }
    ensures taken { result ≡ (length payload.new == 509 && recognises D.Digest.tags (D.Digest.state nearer.now.digest) payload.new) }
{
    end.add_layer(payload);
    nearer.recognise(payload).is_some()
}
