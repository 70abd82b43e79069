//! A queue in lent slots: its functions take the slots and the place of what waits in them.
//! Each refuses a place that is none of the ring before anything else, and a refusal changes nothing.
//! (Functions over lent slots and no struct that owns them: the project fixed this form, so that any buffer can be a queue.)
#![tactic(auto)]

ghost use Rattle.std.specs.Prelude.{◌≡◌, ℕ, ◌+◌, ◌-◌, ◌<◌, ◌≤◌, true, false, [], ◌∷◌, ◌++◌, length, take, drop, Some, None, MatchResult, slice_index_or};
ghost use Rattle.queue.specs.Ring.{waiting, slot_of, grown, shrunk};
ghost use Rattle.queue.specs.Refusals.{within, put_refusal, take_refusal};

mod place;

pub use place::{Place, QueueError};

#[cfg(test)]
mod tests;

fn is_within(place: Place, size: usize) -> bool
    ensures { result ≡ within size place }
{
    place.head < size && place.count <= size
}

// Whether n more elements have room.
fn room_for(size: usize, place: Place, n: usize) -> Result<(), QueueError>
    ensures { MatchResult result
        (λ _. (put_refusal size place n ≡ None) × (place.head < size) × (place.count + n ≤ size))
        (λ e. put_refusal size place n ≡ Some e) }
{
    if !is_within(place, size) {
        return Err(QueueError::Astray);
    }
    if n > size - place.count {
        return Err(QueueError::Full);
    }
    Ok(())
}

// Whether n elements wait.
fn as_many_wait(size: usize, place: Place, n: usize) -> Result<(), QueueError>
    ensures { MatchResult result
        (λ _. (take_refusal size place n ≡ None) × (place.head < size) × (place.count ≤ size) × (n ≤ place.count))
        (λ e. take_refusal size place n ≡ Some e) }
{
    if !is_within(place, size) {
        return Err(QueueError::Astray);
    }
    if n > place.count {
        return Err(QueueError::Short);
    }
    Ok(())
}

// The slot that lies i slots behind the head, round the end.
fn slot(size: usize, head: usize, i: usize) -> usize
    requires { (head < size) × (i ≤ size) }
    ensures slot { result ≡ slot_of size head i }
    ensures within { result < size }
{
    let room = size - head;
    if i < room { head + i } else { i - room }
}

// Puts x behind the last of `count` elements; there is room.
#[tactic(auto, using(crate::proofs::Turns::waiting_set))]
fn store<T: Copy>(slots: &mut [T], head: usize, count: usize, x: T)
    requires { (head < length slots.old) × (count < length slots.old) }
    ensures { waiting slots.new (record { head = head; count = count + 1 }) ≡ waiting slots.old (record { head = head; count = count }) ++ (x ∷ []) }
{
    let at = slot(slots.len(), head, count);
    slots[at] = x;
}

/// Puts an element behind the last. (By itself and not as a run of one: it has no loop.)
pub fn put<T: Copy>(slots: &mut [T], place: Place, x: T) -> Result<Place, QueueError>
    ensures { MatchResult result
        (λ p. (put_refusal (length slots.old) place 1 ≡ None)
        × (p ≡ grown place 1)
        × (waiting slots.new p ≡ waiting slots.old place ++ (x ∷ [])))
        (λ e. (put_refusal (length slots.old) place 1 ≡ Some e) × (slots.new ≡ slots.old)) }
{
    room_for(slots.len(), place, 1)?;
    store(slots, place.head, place.count, x);
    Ok(Place {
        head: place.head,
        count: place.count + 1,
    })
}

/// Puts a run of elements behind the last, the first of them first.
pub fn put_all<T: Copy>(slots: &mut [T], place: Place, xs: &[T]) -> Result<Place, QueueError>
    ensures { MatchResult result
        (λ p. (put_refusal (length slots.old) place (length xs.now) ≡ None)
        × (p ≡ grown place (length xs.now))
        × (waiting slots.new p ≡ waiting slots.old place ++ xs.now))
        (λ e. (put_refusal (length slots.old) place (length xs.now) ≡ Some e) × (slots.new ≡ slots.old)) }
{
    room_for(slots.len(), place, xs.len())?;
    for (i, x) in xs.iter().enumerate() {
        store(slots, place.head, place.count + i, *x);
    }
    Ok(Place {
        head: place.head,
        count: place.count + xs.len(),
    })
}

/// The oldest element.
#[tactic(auto, using(crate::proofs::Turns::waiting_first))]
pub fn front<T: Copy>(slots: &[T], place: Place) -> Result<T, QueueError>
    ensures { MatchResult result
        (λ x. (take_refusal (length slots.now) place 1 ≡ None) × ((d : T) → x ≡ slice_index_or (waiting slots.now place) 0 d))
        (λ e. take_refusal (length slots.now) place 1 ≡ Some e) }
{
    as_many_wait(slots.len(), place, 1)?;
    Ok(slots[place.head])
}

fn copy_both<T: Copy>(out: &mut [T], first: &[T], second: &[T])
    requires { length out.old ≡ length first.now + length second.now }
    ensures { out.new ≡ first.now ++ second.now }
{
    let n = first.len();
    out[..n].copy_from_slice(first);
    out[n..].copy_from_slice(second);
}

/// Copies the oldest elements out, as many as `out` takes.
#[tactic(auto, using(crate::proofs::Turns::waiting_front))]
pub fn copy_out<T: Copy>(slots: &[T], place: Place, out: &mut [T]) -> Result<(), QueueError>
    ensures { MatchResult result
        (λ _. (take_refusal (length slots.now) place (length out.old) ≡ None)
        × (out.new ≡ take (length out.old) (waiting slots.now place)))
        (λ e. (take_refusal (length slots.now) place (length out.old) ≡ Some e) × (out.new ≡ out.old)) }
{
    as_many_wait(slots.len(), place, out.len())?;
    let (round, oldest) = slots.split_at(place.head);
    let n = out.len().min(oldest.len());
    let left = out.len() - n;
    copy_both(out, &oldest[..n], &round[..left]);
    Ok(())
}

/// The place once the n oldest elements are gone.
#[tactic(auto, using(crate::proofs::Turns::waiting_past))]
pub fn past<T: Copy>(slots: &[T], place: Place, n: usize) -> Result<Place, QueueError>
    ensures { MatchResult result
        (λ p. (take_refusal (length slots.now) place n ≡ None)
        × (p ≡ shrunk (length slots.now) place n)
        × (p.head < length slots.now)
        × (waiting slots.now p ≡ drop n (waiting slots.now place)))
        (λ e. take_refusal (length slots.now) place n ≡ Some e) }
{
    as_many_wait(slots.len(), place, n)?;
    Ok(Place {
        head: slot(slots.len(), place.head, n),
        count: place.count - n,
    })
}
