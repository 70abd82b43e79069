//! The table of records: found by stream and hop, changed by their own method, started and removed.
ghost use Rattle.std.specs.Prelude.{◌≡◌, ℕ, ◌<◌, true, false, ◌&&◌, ◌==◌, length, take, is_some, MatchOption, nat_lt, slice_index_or};
ghost use Rattle.std.specs.Option.{option_map};
ghost use Rattle.std.specs.List.{remove, list_any};
ghost use Rattle.cell.specs.Commands.{command_byte};
ghost use Rattle.model.specs.Lists.{nth};
ghost use Rattle.model.specs.Streams.{no_streams, is_of, is_recorded, applied, with_records, started, or_unchanged, mark_of};
ghost use Rattle.streams.specs.Views.{blank, record_seen, records_seen, streams_seen};
ghost use Rattle.streams.specs.Begins.{may_begin, may_start, client_begins, relay_begins};
ghost use Rattle.streams.specs.Marks.{mark_number};
ghost use Rattle.streams.specs.Order.{ClosingOrder};

use crate::types::{CAPACITY, Effect, Mark, StreamRecord, StreamState, Streams};
use cell::Command;

impl Streams {
    /// No stream yet.
    #[tactic(auto, unfolding(crate::specs::Views::streams_seen))]
    pub fn new() -> Streams
        ensures none { streams_seen result ≡ no_streams }
        ensures order { ClosingOrder (streams_seen result) }
    {
        let free = StreamRecord {
            number: 0,
            hop: 0,
            state: StreamState::Begun,
        };
        Streams {
            records: [free; CAPACITY],
            count: 0,
            highest: 0,
        }
    }

    /// How many records are in use.
    #[tactic(auto, using(crate::proofs::Records::length_seen), unfolding(crate::specs::Views::streams_seen))]
    pub fn count(&self) -> usize
        ensures { result ≡ length (streams_seen self.now).records }
    {
        self.count
    }

    /// The record at a place in the order of beginning.
    #[tactic(auto, using(crate::proofs::Records::nth_seen, crate::proofs::Records::nth_past, crate::proofs::Records::length_seen), unfolding(crate::specs::Views::streams_seen))]
    pub fn record(&self, i: usize) -> Option<StreamRecord>
        ensures { option_map record_seen result ≡ nth (streams_seen self.now).records i }
    {
        self.records[..self.count].get(i).copied()
    }

    // The place of the record of a stream and a hop.
    fn find(&self, hop: u16, stream: u16) -> Option<usize>
        ensures { MatchOption result
            ((j : ℕ) → j < self.now.count → is_of stream hop (record_seen (slice_index_or self.now.records j blank)) ≡ false)
            (λ i. (i < self.now.count)
            × (is_of stream hop (record_seen (slice_index_or self.now.records i blank)) ≡ true)
            × ((j : ℕ) → j < i → is_of stream hop (record_seen (slice_index_or self.now.records j blank)) ≡ false)) }
    {
        self.records[..self.count]
            .iter()
            .position(|r| r.number == stream && r.hop == hop)
    }

    // Whether some record of a stream lets a command pass.
    #[tactic(auto, using(crate::proofs::Records::allowed_none, crate::proofs::Records::allowed_some))]
    pub(crate) fn allows(&self, hop: u16, command: Command, stream: u16) -> bool
        ensures { result ≡ is_some (applied (command_byte command) stream hop (records_seen self.now)) }
    {
        self.find(hop, stream).is_some_and(|i| {
            let mut tried = self.records[i];
            tried.apply(command) != Effect::Forbidden
        })
    }

    // A command of a stream passed, where its record lets it.
    pub(crate) fn change(&mut self, hop: u16, command: Command, stream: u16)
        ensures { streams_seen self.new ≡ or_unchanged (streams_seen self.old) (with_records (streams_seen self.old) (applied (command_byte command) stream hop (records_seen self.old))) }
    {
        if let Some(i) = self.find(hop, stream)
            && let Effect::Freed = self.records[i].apply(command)
        {
            self.remove(i);
        }
    }

    // The records after place i move one place up.
    fn remove(&mut self, i: usize)
        requires { i < self.old.count }
        ensures records { take self.new.count self.new.records ≡ remove (take self.old.count self.old.records) i }
        ensures highest { self.new.highest ≡ self.old.highest }
    {
        self.records.copy_within(i + 1..self.count, i);
        self.count -= 1;
    }

    // A further record, begun.
    pub(crate) fn start(&mut self, hop: u16, stream: u16)
        requires { self.old.count < 32 }
        ensures records { records_seen self.new ≡ started stream hop (records_seen self.old) }
        ensures highest { self.new.highest ≡ self.old.highest }
    {
        self.records[self.count] = StreamRecord {
            number: stream,
            hop,
            state: StreamState::Begun,
        };
        self.count += 1;
    }

    // The client begins a stream; where it may not, nothing changes.
    #[tactic(auto, using(crate::proofs::Records::room_seen), unfolding(crate::specs::Views::streams_seen))]
    pub(crate) fn begin(&mut self, hop: u16, stream: u16)
        ensures { streams_seen self.new ≡ or_unchanged (streams_seen self.old) (client_begins hop stream (streams_seen self.old)) }
    {
        if self.may_begin(stream) {
            self.start(hop, stream);
            self.highest = stream;
        }
    }

    // A relay is handed a BEGIN; a late one changes nothing. The answer is its mark, so that the records are asked once.
    #[tactic(auto, using(crate::proofs::Records::room_seen), unfolding(crate::specs::Views::streams_seen))]
    pub(crate) fn accept(&mut self, hop: u16, stream: u16) -> Mark
        ensures mark { mark_number result ≡ mark_of (relay_begins hop stream (streams_seen self.old)) }
        ensures after { streams_seen self.new ≡ or_unchanged (streams_seen self.old) (relay_begins hop stream (streams_seen self.old)) }
    {
        if !self.may_start(stream) {
            return Mark::Late;
        }
        self.start(hop, stream);
        Mark::InTime
    }

    // Whether a relay records a BEGIN of this stream.
    pub(crate) fn may_start(&self, stream: u16) -> bool
        ensures { result ≡ may_start stream (streams_seen self.now) }
    {
        stream != 0 && !self.has(stream) && self.has_room()
    }

    // Whether the client may begin this stream.
    #[tactic(auto, using(crate::proofs::Records::length_seen), unfolding(crate::specs::Views::streams_seen))]
    pub(crate) fn may_begin(&self, stream: u16) -> bool
        ensures { result ≡ may_begin stream (streams_seen self.now) }
    {
        self.highest < stream && self.has_room()
    }

    // Whether a record is free.
    fn has_room(&self) -> bool
        ensures { result ≡ nat_lt self.now.count 32 }
    {
        self.count < CAPACITY
    }

    // Whether some record has this number.
    fn has(&self, stream: u16) -> bool
        ensures { result ≡ list_any (λ r. r.number == stream) (take self.now.count self.now.records) }
    {
        self.records[..self.count]
            .iter()
            .any(|r| r.number == stream)
    }
}
