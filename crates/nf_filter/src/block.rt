ghost use Rattle.std.specs.Prelude.{◌≡◌, ◌+◌, ◌<◌, ◌≤◌, ◌⊎◌, [], length, MatchResult, Ok, Err, IfErr, OnOk, ◌++◌, ℕ, List};
ghost use Rattle.nf_filter.specs.declared.fault.Fault.TheVariants.{Write as WriteFault};
ghost use Rattle.nf_filter.specs.Writes.{Puts, BreaksOff};

use crate::devices::{Failed, Sink};
use crate::fault::Fault;
use nf_boundary::Formed;
use nf_normalizer::{ROOM, Room};

/// What is to go to a sink: it keeps up to 4,096 bytes, in place, that go there together.
#[derive(Drop)]
pub struct Block {
    pub room: Room,
    /// The most bytes that are given to the sink at once.
    most: usize,
    ghost some: { 0 < most },
}

impl Block {
    ghost use Rattle.nf_filter.specs.Block.{Start, block_state, Written, WritesOn, WritesTo, GivesAll};

    /// An empty block. At most 4,096 bytes are given to a sink at once, or as many as a text has, if it is `whole`.
    pub fn new(whole: bool) -> Block
        ensures empty { result.room.items ≡ [] }
    {
        Block {
            room: Room::new(),
            most: if whole { usize::MAX } else { ROOM },
        }
    }

    /// Makes room for so many bytes: where there is less, the sink is given what is kept.
    #[inline]
    pub fn make_room<S: Sink>(&mut self, len: usize, sink: &mut S) -> Result<(), Failed>
        requires { len ≤ 4096 }
        ensures room { OnOk result (length self.new.room.items + len ≤ 4096) }
        ensures lender { (S.state sink.new).lender ≡ (S.state sink.old).lender }
        ensures writes { (start : Start) (w : List ℕ) → Written start (block_state (S.state sink.old) self.old) w
            → WritesOn start (block_state (S.state sink.new) self.new) w result }
    {
        if ROOM - self.room.len() < len {
            return self.empty(sink);
        }
        Ok(())
    }

    /// Appends the text. Where that does not fit, the sink is given first what is kept, and then the text itself.
    pub fn push_text<S: Sink>(&mut self, text: &str, sink: &mut S) -> Result<(), Failed>
        ensures lender { (S.state sink.new).lender ≡ (S.state sink.old).lender }
        ensures writes { (start : Start) (w : List ℕ) → Written start (block_state (S.state sink.old) self.old) w
            → WritesOn start (block_state (S.state sink.new) self.new) (w ++ text.now) result }
    {
        if text.len() <= ROOM - self.room.len() {
            self.room.try_extend_from_slice(text.as_bytes()).unwrap();
            return Ok(());
        }
        if let Err(failed) = self.empty(sink) {
            return Err(failed);
        }
        put_all(sink, text.as_bytes(), self.most)
    }

    /// Appends the text, and then what is in the form. Where that does not fit, the sink is given first what is kept.
    #[inline]
    pub fn push_form<S: Sink>(
        &mut self,
        same: &str,
        formed: &Formed,
        sink: &mut S,
    ) -> Result<(), Failed>
        ensures lender { (S.state sink.new).lender ≡ (S.state sink.old).lender }
        ensures writes { (start : Start) (w : List ℕ) → Written start (block_state (S.state sink.old) self.old) w
            → WritesOn start (block_state (S.state sink.new) self.new) (w ++ (same.now ++ formed.now.items)) result }
    {
        if let Err(failed) = self.push_text(same, sink) {
            return Err(failed);
        }
        if let Err(failed) = self.make_room(formed.len(), sink) {
            return Err(failed);
        }
        self.room.try_extend_from_slice(formed.as_slice()).unwrap();
        Ok(())
    }

    /// Ends what was written: gives the sink all that is kept, unless it has failed. Answers what was found so far, or that
    /// the sink failed.
    pub fn close<S: Sink>(&mut self, found: Result<(), Fault>, sink: &mut S) -> Result<(), Fault>
        ensures lender { (S.state sink.new).lender ≡ (S.state sink.old).lender }
        ensures ok { OnOk result (found ≡ Ok tt) }
        ensures err { IfErr result (λ fault. (fault ≡ WriteFault) ⊎ (found ≡ Err fault)) }
        ensures gives { (start : Start) (w : List ℕ) → WritesTo start (block_state (S.state sink.old) self.old) w found
            → GivesAll start (S.state sink.new) w found result }
    {
        if let Err(Fault::Write) = found {
            return found;
        }
        match self.empty(sink) {
            Ok(()) => found,
            Err(Failed) => Err(Fault::Write),
        }
    }

    /// Gives the sink all that is kept.
    pub fn empty<S: Sink>(&mut self, sink: &mut S) -> Result<(), Failed>
        ensures lender { (S.state sink.new).lender ≡ (S.state sink.old).lender }
        ensures none { OnOk result (self.new.room.items ≡ []) }
        ensures writes { (start : Start) (w : List ℕ) → Written start (block_state (S.state sink.old) self.old) w
            → WritesOn start (block_state (S.state sink.new) self.new) w result }
    {
        if let Err(failed) = put_all(sink, self.room.as_slice(), self.most) {
            return Err(failed);
        }
        self.room.clear();
        Ok(())
    }
}

/// Gives `bytes` to the sink, at most so many at once, in as many calls as it asks for.
fn put_all<S: Sink>(sink: &mut S, bytes: &[u8], most: usize) -> Result<(), Failed>
    requires { 0 < most }
    ensures lender { (S.state sink.new).lender ≡ (S.state sink.old).lender }
    ensures puts { MatchResult result (λ _. Puts (S.state sink.old) (S.state sink.new) [] bytes.now)
        (λ _. BreaksOff (S.state sink.old) (S.state sink.new) [] bytes.now) }
{
    let mut at = 0;
    while at < bytes.len() {
        match sink.put(&bytes[at..slice_end(at, bytes.len(), most)]) {
            Ok(n) => at += n,
            Err(failed) => return Err(failed),
        }
    }
    Ok(())
}

/// Where the slice ends that is given next: it begins at `at` and has at most so many bytes.
#[inline]
fn slice_end(at: usize, len: usize, most: usize) -> usize
    requires within { at < len }
    requires some { 0 < most }
    ensures some { at < result }
    ensures within { result ≤ len }
    ensures few { result ≤ at + most }
{
    if len - at > most { at + most } else { len }
}
