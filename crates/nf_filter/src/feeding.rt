//! Reading a piece for a normalizer, under a policy.
use crate::block::Block;
use crate::counted::Counted;
use crate::devices::Sink;
use crate::fault::Fault;
use crate::origin::Origin;
use crate::policy::Policy;
use crate::reading::Reading;
use nf_row::Rows;
use nf_utf8::LossyText;

impl Reading {
    ghost use Rattle.std.specs.Prelude.{◌≡◌, ◌+◌, ◌<◌, ◌≤◌, ℕ, List, [], ◌++◌, length, None, IfErr, IfOk, OnOk, MatchResult};
    ghost use Rattle.nf_forms.specs.declared.form.Form.{Form};
    ghost use Rattle.nf_filter.specs.Block.{Start, block_state};
    ghost use Rattle.nf_filter.specs.Faults.{IsOfClosing, IsOfReading, fault_in};
    ghost use Rattle.nf_filter.specs.Feeding.{HasReadTo, ReadsTo, RefusesBytes};
    ghost use Rattle.nf_filter.specs.Feeds.{Feeds};
    ghost use Rattle.nf_filter.specs.Finishes.{Closes};
    ghost use Rattle.nf_filter.specs.Counted.{ends_at};
    ghost use Rattle.nf_filter.specs.Taker.{IsReady};

    /// Reads `piece` for the normalizer, and gives the sink what that settles.
    pub fn feed<R: Rows, S: Sink>(
        &mut self,
        policy: Policy,
        rows: &R,
        piece: &[u8],
        counted: &mut Counted,
        sink: &mut S,
    ) -> Result<(), Fault>
        requires ready { IsReady (ends_at counted.old) self.old }
        requires fits { self.old.offset + length piece.now ≤ u64.MAX }
        ensures ready { OnOk result (IsReady (ends_at counted.new) self.new) }
        ensures offset { OnOk result (self.new.offset ≡ self.old.offset + length piece.now) }
        ensures faults { IfErr result IsOfReading }
        ensures feeds { let p = R.properties rows.now in
            (f : Form) (base : ℕ) (bytes : List ℕ) → HasReadTo policy f p counted.old base self.old bytes [] → fault_in policy p base bytes ≡ None
            → Feeds policy f p base bytes piece.now (S.state sink.old) (S.state sink.new) result
            × OnOk result (HasReadTo policy f p counted.new base self.new (bytes ++ piece.now) []) }
        ensures lender { (S.state sink.new).lender ≡ (S.state sink.old).lender }
    {
        let mut block = Block::new(counted.normalizer.is_plain);
        let read = self.read_rest(policy, rows, piece, counted, &mut block, sink);
        block.close(read, sink)
    }

    /// Reads a piece, text by text.
    fn read_rest<R: Rows, S: Sink>(
        &mut self,
        policy: Policy,
        rows: &R,
        piece: &[u8],
        counted: &mut Counted,
        block: &mut Block,
        sink: &mut S,
    ) -> Result<(), Fault>
        requires ready { IsReady (ends_at counted.old) self.old }
        requires fits { self.old.offset + length piece.now ≤ u64.MAX }
        ensures ready { OnOk result (IsReady (ends_at counted.new) self.new) }
        ensures offset { OnOk result (self.new.offset ≡ self.old.offset + length piece.now) }
        ensures faults { IfErr result IsOfReading }
        ensures reads { let p = R.properties rows.now in
            (f : Form) (base : ℕ) (bytes : List ℕ) (start : Start) → ReadsTo policy f p counted.old start (block_state (S.state sink.old) block.old) base self.old bytes piece.now
            → MatchResult result (λ _. ReadsTo policy f p counted.new start (block_state (S.state sink.new) block.new) base self.new bytes [])
            (RefusesBytes policy f p start (block_state (S.state sink.new) block.new) base bytes) }
        ensures lender { (S.state sink.new).lender ≡ (S.state sink.old).lender }
    {
        let mut room = LossyText::new();
        let mut left = piece;
        while !left.is_empty() {
            let origin = Origin {
                begin: self.offset - self.decoder.carried() as u64,
                bytes: left,
            };
            let next = match self.next_text(policy.replace, left, &mut room) {
                Ok(next) => next,
                Err(fault) => return Err(fault),
            };
            if let Err(fault) = counted.take_allowed(
                rows,
                policy.assigned,
                origin,
                next.text,
                block,
                sink,
            ) {
                return Err(fault);
            }
            left = &left[next.len..];
        }
        Ok(())
    }

    /// At the end of all bytes: a character that it cuts is refused, or U+FFFD is taken for it, and the sink is given what that
    /// settles.
    pub fn close<R: Rows, S: Sink>(
        &self,
        policy: Policy,
        rows: &R,
        counted: &mut Counted,
        sink: &mut S,
    ) -> Result<(), Fault>
        requires ready { IsReady (ends_at counted.old) self.now }
        ensures faults { IfErr result IsOfClosing }
        ensures closes { let p = R.properties rows.now in
            (f : Form) (base : ℕ) (bytes : List ℕ) → HasReadTo policy f p counted.old base self.now bytes []
            → Closes policy f p counted.new base bytes (S.state sink.old) (S.state sink.new) result }
        ensures lender { (S.state sink.new).lender ≡ (S.state sink.old).lender }
    {
        if !policy.replace {
            return self.end();
        }
        let carried = self.decoder.carried();
        if carried == 0 {
            return Ok(());
        }
        let origin = Origin {
            begin: self.offset - carried as u64,
            bytes: &[],
        };
        let mut block = Block::new(false);
        let taken = counted.take_allowed(
            rows,
            policy.assigned,
            origin,
            "\u{FFFD}",
            &mut block,
            sink,
        );
        block.close(taken, sink)
    }
}
