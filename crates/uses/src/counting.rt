//! A sink that counts what goes through it.
ghost use Rattle.std.specs.Prelude.{◌≡◌};
ghost use Rattle.std.proofs.Props.{props};
ghost use Rattle.uses.specs.Count.{AlwaysTells, IsCountOf, IsEmpty};

use nf_filter::{Failed, Sink};

/// Passes bytes on to another sink, and counts those that it takes; the count stops at `u64::MAX`.
#[derive(Drop)]
pub struct Counting<S: Sink> {
    sink: S,
    count: u64,
    ghost counted: { AlwaysTells (λ s. (S.state s).taken) → IsCountOf count (S.state sink).taken } by { Prim.hlevel props },
}

impl<S: Sink> Counting<S> {
    ghost use Rattle.uses.specs.Counting.{sink_of};

    /// Counts from 0: the sink has taken nothing.
    pub fn new(sink: S) -> Counting<S>
        requires { IsEmpty (S.state sink).taken }
        ensures { sink_of result ≡ sink }
    {
        Counting { sink, count: 0 }
    }

    /// The sink, and how many bytes it has taken.
    pub fn into_parts(self) -> (S, u64)
        ensures sink { result.0 ≡ sink_of self }
        ensures count { AlwaysTells (λ s. (S.state s).taken) → IsCountOf result.1 (S.state result.0).taken }
    {
        let Counting { sink, count } = self;
        (sink, count)
    }
}

impl<S: Sink> Sink for Counting<S> {
    ghost use Rattle.uses.specs.Counting.{sink_of};

    ghost state = { λ counting. S.state (sink_of counting) };

    fn put(&mut self, bytes: &[u8]) -> Result<usize, Failed> {
        let Ok(taken) = self.sink.put(bytes) else {
            return Err(Failed);
        };
        self.count = self.count.saturating_add(taken as u64);
        Ok(taken)
    }
}
