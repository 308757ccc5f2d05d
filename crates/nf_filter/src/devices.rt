ghost use Rattle.std.specs.Prelude.{◌≡◌, ◌<◌, ◌≤◌, ◌==◌, true, false, [], length, take, IfOk, OnOk, OnErr, IsErr, Ok};
ghost use Rattle.std.specs.Io.KnownBytes.{Appends, Consumes, IsAtEnd, Keeps};
ghost use Rattle.nf_filter.specs.Devices.{SinkState, SourceState};

/// The refusal of a device, without its reason.
#[derive(Clone, Copy, Debug, PartialEq, Eq, Hash)]
pub struct Failed;

/// Where bytes go.
pub trait Sink {
    /// What it has taken, where it tells that, whether it stands failed, and the borrow that it writes through: that
    /// is kept, so that who lent to it knows what is left once it is gone.
    ghost state: { Self → SinkState };

    /// Takes the first bytes, and answers how many: 1 to all of them, and 0 for an empty slice, which changes nothing.
    /// Where it fails, which it does at every slice but an empty one from then on, it has taken nothing.
    fn put(&mut self, bytes: &[u8]) -> Result<usize, Failed>
        ensures count { IfOk result (λ n. (n ≤ length bytes.now) × (0 < length bytes.now → 0 < n)) }
        ensures taken { IfOk result (λ n. Appends (state self.old).taken (state self.new).taken (take n bytes.now)) }
        ensures stands { OnOk result ((state self.new).is_failed ≡ (state self.old).is_failed) }
        ensures kept { OnErr result (Keeps (state self.old).taken (state self.new).taken) }
        ensures failed { OnErr result ((state self.new).is_failed ≡ true) }
        ensures for_good { (state self.old).is_failed ≡ true → 0 < length bytes.now → IsErr result }
        ensures empty { bytes.now ≡ [] → result ≡ Ok 0 }
        ensures lender { (state self.new).lender ≡ (state self.old).lender };
}

/// Where bytes come from.
pub trait Source {
    /// What is still to come, where it tells that, where it stands, and the borrow that it reads through, which is
    /// kept.
    ghost state: { Self → SourceState };

    /// Moves the first bytes to come to the front of `buf`, which is not empty, and answers how many: none at the end
    /// alone. Where it fails, which it does from then on, it has given nothing and is not at its end.
    fn get(&mut self, buf: &mut [u8]) -> Result<usize, Failed>
        requires { 0 < length buf.old }
        ensures count { IfOk result (λ n. n ≤ length buf.new) }
        ensures given { IfOk result (λ n. Consumes (state self.old).coming (state self.new).coming (take n buf.new)) }
        ensures end { IfOk result (λ n. (state self.new).is_at_end ≡ (n == 0)) }
        ensures read_out { IfOk result (λ n. n ≡ 0 → IsAtEnd (state self.new).coming) }
        ensures stands { OnOk result (((state self.old).is_failed ≡ false) × ((state self.new).is_failed ≡ false)) }
        ensures kept { OnErr result (Keeps (state self.old).coming (state self.new).coming) }
        ensures failed { OnErr result (((state self.new).is_failed ≡ true) × ((state self.new).is_at_end ≡ false)) }
        ensures lender { (state self.new).lender ≡ (state self.old).lender };
}
