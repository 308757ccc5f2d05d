//! Where the reading of a source ends: at its end, where it fails, or past the most bytes that a file may have.

use nf_filter::{Failed, Source};
use nf_vectors::{Suite, VectorFault, VectorKind};

/// So many line ends, and then the end, or a failure.
#[derive(Drop)]
struct LineEnds {
    left: usize,
    fails: bool,
    at_end: bool,
    failed: bool,
}

impl Source for LineEnds {
    ghost use Rattle.std.specs.Prelude.{None};

    ghost state = { λ source. record { coming = None; is_failed = source.failed; is_at_end = source.at_end; lender = 0 } };

    fn get(&mut self, buf: &mut [u8]) -> Result<usize, Failed> {
        if self.failed || self.left == 0 && self.fails {
            self.failed = true;
            self.at_end = false;
            return Err(Failed);
        }
        let n = self.left.min(buf.len());
        for byte in buf.iter_mut() {
            *byte = b'\n';
        }
        self.left -= n;
        self.at_end = n == 0;
        Ok(n)
    }
}

#[test]
fn sources_are_read_to_their_end(rt: HostRuntime) {
    let cases = [
        (67_108_864, false, None),
        (67_108_865, false, Some((67_108_865, VectorKind::Size))),
        (0, true, Some((1, VectorKind::Read))),
        (5000, true, Some((5001, VectorKind::Read))),
    ];
    for (left, fails, expected) in cases {
        let mut source = LineEnds {
            left,
            fails,
            at_end: false,
            failed: false,
        };
        let fault = Suite::read(rt.alloc(), &mut source).err();
        let expected = expected.map(|(line, kind)| VectorFault { line, kind });
        assert_eq!(rt; fault, expected, "{left}");
    }
}
