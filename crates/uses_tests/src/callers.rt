//! Each caller over a text in NFD, a run that is too long, and bytes that are no UTF-8.
use nf_filter::{Fault, ToWriter};
use std::io::{self, ErrorKind, Read, Write};
use std::test::Fail;
use uses::{name_key, relay, send};

/// What comes; the NFC of the stream-safe text, or what of it is settled before the fault; how much of that is settled
/// where no end is seen; the fault.
const TEXTS: [(&[u8], &[u8], usize, Option<Fault>); 6] = [
    (b"", b"", 0, None),
    (b"Vie\xCC\x82\xCC\xA3t", b"Vi\xE1\xBB\x87t", 5, None),
    (
        b"\xE1\x84\x92\xE1\x85\xA1\xE1\x86\xAB",
        b"\xED\x95\x9C",
        0,
        None,
    ),
    (b"A\xCC\x8A\n", b"\xC3\x85\n", 2, None),
    (
        b"ab\xC3(",
        b"a",
        1,
        Some(Fault::BadByte { at: 3, start: 2 }),
    ),
    (b"ab\xC3", b"a", 1, Some(Fault::Cut { at: 3, start: 2 })),
];

/// A connection that gives two bytes at a time, and breaks where no bytes are left.
#[derive(Drop)]
struct Breaking<'a> {
    rest: &'a [u8],
}

impl Read for Breaking<'_> {
    fn read(&mut self, buf: &mut [u8]) -> io::Result<usize> {
        if self.rest.is_empty() {
            return Err(io::Error::from(ErrorKind::ConnectionReset));
        }
        let len = buf.len().min(self.rest.len()).min(2);
        let (given, rest) = self.rest.split_at(len);
        buf[..len].copy_from_slice(given);
        self.rest = rest;
        Ok(len)
    }
}

/// A writer that takes a byte at a time, 3 in all.
#[derive(Drop)]
struct Full {
    bytes: Vec<u8>,
}

impl Write for Full {
    fn write(&mut self, buf: &[u8]) -> io::Result<usize> {
        if self.bytes.len() == 3 || buf.is_empty() {
            return Ok(0);
        }
        self.bytes.push(buf[0])?;
        Ok(1)
    }

    fn flush(&mut self) -> io::Result<()> {
        Ok(())
    }
}

#[test]
fn a_name_has_a_key(rt: HostRuntime) -> Result<(), Fail> {
    let names: [(&[u8], &[u8], Option<Fault>); 5] = [
        (b"\xEF\xAC\x81 \xE2\x91\xA0", b"fi 1", None),
        (b"\xE2\x80\xA4\xE2\x80\xA4\xEF\xBC\x8F", b"../", None),
        (b"Vie\xCC\x82\xCC\xA3t", b"Vi\xE1\xBB\x87t", None),
        (b"ab\xC3(", b"", Some(Fault::BadByte { at: 3, start: 2 })),
        (b"ab\xC3", b"", Some(Fault::Cut { at: 3, start: 2 })),
    ];
    for (name, wanted, fault) in names {
        match name_key(rt.alloc(), name) {
            Ok(key) => {
                assert_eq!(rt; key.as_slice(), wanted, "{name:?}");
                assert!(rt; fault.is_none(), "{name:?}");
            }
            Err(found) => assert_eq!(rt; Some(found), fault, "{name:?}"),
        }
    }
    Ok(())
}

#[test]
fn a_connection_is_relayed(rt: HostRuntime) -> Result<(), Fail> {
    for (text, wanted, _, fault) in TEXTS {
        let mut connection = text;
        let mut sink = ToWriter::new(Vec::new(rt.alloc()));
        let answer = relay(&mut connection, &mut sink);
        assert_eq!(rt; sink.into_inner().as_slice(), wanted, "{text:?}");
        assert_eq!(rt; answer.err(), fault, "{text:?}");
    }
    Ok(())
}

#[test]
fn what_is_settled_goes_on_before_a_connection_breaks(rt: HostRuntime) -> Result<(), Fail> {
    for (text, whole, settled, fault) in TEXTS {
        let mut connection = Breaking { rest: text };
        let mut sink = ToWriter::new(Vec::new(rt.alloc()));
        let answer = relay(&mut connection, &mut sink);
        assert_eq!(rt; sink.into_inner().as_slice(), &whole[..settled], "{text:?}");
        let wanted = match fault {
            Some(Fault::BadByte { at, start }) => Fault::BadByte { at, start },
            _ => Fault::Read,
        };
        assert_eq!(rt; answer.err(), Some(wanted), "{text:?}");
    }
    Ok(())
}

#[test]
fn what_is_sent_is_counted(rt: HostRuntime) -> Result<(), Fail> {
    for (text, wanted, _, fault) in TEXTS {
        let sent = send(text, Vec::new(rt.alloc()));
        assert_eq!(rt; sent.writer.as_slice(), wanted, "{text:?}");
        assert_eq!(rt; sent.bytes, wanted.len() as u64, "{text:?}");
        assert_eq!(rt; sent.answer.err(), fault, "{text:?}");
    }
    let sent = send(
        b"abcdef",
        Full {
            bytes: Vec::new(rt.alloc()),
        },
    );
    assert_eq!(rt; sent.writer.bytes.as_slice(), b"abc".as_slice());
    assert_eq!(rt; sent.bytes, 3);
    assert_eq!(rt; sent.answer.err(), Some(Fault::Write));
    Ok(())
}
