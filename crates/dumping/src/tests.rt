// What is shown of damaged files, and where the input or the output fails.
use crate::dump;
use std::io;
use std::io::Read;
use std::process::Abort;

// The period and the terms of two segments of the worked file.
const FRONT: [u32; 5] = [0x17E67002, 0x2000042B, 0x300003E8, 0x2400042B, 0x340003E8];

// The bytes of FRONT, and then these.
fn bytes_of(rt: &(impl Abort + AllocGlobal), rest: &[u8]) -> Vec<u8> {
    let mut bytes = Vec::new(rt.alloc());
    for word in FRONT {
        assert!(rt; bytes.extend_from_slice(&word.to_be_bytes()).is_ok());
    }
    assert!(rt; bytes.extend_from_slice(rest).is_ok());
    bytes
}

// An input that fails at each read.
#[derive(Drop)]
struct Broken;

impl Read for Broken {
    fn read(&mut self, _buf: &mut [u8]) -> io::Result<usize> {
        Err(io::ErrorKind::ConnectionReset.into())
    }
}

#[test]
fn ends_with_the_fault(rt: HostRuntime) {
    let front = "PERIOD 2022-07 2\nSEGMENT AMR 0 1067 1000\nSEGMENT S30 0 1067 1000";
    let cases: [(&[u8], &str); 3] = [
        (&[], "FAULT FILE 11 5"),
        (&[0x28, 0, 4], "FAULT FILE 11 5"),
        (&[0xFF, 0, 0, 0, 0x28], "FAULT FILE 1 5"),
    ];
    for (rest, fault) in cases {
        let bytes = bytes_of(&rt, rest);
        let mut out = Vec::new(rt.alloc());
        let shown = dump(rt.alloc(), bytes.as_slice(), &mut out);
        assert!(rt; shown.is_err_and(|fault| fault.told().is_some()));
        let mut text = String::new(rt.alloc());
        assert!(rt; writeln!(text, "{front}\n{fault}").is_ok());
        assert_eq!(rt; out.as_slice(), text.as_bytes());
    }
}

#[test]
fn tells_nothing_where_the_input_fails(rt: HostRuntime) {
    let bytes = bytes_of(&rt, &[]);
    let mut out = Vec::new(rt.alloc());
    let shown = dump(rt.alloc(), bytes.as_slice().chain(Broken), &mut out);
    assert!(rt; shown.is_err_and(|fault| fault.told().is_none()));
}

#[test]
fn tells_nothing_where_the_output_fails(rt: HostRuntime) {
    let bytes = bytes_of(&rt, &[]);
    for room in 0..60 {
        let mut held = [0; 100];
        let mut out = &mut held[..room];
        let shown = dump(rt.alloc(), bytes.as_slice(), &mut out);
        assert!(rt;
            shown.is_err_and(|fault| fault.told().is_none()),
            "with room for {room} bytes"
        );
    }
}
