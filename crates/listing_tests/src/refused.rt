use listing::parse::parse;
use std::process::Abort;

fn all_refused(rt: &impl Abort, texts: &[&[u8]]) {
    for text in texts {
        assert!(rt; parse(text).is_none());
    }
}

#[test]
fn figures(rt: HostRuntime) {
    all_refused(
        &rt,
        &[
            b"frame 65536",
            b"frame 70000",
            b"frame 99999999999999999999",
            b"frame 01",
            b"frame 00",
            b"frame -1",
            b"frame +1",
            b"frame 1\xff",
            b"frame \xb2",
        ],
    );
}

#[test]
fn spaces(rt: HostRuntime) {
    all_refused(
        &rt,
        &[
            b"sheet 1  2",
            b"sheet 1 2 ",
            b" sheet 1 2",
            b"sheet\t1 2",
            b"sheet 1 2\r",
        ],
    );
}

#[test]
fn words(rt: HostRuntime) {
    all_refused(
        &rt,
        &[
            b"",
            b"sheet",
            b"sheets 1 2",
            b"Sheet 1 2",
            b"shee",
            b"box1 2 3 4 5 6",
            b"box1 2",
        ],
    );
}

#[test]
fn counts(rt: HostRuntime) {
    all_refused(
        &rt,
        &[
            b"sheet 1",
            b"sheet 1 2 3",
            b"box 1 2 3 4 5",
            b"box 1 2 3 4 5 6 7",
        ],
    );
}
