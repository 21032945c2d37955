use crate::sheet::{inks, list_of, number};
use shape_list::list::ShapeList;
use shape_list::reading::{start, take};
use std::process::Abort;
use std::test::Fail;

/// Each line is refused with its number, or is no line with none, and the list stays and paints as it was.
fn all_refused(rt: &impl Abort, list: &mut ShapeList, cases: &[(&[u8], Option<u8>)]) {
    let (sides, frame, before) = (list.sides(), list.frame(), inks(*list));
    for (line, reason) in cases {
        assert_eq!(rt; take(list, line).err().map(number), Some(*reason));
        assert_eq!(rt; list.sides(), sides);
        assert_eq!(rt; list.frame(), frame);
        assert_eq!(rt; inks(*list), before);
    }
}

#[test]
fn first_lines(rt: HostRuntime) {
    let cases: [(&[u8], Result<(), Option<u8>>); 7] = [
        (b"sheet 0 2", Err(Some(3))),
        (b"sheet 2 0", Err(Some(3))),
        (b"sheet 257 1", Err(Some(3))),
        (b"sheet 1 257", Err(Some(3))),
        (b"sheet 256 256", Ok(())),
        (b"frame 1", Err(None)),
        (b"", Err(None)),
    ];
    for (line, answer) in cases {
        assert_eq!(rt; start(line).map(|_| ()).map_err(number), answer);
    }
}

#[test]
fn shapes(rt: HostRuntime) -> Result<(), Fail> {
    let mut list = list_of(b"sheet 3 2", &[b"box 1 1 0 2 1 5", b"frame 9"])?;
    all_refused(
        &rt,
        &mut list,
        &[
            (b"box 256 0 0 1 1 5", Some(6)),
            (b"box 1 0 0 0 1 5", Some(9)),
            (b"box 1 0 0 1 0 5", Some(9)),
            (b"figure 1 0 0 16 5", Some(9)),
            (b"line 1 0 0 2 1 16", Some(9)),
            (b"box 1 0 0 4 2 5", Some(10)),
            (b"box 1 0 1 3 2 5", Some(10)),
            (b"line 1 0 0 3 1 5", Some(10)),
        ],
    );
    Ok(())
}

#[test]
fn spans(rt: HostRuntime) -> Result<(), Fail> {
    let lines: [&[u8]; 3] = [b"box 1 0 0 3 2 5", b"span 0 1 2 6 7", b"frame 2"];
    let mut list = list_of(b"sheet 3 2", &lines)?;
    all_refused(
        &rt,
        &mut list,
        &[
            (b"span 256 1 0 9 4", Some(6)),
            (b"span 1 256 0 9 4", Some(6)),
            (b"span 0 1 0 9 4", Some(7)),
            (b"span 1 2 0 9 4", Some(8)),
            (b"span 1 1 3 2 4", Some(12)),
            (b"span 1 1 2 3 16", Some(9)),
        ],
    );
    Ok(())
}

#[test]
fn first_reason_is_told(rt: HostRuntime) -> Result<(), Fail> {
    let mut list = list_of(b"sheet 3 2", &[b"box 1 0 0 3 2 5", b"span 0 1 2 6 7"])?;
    all_refused(
        &rt,
        &mut list,
        &[
            (b"box 256 0 0 0 1 5", Some(6)),
            (b"figure 1 0 0 16 5", Some(9)),
            (b"box 1 0 0 4 2 16", Some(9)),
            (b"span 0 256 3 2 16", Some(6)),
            (b"span 0 2 3 2 16", Some(7)),
            (b"span 1 2 3 2 16", Some(8)),
            (b"span 1 1 3 2 16", Some(12)),
        ],
    );
    Ok(())
}

#[test]
fn no_lines(rt: HostRuntime) -> Result<(), Fail> {
    let mut list = list_of(b"sheet 3 2", &[b"box 1 0 0 3 2 5"])?;
    all_refused(
        &rt,
        &mut list,
        &[
            (b"sheet 3 2", None),
            (b"sheet 0 2", None),
            (b"", None),
            (b"box 1 0 0 3 2", None),
        ],
    );
    Ok(())
}

#[test]
fn right_edge(rt: HostRuntime) -> Result<(), Fail> {
    let mut list = list_of(b"sheet 256 256", &[b"figure 1 248 240 0 5"])?;
    all_refused(
        &rt,
        &mut list,
        &[
            (b"figure 1 249 240 0 5", Some(10)),
            (b"figure 1 248 241 0 5", Some(10)),
        ],
    );
    Ok(())
}
