use crate::sheet::list_of;
use listing::parse::parse;
use painting::whole::paint_whole;
use raster::font::Font;
use raster::refusal::Refusal;
use record::{fault_record, ink_letter, line_record, picture_row};
use shape_list::fault::Fault;
use std::test::Fail;
use surface::byte::ByteSurface;

#[test]
fn lines(rt: HostRuntime) -> Result<(), Fail> {
    let cases: [(u64, &[u8], u32, &str); 6] = [
        (1, b"sheet 3 2", 0, "1 sheet 3 x 2"),
        (3, b"box 1 0 0 3 2 5", 6, "3 box 1: 6 pixels, ink 5"),
        (
            12,
            b"line 255 0 0 2 1 15",
            3,
            "12 line 255: 3 pixels, ink 15",
        ),
        (2, b"figure 0 0 0 0 1", 28, "2 figure 0: 28 pixels, ink 1"),
        (
            4,
            b"span 0 1 2 6 7",
            0,
            "4 span 0: shape 1, frames 2 to 6, ink 7",
        ),
        (5, b"frame 3", 0, "5 frame 3"),
    ];
    for (k, bytes, pixels, text) in cases {
        let line = parse(bytes).ok_or("not a line")?;
        assert_eq!(rt; line_record(rt.alloc(), k, line, pixels)?.as_str(), text);
    }
    Ok(())
}

#[test]
fn faults(rt: HostRuntime) -> Result<(), Fail> {
    let cases = [
        (1, Fault::Form, "line 1: not a line of a sheet"),
        (2, Fault::Refused(Refusal::Outside), "line 2: refused 10"),
        (30, Fault::Refused(Refusal::Sides), "line 30: refused 3"),
    ];
    for (k, fault, text) in cases {
        assert_eq!(rt; fault_record(rt.alloc(), k, fault)?.as_str(), text);
    }
    Ok(())
}

#[test]
fn letters(rt: HostRuntime) {
    for (ink, letter) in (0..=16).zip(b".123456789abcdef.") {
        assert_eq!(rt; ink_letter(ink), *letter);
    }
}

#[test]
fn rows(rt: HostRuntime) -> Result<(), Fail> {
    let font = Font::built_in();
    let list = list_of(b"sheet 3 2", &[b"box 1 1 0 2 1 5", b"box 2 0 1 1 1 15"])?;
    let mut memory = [7u8; 6];
    let mut surface = ByteSurface::new(&mut memory, 3, 2);
    paint_whole(&list.scene(&font), &mut surface);
    assert_eq!(rt; picture_row(rt.alloc(), 0, &surface)?.as_str(), ".55");
    assert_eq!(rt; picture_row(rt.alloc(), 1, &surface)?.as_str(), "f..");
    assert_eq!(rt; picture_row(rt.alloc(), 2, &surface)?.as_str(), "");
    Ok(())
}
