use crate::sheet::{inks, list_of};
use listing::line::Line;
use raster::font::Font;
use shape_list::reading::take;
use std::test::Fail;

#[test]
fn used_number_is_replaced(rt: HostRuntime) -> Result<(), Fail> {
    let list = list_of(b"sheet 3 2", &[b"box 1 0 0 3 2 5", b"box 1 1 0 1 2 6"])?;
    assert_eq!(rt; list.sides(), (3, 2));
    assert_eq!(rt; inks(list), [0, 6, 0, 0, 6, 0]);
    Ok(())
}

#[test]
fn span_rules_its_frames(rt: HostRuntime) -> Result<(), Fail> {
    let mut list = list_of(b"sheet 3 2", &[b"box 1 0 0 3 2 5", b"span 0 1 2 6 7"])?;
    let cases: [(&[u8], u16, u8); 4] = [
        (b"frame 1", 1, 5),
        (b"frame 2", 2, 7),
        (b"frame 6", 6, 7),
        (b"frame 7", 7, 5),
    ];
    for (line, frame, ink) in cases {
        take(&mut list, line)?;
        assert_eq!(rt; list.frame(), frame);
        assert_eq!(rt; inks(list), [ink; 6]);
    }
    Ok(())
}

#[test]
fn covered(rt: HostRuntime) -> Result<(), Fail> {
    let font = Font::built_in();
    let mut list = list_of(b"sheet 8 16", &[b"frame 1"])?;
    let cases: [(&[u8], u32); 4] = [
        (b"box 1 5 14 3 2 5", 6),
        (b"line 1 0 0 2 1 5", 3),
        (b"figure 1 0 0 0 5", 28),
        (b"figure 1 0 0 11 5", 2),
    ];
    for (line, pixels) in cases {
        let Line::Shape { shape, .. } = take(&mut list, line)? else {
            return Err(Fail::new("the line is no shape's"));
        };
        assert_eq!(rt; list.covered(&font, shape), pixels);
    }
    Ok(())
}
