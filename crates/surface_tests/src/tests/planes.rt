// What both surfaces do is written once in `every`; the tests here and in `bytes` keep their memory, the surface and the expected bytes.
// A body that lends its own memory would have to name the surface for a lifetime of its own, and a type parameter stands for one lifetime only.
use super::every::{
    SIDES_OUTSIDE, has_no_pixel, refuses_outside, refuses_runs, takes, takes_the_last_row,
};
use plane::planes::PlaneSurface;
use std::process::Abort;
use std::test::Fail;
use surface::byte::ByteSurface;
use surface::surface::Surface;

#[test]
fn smallest(rt: HostRuntime) -> Result<(), Fail> {
    let mut memory = [7u8; 5];
    takes(&rt, &mut PlaneSurface::new(&mut memory, 1, 1), 13)?;
    assert_eq!(rt; memory, [128, 0, 128, 128, 7]);
    Ok(())
}

#[test]
fn largest(rt: HostRuntime) -> Result<(), Fail> {
    let mut memory = vec![in rt.alloc(); 7u8; 32769]?;
    takes_the_last_row(&rt, &mut PlaneSurface::new(&mut memory, 256, 256))?;
    assert!(rt; memory.len() == 32769);
    assert_eq!(rt; memory[32735], 0);
    assert_eq!(rt; memory[32736], 255);
    assert_eq!(rt; memory[32767], 255);
    assert_eq!(rt; memory[32768], 7);
    Ok(())
}

#[test]
fn one_byte_too_few(rt: HostRuntime) {
    let mut memory = [7u8; 7];
    has_no_pixel(&rt, &mut PlaneSurface::new(&mut memory, 9, 1));
    assert_eq!(rt; memory, [7; 7]);
}

#[test]
fn sides_outside(rt: HostRuntime) -> Result<(), Fail> {
    let mut memory = vec![in rt.alloc(); 7u8; 1100]?;
    for (width, height) in SIDES_OUTSIDE {
        has_no_pixel(&rt, &mut PlaneSurface::new(&mut memory, width, height));
    }
    for byte in &memory {
        assert_eq!(rt; *byte, 7);
    }
    Ok(())
}

/// Paints one pixel of a row of 8, and reads every pixel back.
fn paints<R: Abort, S: Surface>(rt: &R, s: &mut S, x: u16, ink: u16) -> Result<(), Fail> {
    s.run(0, 0, 8, ink ^ 15)?;
    s.run(x, 0, 1, ink)?;
    for u in 0..8u16 {
        let wanted = if u == x { ink } else { ink ^ 15 };
        assert_eq!(rt; u16::from(s.read(u, 0)?), wanted);
    }
    Ok(())
}

#[test]
fn all_inks_at_all_places(rt: HostRuntime) -> Result<(), Fail> {
    for x in 0..8u16 {
        for ink in 0..16u16 {
            let mut bytes = [7u8; 8];
            let mut planes = [7u8; 4];
            paints(&rt, &mut ByteSurface::new(&mut bytes, 8, 1), x, ink)?;
            paints(&rt, &mut PlaneSurface::new(&mut planes, 8, 1), x, ink)?;
        }
    }
    Ok(())
}

#[test]
fn over_a_byte_border(rt: HostRuntime) -> Result<(), Fail> {
    let mut memory = [7u8; 9];
    {
        let mut s = PlaneSurface::new(&mut memory, 12, 1);
        s.run(6, 0, 4, 9)?;
        assert_eq!(rt; s.read(5, 0)?, 0);
        assert_eq!(rt; s.read(6, 0)?, 9);
        assert_eq!(rt; s.read(9, 0)?, 9);
        assert_eq!(rt; s.read(10, 0)?, 0);
    }
    assert_eq!(rt; memory, [3, 192, 0, 0, 0, 0, 3, 192, 7]);
    Ok(())
}

#[test]
fn whole_bytes_between(rt: HostRuntime) -> Result<(), Fail> {
    let mut memory = [7u8; 12];
    {
        let mut s = PlaneSurface::new(&mut memory, 24, 1);
        s.run(0, 0, 24, 1)?;
        s.run(5, 0, 14, 4)?;
    }
    assert_eq!(rt; memory, [248, 0, 31, 0, 0, 0, 7, 255, 224, 0, 0, 0]);
    Ok(())
}

#[test]
fn whole_row_keeps_spare_bits(rt: HostRuntime) -> Result<(), Fail> {
    let mut memory = [7u8; 17];
    {
        let mut s = PlaneSurface::new(&mut memory, 13, 2);
        s.run(0, 1, 13, 11)?;
        s.settle();
    }
    assert_eq!(rt;
        memory,
        [
            0, 0, 255, 248, 0, 0, 255, 248, 0, 0, 0, 0, 0, 0, 255, 248, 7,
        ]
    );
    Ok(())
}

#[test]
fn reads_outside(rt: HostRuntime) {
    let mut memory = [7u8; 8];
    refuses_outside(&rt, &PlaneSurface::new(&mut memory, 3, 2));
}

#[test]
fn refused_runs(rt: HostRuntime) -> Result<(), Fail> {
    let mut memory = [7u8; 9];
    refuses_runs(&rt, &mut PlaneSurface::new(&mut memory, 3, 2))?;
    assert_eq!(rt; memory, [224, 0, 0, 0, 224, 0, 0, 0, 7]);
    Ok(())
}
