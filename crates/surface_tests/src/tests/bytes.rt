use super::every::{
    SIDES_OUTSIDE, has_no_pixel, refuses_outside, refuses_runs, takes, takes_the_last_row,
};
use std::test::Fail;
use surface::byte::ByteSurface;
use surface::surface::Surface;

#[test]
fn smallest(rt: HostRuntime) -> Result<(), Fail> {
    let mut memory = [7u8, 8];
    takes(&rt, &mut ByteSurface::new(&mut memory, 1, 1), 15)?;
    assert_eq!(rt; memory, [15, 8]);
    Ok(())
}

#[test]
fn largest(rt: HostRuntime) -> Result<(), Fail> {
    let mut memory = vec![in rt.alloc(); 7u8; 65537]?;
    takes_the_last_row(&rt, &mut ByteSurface::new(&mut memory, 256, 256))?;
    assert!(rt; memory.len() == 65537);
    assert_eq!(rt; memory[65279], 0);
    assert_eq!(rt; memory[65280], 9);
    assert_eq!(rt; memory[65535], 9);
    assert_eq!(rt; memory[65536], 7);
    Ok(())
}

#[test]
fn one_byte_too_few(rt: HostRuntime) {
    let mut memory = [7u8; 5];
    has_no_pixel(&rt, &mut ByteSurface::new(&mut memory, 3, 2));
    assert_eq!(rt; memory, [7; 5]);
}

#[test]
fn sides_outside(rt: HostRuntime) -> Result<(), Fail> {
    let mut memory = vec![in rt.alloc(); 7u8; 257]?;
    for (width, height) in SIDES_OUTSIDE {
        has_no_pixel(&rt, &mut ByteSurface::new(&mut memory, width, height));
    }
    for byte in &memory {
        assert_eq!(rt; *byte, 7);
    }
    Ok(())
}

#[test]
fn keeps_the_rest(rt: HostRuntime) -> Result<(), Fail> {
    let mut memory = [7u8; 9];
    {
        let mut s = ByteSurface::new(&mut memory, 3, 2);
        s.run(0, 1, 3, 5)?;
        s.settle();
    }
    assert_eq!(rt; memory, [0, 0, 0, 5, 5, 5, 7, 7, 7]);
    Ok(())
}

#[test]
fn ends_with_the_row(rt: HostRuntime) -> Result<(), Fail> {
    let mut memory = [7u8; 6];
    {
        let mut s = ByteSurface::new(&mut memory, 3, 2);
        s.run(1, 0, 2, 4)?;
        s.run(2, 1, 1, 3)?;
    }
    assert_eq!(rt; memory, [0, 4, 4, 0, 0, 3]);
    Ok(())
}

#[test]
fn reads_outside(rt: HostRuntime) {
    let mut memory = [7u8; 7];
    refuses_outside(&rt, &ByteSurface::new(&mut memory, 3, 2));
}

#[test]
fn refused_runs(rt: HostRuntime) -> Result<(), Fail> {
    let mut memory = [7u8; 7];
    refuses_runs(&rt, &mut ByteSurface::new(&mut memory, 3, 2))?;
    assert_eq!(rt; memory, [5, 5, 5, 0, 0, 0, 7]);
    Ok(())
}
