use crate::stop::Stop;
use record::picture_row;
use surface::surface::Surface;

/// Prints the picture, a line for each row.
pub fn print_picture<S: Surface>(rt: &HostRuntime, height: u16, surface: &S) -> Result<(), Stop> {
    for y in 0..height {
        rt.println(picture_row(rt.alloc(), y, surface)?)?;
    }
    Ok(())
}
