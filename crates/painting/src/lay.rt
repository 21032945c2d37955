ghost use Rattle.std.specs.Prelude.{◌≡◌, ◌+◌, ◌<◌, ◌&&◌, ◌==◌};
ghost use Rattle.raster.specs.declared.shape.Shape.TheVariants.{Figure};
ghost use Rattle.raster.specs.Lines.{pixels, among};
ghost use Rattle.raster.specs.Shapes.{of_the, covers};
ghost use Rattle.painting.specs.Laid.{run_of, Laid};

use raster::font::Font;
use raster::ink::Ink;
use raster::shape::{Cell, Ends, Rect, Shape};
use surface::clip::run_clipped;
use surface::surface::Surface;

// The surface and the ink are two parameters throughout, as in a surface's own call `run`: a struct that held
// both would have each function below promise besides that it keeps the borrow and the ink.

/// Lays the ink on those of the n pixels from (x, y) to the right that the surface has.
pub(crate) fn lay_run<S: Surface>(surface: &mut S, x: u32, y: u32, n: u32, ink: Ink)
    ensures { Laid (run_of x y n) ink.value (S.Surface.view surface.old) (S.Surface.view surface.new) }
{
    run_clipped(surface, x, y, n, ink);
}

/// Lays the ink on the pixels of a box.
fn lay_box<S: Surface>(surface: &mut S, b: Rect, ink: Ink)
    ensures { Laid (λ u v. of_the b.w b.x u && of_the b.h b.y v) ink.value (S.Surface.view surface.old) (S.Surface.view surface.new) }
{
    for row in 0..b.h as u32 {
        lay_run(surface, b.x as u32, b.y as u32 + row, b.w as u32, ink);
    }
}

/// Lays the ink on the pixels of a line.
fn lay_line<S: Surface>(surface: &mut S, l: Ends, ink: Ink)
    ensures { Laid (among (pixels l)) ink.value (S.Surface.view surface.old) (S.Surface.view surface.new) }
{
    for (x, y) in l.pixels() {
        lay_run(surface, x as u32, y as u32, 1, ink);
    }
}

/// Lays the ink on the pixels that a row of a figure lights.
fn lay_row<S: Surface>(surface: &mut S, font: &Font, f: Cell, row: u16, ink: Ink)
    requires { row < 16 }
    ensures { Laid (λ u v. covers font.now.rows (Figure f) u v && v == f.y + row) ink.value (S.Surface.view surface.old) (S.Surface.view surface.new) }
{
    for column in 0..8u16 {
        if font.lights(f.glyph, column, row) {
            let x = f.x as u32 + column as u32;
            lay_run(surface, x, f.y as u32 + row as u32, 1, ink);
        }
    }
}

/// Lays the ink on the pixels of a figure.
fn lay_figure<S: Surface>(surface: &mut S, font: &Font, f: Cell, ink: Ink)
    ensures { Laid (covers font.now.rows (Figure f)) ink.value (S.Surface.view surface.old) (S.Surface.view surface.new) }
{
    for row in 0..16u16 {
        lay_row(surface, font, f, row, ink);
    }
}

/// Lays the ink on the pixels of a shape.
pub(crate) fn lay_shape<S: Surface>(surface: &mut S, font: &Font, shape: Shape, ink: Ink)
    ensures { Laid (covers font.now.rows shape) ink.value (S.Surface.view surface.old) (S.Surface.view surface.new) }
{
    match shape {
        Shape::Box(b) => lay_box(surface, b, ink),
        Shape::Line(l) => lay_line(surface, l, ink),
        Shape::Figure(f) => lay_figure(surface, font, f, ink),
    }
}
