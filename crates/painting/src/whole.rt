ghost use Rattle.painting.specs.Laid.{Laid, Painted};
ghost use Rattle.painting.specs.Scenes.{drawing};
ghost use Rattle.std.specs.Prelude.{true};

use crate::lay::{lay_run, lay_shape};
use crate::scene::Scene;
use raster::ink::Ink;
use surface::surface::Surface;

/// Gives paper to every pixel of the surface, row by row from the top, one run for each.
pub fn clear<S: Surface>(surface: &mut S)
    ensures { Laid (λ u v. true) 0 (S.Surface.view surface.old) (S.Surface.view surface.new) }
{
    let paper = Ink { value: 0 };
    let (width, height) = surface.size();
    for y in 0..height {
        lay_run(surface, 0, y as u32, width as u32, paper);
    }
}

/// Paints all of the scene, and settles: then every pixel takes and shows its ink of the fresh painting.
pub fn paint_whole<S: Surface>(scene: &Scene, surface: &mut S)
    ensures { Painted (drawing scene.now) (S.Surface.view surface.old) (S.Surface.view surface.new) }
{
    clear(surface);
    for (number, placed) in (0..256).zip(scene.shapes) {
        if let Some(placed) = placed {
            let ink = scene.ruling_ink(number, placed.ink);
            lay_shape(surface, scene.font, placed.shape, ink);
        }
    }
    surface.settle();
}
