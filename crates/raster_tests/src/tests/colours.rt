use raster::ink::colour::Colour;
use raster::tile::tile_number;

/// Inks with the red, green and blue of their colours.
const COLOURS: [(u8, [u8; 3]); 6] = [
    (0, [255, 255, 255]),
    (1, [255, 255, 85]),
    (4, [85, 255, 255]),
    (8, [170, 170, 170]),
    (9, [170, 170, 0]),
    (15, [0, 0, 0]),
];

#[test]
fn colours_of_inks(rt: HostRuntime) {
    for (ink, parts) in COLOURS {
        assert_eq!(rt; <[u8; 3]>::from(Colour::from(ink)), parts);
    }
}

/// Widths and pixels with the number of the pixel's tile.
const TILES: [(u16, u16, u16, u32); 6] = [
    (16, 15, 15, 0),
    (16, 0, 16, 1),
    (17, 16, 0, 1),
    (17, 0, 16, 2),
    (256, 255, 255, 255),
    (1, 0, 255, 15),
];

#[test]
fn tiles_of_pixels(rt: HostRuntime) {
    for (width, x, y, tile) in TILES {
        assert_eq!(rt; tile_number(width, x, y), tile);
    }
}
