use raster::glyph::glyph_code;

/// The characters that have a glyph, in the order of their codes.
const CHARACTERS: [char; 16] = [
    '0', '1', '2', '3', '4', '5', '6', '7', '8', '9', '-', '.', 'E', 'P', 'L', 'U',
];

#[test]
fn codes(rt: HostRuntime) {
    for (code, character) in (0..16).zip(CHARACTERS) {
        assert_eq!(rt; glyph_code(character), Some(code));
    }
}

#[test]
fn other_characters(rt: HostRuntime) {
    for c in ['/', ':', 'e', 'A', ' ', ',', 'é', '٣'] {
        assert_eq!(rt; glyph_code(c), None);
    }
}
