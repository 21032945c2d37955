ghost use Rattle.ppm_tests.specs.Card.{pictured, pictured_lawful};

use super::Card;
use raster::refusal::Refusal;
use surface::surface::Surface;

impl Surface for Card {
    ghost view = { pictured };

    ghost lawful = { pictured_lawful };

    fn size(&self) -> (u16, u16) {
        (3, 2)
    }

    fn read(&self, x: u16, y: u16) -> Result<u8, Refusal> {
        if !self.has(x, y) {
            return Err(Refusal::Surface);
        }
        Ok(self.inks[3 * y as usize + x as usize])
    }

    fn run(&mut self, x: u16, y: u16, n: u16, ink: u16) -> Result<(), Refusal> {
        if !self.accepts(x, y, n, ink) {
            return Err(Refusal::Surface);
        }
        let first = 3 * y as usize + x as usize;
        self.inks[first..first + n as usize].fill(ink as u8);
        Ok(())
    }

    fn settle(&mut self) {}
}
