//! What was compiled.

ghost use Rattle.std.specs.Prelude.{◌≡◌};

use bound_count::Numbers;
use rom_anchor::Image;
use rv_machine::Rom;
use state_layout::Map;
use std::marker::Model;

/// An image for a ROM and a RAM of so many bytes, with its map and its bounds. Contracts see it as a `Compiled`.
#[derive(Drop)]
pub struct Built<const ROM: u32, const RAM: u32> {
    image: Image<ROM>,
    map: Map,
    needs: Numbers,
}

impl<const ROM: u32, const RAM: u32> Model for Built<ROM, RAM> {
    ghost use Rattle.round_spec.specs.Round.{Compiled};

    ghost Value = { Compiled };

    ghost view = { λ b. record { rom = b.image.rom; written = b.image.written; map = b.map; needs = b.needs } };
}

impl<const ROM: u32, const RAM: u32> Built<ROM, RAM> {
    /// The image of these parts, which `Stabilizes` has to be proved of.
    pub fn of(image: Image<ROM>, map: Map, needs: Numbers) -> Self
        ensures { result ≡ record { rom = image.entry.rom; written = image.entry.written; map = map; needs = needs } }
    {
        Built { image, map, needs }
    }

    /// The words of ROM, and those of them that were written.
    pub fn image(&self) -> &Image<ROM>
        ensures rom { result.now.rom ≡ self.now.rom }
        ensures written { result.now.written ≡ self.now.written }
    {
        &self.image
    }

    /// The words of ROM: those that were written, and behind them the padding.
    pub fn rom(&self) -> &Rom<ROM>
        ensures { result.now ≡ self.now.rom }
    {
        &self.image.rom
    }

    /// The written words, from address 0 on, without the padding.
    pub fn written(&self) -> &[u32]
        ensures { result.now ≡ self.now.written }
    {
        self.image.written.list()
    }

    /// Where RAM holds the state.
    pub fn map(&self) -> &Map
        ensures { result.now ≡ self.now.map }
    {
        &self.map
    }

    /// The bounds.
    pub fn needs(&self) -> Numbers
        ensures { result ≡ self.now.needs }
    {
        self.needs
    }
}
