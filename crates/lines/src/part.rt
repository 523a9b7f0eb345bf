// Parts of a text.
ghost use Rattle.std.specs.Prelude.{◌≡◌};
ghost use Rattle.lines.specs.Readings.{part_of};

// A part of a text, by the offsets where it starts and stops; unlike a `Range` it is `Copy`.
#[derive(Clone, Copy)]
pub struct Part {
    pub start: usize,
    pub stop: usize,
}

impl Part {
    // The bytes of the part, as far as the text reaches.
    #[tactic(auto, using(crate::proofs::PartLaws::part_within))]
    pub fn of(self, text: &[u8]) -> &[u8]
        ensures { result.now ≡ part_of text.now self }
    {
        let stop = self.stop.min(text.len());
        let start = self.start.min(stop);
        &text[start..stop]
    }
}
