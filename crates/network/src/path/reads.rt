ghost use Rattle.std.specs.Prelude.{◌≡◌, ◌≤◌, length};
ghost use Rattle.network.specs.Padded.{eight_places};

use super::Path;
use std::fmt;

impl Path {
    pub fn links(&self) -> &[u8]
        ensures { result.now ≡ self.now }
    {
        &self.links[..self.count as usize]
    }

    pub fn count(&self) -> u8
        ensures value { result ≡ length self.now }
        ensures few { result ≤ 8 }
    {
        self.count
    }

    // Eight places: the numbers, and zeros after the last.
    pub fn numbers(&self) -> [u8; 8]
        ensures { result ≡ eight_places self.now }
    {
        self.links
    }
}

// The numbers, with one blank between.
impl fmt::Display for Path {
    fn fmt<W: fmt::Write>(&self, f: &mut fmt::Formatter<W>) -> fmt::Result {
        for (i, number) in self.links().iter().enumerate() {
            if i > 0 {
                f.write_str(" ")?;
            }
            write!(f, "{number}")?;
        }
        Ok(())
    }
}
