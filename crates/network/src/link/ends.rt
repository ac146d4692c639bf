ghost use Rattle.std.specs.Prelude.{◌≡◌};
ghost use Rattle.network.specs.Paths.{far_end};

use super::Link;

impl Link {
    // The other end, where v is one end.
    pub fn far_end(&self, v: u8) -> Option<u8>
        ensures { result ≡ far_end self.now v }
    {
        if self.one == v {
            Some(self.two)
        } else if self.two == v {
            Some(self.one)
        } else {
            None
        }
    }
}
