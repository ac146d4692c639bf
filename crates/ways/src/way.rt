use network::path::Path;
use std::fmt;

// A way: a first channel and a path.
#[derive(Clone, Copy, Debug, PartialEq)]
pub struct Way {
    pub channel: u8,
    pub path: Path,
}

impl fmt::Display for Way {
    fn fmt<W: fmt::Write>(&self, f: &mut fmt::Formatter<W>) -> fmt::Result {
        write!(f, "channel {}, links {}", self.channel, self.path)
    }
}
