use crate::free_channels::FreeChannels;
use network::search::Scratch;

// Memory for a search, reserved once: the rows of the path search, and for each link and channel whether it is free.
// What it holds before a search does not matter.
#[derive(Drop)]
pub struct Space<C> {
    pub(crate) rows: Scratch<C>,
    pub(crate) free: FreeChannels,
}
