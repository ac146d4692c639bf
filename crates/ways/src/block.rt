ghost use Rattle.std.specs.Prelude.{◌≡◌};
ghost use Rattle.ways.specs.Hours.{block_fits};

// Whether the block of so many channels from channel a up lies within the channels.
pub(crate) fn block_fits(channels: u8, a: u8, width: u8) -> bool
    ensures { result ≡ block_fits channels a width }
{
    1 <= a && u16::from(a) + u16::from(width) <= u16::from(channels) + 1
}
