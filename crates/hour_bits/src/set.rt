ghost use Rattle.std.specs.Prelude.{◌^◌, ◌<◌, slice_index};

mod calls;

// A set of hours of the week: bit h % 64 of word h / 64 stands for hour h.
#[derive(Clone, Copy, Debug, PartialEq, Eq)]
pub struct HourSet {
    pub(crate) words: [u64; 3],
    ghost week: { slice_index words 2 < 2 ^ 40 },
}
