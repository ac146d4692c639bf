// What a week's plan comes to: how many channels it uses, how many any plan of its orders needs at least, how many
// orders stand, and how many cells they hold.
#[derive(Clone, Copy, Debug, PartialEq, Eq)]
pub struct Report {
    pub used: u32,
    pub floor: u32,
    pub orders: u32,
    pub channel_hours: u32,
}
