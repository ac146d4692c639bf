ghost use Rattle.std.specs.Prelude.{◌≡◌};
ghost use Rattle.ways.specs.Hours.{hours_fit};

// An order: a circuit of some width between two places, in some hours of every week.
#[derive(Clone, Copy, Debug, PartialEq, Eq)]
pub struct Order {
    pub number: u16,
    pub from: u8,
    pub to: u8,
    pub width: u8,
    pub first: u8,
    pub hours: u8,
}

impl Order {
    // Whether the order's hours are hours of the week.
    pub fn hours_fit(self) -> bool
        ensures { result ≡ hours_fit self }
    {
        self.first < 168 && (1..=168).contains(&self.hours)
    }
}
