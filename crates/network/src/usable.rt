ghost use Rattle.std.specs.Prelude.{◌≡◌, ℕ, false, ◌&&◌, if◌then◌else◌, ◌==◌};
ghost use Rattle.network.specs.Flags.{is_number, may_use};

// Which links may be used: a flag for each link number from 1 to 40.
#[derive(Clone, Copy)]
pub struct Usable {
    open: [bool; 41],
}

// Every link flagged alike.
fn alike(flag: bool) -> Usable
    ensures { (i : ℕ) → may_use result i ≡ (if flag then is_number i else false) }
{
    Usable { open: [flag; 41] }
}

impl Usable {
    pub fn none() -> Usable
        ensures { (i : ℕ) → may_use result i ≡ false }
    {
        alike(false)
    }

    pub fn all() -> Usable
        ensures { (i : ℕ) → may_use result i ≡ is_number i }
    {
        alike(true)
    }

    pub fn is_usable(&self, number: u8) -> bool
        ensures { result ≡ may_use self.now number }
    {
        (1..=40).contains(&number) && self.open[number as usize]
    }

    pub fn set(&mut self, number: u8, usable: bool)
        ensures { (i : ℕ) → may_use self.new i ≡ (if is_number number && i == number then usable else may_use self.old i) }
    {
        if (1..=40).contains(&number) {
            self.open[number as usize] = usable;
        }
    }
}
