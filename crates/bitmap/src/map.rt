ghost use Rattle.hour_bits.specs.Tables.{Kept};

use calendar::refusal::Refused;

pub mod as_plant;
mod calls;

// A plant as bits, over words that were handed in: for each link and channel three words with the held hours, then
// three with the hours in which a run starts. Words past those needed are never touched.
#[derive(Drop)]
pub struct Map {
    words: Vec<u64>,
    links: u8,
    channels: u8,
    ghost kept: { ∥ Kept words.items links channels ∥₁ },
}

// Why no map was made, with the words that were handed in.
pub type RefusedWords = Refused<u64>;
