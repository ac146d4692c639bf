#![tactic(auto)]

ghost use Rattle.std.specs.Prelude.{◌≡◌, IfOk, List, slice_index_or};
ghost use Rattle.bitmap.specs.Means.{map_means};
ghost use Rattle.calendar.specs.Layers.{windowed, nowhere};
ghost use Rattle.calendar.specs.Making.{open_plant};
ghost use Rattle.calendar.specs.declared.run.Window.{Window};
ghost use Rattle.layers.specs.Means.{windows_means};

use anyhow::anyhow;
use bitmap::map::Map;
use layers::window_table::WindowTable;
use layers::windows::Windows;
use network::link::Link;
use network::network::Network;
use std::alloc::Global;

// The sample's links: two places, metres, hundredths of a decibel.
const LINKS: [(u32, u32, u32, u32); 4] = [
    (1, 2, 1000, 20),
    (2, 3, 1000, 20),
    (3, 4, 1000, 20),
    (1, 4, 5000, 90),
];

// Four places, with three links along a row and a long one back; a path has at most three links.
pub fn sample_network(heap: Global) -> anyhow::Result<Network>
    ensures { IfOk result (λ net. (net.places ≡ 4) × (net.hops ≡ 3)) }
{
    // Want of memory is told in the same words as the network's own refusal.
    let mut net = Network::new(heap, 4, 3).map_err(|_| anyhow!("the network is refused"))?;
    for (one, two, metres, loss) in LINKS {
        net.add(Link::new(one, two, metres, loss)?)?;
    }
    Ok(net)
}

// Two channels on each of four links, and link 2 shut from hour 20 for 4 hours.
pub fn sample_plant(heap: Global) -> anyhow::Result<Windows<Map>>
    ensures { IfOk result (λ plant. (windows : List Window) × (slice_index_or windows 0 nowhere ≡ record { link = 2; first = 20; hours = 4 }) × (windows_means map_means plant ≡ windowed windows 1 (open_plant 4 2 1344))) }
{
    let mut windows = WindowTable::new();
    windows.add(2, 20, 4)?;
    let words: Vec<u64> = vec![in heap; 0; 48]?;
    Ok(Windows::new(Map::new(words, 4, 2)?, windows))
}
