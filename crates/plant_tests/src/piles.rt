use crate::list_plant::ListPlant;
use calendar::run::Window;
use layers::card_order::CardOrder;
use layers::card_table::CardTable;
use layers::clock::Clock;
use layers::offset::Offset;
use layers::window_table::WindowTable;
use layers::windows::Windows;
use plant::Plant;
use std::alloc::Global;
use std::test::Fail;

// The channel of the plant below that each of the sixteen shows.
const CARDS: [u8; 16] = [3, 9, 1, 16, 4, 2, 8, 7, 6, 5, 10, 11, 12, 13, 14, 15];

pub fn plain(heap: Global, links: u8, channels: u8, limit: u32) -> ListPlant {
    ListPlant {
        links,
        channels,
        limit,
        windows: Vec::new(heap),
        lacking: Vec::new(heap),
        runs: Vec::new(heap),
    }
}

// The windows of the plant below.
const WINDOWS: [Window; 3] = [
    Window {
        link: 1,
        first: 160,
        hours: 20,
    },
    Window {
        link: 2,
        first: 5,
        hours: 1,
    },
    Window {
        link: 40,
        first: 0,
        hours: 168,
    },
];

fn some_windows() -> Result<WindowTable, Fail> {
    let mut table = WindowTable::new();
    for window in WINDOWS.iter() {
        table.add(window.link as u32, window.first as u32, window.hours as u32)?;
    }
    Ok(table)
}

// The same windows, as one sees them whose hour is `offset` hours behind.
fn note_windows(plain: &mut ListPlant, offset: u8) -> Result<(), Fail> {
    for window in WINDOWS.iter() {
        let first = ((window.first as u16 + 336 - offset as u16) % 168) as u8;
        plain.windows.push(Window { first, ..*window })?;
    }
    Ok(())
}

// The channels of a card order that no channel below serves.
fn note_cards(plain: &mut ListPlant, channels: u8) -> Result<(), Fail> {
    for (channel, below) in (1..=16u8).zip(CARDS.iter()) {
        if *below > channels {
            plain.lacking.push(channel)?;
        }
    }
    Ok(())
}

pub fn windowed<P: Plant + Drop>(bottom: P) -> Result<Windows<P>, Fail> {
    Ok(Windows::new(bottom, some_windows()?))
}

pub fn clocked<P: Plant + Drop>(bottom: P, hours: u32) -> Result<Clock<P>, Fail> {
    Ok(Clock::new(bottom, Offset::new(hours)?))
}

pub fn carded<P: Plant + Drop>(bottom: P) -> Result<CardOrder<P>, Fail> {
    Ok(CardOrder::new(bottom, CardTable::new(CARDS)?))
}

pub fn plain_windowed(heap: Global, limit: u32, offset: u8) -> Result<ListPlant, Fail> {
    let mut plain = plain(heap, 3, 4, limit);
    note_windows(&mut plain, offset)?;
    Ok(plain)
}

pub fn plain_carded(heap: Global, limit: u32) -> Result<ListPlant, Fail> {
    let mut plain = plain(heap, 3, 16, limit);
    note_cards(&mut plain, 4)?;
    Ok(plain)
}

// As seen through a clock over windows over a card order.
pub fn plain_tall(heap: Global, limit: u32, offset: u8) -> Result<ListPlant, Fail> {
    let mut plain = plain_carded(heap, limit)?;
    note_windows(&mut plain, offset)?;
    Ok(plain)
}
